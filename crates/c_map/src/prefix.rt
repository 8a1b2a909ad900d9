//! How many keys have a prefix.

ghost use Rattle.std.specs.Prelude.{◌≡◌, ◌==◌, ◌<◌, ◌^◌, length};
ghost use Rattle.std.specs.FinMap.Entries.{where_key};
ghost use Rattle.std.specs.List.{starts_with};
ghost use Rattle.keys.specs.Order.{bytes_cmp};

use crate::map::Map;
use crate::shown::Shown;
use iter::{BunchedPairs, bunches_of_root};
use keys::ByteText;
use std::alloc::Global;
use trie_node::{root_is_map, walk_lists_map};

/// How many keys begin with the prefix. It walks over all pairs.
pub(crate) fn count_prefix<V: Shown>(map: &Map<V>, alloc: Global, prefix: &[u8]) -> u64
    ensures { result ≡ length (where_key bytes_cmp (λ key. starts_with ◌==◌ key prefix.now) map.now.entries) }
{
    let _few = map.len();
    match map.root() {
        None => 0,
        Some(root) => {
            root_is_map::<ByteText, V>();
            walk_lists_map::<ByteText, V>();
            count_in(bunches_of_root(alloc, root), prefix)
        }
    }
}

/// How many keys of a walk do.
fn count_in<V: Shown>(walk: BunchedPairs<'_, ByteText, V>, prefix: &[u8]) -> u64
    requires { length walk < 2 ^ 64 }
    ensures { result ≡ length (where_key bytes_cmp (λ key. starts_with ◌==◌ key prefix.now) walk.entry) }
{
    let mut walk = walk;
    let mut count = 0;
    while let Some((key, _)) = walk.next() {
        if key.as_bytes().starts_with(prefix) {
            count += 1;
        }
    }
    count
}
