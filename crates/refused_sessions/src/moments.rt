//! The pairs of all stripes at one moment.
ghost use Rattle.std.specs.Prelude.{◌≡◌, [], IfOk};
ghost use Rattle.versions.specs.Map.{value_at};
ghost use Rattle.write_history.specs.Histories.{value_in};

use hash_path::PathKey;
use std::alloc::Global;
use std::sync::Wait;
use stripes::{Keeps, Stripes};
use trie_node::{NoMemory, Slots};
use united_roots::RootRow;
use versions::Version;
use write_history::{Front, Naming};

/// The map of all pairs: each key has the value that the history leaves it, as the front has seen it then.
pub fn moment<R: Wait, K, V, P, J, S>(
    rt: &R,
    alloc: Global,
    row: &Stripes<K, V, P, J, S>,
    room: RootRow<K, V, S>,
    front: &mut Front<K, V, J>,
) -> Result<Version<K, V, S>, NoMemory>
where
    K: PathKey + Drop,
    V: Drop,
    P: Keeps<K, V>,
    J: Naming,
    S: Slots<K, V>,
    S::Key: Drop,
    S::Value: Drop,
    requires { room.entries ≡ [] }
    ensures { IfOk result (λ map. (key : K) → value_at K.cmp map.entries key ≡ value_in K.cmp K.path_of front.new key) }
{
    row.moment(rt, alloc, room, front)
}
