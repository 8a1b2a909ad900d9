//! A pair put below a node by copies.

ghost use Rattle.std.specs.Prelude.{◌≡◌, ◌<◌, ◌^◌, option_map, length, IfOk, OnErr, true};
ghost use Rattle.std.specs.FinMap.{find as first_of};
ghost use Rattle.trie_shape.specs.Tree.{IsTrie, entries};
ghost use Rattle.trie_shape.specs.View.{tree};
ghost use Rattle.trie_copy.specs.Writes.{KeysAgree};
ghost use Rattle.trie_puts.specs.PutInPlace.{PutsIn, is_refusable};

use crate::change::{Change, another};
use hash_path::PathKey;
use slots::Slots;
use std::alloc::Global;
use trie_copy::{NewPair, Written, put_at};
use trie_shape::{Condition, NoMemory, Node};

/// A put by copies of the nodes of the key's way.
pub(crate) fn put_copied<K: PathKey, V, S: Slots<K, V>, C: Condition<V>>(
    alloc: Global,
    node: &mut Node<K, V, S>,
    entry: NewPair<K, V, S>,
    level: u32,
    condition: &C,
) -> Result<Change<V, S>, NoMemory>
where
    S::Key: Drop,
    S::Value: Drop,
    requires trie { IsTrie K.cmp K.path_of level (tree node.old) }
    requires path { entry.path.0 ≡ K.path_of entry.pair.0 }
    requires agree { KeysAgree K.cmp K.path_of level entry.path.0 (entries (tree node.old)) }
    requires room { length (entries (tree node.old)) < 2 ^ 63 }
    ensures ok { IfOk result (λ d. PutsIn K.cmp K.path_of level entry.stamp.0 entry.pair.0 entry.pair.1 (C.holds condition.now) (tree node.old) (option_map S.value_of d.previous) d.written (tree node.new)) }
    ensures due { OnErr result (is_refusable (C.holds condition.now) (first_of K.cmp entry.pair.0 (entries (tree node.old))) ≡ true) }
    ensures err { OnErr result (tree node.new ≡ tree node.old) }
{
    let Written { root, previous } = put_at(alloc, node, entry, level, condition)?;
    let previous = another(previous)?;
    match root {
        Some(root) => {
            *node = root;
            Ok(Change {
                previous,
                written: true,
            })
        }
        None => Ok(Change {
            previous,
            written: false,
        }),
    }
}
