//! A pair removed below a node by copies.

ghost use Rattle.std.specs.Prelude.{◌≡◌, is_some, IfOk, OnErr, true};
ghost use Rattle.std.specs.FinMap.{find as first_of};
ghost use Rattle.trie_shape.specs.Tree.{IsTrie, entries};
ghost use Rattle.trie_shape.specs.View.{tree};
ghost use Rattle.trie_removals.specs.RemovalInPlace.{TakesOut};

use crate::removal_in_place::RemovedIn;
use hash_path::{Path, PathKey, Sought};
use slots::Slots;
use std::alloc::Global;
use std::mem;
use trie_contraction::remove_at;
use trie_copy::Removal;
use trie_shape::{Condition, NoMemory, Node, Stamp};

/// A removal by copies of the nodes of the key's way.
pub(crate) fn remove_copied<K: PathKey, V, S: Slots<K, V>, Q: Sought<K>, C: Condition<V>>(
    alloc: Global,
    node: &mut Node<K, V, S>,
    key: Q,
    path: Path,
    stamp: Stamp,
    level: u32,
    condition: &C,
) -> Result<RemovedIn<V, S>, NoMemory>
where
    S::Key: Drop,
    S::Value: Drop,
    requires path { path.0 ≡ K.path_of (Q.key_of key) }
    requires trie { IsTrie K.cmp K.path_of level (tree node.old) }
    ensures ok { IfOk result (λ r. TakesOut S.value_of K.cmp K.path_of level stamp.0 (Q.key_of key) (C.holds condition.now) (tree node.old) r (tree node.new)) }
    ensures due { OnErr result (is_some (first_of K.cmp (Q.key_of key) (entries (tree node.old))) ≡ true) }
    ensures err { OnErr result (tree node.new ≡ tree node.old) }
{
    match remove_at(alloc, node, key, path, stamp, level, condition)? {
        Removal::Nothing(None) => Ok(RemovedIn::Nothing(None)),
        Removal::Nothing(Some(pair)) => {
            let value = S::another_value(pair.value_slot())?;
            Ok(RemovedIn::Nothing(Some(value)))
        }
        Removal::Gone(pair) => Ok(RemovedIn::Gone(S::another_value(pair.value_slot())?)),
        Removal::Left(rest, pair) => match S::another_value(pair.value_slot()) {
            Ok(value) => {
                drop(mem::replace(node, rest));
                Ok(RemovedIn::Left(value))
            }
            Err(_) => {
                drop(rest);
                Err(NoMemory)
            }
        },
    }
}
