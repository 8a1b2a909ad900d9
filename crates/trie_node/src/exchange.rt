//! Roots in which a key's value is exchanged where it stands.

ghost use Rattle.std.specs.Prelude.{◌≡◌};
ghost use Rattle.trie_shape.specs.Roots.{IsRoot};
ghost use Rattle.trie_shape.specs.View.{tree};
ghost use Rattle.trie_node.specs.Exchanged.{IsExchange};

use hash_path::{Path, PathKey, Sought};
use slots::Slots;
use trie_puts::{Exchange, exchange_at};
use trie_shape::{Condition, Node, Stamp};

/// Puts the value at the key, where the key is there, the condition holds of its value, and nobody else holds a node of
/// its way. Where not, the value comes back, and nothing is changed. It requests no memory: the key is sought by
/// reference, and the key that is there stays.
pub fn exchange_in_where_along<K: PathKey, V, S: Slots<K, V>, Q: Sought<K>, C: Condition<V>>(
    node: &mut Node<K, V, S>,
    key: Q,
    path: Path,
    value: S::Value,
    stamp: Stamp,
    condition: &C,
) -> Exchange<V, S>
    requires root { IsRoot K.cmp K.path_of (tree node.old) }
    requires path { path.0 ≡ K.path_of (Q.key_of key) }
    ensures { IsExchange S.value_of K.cmp K.path_of stamp.0 (Q.key_of key) value (C.holds condition.now) (tree node.old) result (tree node.new) }
{
    exchange_at(node, key, path, value, stamp, 0, condition)
}
