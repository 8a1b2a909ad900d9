//! The root that several maps have together.
ghost use Rattle.std.specs.Prelude.{◌≡◌, ◌+◌, ◌<◌, ◌^◌, IfOk, length};
ghost use Rattle.trie_shape.specs.Map.{union};
ghost use Rattle.trie_shape.specs.Roots.{IsRoot, map_of, word_of};
ghost use Rattle.trie_shape.specs.Shape.{NoneAbove, nodes};
ghost use Rattle.trie_shape.specs.View.{tree};
ghost use Rattle.united_roots.specs.Rows.{EachHasDigit, NoneHasDigit};

use hash_path::PathKey;
use trie_node::{NoMemory, Node, Stamp};
use united_roots::RootRow;

/// The row once it has the root's pairs too.
pub fn with_root<K: PathKey + Drop, V: Drop>(
    mut row: RootRow<K, V>,
    root: &Node<K, V>,
    digit: u32,
    newest: Stamp,
) -> Result<RootRow<K, V>, NoMemory>
    requires root { IsRoot K.cmp K.path_of (tree root.now) }
    requires each { EachHasDigit K.cmp K.path_of digit (map_of K.cmp (tree root.now)) }
    requires none { NoneHasDigit K.cmp K.path_of digit row.entries }
    requires newest { NoneAbove newest.0 (nodes (word_of K.path_of) (tree root.now)) }
    requires room { length row.entries + length (map_of K.cmp (tree root.now)) < 2 ^ 63 }
    ensures { IfOk result (λ more. more.entries ≡ union K.cmp (map_of K.cmp (tree root.now)) row.entries) }
{
    row.take(root, digit, newest)?;
    Ok(row)
}
