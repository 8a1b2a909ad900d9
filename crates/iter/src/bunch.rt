//! Bunches of pairs, and how a subtrie's pairs are pushed into one.

ghost use Rattle.std.specs.Prelude.{◌≡◌, ◌+◌, ◌≤◌, ◌++◌, Some, length, map};
ghost use Rattle.arrayvec.specs.ArrayVec.{array_vec_len};
ghost use Rattle.trie_shape.specs.Tree.{entries};
ghost use Rattle.trie_shape.specs.View.{pair_values, tree};
ghost use Rattle.iter.specs.Bunches.{held, pairs_in};

use arrayvec::ArrayVec;
use trie_node::{Node, Pair, Slots};
use trie_shape::{Contents, open_node};

/// How many pairs a bunch has at most.
pub(crate) const MOST_OF_BUNCH: usize = 512;

/// Pairs where they lie in their nodes, in the order of a walk. A bunch has room of its own and asks for no memory; its
/// places hold options, since each place has to hold something from the start.
pub(crate) type Bunch<'a, K, V, S> = ArrayVec<Option<&'a Pair<K, V, S>>, MOST_OF_BUNCH>;

/// Appends the pairs of a node.
pub(crate) fn push_subtrie<'a, K, V, S: Slots<K, V>>(
    node: &'a Node<K, V, S>,
    bunch: &mut Bunch<'a, K, V, S>,
)
    requires room { array_vec_len bunch.old + length (entries (tree node.now)) ≤ MOST_OF_BUNCH }
    ensures { map held bunch.new.items ≡ map held bunch.old.items ++ map Some (entries (tree node.now)) }
{
    match open_node(node) {
        Contents::Pairs(pairs) => push_pairs(pairs, bunch),
        Contents::Branch(below) => push_children(below.children, bunch),
    }
}

/// Appends the pairs of a row of children. Each child is opened once, and a leaf takes no call of this.
fn push_children<'a, K, V, S: Slots<K, V>>(row: &'a [Node<K, V, S>], bunch: &mut Bunch<'a, K, V, S>)
    requires room { array_vec_len bunch.old + length (pairs_in row.now) ≤ MOST_OF_BUNCH }
    ensures { map held bunch.new.items ≡ map held bunch.old.items ++ map Some (pairs_in row.now) }
{
    for child in row {
        match open_node(child) {
            Contents::Pairs(pairs) => push_pairs(pairs, bunch),
            Contents::Branch(below) => push_children(below.children, bunch),
        }
    }
}

/// Appends pairs, and reads what lies behind each: a value's count stands beside the value. Nothing waits for that
/// read, so the values of many pairs are fetched from memory at the same time.
pub(crate) fn push_pairs<'a, K, V, S: Slots<K, V>>(
    pairs: &'a [Pair<K, V, S>],
    bunch: &mut Bunch<'a, K, V, S>,
)
    requires { array_vec_len bunch.old + length pairs.now ≤ MOST_OF_BUNCH }
    ensures { map held bunch.new.items ≡ map held bunch.old.items ++ map Some (map pair_values pairs.now) }
{
    for pair in pairs {
        pair.fetch_value();
        bunch.push(Some(pair));
    }
}
