//! Pages of a map's pairs. This file reads the nodes of the trie.

ghost use Rattle.std.specs.Prelude.{◌≡◌, ◌+◌, ◌≤◌, drop, length, map};
ghost use Rattle.c_map.specs.Fillings.{filled, filled_one};
ghost use Rattle.c_map.specs.Pages.{IsPage, listed, spelled, written};
ghost use Rattle.trie_shape.specs.Shape.{Fits};
ghost use Rattle.trie_shape.specs.Tree.{entries};
ghost use Rattle.trie_shape.specs.View.{pair_values, tree};

use crate::answer::Page;
use crate::map::Map;
use crate::shown::Shown;
use keys::ByteText;
use trie_fetch::{KeysAndValues, fetch_levels};
use trie_node::{
    Look, Node, Pair, Shared, bitmap_counts_children, branch_is_its_children, child,
    leaf_is_its_pairs, look, root_walks_in_order, size, trie_follows_digits, walk_lists_map,
};

/// The bytes of the two numbers with which a pair begins.
const HEAD: usize = 16;

/// How many pairs a subtrie has at most that are read ahead: about as many as a usual page.
const MOST_FETCHED: u64 = 128;

/// A page that is being filled.
#[derive(Clone, Copy)]
pub(crate) struct Filling {
    /// How many pairs come before the next one that is written.
    skip: u64,
    /// How many bytes are written.
    used: usize,
    /// How many pairs they are.
    pairs: u64,
    /// How many bytes the first pair takes for which there was no room, or 0.
    next: u64,
}

/// Writes as many whole pairs of the map, from one number on, as there is room for. Pairs are numbered from 0 in the order
/// of a walk. Whole subtries that come before are passed over.
pub(crate) fn page<V: Shown>(map: &Map<V>, from: u64, buffer: &mut [u8]) -> Page
    ensures { IsPage (spelled V.number V.bytes) (drop from (listed map.now)) buffer.old result buffer.new }
{
    let at = fill_map(map, from, buffer);
    Page {
        pairs: at.pairs,
        bytes: if at.pairs > 0 {
            at.used as u64
        } else {
            at.next
        },
    }
}

/// Writes the pairs of a map from one number on.
fn fill_map<V: Shown>(map: &Map<V>, from: u64, buffer: &mut [u8]) -> Filling
    ensures { (result, buffer.new) ≡ filled (spelled V.number V.bytes) (record { skip = from; used = 0; pairs = 0; next = 0 }, buffer.old) (listed map.now) }
{
    let at = Filling {
        skip: from,
        used: 0,
        pairs: 0,
        next: 0,
    };
    match map.root() {
        None => {
            walk_lists_map::<ByteText, V>();
            at
        }
        Some(root) => {
            root_walks_in_order::<ByteText, V>();
            trie_follows_digits::<ByteText, V>();
            fill(root, false, at, buffer)
        }
    }
}

/// Writes the pairs of a subtrie. Those of a small one are read ahead, if those of no larger one that it stands in were: so
/// they come from memory together.
fn fill<V: Shown>(
    node: &Node<ByteText, V>,
    is_fetched: bool,
    at: Filling,
    buffer: &mut [u8],
) -> Filling
    requires fits { Fits (tree node.now) }
    requires few { at.pairs ≤ at.used }
    ensures filled { (result, buffer.new) ≡ filled (spelled V.number V.bytes) (at, buffer.old) (entries (tree node.now)) }
    ensures few { result.pairs ≤ result.used }
{
    if at.next > 0 {
        return at;
    }
    let size = size(node);
    if size <= at.skip {
        return Filling {
            skip: at.skip - size,
            ..at
        };
    }
    match look(node) {
        Look::Pairs(pairs) => {
            leaf_is_its_pairs::<ByteText, V>();
            fill_pairs(pairs, at, buffer)
        }
        Look::Branch(bitmap) => {
            bitmap_counts_children::<ByteText, V>();
            branch_is_its_children::<ByteText, V>();
            let is_small = size <= MOST_FETCHED;
            if is_small && !is_fetched {
                fetch_levels::<KeysAndValues, ByteText, V, Shared>(node);
            }
            let mut at = at;
            for n in 0..bitmap.count_ones() {
                at = fill(child(node, n), is_small, at, buffer);
            }
            at
        }
    }
}

/// Writes the pairs of a leaf or bucket.
fn fill_pairs<V: Shown>(pairs: &[Pair<ByteText, V>], at: Filling, buffer: &mut [u8]) -> Filling
    requires few { at.pairs ≤ at.used }
    ensures filled { (result, buffer.new) ≡ filled (spelled V.number V.bytes) (at, buffer.old) (map pair_values pairs.now) }
    ensures few { result.pairs ≤ result.used }
{
    let mut at = at;
    for pair in pairs {
        at = fill_one(pair.key().as_bytes(), pair.value(), at, buffer);
    }
    at
}

/// Writes one pair, or passes over it.
fn fill_one<V: Shown>(key: &[u8], value: &V, at: Filling, buffer: &mut [u8]) -> Filling
    requires few { at.pairs ≤ at.used }
    ensures filled { (result, buffer.new) ≡ filled_one (spelled V.number V.bytes) (at, buffer.old) (key.now, value.now) }
    ensures few { result.pairs ≤ result.used }
{
    if at.next > 0 {
        return at;
    }
    if at.skip > 0 {
        return Filling {
            skip: at.skip - 1,
            ..at
        };
    }
    let bytes = value.bytes();
    let size = (HEAD + key.len()).saturating_add(bytes.len());
    if size > buffer.len().saturating_sub(at.used) {
        return Filling {
            next: size as u64,
            ..at
        };
    }
    write_at(buffer, at.used, &(key.len() as u64).to_le_bytes());
    write_at(buffer, at.used + 8, &value.number().to_le_bytes());
    write_at(buffer, at.used + HEAD, key);
    write_at(buffer, at.used + HEAD + key.len(), bytes);
    Filling {
        used: at.used + size,
        pairs: at.pairs + 1,
        ..at
    }
}

/// Writes bytes over those of the buffer from a place on.
fn write_at(buffer: &mut [u8], at: usize, bytes: &[u8])
    requires { at + length bytes.now ≤ length buffer.old }
    ensures { buffer.new ≡ written buffer.old at bytes.now }
{
    buffer[at..at + bytes.len()].copy_from_slice(bytes);
}
