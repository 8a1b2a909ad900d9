//! What stands where in a trie: read from its nodes, and made from pairs by the rule of the shape.

ghost use Rattle.std.specs.Prelude.{◌≤◌, ◌+◌};
ghost use Rattle.hash_path.specs.Digits.{word_digits, last_level};
ghost use Rattle.trie_shape.specs.Shape.{Fits};
ghost use Rattle.trie_shape.specs.View.{tree};

use hash_path::{Path, PathKey, WORD_DIGITS};
use std::alloc::{AllocError, Global};
use test_keys::ChosenKey;
use trie_node::{Look, Node, Stamp, bitmap_counts_children, child, look, size, stamp};

/// A node by its depth below the root, its bitmap where it is a branch, and its number of pairs.
#[derive(Clone, Copy, Debug, PartialEq, Eq)]
pub struct Line {
    pub depth: u32,
    pub bitmap: Option<u32>,
    pub size: u64,
}

impl Line {
    /// A branch.
    pub const fn branch(depth: u32, bitmap: u32, size: u64) -> Line {
        Line {
            depth,
            bitmap: Some(bitmap),
            size,
        }
    }

    /// A leaf or bucket.
    pub const fn pairs(depth: u32, size: u64) -> Line {
        Line {
            depth,
            bitmap: None,
            size,
        }
    }
}

/// The nodes of a trie, their stamps and their pairs, in the order of a walk.
#[derive(Debug, Drop, PartialEq)]
pub struct Outline<V> {
    pub lines: Vec<Line>,
    pub stamps: Vec<Stamp>,
    pub pairs: Vec<(ChosenKey, V)>,
}

impl<V> Outline<V> {
    fn new(alloc: Global) -> Outline<V> {
        Outline {
            lines: Vec::new(alloc),
            stamps: Vec::new(alloc),
            pairs: Vec::new(alloc),
        }
    }
}

/// The nodes and pairs of a root.
pub fn outline_of<V: Copy + Drop>(
    alloc: Global,
    root: &Node<ChosenKey, V>,
) -> Result<Outline<V>, AllocError>
    requires { Fits (tree root.now) }
{
    let mut seen = Outline::new(alloc);
    walk(root, 0, &mut seen)?;
    Ok(seen)
}

/// Adds what stands below a node. No trie has a node at a depth above the number of digits.
fn walk<V: Copy + Drop>(
    node: &Node<ChosenKey, V>,
    depth: u32,
    seen: &mut Outline<V>,
) -> Result<(), AllocError>
    requires fits { Fits (tree node.now) }
    requires depth { depth ≤ word_digits + 1 }
{
    if depth > WORD_DIGITS {
        return Ok(());
    }
    bitmap_counts_children::<ChosenKey, V>();
    seen.stamps.push(stamp(node))?;
    let size = size(node);
    match look(node) {
        Look::Pairs(pairs) => {
            seen.lines.push(Line::pairs(depth, size))?;
            for pair in pairs {
                seen.pairs.push((*pair.key(), *pair.value()))?;
            }
        }
        Look::Branch(bitmap) => {
            seen.lines.push(Line::branch(depth, bitmap, size))?;
            for n in 0..bitmap.count_ones() {
                walk(child(node, n), depth + 1, seen)?;
            }
        }
    }
    Ok(())
}

/// The nodes of the trie of these pairs: a branch where words of two pairs begin with the same
/// digits, and at the root; else the pairs of one word, as high up as no other word comes.
pub fn lines_of(alloc: Global, pairs: &[(ChosenKey, u32)]) -> Result<Vec<Line>, AllocError> {
    let mut lines = Vec::new(alloc);
    add_lines(alloc, pairs, 0, &mut lines)?;
    Ok(lines)
}

/// Adds the nodes of pairs that share their digits above a depth.
fn add_lines(
    alloc: Global,
    pairs: &[(ChosenKey, u32)],
    depth: u32,
    lines: &mut Vec<Line>,
) -> Result<(), AllocError>
    requires { depth ≤ word_digits }
{
    let size = pairs.len() as u64;
    if depth == WORD_DIGITS || (depth > 0 && are_of_one_word(pairs)) {
        lines.push(Line::pairs(depth, size))?;
        return Ok(());
    }
    lines.push(Line::branch(depth, digits_at(pairs, depth), size))?;
    for digit in 0..32 {
        let below = pairs_below(alloc, pairs, depth, digit)?;
        if !below.is_empty() {
            add_lines(alloc, below.as_slice(), depth + 1, lines)?;
        }
    }
    Ok(())
}

/// Whether all pairs have one path word.
fn are_of_one_word(pairs: &[(ChosenKey, u32)]) -> bool {
    match pairs.first() {
        Some((first, _)) => pairs.iter().all(|(key, _)| key.path == first.path),
        None => true,
    }
}

/// The digits that the words of the pairs have at a depth, as bits.
fn digits_at(pairs: &[(ChosenKey, u32)], depth: u32) -> u32
    requires { depth ≤ last_level }
{
    let mut bits = 0;
    for (key, _) in pairs {
        bits |= 1 << Path(key.path).digit(depth);
    }
    bits
}

/// The pairs whose words have a digit at a depth.
fn pairs_below(
    alloc: Global,
    pairs: &[(ChosenKey, u32)],
    depth: u32,
    digit: u32,
) -> Result<Vec<(ChosenKey, u32)>, AllocError>
    requires { depth ≤ last_level }
{
    let mut below = Vec::new(alloc);
    for (key, value) in pairs {
        if Path(key.path).digit(depth) == digit {
            below.push((*key, *value))?;
        }
    }
    Ok(below)
}
