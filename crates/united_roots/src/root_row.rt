//! The children of a root that is put together.
ghost use Rattle.std.specs.Prelude.{◌≡◌, ◌+◌, ◌<◌, ◌^◌, [], IfOk, IfSome, OnErr, OnOk, length, max, option_map};
ghost use Rattle.hash_path.specs.Digits.{fan_out};
ghost use Rattle.trie_merging.specs.Merges.{child_at};
ghost use Rattle.trie_shape.specs.Map.{IsMap, union};
ghost use Rattle.trie_shape.specs.Roots.{IsRoot, map_of, word_of};
ghost use Rattle.trie_shape.specs.Shape.{NoneAbove, nodes};
ghost use Rattle.trie_shape.specs.View.{tree};
ghost use Rattle.united_roots.specs.Rows.{EachHasDigit, NoneHasDigit};

use hash_path::{FAN_OUT, PathKey};
use slots::{Shared, Slots};
use std::alloc::Global;
use std::marker::Model;
use trie_shape::{
    Look, NoMemory, Node, Stamp, child, has_digit, look, make_branch, place, root_is_map, size,
};

/// The children of a root of several maps, in the order of their digits. The keys' path words of each of these maps
/// have one first digit.
///
/// Contracts see the map of all pairs so far.
#[derive(Drop)]
pub struct RootRow<K: PathKey, V, S: Slots<K, V> = Shared> {
    children: Vec<Node<K, V, S>>,
    pairs: u64,
    bitmap: u32,
    newest: Stamp,
}

impl<K: PathKey, V, S: Slots<K, V>> Model for RootRow<K, V, S> {
    ghost use Rattle.std.specs.Prelude.{map};
    ghost use Rattle.trie_shape.specs.Roots.{IsRoot, map_of, word_of};
    ghost use Rattle.trie_shape.specs.Shape.{NoneAbove, nodes};
    ghost use Rattle.trie_shape.specs.Tree.{branch, trees};
    ghost use Rattle.trie_shape.specs.View.{tree};
    ghost use Rattle.united_roots.specs.Rows.{United};

    ghost Value = { United K V };

    ghost view = { λ r. record { entries = map_of K.cmp (branch r.newest.0 r.pairs r.bitmap (trees (map tree r.children.items))); newest = r.newest.0 } };

    ghost invariant = { λ r. IsRoot K.cmp K.path_of (branch r.newest.0 r.pairs r.bitmap (trees (map tree r.children.items))) × NoneAbove r.newest.0 (nodes (word_of K.path_of) (branch r.newest.0 r.pairs r.bitmap (trees (map tree r.children.items)))) };
}

/// The child of a root that has the digit, or none.
pub(crate) fn child_of<K: PathKey, V, S: Slots<K, V>>(
    root: &Node<K, V, S>,
    digit: u32,
) -> Option<&Node<K, V, S>>
    requires { IsRoot K.cmp K.path_of (tree root.now) }
    ensures child { option_map (λ n. tree n.now) result ≡ child_at (tree root.now) digit }
    ensures digit { IfSome result (λ _. digit < fan_out) }
{
    match look(root) {
        Look::Branch(bitmap) => {
            if digit < FAN_OUT && has_digit(bitmap, digit) {
                Some(child(root, place(bitmap, digit) as u32))
            } else {
                None
            }
        }
        Look::Pairs(_) => None,
    }
}

// The greater of two stamps.
fn newer(a: Stamp, b: Stamp) -> Stamp
    ensures { result.0 ≡ max a.0 b.0 }
{
    if a.0 < b.0 { b } else { a }
}

impl<K: PathKey, V, S: Slots<K, V>> RootRow<K, V, S>
where
    S::Key: Drop,
    S::Value: Drop,
{
    /// No children, and room for one of each digit.
    pub fn new(alloc: Global) -> Result<RootRow<K, V, S>, NoMemory>
        ensures entries { IfOk result (λ row. row.entries ≡ []) }
        ensures newest { IfOk result (λ row. row.newest ≡ Stamp.LOOSE.0) }
    {
        Ok(RootRow {
            children: Vec::with_capacity(alloc, FAN_OUT as usize)?,
            pairs: 0,
            bitmap: 0,
            newest: Stamp::LOOSE,
        })
    }

    /// Takes the child of a root, whose pairs all have this first digit, if it has one. No node of that root has a
    /// greater stamp than `newest`. The root is unchanged: its child is shared.
    ///
    /// It makes no request for memory, but the clone of a handle may be refused. The row is then as before.
    pub fn take(&mut self, root: &Node<K, V, S>, digit: u32, newest: Stamp) -> Result<(), NoMemory>
        requires root { IsRoot K.cmp K.path_of (tree root.now) }
        requires each { EachHasDigit K.cmp K.path_of digit (map_of K.cmp (tree root.now)) }
        requires none { NoneHasDigit K.cmp K.path_of digit self.old.entries }
        requires newest { NoneAbove newest.0 (nodes (word_of K.path_of) (tree root.now)) }
        requires room { length self.old.entries + length (map_of K.cmp (tree root.now)) < 2 ^ 63 }
        ensures entries { OnOk result (self.new.entries ≡ union K.cmp (map_of K.cmp (tree root.now)) self.old.entries) }
        ensures newest { OnOk result (self.new.newest ≡ max self.old.newest newest.0) }
        ensures err { OnErr result (self.new ≡ self.old) }
    {
        let newest = newer(self.newest, newest);
        let Some(found) = child_of(root, digit) else {
            self.newest = newest;
            return Ok(());
        };
        let child = found.try_clone()?;
        let more = size(&child);
        self.children.insert(place(self.bitmap, digit), child)?;
        self.pairs += more;
        self.bitmap |= 1 << digit;
        self.newest = newest;
        Ok(())
    }

    /// The root of all pairs. No node has a greater stamp than the row's newest, which the root itself has.
    pub fn into_root(self, alloc: Global) -> Result<Node<K, V, S>, NoMemory>
        ensures root { IfOk result (λ root. IsRoot K.cmp K.path_of (tree root)) }
        ensures entries { IfOk result (λ root. map_of K.cmp (tree root) ≡ self.entries) }
        ensures newest { IfOk result (λ root. NoneAbove self.newest (nodes (word_of K.path_of) (tree root))) }
    {
        let mut children = self.children;
        make_branch(
            alloc,
            self.newest,
            self.pairs,
            self.bitmap,
            children.as_mut_slice(),
        )
    }

    /// How many pairs there are.
    pub fn len(&self) -> u64
        ensures count { result ≡ length self.now.entries }
        ensures sorted { IsMap K.cmp self.now.entries }
    {
        root_is_map::<K, V>();
        self.pairs
    }

    /// The greatest stamp that a node may have.
    pub fn newest(&self) -> Stamp
        ensures { result.0 ≡ self.now.newest }
    {
        self.newest
    }
}
