//! Maps of one first digit each, and a row that takes them in the order of their digits, so that tests can take any.

use hash_path::{FAN_OUT, PathKey};
use std::alloc::Global;
use std::marker::Model;
use std::sync::Arc;
use trie_node::{
    NoMemory, Node, Stamp, empty_root, root_is_map, union_of_maps, with_put,
    writes_keep_stamps_below,
};
use united_roots::RootRow;

/// No test has more pairs.
const MOST_PAIRS: u64 = 1 << 40;

/// A map whose keys' path words have one first digit.
#[derive(Drop)]
pub struct Part<K: PathKey, V> {
    root: Node<K, V>,
    digit: u32,
    newest: Stamp,
    most: u64,
}

impl<K: PathKey, V> Model for Part<K, V> {
    ghost use Rattle.std.specs.Prelude.{◌≤◌, length};
    ghost use Rattle.trie_shape.specs.Map.{Map};
    ghost use Rattle.trie_shape.specs.Roots.{IsRoot, map_of, word_of};
    ghost use Rattle.trie_shape.specs.Shape.{NoneAbove, nodes};
    ghost use Rattle.trie_shape.specs.View.{tree};
    ghost use Rattle.united_roots.specs.Rows.{EachHasDigit};

    ghost Value = { Map K V };

    ghost view = { λ p. map_of K.cmp (tree p.root) };

    ghost invariant = { λ p. IsRoot K.cmp K.path_of (tree p.root) × EachHasDigit K.cmp K.path_of p.digit (map_of K.cmp (tree p.root)) × (length (map_of K.cmp (tree p.root)) ≤ p.most) × NoneAbove p.newest.0 (nodes (word_of K.path_of) (tree p.root)) };
}

impl<K: PathKey + Drop, V: Drop> Part<K, V> {
    /// A map with no pairs.
    pub fn new(alloc: Global, digit: u32, newest: Stamp) -> Result<Part<K, V>, NoMemory> {
        Ok(Part {
            root: empty_root(alloc, newest)?,
            digit,
            newest,
            most: 0,
        })
    }

    /// Puts a pair whose key's path word has the first digit; another is refused.
    pub fn put(&mut self, alloc: Global, key: K, value: V) -> Result<(), NoMemory> {
        if key.path().digit(0) != self.digit || self.most >= MOST_PAIRS {
            return Err(NoMemory);
        }
        root_is_map::<K, V>();
        writes_keep_stamps_below();
        let key = Arc::new(alloc, key)?;
        let value = Arc::new(alloc, value)?;
        self.root = with_put(alloc, &self.root, key, value, self.newest)?;
        self.most += 1;
        Ok(())
    }
}

/// The row of parts of rising digits.
#[derive(Drop)]
pub struct Gathered<K: PathKey, V> {
    row: RootRow<K, V>,
    next: u32,
    most: u64,
}

impl<K: PathKey, V> Model for Gathered<K, V> {
    ghost use Rattle.std.specs.Prelude.{◌≡◌, ◌<◌, ◌≤◌, length, is_some, true};
    ghost use Rattle.hash_path.specs.Digits.{digit};
    ghost use Rattle.trie_shape.specs.Map.{Map, value_at};

    ghost Value = { Map K V };

    ghost view = { λ g. g.row.entries };

    ghost invariant = { λ g. ((k : K) → is_some (value_at K.cmp g.row.entries k) ≡ true → digit (K.path_of k) 0 < g.next) × (length g.row.entries ≤ g.most) };
}

impl<K: PathKey + Drop, V: Drop> Gathered<K, V> {
    /// No part.
    pub fn new(alloc: Global) -> Result<Gathered<K, V>, NoMemory> {
        Ok(Gathered {
            row: RootRow::new(alloc)?,
            next: 0,
            most: 0,
        })
    }

    /// Takes a part of a greater digit than those before; another is refused.
    pub fn add(&mut self, part: &Part<K, V>) -> Result<(), NoMemory> {
        if part.digit < self.next || part.digit >= FAN_OUT {
            return Err(NoMemory);
        }
        if self.most >= MOST_PAIRS || part.most >= MOST_PAIRS {
            return Err(NoMemory);
        }
        union_of_maps::<K, V>();
        self.row.len();
        self.row.take(&part.root, part.digit, part.newest)?;
        self.next = part.digit + 1;
        self.most += part.most;
        Ok(())
    }

    /// The root of all parts.
    pub fn into_root(self, alloc: Global) -> Result<Whole<K, V>, NoMemory> {
        Ok(Whole {
            root: self.row.into_root(alloc)?,
        })
    }
}

/// A root that is known to be one.
#[derive(Drop)]
pub struct Whole<K: PathKey, V> {
    root: Node<K, V>,
}

impl<K: PathKey, V> Model for Whole<K, V> {
    ghost use Rattle.trie_shape.specs.Map.{Map};
    ghost use Rattle.trie_shape.specs.Roots.{IsRoot, map_of};
    ghost use Rattle.trie_shape.specs.View.{tree};

    ghost Value = { Map K V };

    ghost view = { λ w. map_of K.cmp (tree w.root) };

    ghost invariant = { λ w. IsRoot K.cmp K.path_of (tree w.root) };
}

impl<K: PathKey + Drop, V: Drop> Whole<K, V> {
    /// The root itself.
    pub fn root(&self) -> &Node<K, V> {
        &self.root
    }

    /// The value of the key.
    pub fn find(&self, key: &K) -> Option<&Arc<V>> {
        trie_node::find(&self.root, key)
    }
}
