//! A root that is known to be one, so that tests can write it again and again.

use crate::outlines::{Outline, outline_of};
use hash_path::PathKey;
use std::alloc::{AllocError, Global};
use std::marker::Model;
use test_keys::ChosenKey;
use trie_node::{
    Condition, Exchange, NoMemory, Node, Shared, Slots, Stamp, Written, root_is_map, union_of_maps,
};

/// No test holds more pairs.
const MOST_PAIRS: u64 = 1 << 40;

/// A root, with a bound on the number of its pairs. Contracts see its map.
#[derive(Drop)]
pub struct TestRoot<K: PathKey, V, S: Slots<K, V> = Shared> {
    root: Node<K, V, S>,
    most: u64,
}

impl<K: PathKey, V, S: Slots<K, V>> Model for TestRoot<K, V, S> {
    ghost use Rattle.std.specs.Prelude.{◌≤◌, length};
    ghost use Rattle.trie_shape.specs.Map.{Map};
    ghost use Rattle.trie_shape.specs.View.{tree};
    ghost use Rattle.trie_shape.specs.Roots.{IsRoot, map_of};

    ghost Value = { Map K V };

    ghost view = { λ a. map_of K.cmp (tree a.root) };

    ghost invariant = { λ a. (IsRoot K.cmp K.path_of (tree a.root)) × (length (map_of K.cmp (tree a.root)) ≤ a.most) };
}

impl<K: PathKey, V, S: Slots<K, V>> TestRoot<K, V, S>
where
    S::Key: Drop,
    S::Value: Drop,
{
    /// An empty root.
    pub fn new(alloc: Global, stamp: Stamp) -> Result<TestRoot<K, V, S>, NoMemory> {
        Ok(TestRoot {
            root: trie_node::empty_root(alloc, stamp)?,
            most: 0,
        })
    }

    /// Another handle on the same root.
    pub fn try_clone(&self) -> Result<TestRoot<K, V, S>, NoMemory> {
        Ok(TestRoot {
            root: self.root.try_clone()?,
            most: self.most,
        })
    }

    /// The root itself.
    pub fn root(&self) -> &Node<K, V, S> {
        &self.root
    }

    /// The value of the key.
    pub fn find(&self, key: &K) -> Option<&S::Value> {
        trie_node::find(&self.root, key)
    }

    /// The root with the value put at the key.
    pub fn with_put(
        &self,
        alloc: Global,
        key: S::Key,
        value: S::Value,
        stamp: Stamp,
    ) -> Result<TestRoot<K, V, S>, NoMemory> {
        if self.most >= MOST_PAIRS {
            return Err(NoMemory);
        }
        root_is_map::<K, V>();
        Ok(TestRoot {
            root: trie_node::with_put(alloc, &self.root, key, value, stamp)?,
            most: self.most + 1,
        })
    }

    /// The root without the key.
    pub fn with_removed(
        &self,
        alloc: Global,
        key: &K,
        stamp: Stamp,
    ) -> Result<TestRoot<K, V, S>, NoMemory> {
        root_is_map::<K, V>();
        Ok(TestRoot {
            root: trie_node::with_removed(alloc, &self.root, key, stamp)?,
            most: self.most,
        })
    }

    /// Puts the value at the key where the root stands.
    pub fn put_in(
        &mut self,
        alloc: Global,
        key: S::Key,
        value: S::Value,
        stamp: Stamp,
    ) -> Result<(), NoMemory> {
        if self.most >= MOST_PAIRS {
            return Err(NoMemory);
        }
        root_is_map::<K, V>();
        trie_node::put_in(alloc, &mut self.root, key, value, stamp)?;
        self.most += 1;
        Ok(())
    }

    /// Removes the key where the root stands.
    pub fn remove_in(&mut self, alloc: Global, key: &K, stamp: Stamp) -> Result<(), NoMemory> {
        root_is_map::<K, V>();
        trie_node::remove_in(alloc, &mut self.root, key, stamp)?;
        Ok(())
    }

    /// Puts the value at the key that is there, where the root stands, or hands it back.
    pub fn exchange<C: Condition<V>>(
        &mut self,
        key: &K,
        value: S::Value,
        stamp: Stamp,
        condition: &C,
    ) -> Exchange<V, S> {
        if self.most >= MOST_PAIRS {
            return Exchange::Elsewhere(value);
        }
        root_is_map::<K, V>();
        let path = key.path();
        let root = &mut self.root;
        let exchange = trie_node::exchange_in_where_along(root, key, path, value, stamp, condition);
        self.most += 1;
        exchange
    }

    /// The root of both maps together, where the value of this one wins.
    pub fn merged(
        &self,
        alloc: Global,
        other: &TestRoot<K, V, S>,
        stamp: Stamp,
    ) -> Result<TestRoot<K, V, S>, NoMemory> {
        if self.most >= MOST_PAIRS || other.most >= MOST_PAIRS {
            return Err(NoMemory);
        }
        union_of_maps::<K, V>();
        root_is_map::<K, V>();
        Ok(TestRoot {
            root: trie_node::merged(alloc, &self.root, &other.root, stamp)?,
            most: self.most + other.most,
        })
    }

    /// What a put under the condition returns.
    pub fn put_where<C: Condition<V>>(
        &self,
        alloc: Global,
        key: S::Key,
        value: S::Value,
        stamp: Stamp,
        condition: &C,
    ) -> Result<Written<'_, K, V, S>, NoMemory> {
        if self.most >= MOST_PAIRS {
            return Err(NoMemory);
        }
        trie_node::put_where(alloc, &self.root, key, value, stamp, condition)
    }

    /// What a removal under the condition returns.
    pub fn removed_where<C: Condition<V>>(
        &self,
        alloc: Global,
        key: &K,
        stamp: Stamp,
        condition: &C,
    ) -> Result<Written<'_, K, V, S>, NoMemory> {
        trie_node::removed_where(alloc, &self.root, key, stamp, condition)
    }
}

impl<V: Copy + Drop> TestRoot<ChosenKey, V> {
    /// The nodes and pairs of the root.
    pub fn outline(&self, alloc: Global) -> Result<Outline<V>, AllocError> {
        outline_of(alloc, &self.root)
    }
}
