//! A finite map with a limit on its pairs.
ghost use Rattle.std.specs.Prelude.{◌≡◌, ◌↔◌, ◌≤◌, ◌<◌, ◌+◌, ◌^◌, ◌&&◌, ◌∷◌, length, [], is_some, if◌then◌else◌, None, option_map, IfOk, IsTrue, OnOk, OnErr};
ghost use Rattle.trie_shape.specs.Roots.{IsRoot, map_of, word_of};
ghost use Rattle.trie_shape.specs.Shape.{NoneAbove, Restamps, nodes, own_count};
ghost use Rattle.trie_shape.specs.View.{tree};
ghost use Rattle.versions.specs.Changes.{RestampsIf};
ghost use Rattle.versions.specs.Commands.{is_full_for};
ghost use Rattle.versions.specs.Map.{IsMap, value_at, with_pair, without};
ghost use Rattle.versions.specs.Puts.{FullExactly};

mod along;
mod exchanging;

use crate::refusal::Refusal;
use crate::root::Root;
use crate::view::View;
use generation::Source;
use hash_path::{PathKey, Sought};
use std::alloc::Global;
use std::marker::Model;
use trie_node::{
    Always, Change, Condition, NoMemory, Node, Shared, Slots, Stamp, root_has_few_nodes,
    root_is_map,
};

/// The most pairs that a map may be limited to.
pub const MOST_PAIRS: u64 = 16_777_216;

/// A finite map from `K` to `V` with a limit on its pairs, as a root of shared trie nodes. It has one owner, and takes
/// no lock.
///
/// <!-- quoted from crates/example_registry/src/maps.rt -->
/// ```rust
/// let mut source = Source::new();
/// let mut registry = Version::empty(alloc, 1_000, source.next())?;
/// registry.put(alloc, name(alloc, "billing")?, at(alloc, "10.0.0.4", 8080)?)?;
/// registry.put(alloc, name(alloc, "search")?, at(alloc, "10.0.0.5", 8080)?)?;
///
/// // A snapshot shares every node of the registry, and makes no request for memory.
/// let snapshot = registry.fork(&mut source)?;
/// ```
///
/// A write changes the nodes of one path, and copies those of them that forks and views share. n is the number of
/// pairs, and O(log n) the way down the trie: at most thirteen steps, and then a search by halves among the keys that
/// have the key's whole path word; a write moves or copies these one by one. A call that is refused leaves the map as
/// it was.
#[derive(Drop)]
pub struct Version<K: PathKey, V, S: Slots<K, V> = Shared> {
    root: Root<K, V, S, S::Key, S::Value>,
    limit: u64,
    stamp: Stamp,
}

impl<K: PathKey, V, S: Slots<K, V>> Model for Version<K, V, S> {
    ghost use Rattle.std.specs.Prelude.{◌≤◌, length};
    ghost use Rattle.trie_shape.specs.Roots.{IsRoot, map_of, word_of};
    ghost use Rattle.trie_shape.specs.Shape.{NoneAbove, nodes};
    ghost use Rattle.versions.specs.Contents.{Contents};
    ghost use Rattle.versions.specs.declared.version.TheConstants.{MOST_PAIRS};

    ghost Value = { Contents K V };

    ghost view = { λ a. record { entries = map_of K.cmp a.root; limit = a.limit; stamp = a.stamp.0; nodes = nodes (word_of K.path_of) a.root } };

    ghost invariant = { λ a. IsRoot K.cmp K.path_of a.root × (length (map_of K.cmp a.root) ≤ a.limit) × (1 ≤ a.limit) × (a.limit ≤ MOST_PAIRS) × NoneAbove a.stamp.0 (nodes (word_of K.path_of) a.root) };
}

impl<K: PathKey + Drop, V: Drop> Version<K, V> {
    /// A map with no pairs, which may hold up to `limit` of them. Its one node has the stamp.
    ///
    /// Cost: O(1), no lock. Refused: `NoMemory`, if memory runs out.
    pub fn empty(alloc: Global, limit: u64, stamp: Stamp) -> Result<Version<K, V>, NoMemory>
        requires least { 1 ≤ limit }
        requires most { limit ≤ MOST_PAIRS }
        ensures entries { IfOk result (λ version. version.entries ≡ []) }
        ensures limit { IfOk result (λ version. version.limit ≡ limit) }
        ensures stamp { IfOk result (λ version. version.stamp ≡ stamp.0) }
        ensures nodes { IfOk result (λ version. version.nodes ≡ ([], stamp.0) ∷ []) }
    {
        Ok(Version {
            root: Root::new(trie_node::empty_root(alloc, stamp)?),
            limit,
            stamp,
        })
    }
}

impl<K: PathKey, V, S: Slots<K, V>> Version<K, V, S>
where
    S::Key: Drop,
    S::Value: Drop,
{
    /// The map of a root, which may hold up to `limit` pairs. No node of the root has a greater stamp than `stamp`,
    /// which later writes put on nodes.
    ///
    /// Cost: O(1), no lock. Refused: never.
    pub fn from_root(root: Node<K, V, S>, limit: u64, stamp: Stamp) -> Version<K, V, S>
        requires root { IsRoot K.cmp K.path_of (tree root) }
        requires fits { length (map_of K.cmp (tree root)) ≤ limit }
        requires least { 1 ≤ limit }
        requires most { limit ≤ MOST_PAIRS }
        requires newest { NoneAbove stamp.0 (nodes (word_of K.path_of) (tree root)) }
        ensures entries { result.entries ≡ map_of K.cmp (tree root) }
        ensures limit { result.limit ≡ limit }
        ensures stamp { result.stamp ≡ stamp.0 }
        ensures nodes { result.nodes ≡ nodes (word_of K.path_of) (tree root) }
    {
        Version {
            root: Root::new(root),
            limit,
            stamp,
        }
    }

    /// The value of the key, or none.
    ///
    /// Cost: O(log n), no lock. Refused: never.
    pub fn get<Q: Sought<K>>(&self, key: Q) -> Option<&S::Value>
        ensures { option_map (λ value. S.value_of value.now) result ≡ value_at K.cmp self.now.entries (Q.key_of key) }
    {
        self.get_along(key, key.path_sought())
    }

    /// Whether the key has a value.
    ///
    /// Cost: O(log n), no lock. Refused: never.
    pub fn contains_key<Q: Sought<K>>(&self, key: Q) -> bool
        ensures { result ≡ is_some (value_at K.cmp self.now.entries (Q.key_of key)) }
    {
        self.get(key).is_some()
    }

    /// How many pairs there are.
    ///
    /// Cost: O(1), no lock. Refused: never.
    pub fn len(&self) -> u64
        ensures count { result ≡ length self.now.entries }
        ensures within { length self.now.entries ≤ self.now.limit }
        ensures sorted { IsMap K.cmp self.now.entries }
    {
        root_is_map::<K, V>();
        trie_node::size(self.root.node())
    }

    /// Whether there is no pair.
    ///
    /// Cost: O(1), no lock. Refused: never.
    pub fn is_empty(&self) -> bool
        ensures { IsTrue result ↔ (self.now.entries ≡ []) }
    {
        self.len() == 0
    }

    /// How many pairs there may be.
    ///
    /// Cost: O(1), no lock. Refused: never.
    pub fn limit(&self) -> u64
        ensures limit { result ≡ self.now.limit }
        ensures least { 1 ≤ result }
        ensures most { result ≤ MOST_PAIRS }
    {
        self.limit
    }

    /// The stamp that this version's writes put on nodes. No node has a greater one.
    ///
    /// Cost: O(1), no lock. Refused: never.
    pub fn stamp(&self) -> Stamp
        ensures stamp { result.0 ≡ self.now.stamp }
        ensures newest { NoneAbove self.now.stamp self.now.nodes }
    {
        self.stamp
    }

    /// The root of the version's trie.
    ///
    /// Cost: O(1), no lock. Refused: never.
    pub fn root(&self) -> &Node<K, V, S>
        ensures root { IsRoot K.cmp K.path_of (tree result.now) }
        ensures entries { map_of K.cmp (tree result.now) ≡ self.now.entries }
        ensures nodes { nodes (word_of K.path_of) (tree result.now) ≡ self.now.nodes }
    {
        self.root.node()
    }

    /// How many nodes carry the version's own stamp.
    ///
    /// Cost: O(n), no lock: it looks at all nodes. Refused: never.
    pub fn own_nodes(&self) -> u64
        ensures { result ≡ own_count self.now.stamp self.now.nodes }
    {
        root_has_few_nodes::<K, V>();
        generation::own_nodes(self.root.node(), self.stamp)
    }

    /// Maps the key to the value, and returns the value before, or none.
    ///
    /// Cost: O(log n), no lock. Refused: `Full`, where the key is new and there are as many pairs as there may be;
    /// `NoMemory`, if memory runs out.
    pub fn put(
        &mut self,
        alloc: Global,
        key: S::Key,
        value: S::Value,
    ) -> Result<Option<S::Value>, Refusal>
        ensures before { IfOk result (λ before. option_map S.value_of before ≡ value_at K.cmp self.old.entries (S.key_of key)) }
        ensures entries { OnOk result (self.new.entries ≡ with_pair K.cmp self.old.entries (S.key_of key) (S.value_of value)) }
        ensures limit { self.new.limit ≡ self.old.limit }
        ensures stamp { self.new.stamp ≡ self.old.stamp }
        ensures nodes { OnOk result (Restamps self.old.stamp (word_of K.path_of (S.key_of key)) self.old.nodes self.new.nodes) }
        ensures full { FullExactly result (is_full_for K.cmp self.old.limit self.old.entries (S.key_of key)) }
        ensures err { OnErr result (self.new ≡ self.old) }
    {
        Ok(self.put_where(alloc, key, value, &Always)?.previous)
    }

    /// Maps the key to the value where the condition holds of the value that the key has, and returns that value and
    /// whether the map was written. Where the map is not written no node is copied.
    ///
    /// Cost: O(log n), no lock: one walk down the trie where the value of a key that is there is exchanged, and else two.
    /// Refused: `Full`, where the condition holds, the key is new and there are as many pairs as there may be;
    /// `NoMemory`, if memory runs out.
    pub fn put_where<C: Condition<V>>(
        &mut self,
        alloc: Global,
        key: S::Key,
        value: S::Value,
        condition: &C,
    ) -> Result<Change<V, S>, Refusal>
        ensures before { IfOk result (λ change. option_map S.value_of change.previous ≡ value_at K.cmp self.old.entries (S.key_of key)) }
        ensures written { IfOk result (λ change. change.written ≡ C.holds condition.now (value_at K.cmp self.old.entries (S.key_of key))) }
        ensures entries { IfOk result (λ change. self.new.entries ≡ (if change.written then with_pair K.cmp self.old.entries (S.key_of key) (S.value_of value) else self.old.entries)) }
        ensures limit { self.new.limit ≡ self.old.limit }
        ensures stamp { self.new.stamp ≡ self.old.stamp }
        ensures nodes { IfOk result (λ change. RestampsIf change.written self.old.stamp (word_of K.path_of (S.key_of key)) self.old.nodes self.new.nodes) }
        ensures full { FullExactly result (C.holds condition.now None && is_full_for K.cmp self.old.limit self.old.entries (S.key_of key)) }
        ensures err { OnErr result (self.new ≡ self.old) }
    {
        let path = S::lend_key(&key).path();
        self.put_where_along(alloc, key, path, value, condition)
    }

    /// Removes the key, and returns the value before, or none. Where the key is absent no node is copied.
    ///
    /// Cost: O(log n), no lock. Refused: `NoMemory`, if memory runs out.
    pub fn remove<Q: Sought<K>>(
        &mut self,
        alloc: Global,
        key: Q,
    ) -> Result<Option<S::Value>, NoMemory>
        ensures before { IfOk result (λ before. option_map S.value_of before ≡ value_at K.cmp self.old.entries (Q.key_of key)) }
        ensures entries { OnOk result (self.new.entries ≡ without K.cmp self.old.entries (Q.key_of key)) }
        ensures limit { self.new.limit ≡ self.old.limit }
        ensures stamp { self.new.stamp ≡ self.old.stamp }
        ensures nodes { OnOk result (RestampsIf (is_some (value_at K.cmp self.old.entries (Q.key_of key))) self.old.stamp (word_of K.path_of (Q.key_of key)) self.old.nodes self.new.nodes) }
        ensures err { OnErr result (self.new ≡ self.old) }
    {
        self.remove_along(alloc, key, key.path_sought())
    }

    /// Removes the key where it is there and the condition holds of its value, and returns the value that it had and
    /// whether the map was written. Where the map is not written no node is copied.
    ///
    /// Cost: O(log n), by one walk down the trie, no lock. Refused: `NoMemory`, if memory runs out.
    pub fn remove_where<Q: Sought<K>, C: Condition<V>>(
        &mut self,
        alloc: Global,
        key: Q,
        condition: &C,
    ) -> Result<Change<V, S>, NoMemory>
        ensures before { IfOk result (λ change. option_map S.value_of change.previous ≡ value_at K.cmp self.old.entries (Q.key_of key)) }
        ensures written { IfOk result (λ change. change.written ≡ (is_some (value_at K.cmp self.old.entries (Q.key_of key)) && C.holds condition.now (value_at K.cmp self.old.entries (Q.key_of key)))) }
        ensures entries { IfOk result (λ change. self.new.entries ≡ (if change.written then without K.cmp self.old.entries (Q.key_of key) else self.old.entries)) }
        ensures limit { self.new.limit ≡ self.old.limit }
        ensures stamp { self.new.stamp ≡ self.old.stamp }
        ensures nodes { IfOk result (λ change. RestampsIf change.written self.old.stamp (word_of K.path_of (Q.key_of key)) self.old.nodes self.new.nodes) }
        ensures err { OnErr result (self.new ≡ self.old) }
    {
        self.remove_where_along(alloc, key, key.path_sought(), condition)
    }

    /// Removes all pairs, which leaves one node, with the version's stamp.
    ///
    /// Cost: O(1), no lock; then what the drops take. Refused: `NoMemory`, if memory runs out.
    pub fn clear(&mut self, alloc: Global) -> Result<(), NoMemory>
        ensures entries { OnOk result (self.new.entries ≡ []) }
        ensures limit { self.new.limit ≡ self.old.limit }
        ensures stamp { self.new.stamp ≡ self.old.stamp }
        ensures nodes { OnOk result (self.new.nodes ≡ ([], self.old.stamp) ∷ []) }
        ensures err { OnErr result (self.new ≡ self.old) }
    {
        self.root = Root::new(trie_node::empty_root(alloc, self.stamp)?);
        Ok(())
    }

    /// Another map with the same pairs and limit, which shares every node. Both maps get a stamp that the source had
    /// not issued, so that neither has a node of its own. A later write to one of the two leaves the other.
    ///
    /// Cost: O(1), no lock and no request for memory. Refused: `NoMemory`, where the handle on the root cannot be
    /// cloned; the map and the source are then as before.
    pub fn fork(&mut self, source: &mut Source) -> Result<Version<K, V, S>, NoMemory>
        requires issued { self.old.stamp ≤ source.old }
        requires room { source.old + 2 ≤ 2 ^ 63 }
        ensures entries { IfOk result (λ fork. fork.entries ≡ self.old.entries) }
        ensures limit { IfOk result (λ fork. fork.limit ≡ self.old.limit) }
        ensures stamp { IfOk result (λ fork. fork.stamp ≡ source.old + 2) }
        ensures nodes { IfOk result (λ fork. fork.nodes ≡ self.old.nodes) }
        ensures kept_entries { self.new.entries ≡ self.old.entries }
        ensures kept_limit { self.new.limit ≡ self.old.limit }
        ensures kept_nodes { self.new.nodes ≡ self.old.nodes }
        ensures fresh { OnOk result (self.new.stamp ≡ source.old + 1) }
        ensures issued { OnOk result (source.new ≡ source.old + 2) }
        ensures err { OnErr result (self.new ≡ self.old) }
        ensures source_err { OnErr result (source.new ≡ source.old) }
    {
        let root = self.root.try_clone()?;
        self.restamp(source);
        Ok(Version {
            root,
            limit: self.limit,
            stamp: source.next(),
        })
    }

    /// The map as it stands now, which no later write changes.
    ///
    /// Cost: O(1), no lock and no request for memory. Refused: `NoMemory`, where the handle on the root cannot be
    /// cloned.
    pub fn view(&self) -> Result<View<K, V, S>, NoMemory>
        ensures { IfOk result (λ view. view ≡ self.now.entries) }
    {
        Ok(View {
            root: self.root.try_clone()?,
        })
    }

    /// Gives the map another limit, which its pairs do not pass. It changes nothing else.
    ///
    /// Cost: O(1), no lock. Refused: never.
    pub fn relimit(&mut self, limit: u64)
        requires fits { length self.old.entries ≤ limit }
        requires least { 1 ≤ limit }
        requires most { limit ≤ MOST_PAIRS }
        ensures entries { self.new.entries ≡ self.old.entries }
        ensures limit { self.new.limit ≡ limit }
        ensures stamp { self.new.stamp ≡ self.old.stamp }
        ensures nodes { self.new.nodes ≡ self.old.nodes }
    {
        self.limit = limit;
    }

    /// Gives the map a stamp that the source had not issued. It copies no node.
    ///
    /// Cost: O(1), no lock. Refused: never.
    pub fn restamp(&mut self, source: &mut Source)
        requires issued { self.old.stamp ≤ source.old }
        requires room { source.old < 2 ^ 63 }
        ensures entries { self.new.entries ≡ self.old.entries }
        ensures limit { self.new.limit ≡ self.old.limit }
        ensures stamp { self.new.stamp ≡ source.old + 1 }
        ensures nodes { self.new.nodes ≡ self.old.nodes }
        ensures issued { source.new ≡ source.old + 1 }
    {
        self.stamp = source.next();
    }
}
