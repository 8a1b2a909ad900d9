//! Calls of a map where the caller has the key's path word already.
ghost use Rattle.std.specs.Prelude.{◌≡◌, ◌&&◌, is_some, if◌then◌else◌, None, option_map, IfOk, OnOk, OnErr};
ghost use Rattle.trie_shape.specs.Roots.{word_of};
ghost use Rattle.versions.specs.Changes.{RestampsIf};
ghost use Rattle.versions.specs.Commands.{is_full_for};
ghost use Rattle.versions.specs.Map.{value_at, with_pair, without};
ghost use Rattle.versions.specs.Puts.{FullExactly};

use super::Version;
use super::exchanging::exchanged;
use crate::refusal::Refusal;
use crate::room::WithinRoom;
use hash_path::{Path, PathKey, Sought};
use std::alloc::Global;
use trie_node::{
    Always, Change, Condition, Exchange, NoMemory, Slots, ValueSlots, root_is_map,
    writes_keep_stamps_below,
};

impl<K: PathKey, V, S: Slots<K, V>> Version<K, V, S>
where
    S::Key: Drop,
    S::Value: Drop,
{
    /// `get`, where the caller has the key's path word already: the key is not hashed again.
    ///
    /// Cost: O(log n), no lock. Refused: never.
    pub fn get_along<Q: Sought<K>>(&self, key: Q, path: Path) -> Option<&S::Value>
        requires { path.0 ≡ K.path_of (Q.key_of key) }
        ensures { option_map (λ value. S.value_of value.now) result ≡ value_at K.cmp self.now.entries (Q.key_of key) }
    {
        trie_node::find_along(self.root.node(), key, path)
    }

    /// `put_where`, where the caller has the key's path word already: the key is not hashed again.
    ///
    /// Cost: O(log n), no lock. Refused: as `put_where`.
    pub fn put_where_along<C: Condition<V>>(
        &mut self,
        alloc: Global,
        key: S::Key,
        path: Path,
        value: S::Value,
        condition: &C,
    ) -> Result<Change<V, S>, Refusal>
        requires { path.0 ≡ K.path_of (S.key_of key) }
        ensures before { IfOk result (λ change. option_map S.value_of change.previous ≡ value_at K.cmp self.old.entries (S.key_of key)) }
        ensures written { IfOk result (λ change. change.written ≡ C.holds condition.now (value_at K.cmp self.old.entries (S.key_of key))) }
        ensures entries { IfOk result (λ change. self.new.entries ≡ (if change.written then with_pair K.cmp self.old.entries (S.key_of key) (S.value_of value) else self.old.entries)) }
        ensures limit { self.new.limit ≡ self.old.limit }
        ensures stamp { self.new.stamp ≡ self.old.stamp }
        ensures nodes { IfOk result (λ change. RestampsIf change.written self.old.stamp (word_of K.path_of (S.key_of key)) self.old.nodes self.new.nodes) }
        ensures full { FullExactly result (C.holds condition.now None && is_full_for K.cmp self.old.limit self.old.entries (S.key_of key)) }
        ensures err { OnErr result (self.new ≡ self.old) }
    {
        match self.exchange_along(S::lend_key(&key), path, value, condition) {
            Exchange::Done(previous) => Ok(exchanged::<V, S>(previous)),
            Exchange::Elsewhere(value) => {
                self.put_anew_along(alloc, key, path, value, condition)
            }
        }
    }

    /// `put_where_along` of the key itself, which lies neither behind a handle nor in a row yet. Where the key is there and
    /// the condition holds of its value, the one that is there stays: no memory is requested then, unless a snapshot or a
    /// view shares a node of the key's way.
    ///
    /// Cost: O(log n), no lock. Refused: as `put_where`.
    pub fn put_key_where_along<C: Condition<V>>(
        &mut self,
        alloc: Global,
        key: K,
        path: Path,
        value: S::Value,
        condition: &C,
    ) -> Result<Change<V, S>, Refusal>
    where
        K: Drop,
        requires { path.0 ≡ K.path_of key }
        ensures before { IfOk result (λ change. option_map S.value_of change.previous ≡ value_at K.cmp self.old.entries key) }
        ensures written { IfOk result (λ change. change.written ≡ C.holds condition.now (value_at K.cmp self.old.entries key)) }
        ensures entries { IfOk result (λ change. self.new.entries ≡ (if change.written then with_pair K.cmp self.old.entries key (S.value_of value) else self.old.entries)) }
        ensures limit { self.new.limit ≡ self.old.limit }
        ensures stamp { self.new.stamp ≡ self.old.stamp }
        ensures nodes { IfOk result (λ change. RestampsIf change.written self.old.stamp (word_of K.path_of key) self.old.nodes self.new.nodes) }
        ensures full { FullExactly result (C.holds condition.now None && is_full_for K.cmp self.old.limit self.old.entries key) }
        ensures err { OnErr result (self.new ≡ self.old) }
    {
        match self.exchange_along(&key, path, value, condition) {
            Exchange::Done(previous) => Ok(exchanged::<V, S>(previous)),
            Exchange::Elsewhere(value) => {
                // A `Full` that is due is returned whatever the memory.
                if self.is_full_at(&key, path, condition) {
                    Err(Refusal::Full)
                } else {
                    let key = S::new_key(alloc, key)?;
                    self.put_anew_along(alloc, key, path, value, condition)
                }
            }
        }
    }

    /// `put_where_along` by a walk that requests memory: for the key, and for the nodes that somebody else holds.
    fn put_anew_along<C: Condition<V>>(
        &mut self,
        alloc: Global,
        key: S::Key,
        path: Path,
        value: S::Value,
        condition: &C,
    ) -> Result<Change<V, S>, Refusal>
        requires { path.0 ≡ K.path_of (S.key_of key) }
        ensures before { IfOk result (λ change. option_map S.value_of change.previous ≡ value_at K.cmp self.old.entries (S.key_of key)) }
        ensures written { IfOk result (λ change. change.written ≡ C.holds condition.now (value_at K.cmp self.old.entries (S.key_of key))) }
        ensures entries { IfOk result (λ change. self.new.entries ≡ (if change.written then with_pair K.cmp self.old.entries (S.key_of key) (S.value_of value) else self.old.entries)) }
        ensures limit { self.new.limit ≡ self.old.limit }
        ensures stamp { self.new.stamp ≡ self.old.stamp }
        ensures nodes { IfOk result (λ change. RestampsIf change.written self.old.stamp (word_of K.path_of (S.key_of key)) self.old.nodes self.new.nodes) }
        ensures full { FullExactly result (C.holds condition.now None && is_full_for K.cmp self.old.limit self.old.entries (S.key_of key)) }
        ensures err { OnErr result (self.new ≡ self.old) }
    {
        writes_keep_stamps_below();
        let full = self.len() == self.limit;
        let room = WithinRoom { condition, full };
        let mut root = self.root.take();
        let change = trie_node::put_in_where_along(
            alloc, &mut root, key, path, value, self.stamp, &room,
        );
        self.root.put_back(root);
        let change = change?;
        if change.written {
            return Ok(change);
        }
        let found = lent::<V, S>(&change.previous);
        if full && found.is_none() && condition.holds(found) {
            return Err(Refusal::Full);
        }
        Ok(change)
    }

    /// `remove`, where the caller has the key's path word already: the key is not hashed again.
    ///
    /// Cost: O(log n), no lock. Refused: `NoMemory`, if memory runs out.
    pub fn remove_along<Q: Sought<K>>(
        &mut self,
        alloc: Global,
        key: Q,
        path: Path,
    ) -> Result<Option<S::Value>, NoMemory>
        requires { path.0 ≡ K.path_of (Q.key_of key) }
        ensures before { IfOk result (λ before. option_map S.value_of before ≡ value_at K.cmp self.old.entries (Q.key_of key)) }
        ensures entries { OnOk result (self.new.entries ≡ without K.cmp self.old.entries (Q.key_of key)) }
        ensures limit { self.new.limit ≡ self.old.limit }
        ensures stamp { self.new.stamp ≡ self.old.stamp }
        ensures nodes { OnOk result (RestampsIf (is_some (value_at K.cmp self.old.entries (Q.key_of key))) self.old.stamp (word_of K.path_of (Q.key_of key)) self.old.nodes self.new.nodes) }
        ensures err { OnErr result (self.new ≡ self.old) }
    {
        Ok(self.remove_where_along(alloc, key, path, &Always)?.previous)
    }

    /// `remove_where`, where the caller has the key's path word already: the key is not hashed again.
    ///
    /// Cost: O(log n), no lock. Refused: `NoMemory`, if memory runs out.
    pub fn remove_where_along<Q: Sought<K>, C: Condition<V>>(
        &mut self,
        alloc: Global,
        key: Q,
        path: Path,
        condition: &C,
    ) -> Result<Change<V, S>, NoMemory>
        requires { path.0 ≡ K.path_of (Q.key_of key) }
        ensures before { IfOk result (λ change. option_map S.value_of change.previous ≡ value_at K.cmp self.old.entries (Q.key_of key)) }
        ensures written { IfOk result (λ change. change.written ≡ (is_some (value_at K.cmp self.old.entries (Q.key_of key)) && C.holds condition.now (value_at K.cmp self.old.entries (Q.key_of key)))) }
        ensures entries { IfOk result (λ change. self.new.entries ≡ (if change.written then without K.cmp self.old.entries (Q.key_of key) else self.old.entries)) }
        ensures limit { self.new.limit ≡ self.old.limit }
        ensures stamp { self.new.stamp ≡ self.old.stamp }
        ensures nodes { IfOk result (λ change. RestampsIf change.written self.old.stamp (word_of K.path_of (Q.key_of key)) self.old.nodes self.new.nodes) }
        ensures err { OnErr result (self.new ≡ self.old) }
    {
        root_is_map::<K, V>();
        writes_keep_stamps_below();
        let mut root = self.root.take();
        let change = trie_node::remove_in_where_along(
            alloc, &mut root, key, path, self.stamp, condition,
        );
        self.root.put_back(root);
        let change = change?;
        // Where a pair was removed the invariant has another proof than where none was.
        if change.written {
            return Ok(change);
        }
        Ok(change)
    }
}

/// The value itself, of one that lies as in a row.
fn lent<V, S: ValueSlots<V>>(found: &Option<S::Value>) -> Option<&V>
    ensures { option_map (λ value. value.now) result ≡ option_map S.value_of found.now }
{
    match found {
        Some(value) => Some(S::lend_value(value)),
        None => None,
    }
}
