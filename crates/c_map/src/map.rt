//! The map, over `versions`: this file alone knows that keys and values are shared there.

ghost use Rattle.std.specs.Prelude.{◌≡◌, ◌≤◌, ◌&&◌, [], None, false, length, is_some, if◌then◌else◌, option_map, IfOk, OnOk, OnErr, MatchOption};
ghost use Rattle.std.specs.Arc.{arc_value};
ghost use Rattle.c_map.specs.Limits.{limit_near};
ghost use Rattle.hash_path.specs.Fnv.{fnv1a};
ghost use Rattle.keys.specs.Order.{bytes_cmp};
ghost use Rattle.trie_shape.specs.Roots.{IsRoot, map_of};
ghost use Rattle.trie_shape.specs.View.{tree};
ghost use Rattle.versions.specs.Commands.{is_equal, is_full_for};
ghost use Rattle.versions.specs.Map.{value_at, with_pair, without};
ghost use Rattle.versions.specs.Puts.{FullExactly};
ghost use Rattle.versions.specs.declared.version.TheConstants.{MOST_PAIRS};

use crate::shown::Shown;
use keys::ByteText;
use std::alloc::Global;
use std::marker::Model;
use std::sync::Arc;
use trie_node::{Condition, IfEqual, NoMemory, Node, Stamp};
use versions::{MOST_PAIRS, Refusal, Version};

/// A finite map from byte texts, with a limit on its pairs.
///
/// It has no trie until it is first written. So none is requested where a map is made or cleared.
#[derive(Drop)]
pub struct Map<V> {
    state: State<V>,
}

/// What a map has.
#[derive(Drop)]
pub(crate) enum State<V> {
    /// No pairs, and this limit.
    Unwritten(u64),
    /// The pairs and the limit of a version.
    Written(Version<ByteText, V>),
}

/// What a write says of the map before it, and whether it took place.
#[derive(Drop)]
pub(crate) struct Write {
    /// What is shown of the value that the key had.
    pub(crate) before: Option<u64>,
    /// Whether the map was written.
    pub(crate) written: bool,
}

impl<V> Model for Map<V> {
    ghost use Rattle.c_map.specs.Stored.{Stored};

    ghost Value = { Stored V };

    ghost use Rattle.c_map.specs.States.{stored, IsLimited};

    ghost view = { λ a. stored a.state };

    ghost invariant = { λ a. IsLimited a.state };
}

fn is_send<T: Send>() {}

/// A map may go to another thread: that is proved here.
pub fn maps_are_send() {
    is_send::<Map<u64>>();
    is_send::<Map<ByteText>>();
}

impl<V: Shown> Map<V> {
    /// A map with no pairs, which may hold as many as any.
    pub(crate) fn new() -> Map<V>
        ensures entries { result.entries ≡ [] }
        ensures limit { result.limit ≡ MOST_PAIRS }
    {
        Map {
            state: State::Unwritten(MOST_PAIRS),
        }
    }

    /// How many pairs there are.
    pub(crate) fn len(&self) -> u64
        ensures count { result ≡ length self.now.entries }
        ensures few { length self.now.entries ≤ MOST_PAIRS }
    {
        let _limit = self.limit();
        match &self.state {
            State::Unwritten(_) => 0,
            State::Written(version) => version.len(),
        }
    }

    /// The value of the key, or none.
    pub(crate) fn get(&self, key: &[u8]) -> Option<&V>
        ensures { option_map (λ value. value.now) result ≡ value_at bytes_cmp self.now.entries key.now }
    {
        match &self.state {
            State::Unwritten(_) => None,
            State::Written(version) => match version.get(key) {
                None => None,
                Some(value) => Some(value.as_ref()),
            },
        }
    }

    /// Whether the key is new and the map full.
    pub(crate) fn is_full_for(&self, key: &[u8]) -> bool
        ensures { result ≡ is_full_for bytes_cmp self.now.limit self.now.entries key.now }
    {
        match &self.state {
            State::Unwritten(_) => false,
            State::Written(version) => {
                version.len() == version.limit() && !version.contains_key(key)
            }
        }
    }

    /// Maps the key to the value where the condition holds of the value that the key has. `adds` says whether it holds
    /// where the key is absent. `Full` is returned where it is due, whatever the memory.
    pub(crate) fn put_where<C: Condition<V>>(
        &mut self,
        alloc: Global,
        key: &[u8],
        value: V,
        condition: &C,
        adds: bool,
    ) -> Result<Write, Refusal>
        requires { adds ≡ C.holds condition.now None }
        ensures before { IfOk result (λ write. write.before ≡ option_map V.number (value_at bytes_cmp self.old.entries key.now)) }
        ensures written { IfOk result (λ write. write.written ≡ C.holds condition.now (value_at bytes_cmp self.old.entries key.now)) }
        ensures entries { IfOk result (λ write. self.new.entries ≡ (if write.written then with_pair bytes_cmp self.old.entries key.now value else self.old.entries)) }
        ensures limit { self.new.limit ≡ self.old.limit }
        ensures full { FullExactly result (adds && is_full_for bytes_cmp self.old.limit self.old.entries key.now) }
        ensures err { OnErr result (self.new ≡ self.old) }
    {
        if adds && self.is_full_for(key) {
            return Err(Refusal::Full);
        }
        match &mut self.state {
            State::Written(version) => Ok(put_in(version, alloc, key, value, condition)?),
            State::Unwritten(limit) => {
                if !adds {
                    return Ok(Write {
                        before: None,
                        written: false,
                    });
                }
                let mut version = Version::empty(alloc, *limit, Stamp::LOOSE)?;
                let write = put_in(&mut version, alloc, key, value, condition)?;
                self.state = State::Written(version);
                Ok(write)
            }
        }
    }

    /// Removes the key, and returns what is shown of the value before, or none.
    pub(crate) fn remove(&mut self, alloc: Global, key: &[u8]) -> Result<Option<u64>, NoMemory>
        ensures before { IfOk result (λ before. before ≡ option_map V.number (value_at bytes_cmp self.old.entries key.now)) }
        ensures entries { OnOk result (self.new.entries ≡ without bytes_cmp self.old.entries key.now) }
        ensures limit { self.new.limit ≡ self.old.limit }
        ensures err { OnErr result (self.new ≡ self.old) }
    {
        match &mut self.state {
            State::Unwritten(_) => Ok(None),
            State::Written(version) => Ok(shown(version.remove(alloc, key)?)),
        }
    }

    /// Removes the key where its value is equal to this one, and returns whether it was.
    pub(crate) fn remove_if(
        &mut self,
        alloc: Global,
        key: &[u8],
        value: &V,
    ) -> Result<bool, NoMemory>
        ensures done { IfOk result (λ done. done ≡ is_equal V.eq (value_at bytes_cmp self.old.entries key.now) value.now) }
        ensures entries { IfOk result (λ done. self.new.entries ≡ (if done then without bytes_cmp self.old.entries key.now else self.old.entries)) }
        ensures limit { self.new.limit ≡ self.old.limit }
        ensures err { OnErr result (self.new ≡ self.old) }
    {
        match &mut self.state {
            State::Unwritten(_) => Ok(false),
            State::Written(version) => {
                Ok(version.remove_where(alloc, key, &IfEqual(value))?.written)
            }
        }
    }

    /// Removes all pairs. It requests no memory.
    pub(crate) fn clear(&mut self)
        ensures { self.new ≡ record { entries = []; limit = self.old.limit } }
    {
        let limit = self.limit();
        self.state = State::Unwritten(limit);
    }

    /// How many pairs there may be.
    fn limit(&self) -> u64
        ensures limit { result ≡ self.now.limit }
        ensures least { 1 ≤ result }
        ensures most { result ≤ MOST_PAIRS }
    {
        match &self.state {
            State::Unwritten(limit) => *limit,
            State::Written(version) => version.limit(),
        }
    }

    /// Limits the map to so many pairs, or to the nearest number that it may be limited to, and returns that.
    pub(crate) fn limit_to(&mut self, most: u64) -> u64
        ensures { (result ≡ limit_near most (length self.old.entries)) × (self.new ≡ record { entries = self.old.entries; limit = result }) }
    {
        let limit = most.min(MOST_PAIRS).max(self.len()).max(1);
        match &mut self.state {
            State::Unwritten(before) => *before = limit,
            State::Written(version) => version.relimit(limit),
        }
        limit
    }

    /// Another map with the same pairs and limit, which shares every node. It makes no request for memory, but the clone
    /// of a handle may be refused.
    pub(crate) fn fork(&self) -> Result<Map<V>, NoMemory>
        ensures { IfOk result (λ fork. fork ≡ self.now) }
    {
        match &self.state {
            State::Unwritten(limit) => Ok(Map {
                state: State::Unwritten(*limit),
            }),
            State::Written(version) => Ok(Map {
                state: State::Written(fork_of(version)?),
            }),
        }
    }

    /// The root of the map's trie, or none where the map was not written yet.
    pub(crate) fn root(&self) -> Option<&Node<ByteText, V>>
        ensures { MatchOption result (self.now.entries ≡ []) (λ root. IsRoot bytes_cmp fnv1a (tree root.now) × (map_of bytes_cmp (tree root.now) ≡ self.now.entries)) }
    {
        match &self.state {
            State::Unwritten(_) => None,
            State::Written(version) => Some(version.root()),
        }
    }
}

/// What is shown of a value that was there, or none.
fn shown<V: Shown>(before: Option<Arc<V>>) -> Option<u64>
    ensures { result ≡ option_map V.number (option_map arc_value before) }
{
    match before {
        None => None,
        Some(value) => Some(value.number()),
    }
}

/// Another version with the same pairs and limit. Both put one stamp on the nodes that they write.
fn fork_of<V: Shown>(version: &Version<ByteText, V>) -> Result<Version<ByteText, V>, NoMemory>
    ensures entries { IfOk result (λ fork. fork.entries ≡ version.now.entries) }
    ensures limit { IfOk result (λ fork. fork.limit ≡ version.now.limit) }
{
    let _count = version.len();
    let root = version.root().try_clone()?;
    Ok(Version::from_root(root, version.limit(), version.stamp()))
}

/// Maps the key to the value in a map that has a trie, where the condition holds.
fn put_in<V: Shown, C: Condition<V>>(
    version: &mut Version<ByteText, V>,
    alloc: Global,
    key: &[u8],
    value: V,
    condition: &C,
) -> Result<Write, NoMemory>
    requires { C.holds condition.now None && is_full_for bytes_cmp version.old.limit version.old.entries key.now ≡ false }
    ensures before { IfOk result (λ write. write.before ≡ option_map V.number (value_at bytes_cmp version.old.entries key.now)) }
    ensures written { IfOk result (λ write. write.written ≡ C.holds condition.now (value_at bytes_cmp version.old.entries key.now)) }
    ensures entries { IfOk result (λ write. version.new.entries ≡ (if write.written then with_pair bytes_cmp version.old.entries key.now value else version.old.entries)) }
    ensures limit { version.new.limit ≡ version.old.limit }
    ensures err { OnErr result (version.new ≡ version.old) }
{
    let key = Arc::new(alloc, ByteText::from_slice(alloc, key)?)?;
    let value = Arc::new(alloc, value)?;
    match version.put_where(alloc, key, value, condition) {
        Ok(change) => Ok(Write {
            before: shown(change.previous),
            written: change.written,
        }),
        Err(_) => Err(NoMemory),
    }
}
