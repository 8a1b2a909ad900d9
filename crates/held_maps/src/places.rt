//! The places of a table, each of which has a version where its handle is live.
ghost use Rattle.std.specs.Prelude.{◌≡◌, ◌<◌, ◌≤◌, ◌+◌, ◌^◌, length, [], IfErr, IfOk, IfSome, IsSome, Err, None, OnErr, OnOk, false, true, option_map, unwrap_or};
ghost use Rattle.std.specs.Ordering.{nat_cmp};
ghost use Rattle.held_maps.specs.HeldMaps.{IsKept, live_from, maps_in, stamps_in};
ghost use Rattle.held_maps.specs.Targets.{FitsIn, IsLoose, IsPlace, issued_with_made, live_with_made, stamps_with_made};
ghost use Rattle.held_maps.specs.Commands.{IsPathFor, command_of, lacks_memory, reply_of};
ghost use Rattle.versions.specs.Commands.{after, is_full, needs_no_memory, reply};
ghost use Rattle.versions.specs.Map.{value_at, with_pair, without};
ghost use Rattle.versions.specs.Puts.{FullExactly};
ghost use Rattle.versions.specs.declared.version.TheConstants.{MOST_PAIRS};

use crate::command::Command;
use crate::limits::HANDLES;
use crate::reply::Reply;
use generation::Source;
use hash_path::{Path, PathKey};
use std::alloc::Global;
use std::marker::Model;
use trie_node::Stamp;
use versions::{MOST_PAIRS, NoMemory, Refusal, Version, View};

/// A place for each handle number, and the source of the stamps of the versions in them.
///
/// The versions have one limit. Their stamps were issued by the source, and no two of them are the same.
#[derive(Drop)]
pub struct Places<K: PathKey, V> {
    versions: Vec<Option<Version<K, V>>>,
    limit: u64,
    source: Source,
}

impl<K: PathKey, V> Model for Places<K, V> {
    ghost use Rattle.std.specs.Prelude.{◌≤◌};
    ghost use Rattle.held_maps.specs.HeldMaps.{HeldMaps, IsKept, live_from, maps_in, stamps_in};
    ghost use Rattle.versions.specs.declared.version.TheConstants.{MOST_PAIRS};

    ghost Value = { HeldMaps K V };

    ghost view = { λ p. record { live = live_from 0 (maps_in p.versions.items); limit = p.limit; issued = p.source; stamps = live_from 0 (stamps_in p.versions.items) } };

    ghost invariant = { λ p. IsKept p.limit p.source p.versions.items × (1 ≤ p.limit) × (p.limit ≤ MOST_PAIRS) };
}

impl<K: PathKey + Drop, V: Eq + Drop> Places<K, V> {
    /// Places with no version, whose versions may have at most `limit` pairs each.
    pub fn new(alloc: Global, limit: u64) -> Result<Places<K, V>, NoMemory>
        requires least { 1 ≤ limit }
        requires most { limit ≤ MOST_PAIRS }
        ensures { IfOk result (λ places. places ≡ record { live = []; limit = limit; issued = 0; stamps = [] }) }
    {
        let mut versions = Vec::with_capacity(alloc, HANDLES)?;
        'places: while versions.len() < HANDLES {
            versions.push(None)?;
        }
        Ok(Places {
            versions,
            limit,
            source: Source::new(),
        })
    }

    /// The places one after another.
    pub fn as_slice(&self) -> &[Option<Version<K, V>>]
        ensures live { live_from 0 (maps_in result.now) ≡ self.now.live }
        ensures stamps { live_from 0 (stamps_in result.now) ≡ self.now.stamps }
        ensures kept { IsKept self.now.limit self.now.issued result.now }
    {
        self.versions.as_slice()
    }

    /// The version of the handle, if it is live.
    pub fn version(&self, handle: u32) -> Option<&Version<K, V>>
        ensures map { option_map (λ v. v.now.entries) result ≡ value_at nat_cmp self.now.live handle }
        ensures limit { IfSome result (λ v. v.now.limit ≡ self.now.limit) }
        ensures least { 1 ≤ self.now.limit }
    {
        if handle as usize >= self.versions.len() {
            return None;
        }
        match &self.versions[handle as usize] {
            Some(version) => Some(version),
            None => None,
        }
    }

    /// A live handle's own map, put under its number again, leaves all maps. It does nothing: the contract is the law.
    pub fn law_of_same_map(&self, handle: u32)
        ensures { IsSome (value_at nat_cmp self.now.live handle) → with_pair nat_cmp self.now.live handle (unwrap_or (value_at nat_cmp self.now.live handle) []) ≡ self.now.live }
    {
        let _ = &self.versions;
    }

    /// Opens the handle, with no pairs. Its version gets the stamp that the source issues next.
    pub fn open(&mut self, alloc: Global, handle: u32) -> Result<(), Refusal>
        requires place { handle < HANDLES }
        requires room { self.old.issued < 2 ^ 63 }
        ensures live { OnOk result (self.new.live ≡ with_pair nat_cmp self.old.live handle []) }
        ensures fresh { OnOk result (self.new.stamps ≡ with_pair nat_cmp self.old.stamps handle (self.old.issued + 1)) }
        ensures limit { self.new.limit ≡ self.old.limit }
        ensures issued { self.new.issued ≤ self.old.issued + 1 }
        ensures next { OnOk result (self.new.issued ≡ self.old.issued + 1) }
        ensures memory { IfErr result (λ e. e ≡ Refusal.NoMemory) }
        ensures err { OnErr result (self.new ≡ self.old) }
    {
        // The stamp that the source issues next, which is taken once there is memory for the root.
        let stamp = Stamp(self.source.issued() + 1);
        let version = Version::empty(alloc, self.limit, stamp)?;
        self.source.next();
        self.versions[handle as usize] = Some(version);
        Ok(())
    }

    /// Closes the handle: it is not live then.
    pub fn close(&mut self, handle: u32)
        requires { handle < HANDLES }
        ensures { self.new ≡ record self.old { live = without nat_cmp self.old.live handle; stamps = without nat_cmp self.old.stamps handle } }
    {
        self.versions[handle as usize] = None;
    }

    /// Opens the handle `to`, with the pairs of the other handle. Both versions get stamps that the source issues next,
    /// first the other handle's. It makes no request for memory.
    ///
    /// It is refused as `NoHandle` where the other handle is not live, and as `NoMemory`.
    pub fn fork(&mut self, handle: u32, to: u32) -> Result<(), Refusal>
        requires place { handle < HANDLES }
        requires target { to < HANDLES }
        requires room { self.old.issued + 2 ≤ 2 ^ 63 }
        ensures live { OnOk result (self.new.live ≡ with_pair nat_cmp self.old.live to (unwrap_or (value_at nat_cmp self.old.live handle) [])) }
        ensures fresh { OnOk result (self.new.stamps ≡ with_pair nat_cmp (with_pair nat_cmp self.old.stamps handle (self.old.issued + 1)) to (self.old.issued + 2)) }
        ensures limit { self.new.limit ≡ self.old.limit }
        ensures issued { self.new.issued ≤ self.old.issued + 2 }
        ensures next { OnOk result (self.new.issued ≡ self.old.issued + 2) }
        ensures memory { IsSome (value_at nat_cmp self.old.live handle) → IfErr result (λ e. e ≡ Refusal.NoMemory) }
        ensures none { value_at nat_cmp self.old.live handle ≡ None → result ≡ Err Refusal.NoHandle }
        ensures err { OnErr result (self.new ≡ self.old) }
    {
        let version = match &mut self.versions[handle as usize] {
            Some(version) => version.fork(&mut self.source)?,
            None => return Err(Refusal::NoHandle),
        };
        self.versions[to as usize] = Some(version);
        Ok(())
    }

    /// Opens the target, if there is one, with the map that was made for it: it gets the limit of all the versions, and
    /// the stamp that the source issues next. It takes no memory and copies no node.
    pub fn open_target(&mut self, target: Option<u32>, made: Option<Version<K, V>>)
        requires place { IsPlace target }
        requires loose { IsLoose made }
        requires fits { FitsIn self.old.limit made }
        requires room { self.old.issued < 2 ^ 63 }
        ensures live { self.new.live ≡ live_with_made self.old.live target made }
        ensures fresh { self.new.stamps ≡ stamps_with_made self.old.stamps (self.old.issued + 1) target made }
        ensures limit { self.new.limit ≡ self.old.limit }
        ensures issued { self.new.issued ≤ self.old.issued + 1 }
        ensures next { self.new.issued ≡ issued_with_made self.old.issued target made }
    {
        if let (Some(to), Some(mut map)) = (target, made) {
            map.relimit(self.limit);
            map.restamp(&mut self.source);
            self.versions[to as usize] = Some(map);
        }
    }

    /// The map of the handle as it stands now. It makes no request for memory.
    ///
    /// It is refused as `NoHandle` where the handle is not live, and as `NoMemory`.
    pub fn view(&self, handle: u32) -> Result<View<K, V>, Refusal>
        ensures map { IfOk result (λ v. v ≡ unwrap_or (value_at nat_cmp self.now.live handle) []) }
        ensures fits { IfOk result (λ v. length v ≤ self.now.limit) }
        ensures memory { IsSome (value_at nat_cmp self.now.live handle) → IfErr result (λ e. e ≡ Refusal.NoMemory) }
        ensures none { value_at nat_cmp self.now.live handle ≡ None → result ≡ Err Refusal.NoHandle }
    {
        match self.version(handle) {
            Some(version) => {
                prove!(version.len() <= version.limit());
                Ok(version.view()?)
            }
            None => Err(Refusal::NoHandle),
        }
    }

    /// Makes the command, whose key has this path word, on the map of the handle. Its version keeps its stamp, and every
    /// other one too.
    ///
    /// It is refused as `NoHandle` where the handle is not live, as `Full` and as `NoMemory`.
    pub fn run(
        &mut self,
        alloc: Global,
        handle: u32,
        command: Command<K, V>,
        path: Path,
    ) -> Result<Reply<V>, Refusal>
        requires place { handle < HANDLES }
        requires path { IsPathFor K.path_of (command_of command) path.0 }
        ensures reply { IfOk result (λ y. reply_of y ≡ reply K.cmp V.eq (unwrap_or (value_at nat_cmp self.old.live handle) []) (command_of command)) }
        ensures live { OnOk result (self.new.live ≡ with_pair nat_cmp self.old.live handle (after K.cmp V.eq (unwrap_or (value_at nat_cmp self.old.live handle) []) (command_of command))) }
        ensures limit { self.new.limit ≡ self.old.limit }
        ensures stamps { self.new.stamps ≡ self.old.stamps }
        ensures issued { self.new.issued ≡ self.old.issued }
        ensures full { IsSome (value_at nat_cmp self.old.live handle) → FullExactly result (is_full K.cmp self.old.limit (unwrap_or (value_at nat_cmp self.old.live handle) []) (command_of command)) }
        ensures memory { needs_no_memory (command_of command) ≡ true → lacks_memory result ≡ false }
        ensures none { value_at nat_cmp self.old.live handle ≡ None → result ≡ Err Refusal.NoHandle }
        ensures err { OnErr result (self.new ≡ self.old) }
    {
        let version = match &mut self.versions[handle as usize] {
            Some(version) => version,
            None => {
                drop(command);
                return Err(Refusal::NoHandle);
            }
        };
        command.run_on(alloc, path, version)
    }
}
