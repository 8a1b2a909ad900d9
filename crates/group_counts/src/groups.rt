//! Groups and how many pairs each has.
ghost use Rattle.std.specs.Prelude.{◌≡◌, ◌+◌, ◌<◌, ◌^◌, ◌↔◌, ◌∷◌, [], length, map, IfOk, IfErr, IsTrue, OnErr, OnOk};
ghost use Rattle.group_counts.specs.Counts.{GoesTo, IsSum, StandsAt, count_at, row_pair, total, with_one};
ghost use Rattle.versions.specs.Map.{IsMap};

use crate::joining::joined_rows;
use hash_path::PathKey;
use std::alloc::Global;
use std::cmp::Ordering;
use std::marker::Model;
use std::sync::Arc;
use trie_node::NoMemory;

/// The groups that pairs have, in order, and how many pairs each group has: at least one.
///
/// <!-- quoted from crates/tests_trie_map/src/tests/ranks.rt -->
/// ```rust
/// for (place, (group, count)) in groups.as_slice().iter().enumerate() {
///     assert_is(&rt, **group, place as u64);
///     assert_is(&rt, *count, if place < 6 { 43 } else { 42 });
/// }
/// ```
#[derive(Drop)]
pub struct Groups<G: PathKey> {
    rows: Vec<(Arc<G>, u64)>,
}

impl<G: PathKey> Model for Groups<G> {
    ghost use Rattle.std.specs.Prelude.{ℕ, map};
    ghost use Rattle.group_counts.specs.Counts.{row_pair};
    ghost use Rattle.versions.specs.Map.{IsMap, Map};

    ghost Value = { Map G ℕ };

    ghost view = { λ a. map row_pair a.rows.items };

    ghost invariant = { λ a. IsMap G.cmp (map row_pair a.rows.items) };
}

impl<G: PathKey + Drop> Groups<G> {
    /// How many pairs have the group: 0 where no pair has it.
    ///
    /// Cost: O(log g) for g groups, no lock. Refused: never.
    pub fn get(&self, group: &G) -> u64
        ensures { result ≡ count_at G.cmp self.now group.now }
    {
        match self.place_of(group) {
            Ok(at) => self.rows[at].1,
            Err(_) => 0,
        }
    }

    /// How many groups there are.
    ///
    /// Cost: O(1), no lock. Refused: never.
    pub fn len(&self) -> usize
        ensures { result ≡ length self.now }
    {
        self.rows.len()
    }

    /// Whether there is no group.
    ///
    /// Cost: O(1), no lock. Refused: never.
    pub fn is_empty(&self) -> bool
        ensures { IsTrue result ↔ (self.now ≡ []) }
    {
        self.rows.is_empty()
    }

    /// Each group and how many pairs it has, in order of the groups.
    ///
    /// Cost: O(1), no lock. Refused: never.
    pub fn as_slice(&self) -> &[(Arc<G>, u64)]
        ensures counts { map row_pair result.now ≡ self.now }
        ensures rising { IsMap G.cmp self.now }
    {
        &self.rows
    }

    /// No groups. It takes no memory.
    pub(crate) fn none(alloc: Global) -> Groups<G>
        ensures { result ≡ [] }
    {
        Groups {
            rows: Vec::new(alloc),
        }
    }

    /// The group of one pair.
    pub(crate) fn of_one(alloc: Global, group: G) -> Result<Groups<G>, NoMemory>
        ensures { IfOk result (λ groups. groups ≡ (group, 1) ∷ []) }
    {
        let mut groups = Groups::none(alloc);
        groups.count_one(alloc, group)?;
        Ok(groups)
    }

    /// Counts a pair of the group. After `NoMemory` the counts are as before.
    ///
    /// A group that has a pair already takes no memory.
    pub(crate) fn count_one(&mut self, alloc: Global, group: G) -> Result<(), NoMemory>
        requires { total self.old + 1 < 2 ^ 64 }
        ensures ok { OnOk result (self.new ≡ with_one G.cmp self.old group) }
        ensures all { OnOk result (total self.new ≡ total self.old + 1) }
        ensures err { OnErr result (self.new ≡ self.old) }
    {
        match self.place_of(&group) {
            Ok(at) => self.rows[at].1 += 1,
            Err(at) => {
                let group = Arc::new(alloc, group)?;
                self.rows.insert(at, (group, 1))?;
            }
        }
        Ok(())
    }

    /// The counts of both, added where both have a group.
    pub(crate) fn joined(&self, alloc: Global, other: &Groups<G>) -> Result<Groups<G>, NoMemory>
        requires { total self.now + total other.now < 2 ^ 64 }
        ensures { IfOk result (λ both. IsSum G.cmp self.now other.now both) }
    {
        let rows = joined_rows(alloc, &self.rows, &other.rows)?;
        Ok(Groups { rows })
    }

    // Where the group stands, or else the place where it goes.
    fn place_of(&self, group: &G) -> Result<usize, usize>
        ensures found { IfOk result (λ at. StandsAt G.cmp group.now at self.now) }
        ensures absent { IfErr result (λ at. GoesTo G.cmp group.now at self.now) }
    {
        self.rows.binary_search_by(
            |row: &(Arc<G>, u64)| -> Ordering
                ensures { result ≡ G.cmp row.now.0.value group.entry.now }
            {
                let name: &G = &row.0;
                name.cmp(group)
            },
        )
    }
}
