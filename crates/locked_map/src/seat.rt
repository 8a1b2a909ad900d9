//! Seats, which make calls and keep their responses.
ghost use Rattle.std.specs.Prelude.{◌≡◌};
ghost use Rattle.locked_map.specs.Seats.{fresh, marked_by, met};

use bulk_work::Asks;
use filed_entries::Filed;
use hash_path::PathKey;
use journal::JournalName;
use std::alloc::Global;
use std::marker::{Model, PhantomData};
use versions::Refusal;

/// A seat: by it one client makes its calls, one after another.
///
/// <!-- quoted from crates/example_index/src/indexer.rt -->
/// ```rust
/// let view = map.view(rt, seat, INDEX)?;
/// Ok(view.len())
/// ```
///
/// It keeps a list of its entries, each with its token and its place in the journal, and a floor: its next entry stands
/// at the floor or behind it. It is marked where a call was refused as `JournalFull`, and with the first job for which
/// one was refused as `NoJob`, so that `close` can see whether that was true. It counts how often a call was refused as
/// `NoMemory`, since such a call may have placed an entry that no list has.
#[derive(Drop)]
pub struct Seat<K: PathKey, V, Q: Asks<K, V>, J: JournalName> {
    pub(crate) number: u32,
    pub(crate) floor: u64,
    pub(crate) list: Vec<Filed<K, V, Q, Q::Item>>,
    pub(crate) full: bool,
    pub(crate) unknown: Option<u64>,
    pub(crate) wanting: u64,
    pub(crate) room: PhantomData<J>,
}

impl<K: PathKey, V, Q: Asks<K, V>, J: JournalName> Model for Seat<K, V, Q, J> {
    ghost use Rattle.bulk_work.specs.Answers as plain;
    ghost use Rattle.locked_map.specs.Seats.{AllOf, Seated, placed_all};

    ghost Value = { Seated K V Q (plain.Summary K V Q.Item) };

    ghost view = { λ s. record { number = s.number; floor = s.floor; list = placed_all s.list.items; full = s.full; unknown = s.unknown } };

    ghost invariant = { λ s. AllOf J.table s.list.items };
}

impl<K: PathKey + Drop, V: Drop, Q: Asks<K, V> + Drop, J: JournalName> Seat<K, V, Q, J> {
    /// A seat that has filed nothing.
    pub(crate) fn new(alloc: Global, number: u32) -> Seat<K, V, Q, J>
        ensures { result ≡ fresh number }
    {
        Seat {
            number,
            floor: 0,
            list: Vec::new(alloc),
            full: false,
            unknown: None,
            wanting: 0,
            room: PhantomData,
        }
    }

    /// The seat's number.
    ///
    /// Cost: O(1), no lock. Refused: never.
    pub fn number(&self) -> u32
        ensures { result ≡ self.now.number }
    {
        self.number
    }

    /// Marks the seat, or counts a `NoMemory`, where a call on this job made no entry for this reason.
    pub(crate) fn mark(&mut self, refusal: Refusal, job: Option<u64>)
        ensures { self.new ≡ marked_by self.old refusal job }
    {
        match refusal {
            Refusal::JournalFull => self.full = true,
            Refusal::NoJob => {
                if self.unknown.is_none() {
                    self.unknown = job;
                }
            }
            Refusal::NoMemory => self.wanting = self.wanting.saturating_add(1),
            _ => (),
        }
    }

    /// Two seats meet: both get the greater floor, so what either does afterwards stands in the journal behind all that
    /// both had done. It makes no entry.
    ///
    /// Cost: O(1), no lock. Refused: never.
    pub fn meet(&mut self, other: &mut Seat<K, V, Q, J>)
        ensures mine { self.new ≡ met self.old other.old }
        ensures theirs { other.new ≡ met other.old self.old }
    {
        let floor = self.floor.max(other.floor);
        self.floor = floor;
        other.floor = floor;
    }
}
