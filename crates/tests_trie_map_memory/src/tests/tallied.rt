//! Keys that count how often they are hashed and compared.

use hash_path::{Path, PathKey};
use std::alloc::Global;
use std::cmp::Ordering as Order;
use std::marker::Model;
use std::process::Abort;
use std::sync::atomic::{AtomicU32, Ordering};
use std::sync::{Arc, Wait};
use trie_map::TrieMap;

/// How many pairs there are.
pub const MANY: u64 = 1_000;

/// How often keys were hashed, and compared.
#[derive(Drop)]
pub struct Tally {
    hashed: Arc<AtomicU32, Global>,
    compared: Arc<AtomicU32, Global>,
}

// A count that is shared.
fn none_yet<R: AllocGlobal + Abort>(rt: &R) -> Arc<AtomicU32, Global> {
    Arc::new(rt.alloc(), AtomicU32::new(0)).expect(rt, "no count")
}

// Another handle on it.
fn again(rt: &impl Abort, count: &Arc<AtomicU32, Global>) -> Arc<AtomicU32, Global> {
    Arc::try_clone(count).expect(rt, "too many handles")
}

impl Tally {
    /// None yet.
    pub fn new<R: AllocGlobal + Abort>(rt: &R) -> Tally {
        Tally {
            hashed: none_yet(rt),
            compared: none_yet(rt),
        }
    }

    /// The number as a key.
    pub fn key(&self, rt: &impl Abort, number: u64) -> Tallied {
        Tallied {
            number,
            hashed: again(rt, &self.hashed),
            compared: again(rt, &self.compared),
        }
    }

    /// How often they were since this was last asked.
    pub fn take(&self) -> (u32, u32) {
        (
            self.hashed.swap(0, Ordering::SeqCst),
            self.compared.swap(0, Ordering::SeqCst),
        )
    }
}

/// A number as a key that is counted where it is hashed or compared. Contracts see the number alone.
#[derive(Drop)]
pub struct Tallied {
    number: u64,
    hashed: Arc<AtomicU32, Global>,
    compared: Arc<AtomicU32, Global>,
}

impl Model for Tallied {
    ghost use Rattle.std.specs.Prelude.{ℕ};

    ghost Value = { ℕ };

    ghost view = { λ key. key.number };
}

impl PartialEq for Tallied {
    ghost use Rattle.std.specs.Prelude.{◌==◌};
    ghost use Rattle.std.proofs.Common.{rules};
    ghost use Rattle.std.specs.Cmp.Rules.{comparing};

    ghost eq = { λ a b. a == b };

    ghost laws = { Prim.search (comparing, rules) };

    fn eq(&self, other: &Tallied) -> bool {
        self.compared.fetch_add(1, Ordering::SeqCst);
        self.number == other.number
    }
}

impl Eq for Tallied {
    ghost use Rattle.std.proofs.Common.{rules};
    ghost use Rattle.std.specs.Cmp.Rules.{comparing};

    ghost laws = { Prim.search (comparing, rules) };
}

impl PartialOrd for Tallied {
    ghost use Rattle.std.specs.Ordering.{as_partial_cmp, nat_cmp};
    ghost use Rattle.std.proofs.Common.{rules};
    ghost use Rattle.std.specs.Cmp.{partial_order_from_own_ties};
    ghost use Rattle.std.specs.Cmp.Rules.{comparing};

    ghost partial_cmp = { as_partial_cmp nat_cmp };

    ghost laws = { partial_order_from_own_ties (Prim.search (comparing, rules)) (Prim.search (comparing, rules)) };

    fn partial_cmp(&self, other: &Tallied) -> Option<Order> {
        Some(self.cmp(other))
    }
}

impl Ord for Tallied {
    ghost use Rattle.std.specs.Ordering.{nat_cmp};
    ghost use Rattle.std.proofs.Common.{rules};
    ghost use Rattle.std.specs.Cmp.Rules.{comparing};

    ghost cmp = { nat_cmp };

    ghost total = { Prim.search (comparing, rules) };

    ghost matches_partial_cmp = { Prim.search (comparing, rules) };

    ghost matches_eq = { Prim.search (comparing, rules) };

    fn cmp(&self, other: &Tallied) -> Order {
        self.compared.fetch_add(1, Ordering::SeqCst);
        self.number.cmp(&other.number)
    }
}

impl PathKey for Tallied {
    ghost use Rattle.hash_path.specs.Integers.{bytes_path, bytes_path-below};
    ghost use Rattle.std.proofs.lemmas.Map.Lookups.{exact_unsigned};
    ghost use Rattle.std.specs.Int.{w64};

    ghost path_of = { bytes_path w64 };

    ghost exact = { exact_unsigned };

    ghost small = { bytes_path-below w64 };

    fn path(&self) -> Path {
        self.hashed.fetch_add(1, Ordering::SeqCst);
        self.number.path()
    }
}

/// A map of such keys.
pub type Tallies = TrieMap<Tallied, u64>;

/// A map of many numbers, each with itself.
pub fn filled<R: AllocGlobal + Wait + Abort>(rt: &R, tally: &Tally) -> Tallies {
    let map = TrieMap::new(rt).expect(rt, "no map");
    for number in 0..MANY {
        map.put(rt, tally.key(rt, number), number)
            .expect(rt, "not put");
    }
    map
}
