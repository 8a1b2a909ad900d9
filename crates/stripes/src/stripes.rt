//! The locks of a map.
ghost use Rattle.std.specs.Prelude.{◌≡◌, ◌<◌, ◌≤◌, ◌*◌, ◌-◌, ◌++◌, ◌∷◌, [], IfOk, length, map};
ghost use Rattle.std.specs.Sync.Mutex.{mutex_guard_value};
ghost use Rattle.hash_path.specs.Digits.{digit, fan_out};
ghost use Rattle.stripes.specs.Stripes.{digits_of, maps_of, up_to};

use crate::locks::Locks;
use crossbeam_utils::{Backoff, CachePadded};
use hash_path::{Path, PathKey};
use std::alloc::Global;
use std::sync::{Mutex, MutexGuard, Wait};
use stripe::{EmptyMap, Keeps, MOST_PAIRS_OF_STRIPE, STRIPES, Stripe};
use trie_node::{NoMemory, Shared, Slots};
use write_history::{Authors, Naming, Part, Parts, Unnamed};

// How often a thread that finds a lock taken tries again before it sleeps until the lock is free.
const TRIES: u32 = 20;

/// The stripes of a map, each under a lock of its own that shares no cache line with another.
///
/// No lock says which stripe it keeps, so a thread that has taken one looks.
#[derive(Drop)]
pub struct Stripes<K: PathKey, V, P: Keeps<K, V>, J: Naming = Unnamed, S: Slots<K, V> = Shared> {
    locks: Locks<K, V, P, J, S, S::Key, S::Value>,
    ghost whole: { locks ≡ fan_out },
}

/// Stripes that are all locked.
pub type Guards<'m, K, V, P, J, S = Shared> = Vec<MutexGuard<'m, Stripe<K, V, P, J, S>>>;

impl<K: PathKey + Drop, V: Drop, P: Keeps<K, V>, J: Naming, S: Slots<K, V>> Stripes<K, V, P, J, S>
where
    S::Key: Drop,
    S::Value: Drop,
{
    /// The stripes under locks, in the order of their digits.
    pub fn new(
        alloc: Global,
        stripes: Vec<Stripe<K, V, P, J, S>>,
    ) -> Result<Stripes<K, V, P, J, S>, NoMemory>
        requires { digits_of stripes.items ≡ up_to fan_out }
    {
        let mut locks = Vec::with_capacity(alloc, STRIPES as usize)?;
        for stripe in stripes {
            locks.push(CachePadded::new(Mutex::new(stripe)))?;
        }
        Ok(Stripes {
            locks: Locks::new(locks),
        })
    }

    // What the lock of this place keeps. A lock is mostly held for less time than a thread takes to fall asleep, so a
    // thread that finds it taken tries again, after pauses that grow, before it sleeps.
    fn lock_at<R: Wait>(&self, rt: &R, place: u32) -> MutexGuard<'_, Stripe<K, V, P, J, S>>
        requires { place < fan_out }
    {
        let lock = &self.locks.as_slice()[place as usize];
        let pauses = Backoff::new();
        for _ in 0..TRIES {
            if let Some(stripe) = lock.try_lock() {
                return stripe;
            }
            pauses.snooze();
        }
        lock.lock(rt)
    }

    /// The stripe of the digit, which no other thread has until the guard is dropped.
    pub fn locked<R: Wait>(&self, rt: &R, digit: u32) -> MutexGuard<'_, Stripe<K, V, P, J, S>>
        requires { digit < fan_out }
        ensures { (mutex_guard_value result).digit ≡ digit }
    {
        for _ in rt.forever() {
            let stripe = self.lock_at(rt, digit);
            if stripe.first_digit() == digit {
                return stripe;
            }
        }
        unreachable!()
    }

    /// The stripe of the keys that have this path word.
    pub fn stripe_at<R: Wait>(&self, rt: &R, path: Path) -> MutexGuard<'_, Stripe<K, V, P, J, S>>
        ensures { (mutex_guard_value result).digit ≡ digit path.0 0 }
    {
        self.locked(rt, path.digit(0))
    }

    /// All stripes, in the order of their digits. Each is taken once those before it are held.
    pub fn all<R: Wait>(&self, rt: &R, alloc: Global) -> Result<Guards<'_, K, V, P, J, S>, NoMemory>
        ensures { IfOk result (λ held. digits_of (map mutex_guard_value held.items) ≡ up_to fan_out) }
    {
        let mut held = Vec::with_capacity(alloc, STRIPES as usize)?;
        for digit in 0..STRIPES {
            held = pushed(held, self.locked(rt, digit))?;
        }
        Ok(held)
    }

    /// How many pairs the stripes have, each when it is locked: no two are held at once.
    pub fn approx_len<R: Wait>(&self, rt: &R) -> u64
        ensures { result ≤ fan_out * MOST_PAIRS_OF_STRIPE }
    {
        let mut pairs = 0u64;
        for digit in 0..STRIPES {
            pairs += self.lock_at(rt, digit).len();
        }
        pairs
    }

    /// How many pairs the stripes have, each when it is looked at, or none where one of them is locked. It never waits.
    pub fn try_len(&self) -> Option<u64> {
        let mut pairs = 0u64;
        for lock in self.locks.as_slice() {
            pairs = pairs.saturating_add(lock.try_lock()?.len());
        }
        Some(pairs)
    }

    /// How many pairs the stripes from the digit on have, at one moment when all of them are held.
    pub fn len_from<R: Wait>(&self, rt: &R, digit: u32) -> u64
        requires { digit ≤ fan_out }
        ensures { result ≤ (fan_out - digit) * MOST_PAIRS_OF_STRIPE }
    {
        if digit == STRIPES {
            return 0;
        }
        let stripe = self.locked(rt, digit);
        stripe.len() + self.len_from(rt, digit + 1)
    }
}

// The list with one more at its end.
pub(crate) fn pushed<T: Drop>(mut list: Vec<T>, last: T) -> Result<Vec<T>, NoMemory>
    ensures { IfOk result (λ longer. longer.items ≡ list.items ++ last ∷ []) }
{
    list.push(last)?;
    Ok(list)
}

/// A stripe of each digit, in order, with no pairs and no history.
pub fn empties<K: PathKey + Drop, V: Drop, P: Keeps<K, V>, S: Slots<K, V>>(
    alloc: Global,
) -> Result<Vec<Stripe<K, V, P, Unnamed, S>>, NoMemory>
where
    S::Key: Drop,
    S::Value: Drop,
    ensures { IfOk result (λ stripes. digits_of stripes.items ≡ up_to fan_out) }
{
    let mut stripes = Vec::with_capacity(alloc, STRIPES as usize)?;
    for digit in 0..STRIPES {
        stripes.push(Stripe::empty(alloc, digit, Part::idle())?)?;
    }
    Ok(stripes)
}

/// A stripe of each digit, in order, with no pairs and these parts of a history; and the authors of that history.
pub fn told_empties<K: PathKey + Drop, V: Drop, P: Keeps<K, V>, J: Naming, S: Slots<K, V>>(
    alloc: Global,
    mut parts: Parts<K, V, J>,
) -> Result<(Vec<Stripe<K, V, P, J, S>>, Authors<J>), NoMemory>
where
    S::Key: Drop,
    S::Value: Drop,
    requires { parts.next ≡ 0 }
    ensures digits { IfOk result (λ both. digits_of both.0.items ≡ up_to fan_out) }
    ensures authors { IfOk result (λ both. both.1 ≡ parts.authors) }
{
    let mut stripes = Vec::with_capacity(alloc, STRIPES as usize)?;
    for digit in 0..STRIPES {
        stripes.push(Stripe::empty(alloc, digit, parts.take())?)?;
    }
    Ok((stripes, parts.into_authors()))
}

/// An empty map for each stripe.
pub fn empty_maps<K: PathKey + Drop, V: Drop, S: Slots<K, V>>(
    alloc: Global,
) -> Result<Vec<EmptyMap<K, V, S>>, NoMemory>
where
    S::Key: Drop,
    S::Value: Drop,
    ensures { IfOk result (λ maps. length maps.items ≡ fan_out) }
{
    let mut empty_maps = Vec::with_capacity(alloc, STRIPES as usize)?;
    for digit in 0..STRIPES {
        empty_maps.push(EmptyMap::new(alloc)?)?;
    }
    Ok(empty_maps)
}

/// A fork of each stripe, in order. Where `copies` has room for them it makes no request for memory, but the clone of a
/// handle may be refused.
pub fn forks<K: PathKey + Drop, V: Drop, P: Keeps<K, V>, J: Naming, S: Slots<K, V>>(
    mut copies: Vec<Stripe<K, V, P, Unnamed, S>>,
    held: &Guards<'_, K, V, P, J, S>,
) -> Result<Vec<Stripe<K, V, P, Unnamed, S>>, NoMemory>
where
    S::Key: Drop,
    S::Value: Drop,
    requires { copies.items ≡ [] }
    ensures digits { IfOk result (λ stripes. digits_of stripes.items ≡ digits_of (map mutex_guard_value held.now.items)) }
    ensures maps { IfOk result (λ stripes. maps_of stripes.items ≡ maps_of (map mutex_guard_value held.now.items)) }
{
    for stripe in held {
        copies.push(stripe.fork()?)?;
    }
    Ok(copies)
}
