//! The places of a map with a limit.
ghost use Rattle.std.specs.Prelude.{◌≡◌, IfErr, IfOk, None, Some, false};

use std::sync::atomic::{AtomicU64, Ordering};

/// The places of a map: one for each pair that it may have. Those that are not free are of its pairs, or in the hands of
/// calls that are under way.
#[derive(Drop)]
pub struct Places {
    limit: u64,
    free: AtomicU64,
}

/// A place that a call has taken. Where it is dropped, it is free again.
pub struct Place<'p> {
    places: &'p Places,
}

/// What a write does to the number of pairs.
#[derive(Clone, Copy, Drop)]
pub enum Step {
    /// There are as many as before.
    Same,
    /// There is one more, for which a place has been taken.
    Adds,
    /// There is one less, whose place is then free.
    Removes,
}

impl Places {
    /// So many places, all of them free.
    pub fn new(limit: u64) -> Places
        ensures { result.limit ≡ limit }
    {
        Places {
            limit,
            free: AtomicU64::new(limit),
        }
    }

    /// How many places there are.
    pub fn limit(&self) -> u64
        ensures { result ≡ self.now.limit }
    {
        self.limit
    }

    /// Takes a place, if one is free.
    pub fn take(&self) -> Option<Place<'_>> {
        if self.take_one() {
            Some(Place { places: self })
        } else {
            None
        }
    }

    /// Gives the places of pairs back that are gone.
    pub fn give_back(&self, count: u64) {
        self.free.fetch_add(count, Ordering::SeqCst);
    }

    /// What a key is to have that had a value or not, where a closure made this of it. A new pair takes a place; where
    /// none is free, its value is handed out again.
    pub fn admit<V: Drop>(
        &self,
        had: bool,
        made: Option<V>,
        step: &mut Step,
    ) -> Result<Option<V>, V>
        ensures admitted { IfOk result (λ new. new ≡ made) }
        ensures refused { IfErr result (λ value. (made ≡ Some value) × (had ≡ false)) }
    {
        match (had, made) {
            (false, Some(value)) => {
                if !self.take_one() {
                    return Err(value);
                }
                *step = Step::Adds;
                Ok(Some(value))
            }
            (true, None) => {
                *step = Step::Removes;
                Ok(None)
            }
            (_, made) => Ok(made),
        }
    }

    /// Ends such a write, which was done or was not: the place of a pair that is gone, or that was not put, is free.
    pub fn settle(&self, step: Step, done: bool) {
        match (step, done) {
            (Step::Adds, false) | (Step::Removes, true) => self.give_back(1),
            _ => {}
        }
    }

    // Takes a place, if one is free, and returns whether it did.
    fn take_one(&self) -> bool {
        self.free
            .fetch_update(Ordering::SeqCst, Ordering::SeqCst, |free| {
                free.checked_sub(1)
            })
            .is_ok()
    }
}

impl Place<'_> {
    /// Leaves the place to a pair that was put.
    pub fn keep(self) {
        let Place { places: _ } = self;
    }
}

impl Drop for Place<'_> {
    fn drop(self) {
        self.places.give_back(1);
        let Place { places: _ } = self;
    }
}
