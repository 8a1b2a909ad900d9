//! The removal of all pairs, which is one entry of the history for all stripes.
ghost use Rattle.std.specs.Prelude.{◌≡◌, ◌<◌, ◌∷◌, [], Some, slice_get, drop};
ghost use Rattle.hash_path.specs.Digits.{fan_out};
ghost use Rattle.write_history.specs.Rules.{HasHistory};
ghost use Rattle.stripe.specs.Told.{EndsCleared};

use super::{STRIPES, Stripe};
use crate::empty_map::EmptyMap;
use crate::keeps::Keeps;
use hash_path::PathKey;
use trie_node::Slots;
use write_history::{Cleared, Gathered, Naming};

impl<K: PathKey + Drop, V: Drop, P: Keeps<K, V>, J: Naming, S: Slots<K, V>> Stripe<K, V, P, J, S>
where
    S::Key: Drop,
    S::Value: Drop,
{
    /// Removes all pairs, and lends the right to add to the history. The stripe's marks end before that, and are dropped.
    ///
    /// It has no first digit until `settle`, so a thread that took its lock meanwhile would let it go again.
    pub fn clear(&mut self, empty: EmptyMap<K, V, S>, all: &mut Gathered<K, V, J>)
        requires { self.old.digit < fan_out }
        ensures entries { self.new.entries ≡ [] }
        ensures digit { self.new.digit ≡ fan_out }
        ensures log { self.new.log ≡ self.old.log }
        ensures lent { HasHistory J.book → all.new.digits ≡ self.old.digit ∷ all.old.digits }
        ensures all { all.new.log ≡ all.old.log }
    {
        self.end_marks();
        self.version = empty.into_map();
        self.first_digit = STRIPES;
        self.part.lend(all);
    }

    /// Takes back what it lent, and its first digit.
    pub fn settle(&mut self, first_digit: u32, all: &mut Cleared<K, V, J>)
        requires small { first_digit < fan_out }
        requires lent { self.old.digit ≡ fan_out }
        requires next { HasHistory J.book → slice_get all.old.digits 0 ≡ Some first_digit }
        requires cleared { HasHistory J.book → EndsCleared all.old.log }
        ensures entries { self.new.entries ≡ self.old.entries }
        ensures digit { self.new.digit ≡ first_digit }
        ensures log { self.new.log ≡ all.old.log }
        ensures rest { all.new.digits ≡ drop 1 all.old.digits }
        ensures all { all.new.log ≡ all.old.log }
    {
        self.part.law();
        self.first_digit = first_digit;
        self.part.take_back(all);
    }
}
