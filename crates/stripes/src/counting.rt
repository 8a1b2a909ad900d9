//! How many pairs all stripes have, at one moment of the history.
ghost use Rattle.std.specs.Prelude.{◌≡◌, ◌<◌, ◌≤◌, ◌+◌, ◌-◌, ◌*◌, None, length};
ghost use mathlib.Core.List.{IsPrefix};
ghost use Rattle.hash_path.specs.Digits.{fan_out};
ghost use Rattle.stripe.specs.Rules.{first_digit as digit_of};
ghost use Rattle.stripes.specs.Moments.{LeavesFrom};
ghost use Rattle.versions.specs.Map.{IsMap, Map, value_at};

use crate::stripes::Stripes;
use hash_path::PathKey;
use std::sync::Wait;
use stripe::{Keeps, MOST_PAIRS_OF_STRIPE, STRIPES, Stripe};
use trie_node::{Slots, union_of_maps};
use write_history::{Front, Naming};

impl<K: PathKey + Drop, V: Drop, P: Keeps<K, V>, J: Naming, S: Slots<K, V>> Stripes<K, V, P, J, S>
where
    S::Key: Drop,
    S::Value: Drop,
{
    /// How many pairs the stripes from the digit on have at one moment: as many as the map has that the history leaves
    /// their keys, which the front has seen then. Each stripe is taken once those before it are held.
    pub fn count_from<R: Wait>(&self, rt: &R, digit: u32, front: &mut Front<K, V, J>) -> u64
        requires { digit ≤ fan_out }
        ensures seen { IsPrefix front.old front.new }
        ensures count { (m : Map K V) × LeavesFrom K.cmp K.path_of digit front.new m × (result ≡ length m) }
        ensures few { result ≤ (fan_out - digit) * MOST_PAIRS_OF_STRIPE }
    {
        front.law();
        if digit == STRIPES {
            return 0;
        }
        let mut stripe = self.locked(rt, digit);
        stripe.see(front);
        let rest = self.count_from(rt, digit + 1, front);
        stripe.stands(front);
        with_rest(&stripe, digit, rest)
    }
}

// How many pairs there are with those of a stripe, where the stripes behind it have so many.
fn with_rest<K: PathKey + Drop, V: Drop, P: Keeps<K, V>, J: Naming, S: Slots<K, V>>(
    stripe: &Stripe<K, V, P, J, S>,
    digit: u32,
    rest: u64,
) -> u64
where
    S::Key: Drop,
    S::Value: Drop,
    requires digit { stripe.now.digit ≡ digit }
    requires low { digit < fan_out }
    requires few { rest ≤ (fan_out - (digit + 1)) * MOST_PAIRS_OF_STRIPE }
    ensures few { result ≤ (fan_out - digit) * MOST_PAIRS_OF_STRIPE }
    ensures map { (m : Map K V) → IsMap K.cmp m → ((q : K) → digit_of K.path_of q < digit + 1 → value_at K.cmp m q ≡ None) → rest ≡ length m → (all : Map K V) × IsMap K.cmp all × ((q : K) → digit_of K.path_of q < digit → value_at K.cmp all q ≡ None) × ((q : K) → digit_of K.path_of q ≡ digit → value_at K.cmp all q ≡ value_at K.cmp stripe.now.entries q) × ((q : K) → digit + 1 ≤ digit_of K.path_of q → value_at K.cmp all q ≡ value_at K.cmp m q) × (result ≡ length all) }
{
    union_of_maps::<K, V>();
    stripe.law();
    stripe.len() + rest
}
