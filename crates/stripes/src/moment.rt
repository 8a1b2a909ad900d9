//! The pairs of all stripes at one moment of the history.
ghost use Rattle.std.specs.Prelude.{◌≡◌, ◌<◌, ◌≤◌, ◌+◌, ◌*◌, ℕ, [], IfOk, length};
ghost use mathlib.Core.List.{IsPrefix};
ghost use Rattle.hash_path.specs.Digits.{fan_out};
ghost use Rattle.stripe.specs.Rules.{AllKeep, first_digit as digit_of};
ghost use Rattle.united_roots.specs.Rows.{NoneHasDigit};
ghost use Rattle.versions.specs.Map.{value_at};
ghost use Rattle.versions.specs.declared.version.TheConstants.{MOST_PAIRS};
ghost use Rattle.write_history.specs.Histories.{value_in};

use crate::joining::{map_of_row, with_stripe};
use crate::stripes::Stripes;
use hash_path::PathKey;
use std::alloc::Global;
use std::sync::Wait;
use stripe::{Keeps, MOST_PAIRS_OF_STRIPE, STRIPES, Stripe};
use trie_node::{NoMemory, Slots, union_of_maps};
use united_roots::RootRow;
use versions::Version;
use write_history::{Front, Naming};

impl<K: PathKey + Drop, V: Drop, P: Keeps<K, V>, J: Naming, S: Slots<K, V>> Stripes<K, V, P, J, S>
where
    S::Key: Drop,
    S::Value: Drop,
{
    /// The map of all pairs at one moment: each key has the value that the history leaves it, which the front has seen
    /// then. Each pair keeps the rule.
    ///
    /// Each stripe is taken once those before it are held. While they are held it makes no request for memory, since
    /// `room` has it; but the clone of a handle may be refused.
    pub fn moment<R: Wait>(
        &self,
        rt: &R,
        alloc: Global,
        room: RootRow<K, V, S>,
        front: &mut Front<K, V, J>,
    ) -> Result<Version<K, V, S>, NoMemory>
        requires { room.entries ≡ [] }
        ensures seen { IsPrefix front.old front.new }
        ensures tells { IfOk result (λ map. (q : K) → value_at K.cmp map.entries q ≡ value_in K.cmp K.path_of front.new q) }
        ensures kept { IfOk result (λ map. AllKeep K.cmp P.holds map.entries) }
        ensures limit { IfOk result (λ map. map.limit ≡ MOST_PAIRS) }
    {
        let row = self.moment_from(rt, 0, room, front)?;
        map_of_row(alloc, row)
    }

    // The row once it has the pairs of the stripes from the digit on too. All are held until the last is.
    fn moment_from<R: Wait>(
        &self,
        rt: &R,
        digit: u32,
        row: RootRow<K, V, S>,
        front: &mut Front<K, V, J>,
    ) -> Result<RootRow<K, V, S>, NoMemory>
        requires few { digit ≤ fan_out }
        requires none { (d : ℕ) → digit ≤ d → NoneHasDigit K.cmp K.path_of d row.entries }
        requires size { length row.entries ≤ digit * MOST_PAIRS_OF_STRIPE }
        requires kept { AllKeep K.cmp P.holds row.entries }
        ensures seen { IsPrefix front.old front.new }
        ensures before { IfOk result (λ all. (q : K) → digit_of K.path_of q < digit → value_at K.cmp all.entries q ≡ value_at K.cmp row.entries q) }
        ensures tells { IfOk result (λ all. (q : K) → digit ≤ digit_of K.path_of q → value_at K.cmp all.entries q ≡ value_in K.cmp K.path_of front.new q) }
        ensures size { IfOk result (λ all. length all.entries ≤ fan_out * MOST_PAIRS_OF_STRIPE) }
        ensures kept { IfOk result (λ all. AllKeep K.cmp P.holds all.entries) }
    {
        front.law();
        if digit == STRIPES {
            return Ok(row);
        }
        let mut stripe = self.locked(rt, digit);
        stripe.see(front);
        let more = with_next(row, &stripe, digit)?;
        let all = self.moment_from(rt, digit + 1, more, front)?;
        stripe.stands(front);
        Ok(all)
    }
}

// The row once it has the pairs of the stripe of the next digit.
fn with_next<K: PathKey + Drop, V: Drop, P: Keeps<K, V>, J: Naming, S: Slots<K, V>>(
    row: RootRow<K, V, S>,
    stripe: &Stripe<K, V, P, J, S>,
    digit: u32,
) -> Result<RootRow<K, V, S>, NoMemory>
where
    S::Key: Drop,
    S::Value: Drop,
    requires digit { stripe.now.digit ≡ digit }
    requires few { digit < fan_out }
    requires none { (d : ℕ) → digit ≤ d → NoneHasDigit K.cmp K.path_of d row.entries }
    requires size { length row.entries ≤ digit * MOST_PAIRS_OF_STRIPE }
    requires kept { AllKeep K.cmp P.holds row.entries }
    ensures none { IfOk result (λ more. (d : ℕ) → digit + 1 ≤ d → NoneHasDigit K.cmp K.path_of d more.entries) }
    ensures size { IfOk result (λ more. length more.entries ≤ (digit + 1) * MOST_PAIRS_OF_STRIPE) }
    ensures kept { IfOk result (λ more. AllKeep K.cmp P.holds more.entries) }
    ensures mine { IfOk result (λ more. (q : K) → digit_of K.path_of q ≡ digit → value_at K.cmp more.entries q ≡ value_at K.cmp stripe.now.entries q) }
    ensures before { IfOk result (λ more. (q : K) → digit_of K.path_of q < digit → value_at K.cmp more.entries q ≡ value_at K.cmp row.entries q) }
{
    union_of_maps::<K, V>();
    stripe.law();
    stripe.len();
    row.len();
    let more = with_stripe(row, stripe)?;
    Ok(more)
}
