//! A map parted into stripes, which take the place of those that are held.
ghost use Rattle.std.specs.Prelude.{◌≡◌, ◌<◌, ◌≤◌, [], All, Err, IfErr, IfOk, IsTrue, length, map};
ghost use Rattle.std.specs.Sync.Mutex.{mutex_guard_value};
ghost use Rattle.hash_path.specs.Digits.{fan_out};
ghost use Rattle.stripe.specs.Rules.{AllKeep, IsPutRefusal, first_digit};
ghost use Rattle.stripe.specs.Contents.{IsPart};
ghost use Rattle.stripes.specs.Stripes.{all_differ, digits_of, map_of_digit, maps_of, unions, up_to};
ghost use Rattle.versions.specs.Map.{value_at};
ghost use Rattle.versions.specs.declared.version.TheConstants.{MOST_PAIRS};

use crate::joining::{children, map_of_row};
use crate::stripes::Guards;
use hash_path::PathKey;
use std::alloc::Global;
use stripe::{Keeps, MOST_PAIRS_OF_STRIPE, STRIPES, Stripe};
use trie_node::{NoMemory, Slots};
use united_roots::RootRow;
use versions::{Refusal, Version};
use write_history::{Naming, Unnamed};

/// The stripes of a map, in the order of their digits: each has at the keys of its digit what the map has, and no other
/// key. They share every node with the map but their roots, of which 32 are made.
///
/// The error is `Full` where one of them would have more pairs than a stripe may hold, and `NoMemory` if memory runs out.
pub fn parted<K: PathKey + Drop, V: Drop, P: Keeps<K, V>, S: Slots<K, V>>(
    alloc: Global,
    whole: &Version<K, V, S>,
) -> Result<Vec<Stripe<K, V, P, Unnamed, S>>, Refusal>
where
    S::Key: Drop,
    S::Value: Drop,
    requires rule { AllKeep K.cmp P.holds whole.now.entries }
    ensures parts { IfOk result (λ stripes. All (IsPart K.cmp K.path_of whole.now.entries) stripes.items) }
    ensures digits { IfOk result (λ stripes. digits_of stripes.items ≡ up_to fan_out) }
    ensures full { result ≡ Err Refusal.Full → MOST_PAIRS_OF_STRIPE < length whole.now.entries }
    ensures err { IfErr result IsPutRefusal }
{
    let mut stripes = Vec::with_capacity(alloc, STRIPES as usize)?;
    for digit in 0..STRIPES {
        stripes.push(Stripe::part_of(alloc, whole, digit)?)?;
    }
    Ok(stripes)
}

/// The map of the pairs of all stripes that are held, as by `joined`, while they stay held: the one request for memory is
/// for the root.
pub fn joined_while_held<K: PathKey + Drop, V: Drop, P: Keeps<K, V>, J: Naming, S: Slots<K, V>>(
    alloc: Global,
    room: RootRow<K, V, S>,
    held: &Guards<'_, K, V, P, J, S>,
) -> Result<Version<K, V, S>, NoMemory>
where
    S::Key: Drop,
    S::Value: Drop,
    requires empty { room.entries ≡ [] }
    requires few { length held.now.items ≤ fan_out }
    requires differ { IsTrue (all_differ (digits_of (map mutex_guard_value held.now.items))) }
    ensures at_key { IfOk result (λ joint. (key : K) → value_at K.cmp joint.entries key ≡ value_at K.cmp (map_of_digit (first_digit K.path_of key) (map mutex_guard_value held.now.items)) key) }
    ensures entries { IfOk result (λ joint. joint.entries ≡ unions K.cmp (maps_of (map mutex_guard_value held.now.items))) }
    ensures limit { IfOk result (λ joint. joint.limit ≡ MOST_PAIRS) }
    ensures kept { IfOk result (λ joint. AllKeep K.cmp P.holds joint.entries) }
{
    let row = children(room, held)?;
    map_of_row(alloc, row)
}

/// Exchanges the pairs of each stripe that is held with those of the other stripe of its digit, and lets the lock go then.
/// What the locks kept is in the others afterwards, which have to be dropped when no lock is held.
pub fn exchange_all<K: PathKey + Drop, V: Drop, P: Keeps<K, V>, S: Slots<K, V>>(
    held: Guards<'_, K, V, P, Unnamed, S>,
    others: &mut Vec<Stripe<K, V, P, Unnamed, S>>,
)
where
    S::Key: Drop,
    S::Value: Drop,
{
    for mut stripe in held {
        exchange_with(&mut stripe, others);
    }
}

// Exchanges the stripe's pairs with those of the stripe of its digit among others that stand in the order of their digits.
fn exchange_with<K: PathKey + Drop, V: Drop, P: Keeps<K, V>, S: Slots<K, V>>(
    stripe: &mut Stripe<K, V, P, Unnamed, S>,
    others: &mut [Stripe<K, V, P, Unnamed, S>],
)
where
    S::Key: Drop,
    S::Value: Drop,
    ensures digit { stripe.new.digit ≡ stripe.old.digit }
    ensures beside { length others.new ≡ length others.old }
{
    let digit = stripe.first_digit();
    if let Some(other) = others.get_mut(digit as usize) {
        if other.first_digit() == digit {
            stripe.exchange(other);
        }
    }
}
