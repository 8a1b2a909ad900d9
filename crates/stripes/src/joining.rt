//! The pairs of all stripes together.
ghost use Rattle.std.specs.Prelude.{◌≡◌, ◌<◌, ◌≤◌, ◌+◌, ◌*◌, ◌^◌, [], IfOk, IsTrue, length, map};
ghost use Rattle.std.specs.Sync.Mutex.{mutex_guard_value};
ghost use Rattle.hash_path.specs.Digits.{fan_out};
ghost use Rattle.stripe.specs.Rules.{AllKeep, first_digit};
ghost use Rattle.stripes.specs.Stripes.{all_differ, digits_of, map_of_digit, maps_of, unions};
ghost use Rattle.united_roots.specs.Rows.{NoneHasDigit};
ghost use Rattle.versions.specs.Map.{union, value_at};
ghost use Rattle.versions.specs.declared.version.TheConstants.{MOST_PAIRS};

use crate::stripes::Guards;
use hash_path::PathKey;
use std::alloc::Global;
use stripe::{Keeps, MOST_PAIRS_OF_STRIPE, Stripe};
use trie_node::{NoMemory, Slots, union_of_maps};
use united_roots::RootRow;
use versions::{MOST_PAIRS, Version, law_of_equal_maps};
use write_history::Naming;

/// The map of the pairs of all stripes that are held. Their locks are released before its root is made. At each key it
/// has exactly what the stripe of the key's first digit has. Each pair keeps the rule.
///
/// Stripes of different digits share no subtrie below the root, so their map's root has the children of their roots:
/// this makes one branch, however many pairs there are. While the stripes are held it makes no request for memory, since
/// `room` has it; but the clone of a handle may be refused.
pub fn joined<K: PathKey + Drop, V: Drop, P: Keeps<K, V>, J: Naming, S: Slots<K, V>>(
    alloc: Global,
    room: RootRow<K, V, S>,
    held: Guards<'_, K, V, P, J, S>,
) -> Result<Version<K, V, S>, NoMemory>
where
    S::Key: Drop,
    S::Value: Drop,
    requires empty { room.entries ≡ [] }
    requires few { length held.items ≤ fan_out }
    requires differ { IsTrue (all_differ (digits_of (map mutex_guard_value held.items))) }
    ensures at_key { IfOk result (λ joint. (key : K) → value_at K.cmp joint.entries key ≡ value_at K.cmp (map_of_digit (first_digit K.path_of key) (map mutex_guard_value held.entry.items)) key) }
    ensures entries { IfOk result (λ joint. joint.entries ≡ unions K.cmp (maps_of (map mutex_guard_value held.entry.items))) }
    ensures limit { IfOk result (λ joint. joint.limit ≡ MOST_PAIRS) }
    ensures few { IfOk result (λ joint. length joint.entries ≤ length held.entry.items * MOST_PAIRS_OF_STRIPE) }
    ensures kept { IfOk result (λ joint. AllKeep K.cmp P.holds joint.entries) }
{
    let row = children(room, &held)?;
    drop(held);
    map_of_row(alloc, row)
}

/// The children of the roots of all stripes that are held.
pub(crate) fn children<K: PathKey + Drop, V: Drop, P: Keeps<K, V>, J: Naming, S: Slots<K, V>>(
    mut row: RootRow<K, V, S>,
    held: &Guards<'_, K, V, P, J, S>,
) -> Result<RootRow<K, V, S>, NoMemory>
where
    S::Key: Drop,
    S::Value: Drop,
    requires empty { row.entries ≡ [] }
    requires few { length held.now.items ≤ fan_out }
    requires differ { IsTrue (all_differ (digits_of (map mutex_guard_value held.now.items))) }
    ensures at_key { IfOk result (λ all. (key : K) → value_at K.cmp all.entries key ≡ value_at K.cmp (map_of_digit (first_digit K.path_of key) (map mutex_guard_value held.now.items)) key) }
    ensures entries { IfOk result (λ all. all.entries ≡ unions K.cmp (maps_of (map mutex_guard_value held.now.items))) }
    ensures few { IfOk result (λ all. length all.entries ≤ length held.now.items * MOST_PAIRS_OF_STRIPE) }
    ensures kept { IfOk result (λ all. AllKeep K.cmp P.holds all.entries) }
{
    union_of_maps::<K, V>();
    law_of_equal_maps::<K, V>();
    for guard in held {
        let stripe: &Stripe<K, V, P, J, S> = &**guard;
        stripe.law();
        stripe.len();
        row.len();
        row = with_stripe(row, stripe)?;
    }
    row.len();
    Ok(row)
}

// The row once it has the stripe's pairs too. A function that drops less than `children` would has less to prove.
pub(crate) fn with_stripe<K: PathKey + Drop, V: Drop, P: Keeps<K, V>, J: Naming, S: Slots<K, V>>(
    mut row: RootRow<K, V, S>,
    stripe: &Stripe<K, V, P, J, S>,
) -> Result<RootRow<K, V, S>, NoMemory>
where
    S::Key: Drop,
    S::Value: Drop,
    requires none { NoneHasDigit K.cmp K.path_of stripe.now.digit row.entries }
    requires room { length row.entries + length stripe.now.entries < 2 ^ 63 }
    ensures { IfOk result (λ more. more.entries ≡ union K.cmp stripe.now.entries row.entries) }
{
    stripe.law();
    let part = stripe.whole();
    row.take(part.root(), stripe.first_digit(), part.stamp())?;
    Ok(row)
}

/// The map of the row's pairs.
pub(crate) fn map_of_row<K: PathKey + Drop, V: Drop, S: Slots<K, V>>(
    alloc: Global,
    row: RootRow<K, V, S>,
) -> Result<Version<K, V, S>, NoMemory>
where
    S::Key: Drop,
    S::Value: Drop,
    requires { length row.entries ≤ MOST_PAIRS }
    ensures entries { IfOk result (λ map. map.entries ≡ row.entries) }
    ensures limit { IfOk result (λ map. map.limit ≡ MOST_PAIRS) }
{
    let newest = row.newest();
    Ok(Version::from_root(row.into_root(alloc)?, MOST_PAIRS, newest))
}
