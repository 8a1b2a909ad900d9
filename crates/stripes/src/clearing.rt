//! The removal of all pairs of a map, at one moment.
ghost use Rattle.std.specs.Prelude.{◌≡◌, ◌≤◌, ◌++◌, ◌∷◌, [], List, drop, length, map};
ghost use Rattle.std.specs.Sync.Mutex.{mutex_guard_value};
ghost use mathlib.Core.List.{IsPrefix};
ghost use Rattle.hash_path.specs.Digits.{fan_out};
ghost use Rattle.stripes.specs.Stripes.{digits_of, up_to};
ghost use Rattle.write_history.specs.declared.entry.Entry.{Entry};
ghost use Rattle.write_history.specs.declared.entry.Write.TheVariants.{Clear};
ghost use Rattle.write_history.specs.Rules.{HasHistory};
ghost use Rattle.write_history.specs.Signers.{Made, signed_once};

use crate::stripes::Guards;
use hash_path::PathKey;
use stripe::{EmptyMap, Keeps};
use trie_node::Slots;
use write_history::{Author, Cleared, Gathered, Naming};

/// Removes all pairs of all stripes, which are held, an empty map for each. It is one entry of the history, which the
/// author signs. Each stripe is let go then, and the history up to that entry is returned.
///
/// `all` has no right of a stripe yet.
pub fn clear_all<K: PathKey + Drop, V: Drop, P: Keeps<K, V>, J: Naming, S: Slots<K, V>>(
    held: Guards<'_, K, V, P, J, S>,
    empty_maps: Vec<EmptyMap<K, V, S>>,
    all: Gathered<K, V, J>,
    author: &mut Author<J>,
) -> Cleared<K, V, J>
where
    S::Key: Drop,
    S::Value: Drop,
    requires digits { digits_of (map mutex_guard_value held.items) ≡ up_to fan_out }
    requires maps { length empty_maps.items ≡ fan_out }
    requires none { all.digits ≡ [] }
    ensures wrote { HasHistory J.book → (h : List (Entry K V)) × IsPrefix all.log h × Made K.path_of author.old h × (result.log ≡ h ++ record { by = author.old.by; write = Clear } ∷ []) }
    ensures author { author.new ≡ signed_once author.old }
{
    clear_from(held, empty_maps, all, author)
}

// The same of the stripes before some that have lent their rights to `all`, and are held too.
fn clear_from<K: PathKey + Drop, V: Drop, P: Keeps<K, V>, J: Naming, S: Slots<K, V>>(
    mut held: Guards<'_, K, V, P, J, S>,
    mut empty_maps: Vec<EmptyMap<K, V, S>>,
    mut all: Gathered<K, V, J>,
    author: &mut Author<J>,
) -> Cleared<K, V, J>
where
    S::Key: Drop,
    S::Value: Drop,
    requires digits { digits_of (map mutex_guard_value held.items) ≡ up_to (length held.items) }
    requires few { length held.items ≤ fan_out }
    requires maps { length empty_maps.items ≡ length held.items }
    requires behind { HasHistory J.book → all.digits ≡ drop (length held.items) (up_to fan_out) }
    ensures wrote { HasHistory J.book → (h : List (Entry K V)) × IsPrefix all.log h × Made K.path_of author.old h × (result.log ≡ h ++ record { by = author.old.by; write = Clear } ∷ []) }
    ensures rest { HasHistory J.book → result.digits ≡ drop (length held.entry.items) (up_to fan_out) }
    ensures author { author.new ≡ signed_once author.old }
{
    match held.pop() {
        Some(mut stripe) => match empty_maps.pop() {
            Some(empty) => {
                let digit = stripe.first_digit();
                stripe.clear(empty, &mut all);
                let mut cleared = clear_from(held, empty_maps, all, author);
                stripe.settle(digit, &mut cleared);
                cleared
            }
            None => all.clear(author),
        },
        None => all.clear(author),
    }
}
