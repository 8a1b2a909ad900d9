//! Equality of views.
ghost use Rattle.std.specs.Prelude.{◌≡◌};
ghost use Rattle.std.specs.Cmp.Lexicographic.{pointwise};
ghost use Rattle.map_view.specs.Questions.{same_pair};

use super::View;
use hash_path::PathKey;
use iter::BunchedPairs;
use stripes::Keeps;
use trie_node::{Slots, walk_lists_map};

/// Views are equal where they have the same keys, each with equal values: where their walks meet equal pairs one after
/// another. No request is made for memory. Views of different lengths are distinguished at once, and others at the
/// first pair that differs.
impl<K: PathKey, V: PartialEq, P: Keeps<K, V>, S: Slots<K, V>> PartialEq for View<K, V, P, S>
where
    S::Key: Drop,
    S::Value: Drop,
{
    ghost use Rattle.std.proofs.Common.{rules};
    ghost use Rattle.std.specs.Cmp.{and_per, on_per};
    ghost use Rattle.std.specs.Cmp.Rules.{comparing};
    ghost use Rattle.std.specs.Cmp.Lexicographic.{lists_per, pointwise};
    ghost use Rattle.map_view.specs.Questions.{same_pair};
    ghost use Rattle.trie_shape.specs.Order.{walked};

    ghost eq = { λ a b. pointwise (same_pair K.eq V.eq) (walked K.cmp K.path_of a) (walked K.cmp K.path_of b) };

    ghost laws = { on_per (walked K.cmp K.path_of) (lists_per (and_per (on_per (λ pair. pair.0) {E = K.eq} (Prim.search (comparing, rules))) (on_per (λ pair. pair.1) V.laws))) };

    fn eq(&self, other: &Self) -> bool {
        walk_lists_map::<K, V>();
        self.len() == other.len() && same_pairs(self.bunched(), other.bunched())
    }
}

// Whether the walks meet equal pairs one after another, and end at once.
fn same_pairs<'a, K: PathKey, V: PartialEq, S: Slots<K, V>>(
    ours: BunchedPairs<'a, K, V, S>,
    mut theirs: BunchedPairs<'a, K, V, S>,
) -> bool
where
    S::Key: Drop,
    S::Value: Drop,
    ensures { result ≡ pointwise (same_pair K.eq V.eq) ours.entry theirs.entry }
{
    for pair in ours {
        match theirs.next() {
            Some(other) => {
                if !are_same::<K, V, S>(pair.0, pair.1, other.0, other.1) {
                    return false;
                }
            }
            None => return false,
        }
    }
    theirs.next().is_none()
}

// Whether two pairs of rows are equal.
fn are_same<K: PathKey, V: PartialEq, S: Slots<K, V>>(
    key: &S::Key,
    value: &S::Value,
    other_key: &S::Key,
    other_value: &S::Value,
) -> bool
    ensures { result ≡ same_pair K.eq V.eq (S.key_of key.now, S.value_of value.now) (S.key_of other_key.now, S.value_of other_value.now) }
{
    let same_key = *S::lend_key(key) == *S::lend_key(other_key);
    let same_value = *S::lend_value(value) == *S::lend_value(other_value);
    same_key && same_value
}
