//! Buckets that lose a pair where they stand.

ghost use Rattle.std.specs.Prelude.{◌≡◌, ◌<◌, length, map, is_some, true, IfOk, OnErr};
ghost use Rattle.std.specs.FinMap.{find as first_of};
ghost use Rattle.trie_shape.specs.Tree.{bucket};
ghost use Rattle.trie_shape.specs.View.{pair_values};
ghost use Rattle.trie_removals.specs.RemovalInPlace.{TakesFrom};

use crate::removal_in_place::RemovedIn;
use hash_path::{PathKey, Sought};
use slots::{Pair, Slots};
use trie_copy::{holds_of, place_of};
use trie_shape::{Condition, NoMemory, Stamp};

/// The removal of the key from a bucket of these pairs, of which one at least is left.
pub(crate) fn remove_from_pairs<K: PathKey, V, S: Slots<K, V>, Q: Sought<K>, C: Condition<V>>(
    stamp: &mut Stamp,
    pairs: &mut Vec<Pair<K, V, S>>,
    key: Q,
    new_stamp: Stamp,
    condition: &C,
) -> Result<RemovedIn<V, S>, NoMemory>
where
    S::Key: Drop,
    S::Value: Drop,
    requires { 1 < length pairs.old.items }
    ensures ok { IfOk result (λ removed. TakesFrom S.value_of K.cmp K.path_of new_stamp.0 (Q.key_of key) (C.holds condition.now) stamp.old.0 (map pair_values pairs.old.items) removed stamp.new.0 (map pair_values pairs.new.items)) }
    ensures due { OnErr result (is_some (first_of K.cmp (Q.key_of key) (map pair_values pairs.old.items)) ≡ true) }
    ensures err { OnErr result (bucket stamp.new.0 (map pair_values pairs.new.items) ≡ bucket stamp.old.0 (map pair_values pairs.old.items)) }
{
    let Some(at) = place_of(pairs.as_slice(), key) else {
        return Ok(RemovedIn::Nothing(None));
    };
    if !holds_of(condition, pairs[at].value()) {
        let value = S::another_value(pairs[at].value_slot())?;
        return Ok(RemovedIn::Nothing(Some(value)));
    }
    let pair = pairs.remove(at);
    *stamp = new_stamp;
    Ok(RemovedIn::Left(pair.into_value()))
}
