//! Leaves and buckets that a pair is put into where they stand.

ghost use Rattle.std.specs.Prelude.{◌≡◌, ◌<◌, ℕ, length, map, is_some, true, T, MatchResult, IfOk, OnErr, None};
ghost use Rattle.std.specs.FinMap.{find as first_of, is_sorted};
ghost use Rattle.std.specs.declared.cmp.Ordering.TheVariants.{Equal};
ghost use Rattle.trie_shape.specs.Tree.{KeysHaveWord, bucket};
ghost use Rattle.trie_shape.specs.View.{pair_values};
ghost use Rattle.trie_puts.specs.Buckets.{PutsAmong, PutsAt};
ghost use Rattle.trie_puts.specs.PutInPlace.{GoesTo, is_refusable};
ghost use Rattle.trie_copy.specs.Removals.{IsAt};

use crate::change::Change;
use hash_path::{Path, PathKey};
use slots::{Pair, Slots};
use std::cmp::Ordering;
use trie_copy::{NewPair, holds_of, holds_of_absent};
use trie_shape::{Condition, NoMemory, Stamp};

/// Whether pairs of one path word have this one.
pub(crate) fn have_path<K: PathKey, V, S: Slots<K, V>>(pairs: &[Pair<K, V, S>], path: Path) -> bool
    requires { 0 < length pairs.now }
    ensures { (w : ℕ) → KeysHaveWord K.cmp K.path_of w (map pair_values pairs.now) → result ≡ true → KeysHaveWord K.cmp K.path_of path.0 (map pair_values pairs.now) }
{
    pairs[0].key().path() == path
}

/// How the key of the entry compares with that of a pair.
pub(crate) fn compare_keys<K: PathKey, V, S: Slots<K, V>>(
    entry: &NewPair<K, V, S>,
    pair: &Pair<K, V, S>,
) -> Ordering
    ensures { result ≡ K.cmp entry.now.pair.0 pair.now.0 }
{
    entry.pair.key().cmp(pair.key())
}

/// The place of the key among pairs in the order of their keys, or else the place where it goes.
fn place_among<K: PathKey, V, S: Slots<K, V>>(
    pairs: &[Pair<K, V, S>],
    key: &K,
) -> Result<usize, usize>
    requires { T (is_sorted K.cmp (map pair_values pairs.now)) }
    ensures { MatchResult result (λ i. IsAt K.cmp key.now i (map pair_values pairs.now)) (λ i. GoesTo K.cmp key.now i (map pair_values pairs.now)) }
{
    for i in 0..pairs.len() {
        match key.cmp(pairs[i].key()) {
            Ordering::Less => return Err(i),
            Ordering::Equal => return Ok(i),
            Ordering::Greater => {}
        }
    }
    Err(pairs.len())
}

/// A put into the pair that has the key of the entry: a leaf's, or one of a bucket's.
pub(crate) fn put_in_pair<K: PathKey, V, S: Slots<K, V>, C: Condition<V>>(
    stamp: &mut Stamp,
    pair: &mut Pair<K, V, S>,
    entry: NewPair<K, V, S>,
    condition: &C,
) -> Result<Change<V, S>, NoMemory>
where
    S::Key: Drop,
    S::Value: Drop,
    ensures ok { IfOk result (λ change. PutsAt S.value_of K.cmp K.path_of entry (C.holds condition.now) stamp.old.0 (pair_values pair.old) change stamp.new.0 (pair_values pair.new)) }
    ensures err { OnErr result ((stamp.new ≡ stamp.old) × (pair.new ≡ pair.old)) }
{
    if !holds_of(condition, pair.value()) {
        let previous = S::another_value(pair.value_slot())?;
        return Ok(Change {
            previous: Some(previous),
            written: false,
        });
    }
    let NewPair {
        pair: new_pair,
        stamp: new_stamp,
        ..
    } = entry;
    *stamp = new_stamp;
    let previous = pair.exchange(new_pair.into_value());
    Ok(Change {
        previous: Some(previous),
        written: true,
    })
}

/// A put of a pair at the place where it goes among a bucket's, where the condition holds of an
/// absent key.
fn insert_pair<K: PathKey, V, S: Slots<K, V>, C: Condition<V>>(
    stamp: &mut Stamp,
    pairs: &mut Vec<Pair<K, V, S>>,
    at: usize,
    entry: NewPair<K, V, S>,
    condition: &C,
) -> Result<Change<V, S>, NoMemory>
where
    S::Key: Drop,
    S::Value: Drop,
    requires goes { GoesTo K.cmp entry.pair.0 at (map pair_values pairs.old.items) }
    requires word { KeysHaveWord K.cmp K.path_of (K.path_of entry.pair.0) (map pair_values pairs.old.items) }
    ensures ok { IfOk result (λ change. PutsAmong S.value_of K.cmp K.path_of entry (C.holds condition.now) stamp.old.0 (map pair_values pairs.old.items) change stamp.new.0 (map pair_values pairs.new.items)) }
    ensures due { OnErr result (C.holds condition.now None ≡ true) }
    ensures err { OnErr result ((stamp.new ≡ stamp.old) × (pairs.new.items ≡ pairs.old.items)) }
{
    if !holds_of_absent(condition) {
        return Ok(Change {
            previous: None,
            written: false,
        });
    }
    let NewPair {
        pair,
        stamp: new_stamp,
        ..
    } = entry;
    if pairs.insert(at, pair).is_err() {
        return Err(NoMemory);
    }
    *stamp = new_stamp;
    Ok(Change {
        previous: None,
        written: true,
    })
}

/// A put among the pairs of a bucket, which have the path word of the entry's key.
pub(crate) fn put_in_pairs<K: PathKey, V, S: Slots<K, V>, C: Condition<V>>(
    stamp: &mut Stamp,
    pairs: &mut Vec<Pair<K, V, S>>,
    entry: NewPair<K, V, S>,
    condition: &C,
) -> Result<Change<V, S>, NoMemory>
where
    S::Key: Drop,
    S::Value: Drop,
    requires sorted { T (is_sorted K.cmp (map pair_values pairs.old.items)) }
    requires word { KeysHaveWord K.cmp K.path_of (K.path_of entry.pair.0) (map pair_values pairs.old.items) }
    ensures ok { IfOk result (λ change. PutsAmong S.value_of K.cmp K.path_of entry (C.holds condition.now) stamp.old.0 (map pair_values pairs.old.items) change stamp.new.0 (map pair_values pairs.new.items)) }
    ensures due { OnErr result (is_refusable (C.holds condition.now) (first_of K.cmp entry.pair.0 (map pair_values pairs.old.items)) ≡ true) }
    ensures err { OnErr result (bucket stamp.new.0 (map pair_values pairs.new.items) ≡ bucket stamp.old.0 (map pair_values pairs.old.items)) }
{
    match place_among(pairs.as_slice(), entry.pair.key()) {
        Ok(at) => put_in_pair(stamp, &mut pairs[at], entry, condition),
        Err(at) => insert_pair(stamp, pairs, at, entry, condition),
    }
}
