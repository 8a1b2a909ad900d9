//! Pairs by their scores.
ghost use Rattle.std.specs.Prelude.{◌≡◌, ◌∷◌, ◌↔◌, ◌≤◌, [], ℕ, suc, IfOk, IsTrue, MatchOption, OnErr, OnOk, drop, length, option_map, slice_get, take};
ghost use Rattle.std.specs.List.{AllByRecursion};
ghost use Rattle.top_pairs.specs.Ranks.{AtLeast, Falls};
ghost use Rattle.top_pairs.specs.Merges.{Below, highest};

use crate::scored::Scored;
use std::alloc::Global;
use std::marker::Model;
use trie_node::{NoMemory, Shared, Slots};

/// Pairs of a map with their scores, from the highest score down.
///
/// <!-- quoted from crates/tests_trie_map/src/tests/ranks.rt -->
/// ```rust
/// let top = map.par_top(&rt, 3, |_, value| *value, four());
/// let top = top.expect(&rt, "no pairs");
/// assert_is(&rt, top.len(), 3);
/// ```
///
/// Contracts see the list of them.
#[derive(Drop)]
pub struct Ranked<K, V, N, S: Slots<K, V> = Shared> {
    items: Vec<Scored<K, V, N, S>>,
}

impl<K, V, N, S: Slots<K, V>> Model for Ranked<K, V, N, S> {
    ghost use Rattle.std.specs.Prelude.{List};
    ghost use Rattle.top_pairs.specs.Ranks.{Listed};

    ghost Value = { List (Listed K V N) };

    ghost view = { λ ranked. ranked.items.items };
}

impl<K, V, N: Ord + Copy, S: Slots<K, V>> Ranked<K, V, N, S>
where
    S::Key: Drop,
    S::Value: Drop,
{
    /// No pairs. It makes no request for memory.
    pub(crate) fn none(alloc: Global) -> Ranked<K, V, N, S>
        ensures { result ≡ [] }
    {
        Ranked {
            items: Vec::new(alloc),
        }
    }

    /// How many pairs are listed.
    ///
    /// Cost: O(1), no lock. Refused: never.
    pub fn len(&self) -> usize
        ensures { result ≡ length self.now }
    {
        self.items.len()
    }

    /// Whether no pair is listed.
    ///
    /// Cost: O(1), no lock. Refused: never.
    pub fn is_empty(&self) -> bool
        ensures { IsTrue result ↔ (self.now ≡ []) }
    {
        self.items.is_empty()
    }

    /// The pair at the index, from 0 for the highest score, or none beyond the last.
    ///
    /// Cost: O(1), no lock. Refused: never.
    pub fn get(&self, index: usize) -> Option<&Scored<K, V, N, S>>
        ensures { option_map (λ item. item.now) result ≡ slice_get self.now index }
    {
        self.items.get(index)
    }

    /// The pairs, from the highest score down.
    ///
    /// Cost: O(1), no lock. Refused: never.
    pub fn as_slice(&self) -> &[Scored<K, V, N, S>]
        ensures { result.now ≡ self.now }
    {
        &self.items
    }

    /// Adds the pair where it is one of the `most` with the highest scores, and drops the last where there would be
    /// more. After `NoMemory` the list is as before.
    ///
    /// A pair that does not get in costs no request for memory and no clone.
    pub(crate) fn offer(
        &mut self,
        most: usize,
        score: N,
        key: &S::Key,
        value: &S::Value,
    ) -> Result<(), NoMemory>
        ensures added { OnOk result (Falls N.cmp self.old → length self.old ≤ most → self.new ≡ highest N.cmp most self.old (record { score = score; key = S.key_of key.now; value = S.value_of value.now } ∷ [])) }
        ensures err { OnErr result (self.new ≡ self.old) }
    {
        let place = place_of(&self.items, &score);
        if place >= most {
            return Ok(());
        }
        let item: Scored<K, V, N, S> = Scored::of(score, key, value)?;
        self.items.insert(place, item)?;
        self.items.truncate(most);
        Ok(())
    }

    /// The `most` pairs of both lists with the highest scores. Its memory is one request.
    pub(crate) fn joined(
        &self,
        alloc: Global,
        other: &Ranked<K, V, N, S>,
        most: usize,
    ) -> Result<Ranked<K, V, N, S>, NoMemory>
        ensures { IfOk result (λ both. both ≡ highest N.cmp most self.now other.now) }
    {
        Ok(Ranked {
            items: merged(alloc, &self.items, &other.items, most)?,
        })
    }
}

// Where the score has its place: behind each pair that scores as high or higher.
fn place_of<K, V, N: Ord + Copy, S: Slots<K, V>>(items: &[Scored<K, V, N, S>], score: &N) -> usize
where
    S::Key: Drop,
    S::Value: Drop,
    ensures bound { result ≤ length items.now }
    ensures before { Falls N.cmp items.now → AllByRecursion (AtLeast N.cmp score.now) (take result items.now) }
    ensures behind { Falls N.cmp items.now → AllByRecursion (Below N.cmp score.now) (drop result items.now) }
{
    let mut low = 0;
    let mut high = items.len();
    while low < high {
        let middle = low + (high - low) / 2;
        if items[middle].score().cmp(score).is_lt() {
            high = middle;
        } else {
            low = middle + 1;
        }
    }
    low
}

// The `most` pairs of both lists with the highest scores.
fn merged<K, V, N: Ord + Copy, S: Slots<K, V>>(
    alloc: Global,
    left: &[Scored<K, V, N, S>],
    right: &[Scored<K, V, N, S>],
    most: usize,
) -> Result<Vec<Scored<K, V, N, S>>, NoMemory>
where
    S::Key: Drop,
    S::Value: Drop,
    ensures { IfOk result (λ both. both.items ≡ highest N.cmp most left.now right.now) }
{
    let count = left.len().saturating_add(right.len()).min(most);
    let mut both = Vec::with_capacity(alloc, count)?;
    let mut first = left;
    let mut second = right;
    for _ in 0..most {
        let Some((item, rest, others)) = next_of(first, second) else {
            return Ok(both);
        };
        both.push(item.try_clone()?)?;
        first = rest;
        second = others;
    }
    Ok(both)
}

// The pair with the highest score of both lists, and what is left of them: of two alike that of the first.
fn next_of<'a, K, V, N: Ord + Copy, S: Slots<K, V>>(
    first: &'a [Scored<K, V, N, S>],
    second: &'a [Scored<K, V, N, S>],
) -> Option<
    (
        &'a Scored<K, V, N, S>,
        &'a [Scored<K, V, N, S>],
        &'a [Scored<K, V, N, S>],
    ),
>
where
    S::Key: Drop,
    S::Value: Drop,
    ensures { MatchOption result ((first.now ≡ []) × (second.now ≡ [])) (λ next. (n : ℕ) → highest N.cmp (suc n) first.now second.now ≡ next.0.now ∷ highest N.cmp n next.1.now next.2.now) }
{
    match (first.split_first(), second.split_first()) {
        (Some((a, _)), Some((b, rest))) if a.score().cmp(&b.score()).is_lt() => Some((
            b, first, rest,
        )),
        (Some((a, rest)), _) => Some((a, rest, second)),
        (None, Some((b, rest))) => Some((b, first, rest)),
        (None, None) => None,
    }
}
