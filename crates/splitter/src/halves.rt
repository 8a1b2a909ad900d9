//! Where a piece is cut.

ghost use Rattle.std.specs.Prelude.{◌≡◌, ◌+◌, ◌<◌, ◌≤◌, ◌^◌, Some, None, IfOk, MatchOption};
ghost use Rattle.hash_path.specs.Digits.{word_bits};
ghost use Rattle.trie_shape.specs.View.{tree};
ghost use Rattle.iter.specs.Intervals.{part};
ghost use Rattle.splitter.specs.Cuts.{middle_of, words_of};
ghost use Rattle.splitter.specs.Laws.{below, from};
ghost use Rattle.splitter.specs.Places.{IsPlace};
ghost use Rattle.splitter.specs.Spots.{IsCutAt, IsDivided};

use crate::digits::nth_digit;
use crate::piece::Piece;
use crate::place::{Spot, count_between};
use hash_path::laws::{
    digits_determine_word, position_is_bijection, positions_follow_digits,
    shared_digits_are_interval,
};
use hash_path::{Bound, PathKey, Word, weight_at};
use iter::{Interval, intervals_tile, parts_follow_intervals};
use trie_node::{
    Look, NoMemory, Slots, bitmap_counts_children, branch_is_its_children, child,
    leaf_is_its_pairs, look, trie_follows_digits, walk_lists_map,
};

impl<K: PathKey, V, S: Slots<K, V>> Piece<K, V, S> {
    /// The branch at which the pairs of the piece part, where they have two path words or more: there
    /// two of its children or more have them.
    fn cut_spot(&self) -> Option<Spot<'_, K, V, S>>
        ensures { IsCutAt K.cmp K.path_of self.now.map self.now.interval result }
    {
        bitmap_counts_children::<K, V>();
        branch_is_its_children::<K, V>();
        digits_determine_word();
        leaf_is_its_pairs::<K, V>();
        parts_follow_intervals::<K, V>();
        position_is_bijection();
        shared_digits_are_interval();
        trie_follows_digits::<K, V>();
        walk_lists_map::<K, V>();
        let mut spot = self.spot();
        while spot.to - spot.from == 1 {
            let only = child(spot.branch, spot.from);
            let Look::Branch(bitmap) = look(only) else {
                return None;
            };
            let digit = nth_digit(spot.bitmap, spot.from);
            spot = Spot {
                branch: only,
                bitmap,
                level: spot.level + 1,
                base: spot.base + Word::from(digit) * weight_at(spot.level),
                from: 0,
                to: bitmap.count_ones(),
            };
        }
        if spot.from == spot.to {
            return None;
        }
        Some(spot)
    }
}

impl<K: PathKey, V, S: Slots<K, V>> Piece<K, V, S>
where
    S::Key: Drop,
    S::Value: Drop,
{
    /// The pairs of the view in an interval, which some children of the spot have.
    fn half(
        &self,
        spot: &Spot<'_, K, V, S>,
        interval: Interval,
        from: u32,
        to: u32,
    ) -> Result<Piece<K, V, S>, NoMemory>
        requires order { interval.lo ≤ interval.hi }
        requires within { interval.hi ≤ 2 ^ word_bits }
        requires place { IsPlace K.cmp K.path_of self.now.map interval (tree spot.now.branch.now) spot.now.bitmap spot.now.level spot.now.base from to }
        ensures { IfOk result (λ half. half ≡ record self.now { interval = interval }) }
    {
        branch_is_its_children::<K, V>();
        parts_follow_intervals::<K, V>();
        trie_follows_digits::<K, V>();
        walk_lists_map::<K, V>();
        let count = count_between(spot.branch, from, to);
        let place = spot.place(from, to)?;
        let Ok(view) = self.view.try_clone() else {
            drop(place);
            return Err(NoMemory);
        };
        let half = Piece {
            view,
            interval,
            count,
            place: Some(place),
            alloc: self.alloc,
        };
        Ok(half)
    }

    /// Where the pairs of the spot are divided: the number of the first child of the upper half, and the position at
    /// which its words begin.
    fn middle(&self, spot: &Spot<'_, K, V, S>) -> (u32, Bound)
        requires many { spot.now.from + 1 < spot.now.to }
        requires place { IsPlace K.cmp K.path_of self.now.map self.now.interval (tree spot.now.branch.now) spot.now.bitmap spot.now.level spot.now.base spot.now.from spot.now.to }
        ensures { IsDivided K.cmp K.path_of self.now.map self.now.interval spot.now result.0 result.1 }
    {
        bitmap_counts_children::<K, V>();
        branch_is_its_children::<K, V>();
        digits_determine_word();
        intervals_tile();
        parts_follow_intervals::<K, V>();
        position_is_bijection();
        positions_follow_digits();
        shared_digits_are_interval();
        trie_follows_digits::<K, V>();
        walk_lists_map::<K, V>();
        // Read for the piece's invariant.
        let _ = &self.view;
        let half = spot.from + (spot.to - spot.from) / 2;
        let mid = spot.base + Word::from(nth_digit(spot.bitmap, half)) * weight_at(spot.level);
        (half, Bound::from(mid))
    }

    /// The pieces below the middle and from there on, where the piece has a middle.
    pub(crate) fn halves(&self) -> Result<Option<(Piece<K, V, S>, Piece<K, V, S>)>, NoMemory>
        ensures middle { IfOk result (λ halves. MatchOption halves (middle_of (words_of K.path_of (part K.path_of self.now.map self.now.interval)) ≡ None) (λ two. middle_of (words_of K.path_of (part K.path_of self.now.map self.now.interval)) ≡ Some two.0.interval.hi)) }
        ensures lower { IfOk result (λ halves. MatchOption halves (Unit {0}) (λ two. two.0 ≡ record self.now { interval = below self.now.interval two.0.interval.hi })) }
        ensures upper { IfOk result (λ halves. MatchOption halves (Unit {0}) (λ two. two.1 ≡ record self.now { interval = from self.now.interval two.0.interval.hi })) }
    {
        let Some(spot) = self.cut_spot() else {
            return Ok(None);
        };
        let (half, mid) = self.middle(&spot);
        let (lo, hi) = (self.lo(), self.hi());
        let lower = self.half(&spot, Interval { lo, hi: mid }, spot.from, half)?;
        let Ok(upper) = self.half(&spot, Interval { lo: mid, hi }, half, spot.to) else {
            drop(lower);
            return Err(NoMemory);
        };
        Ok(Some((lower, upper)))
    }
}
