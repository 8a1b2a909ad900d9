//! A piece of a view.

ghost use Rattle.std.specs.Prelude.{◌≡◌, ◌≤◌, ◌^◌, length, IfOk};
ghost use Rattle.hash_path.specs.Digits.{word_bits};
ghost use Rattle.trie_shape.specs.Map.{IsMap};
ghost use Rattle.trie_shape.specs.Order.{walked};
ghost use Rattle.trie_shape.specs.View.{tree};
ghost use Rattle.versions.specs.declared.version.TheConstants.{MOST_PAIRS};
ghost use Rattle.iter.specs.Intervals.{part, whole};
ghost use Rattle.splitter.specs.Places.{IsPlace};

use crate::place::{Place, Spot};
use hash_path::{Bound, PathKey, WORD_BITS};
use iter::{BunchedPairs, Interval, Pairs, parts_follow_intervals};
use std::alloc::Global;
use std::marker::Model;
use trie_node::{
    Look, NoMemory, Shared, Slots, bitmap_counts_children, branch_is_its_children, look,
    root_walks_in_order, trie_follows_digits, walk_lists_map,
};
use versions::View;

/// The pairs of a view whose positions lie in an interval.
#[derive(Drop)]
pub struct Piece<K: PathKey, V, S: Slots<K, V> = Shared> {
    pub(crate) view: View<K, V, S>,
    pub(crate) interval: Interval,
    pub(crate) count: u64,
    pub(crate) place: Option<Place<K, V, S>>,
    pub(crate) alloc: Global,
}

impl<K: PathKey, V, S: Slots<K, V>> Model for Piece<K, V, S> {
    ghost use Rattle.splitter.specs.Portion.{Portion};
    ghost use Rattle.splitter.specs.Spots.{IsPortion};

    ghost Value = { Portion K V };

    ghost view = { λ a. record { map = a.view; interval = a.interval } };

    ghost invariant = { λ a. IsPortion K.cmp K.path_of a.view a.interval a.count a.place };
}

/// The piece of all pairs of the view. It makes no request for memory.
pub fn whole<K: PathKey, V, S: Slots<K, V>>(alloc: Global, view: View<K, V, S>) -> Piece<K, V, S>
    ensures { result ≡ record { map = view; interval = whole } }
{
    parts_follow_intervals::<K, V>();
    let count = view.len();
    Piece {
        view,
        interval: Interval {
            lo: 0,
            hi: 1 << WORD_BITS,
        },
        count,
        place: None,
        alloc,
    }
}

impl<K: PathKey, V, S: Slots<K, V>> Piece<K, V, S> {
    /// The first position of the piece.
    pub fn lo(&self) -> Bound
        ensures lo { result ≡ self.now.interval.lo }
        ensures order { self.now.interval.lo ≤ self.now.interval.hi }
    {
        self.interval.lo
    }

    /// The position after the piece.
    pub fn hi(&self) -> Bound
        ensures hi { result ≡ self.now.interval.hi }
        ensures within { result ≤ 2 ^ word_bits }
    {
        self.interval.hi
    }

    /// How many pairs there are in the piece. It takes no walk: the piece keeps their number.
    pub fn len(&self) -> u64
        ensures { result ≡ length (part K.path_of self.now.map self.now.interval) }
    {
        self.count
    }

    /// A walk over the pairs of the piece.
    pub fn pairs(&self) -> Result<Pairs<'_, K, V, S>, NoMemory>
        ensures sorted { IsMap K.cmp self.now.map }
        ensures few { length self.now.map ≤ MOST_PAIRS }
        ensures walk { IfOk result (λ walk. walk.rest ≡ walked K.cmp K.path_of (part K.path_of self.now.map self.now.interval)) }
    {
        self.view.len();
        parts_follow_intervals::<K, V>();
        trie_follows_digits::<K, V>();
        walk_lists_map::<K, V>();
        let Spot {
            branch,
            level,
            from,
            to,
            ..
        } = self.spot();
        Ok(Pairs::below(self.alloc, branch, level, from, to, self.count))
    }

    /// The same walk, which takes its pairs from the trie in bunches: for whoever looks at all of them.
    pub fn bunched_pairs(&self) -> BunchedPairs<'_, K, V, S>
        ensures sorted { IsMap K.cmp self.now.map }
        ensures few { length self.now.map ≤ MOST_PAIRS }
        ensures walk { result ≡ walked K.cmp K.path_of (part K.path_of self.now.map self.now.interval) }
    {
        self.view.len();
        parts_follow_intervals::<K, V>();
        trie_follows_digits::<K, V>();
        walk_lists_map::<K, V>();
        let Spot {
            branch,
            level,
            from,
            to,
            ..
        } = self.spot();
        BunchedPairs::below(self.alloc, branch, level, from, to)
    }

    /// Where the pairs of the piece stand: of the whole, below the root.
    pub(crate) fn spot(&self) -> Spot<'_, K, V, S>
        ensures sorted { IsMap K.cmp self.now.map }
        ensures place { IsPlace K.cmp K.path_of self.now.map self.now.interval (tree result.branch.now) result.bitmap result.level result.base result.from result.to }
    {
        if let Some(place) = &self.place {
            return Spot {
                branch: &place.branch,
                bitmap: place.bitmap,
                level: place.level,
                base: place.base,
                from: place.from,
                to: place.to,
            };
        }
        bitmap_counts_children::<K, V>();
        branch_is_its_children::<K, V>();
        parts_follow_intervals::<K, V>();
        root_walks_in_order::<K, V>();
        trie_follows_digits::<K, V>();
        let root = self.view.root();
        match look(root) {
            Look::Branch(bitmap) => Spot {
                branch: root,
                bitmap,
                level: 0,
                base: 0,
                from: 0,
                to: bitmap.count_ones(),
            },
            Look::Pairs(_) => unreachable!(),
        }
    }
}
