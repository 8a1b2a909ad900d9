//! Pieces of the view of one call.
ghost use Rattle.std.specs.Prelude.{◌≡◌, ◌≤◌, ◌^◌, IfOk, MatchResult};
ghost use Rattle.combiner.specs.Bulks.{CanJoinMap, IsJoinedMap};
ghost use Rattle.hash_path.specs.Digits.{word_bits};
ghost use Rattle.iter.specs.Intervals.{part};
ghost use Rattle.partial_results.specs.Halves.{IsHalved};

use bulk_work::grow_in;
use combiner::BulkIn;
use hash_path::{Bound, PathKey};
use splitter::{Cut, Piece, cut};
use std::alloc::Global;
use std::marker::{Brand, Model, PhantomData};
use trie_node::{NoMemory, Slots};

/// Names the map of one call, and the grain to which its pieces are cut.
pub trait OfView<K, V> {
    ghost use Rattle.std.specs.Prelude.{ℕ};
    ghost use Rattle.trie_shape.specs.Map.{Map};

    ghost map: { Map K V };

    ghost grain: { ℕ };
}

impl<K, V> OfView<K, V> for Brand {
    ghost use Rattle.std.specs.Prelude.{[]};

    ghost map = { [] };

    ghost grain = { 0 };
}

/// A piece of the call's view. Contracts see its interval.
#[derive(Drop)]
pub struct Task<C: OfView<K, V>, K: PathKey, V, S: Slots<K, V>> {
    piece: Piece<K, V, S>,
    call: PhantomData<C>,
}

impl<C: OfView<K, V>, K: PathKey, V, S: Slots<K, V>> Model for Task<C, K, V, S> {
    ghost use Rattle.std.specs.Prelude.{◌≡◌};
    ghost use Rattle.iter.specs.declared.interval.Interval.{Interval};

    ghost Value = { Interval };

    ghost view = { λ t. t.piece.interval };

    ghost invariant = { λ t. t.piece.map ≡ C.map };
}

impl<C: OfView<K, V>, K: PathKey, V, S: Slots<K, V>> Task<C, K, V, S>
where
    S::Key: Drop,
    S::Value: Drop,
{
    /// The piece, which is of the call's view.
    pub fn new(piece: Piece<K, V, S>) -> Task<C, K, V, S>
        requires { piece.map ≡ C.map }
        ensures { result ≡ piece.interval }
    {
        Task {
            piece,
            call: PhantomData,
        }
    }

    /// The first position.
    pub fn lo(&self) -> Bound
        ensures lo { result ≡ self.now.lo }
        ensures order { self.now.lo ≤ self.now.hi }
    {
        self.piece.lo()
    }

    /// The position after the last.
    pub fn hi(&self) -> Bound
        ensures hi { result ≡ self.now.hi }
        ensures within { result ≤ 2 ^ word_bits }
    {
        self.piece.hi()
    }

    /// The lower half and the upper one, where it has a cut point. Where memory runs out, the piece is returned.
    pub fn halves(
        self,
        grain: u64,
    ) -> Result<(Task<C, K, V, S>, Option<Task<C, K, V, S>>), Task<C, K, V, S>>
        requires { grain ≡ C.grain }
        ensures { MatchResult result (λ two. IsHalved K.path_of C.map C.grain self two.0 two.1) (λ back. back ≡ self) }
    {
        let Task { piece, call: _ } = self;
        match cut(piece, grain) {
            Ok(Cut::Two(lower, upper)) => Ok((Task::new(lower), Some(Task::new(upper)))),
            Ok(Cut::One(piece)) => Ok((Task::new(piece), None)),
            Err(piece) => Err(Task::new(piece)),
        }
    }

    /// The part of its pairs and of those that `begun` is of, which have none of their keys.
    pub fn work_into<B: BulkIn<K, V, S>>(
        &self,
        alloc: Global,
        bulk: &B,
        begun: B::Part,
    ) -> Result<B::Part, NoMemory>
        requires ready { B.ready bulk.now }
        requires apart { CanJoinMap K.cmp (B.answers bulk.now) begun (part K.path_of C.map self.now) }
        ensures { IfOk result (λ made. IsJoinedMap K.cmp (B.answers bulk.now) begun (part K.path_of C.map self.now) made) }
    {
        grow_in(alloc, &self.piece, bulk, begun)
    }
}
