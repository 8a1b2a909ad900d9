//! The two pieces of a cut, and the parts of them.

ghost use Rattle.std.specs.Prelude.{◌≡◌, Some};
ghost use Rattle.combiner.specs.Unions.{AreApart};
ghost use Rattle.iter.specs.Intervals.{part};
ghost use Rattle.splitter.specs.Cuts.{cut_point};
ghost use Rattle.splitter.specs.Laws.{below, from};

use bulk_work::work;
use combiner::Bulk;
use hash_path::PathKey;
use iter::parts_follow_intervals;
use splitter::{Cut, Piece, cut, law_of_cuts, whole};
use std::alloc::Global;
use std::panic::Expect;
use std::process::Abort;
use versions::View;

// The two pieces of a cut of the piece.
fn cut_of<K: PathKey + Drop, V: Drop>(
    rt: &impl Abort,
    piece: Piece<K, V>,
) -> (Piece<K, V>, Piece<K, V>)
    ensures at { cut_point K.path_of piece.map piece.interval 1 ≡ Some result.0.interval.hi }
    ensures lower { result.0 ≡ record piece { interval = below piece.interval result.0.interval.hi } }
    ensures upper { result.1 ≡ record piece { interval = from piece.interval result.0.interval.hi } }
{
    let Ok(Cut::Two(lower, upper)) = cut(piece, 1) else {
        panic!(rt; "no cut")
    };
    (lower, upper)
}

// The two pieces of a cut of the map.
pub fn two_of<K: PathKey + Drop, V: Drop>(
    rt: &impl Abort,
    alloc: Global,
    view: View<K, V>,
) -> (Piece<K, V>, Piece<K, V>)
    ensures { AreApart K.cmp (part K.path_of result.0.map result.0.interval) (part K.path_of result.1.map result.1.interval) }
{
    law_of_cuts::<K, V>();
    parts_follow_intervals::<K, V>();
    view.len();
    let (lower, upper) = cut_of(rt, whole(alloc, view));
    if lower.len() > 100 || upper.len() > 100 {
        panic!(rt; "a piece of many pairs");
    }
    (lower, upper)
}

// The part of the piece.
pub fn part_of<K: PathKey + Drop, V: Drop, B: Bulk<K, V>>(
    rt: &impl Abort,
    alloc: Global,
    piece: &Piece<K, V>,
    bulk: &B,
) -> B::Part
    requires { B.ready bulk.now }
    ensures { B.answers bulk.now (part K.path_of piece.now.map piece.now.interval) result }
{
    work(alloc, piece, bulk).expect(rt, "no part")
}

// The parts of the two pieces of a cut, joined.
pub fn joined<K: PathKey + Drop, V: Drop, B: Bulk<K, V>>(
    rt: &impl Abort,
    alloc: Global,
    view: View<K, V>,
    bulk: &B,
) -> B::Part
    requires { B.ready bulk.now }
{
    let (lower, upper) = two_of(rt, alloc, view);
    let below = part_of(rt, alloc, &lower, bulk);
    let above = part_of(rt, alloc, &upper, bulk);
    drop((lower, upper));
    let both = bulk.join(alloc, &below, &above).expect(rt, "no join");
    drop((below, above));
    both
}
