//! Walks, cuts and merges, each with its checksum.

use crate::maps::Map;
use bench_kit::Fault;
use combiner::merge;
use keys::ByteText;
use slots::Slots;
use splitter::{Cut, Piece, cut, whole};
use std::alloc::Global;
use versions::View;

/// The sum of the values of all pairs, read in the order of a walk.
pub fn walk_all<S: Slots<ByteText, i64>>(
    alloc: Global,
    view: &View<ByteText, i64, S>,
) -> Result<i64, Fault> {
    let mut sum = 0i64;
    for (_, value) in iter::pairs(alloc, view)? {
        sum = sum.wrapping_add(*S::lend_value(value));
    }
    Ok(sum)
}

/// Cuts the piece of all pairs, and each piece that comes of it, until no piece is larger than the grain or can be cut.
/// It returns how many pieces are left.
pub fn cut_all<S: Slots<ByteText, i64>>(
    alloc: Global,
    view: &View<ByteText, i64, S>,
    grain: u64,
) -> Result<u64, Fault>
where
    S::Key: Drop,
    S::Value: Drop,
{
    let all = whole(alloc, view.try_clone()?);
    let mut uncut = Vec::new(alloc);
    let pieces = match uncut.push(all) {
        Ok(()) => cut_each(&mut uncut, grain),
        Err(refused) => Err(Fault::from(refused)),
    };
    drop(uncut);
    pieces
}

/// Cuts until no piece is left: how many there were that were not cut.
fn cut_each<S: Slots<ByteText, i64>>(
    uncut: &mut Vec<Piece<ByteText, i64, S>>,
    grain: u64,
) -> Result<u64, Fault>
where
    S::Key: Drop,
    S::Value: Drop,
{
    let mut pieces = 0u64;
    for _ in 0..u64::MAX {
        let Some(piece) = uncut.pop() else {
            break;
        };
        pieces = pieces.wrapping_add(cut_one(uncut, piece, grain)?);
    }
    Ok(pieces)
}

/// Adds what a cut of the piece gives. It returns how many pieces were not cut.
fn cut_one<S: Slots<ByteText, i64>>(
    uncut: &mut Vec<Piece<ByteText, i64, S>>,
    piece: Piece<ByteText, i64, S>,
    grain: u64,
) -> Result<u64, Fault>
where
    S::Key: Drop,
    S::Value: Drop,
{
    match cut(piece, grain) {
        Ok(Cut::Two(low, high)) => add_both(uncut, low, high),
        Ok(Cut::One(last)) => {
            drop(last);
            Ok(1)
        }
        Err(back) => {
            drop(back);
            Err(Fault::Memory)
        }
    }
}

/// Adds both pieces, of which none counts.
fn add_both<S: Slots<ByteText, i64>>(
    uncut: &mut Vec<Piece<ByteText, i64, S>>,
    low: Piece<ByteText, i64, S>,
    high: Piece<ByteText, i64, S>,
) -> Result<u64, Fault>
where
    S::Key: Drop,
    S::Value: Drop,
{
    if let Err(refused) = uncut.push(low) {
        drop(high);
        return Err(Fault::from(refused));
    }
    match uncut.push(high) {
        Ok(()) => Ok(0),
        Err(refused) => Err(Fault::from(refused)),
    }
}

/// The number of pairs of both maps together, which share no key; none where one map may not hold them.
pub fn merge_all<S: Slots<ByteText, i64>>(
    alloc: Global,
    left: &Map<ByteText, S>,
    right: &Map<ByteText, S>,
) -> Result<u64, Fault>
where
    S::Key: Drop,
    S::Value: Drop,
{
    let limit = left.limit();
    if right.limit() != limit || left.len() + right.len() > limit {
        return Ok(0);
    }
    let merged = merge(alloc, left, right)?;
    let count = merged.len();
    drop(merged);
    Ok(count)
}
