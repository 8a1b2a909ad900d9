//! How an operation is worked over a piece of a view.
ghost use Rattle.std.specs.Prelude.{◌≡◌, IfOk, IfSome, MatchResult};
ghost use Rattle.combiner.specs.Bulks.{CanJoinMap, IsJoinedMap};
ghost use Rattle.iter.specs.Intervals.{part};

use combiner::{Bulk, BulkIn, OnHandles};
use hash_path::PathKey;
use splitter::Piece;
use std::alloc::Global;
use trie_node::{NoMemory, Slots, walk_lists_map};

/// The part of all pairs of the piece, for any operation on maps. It is worked on the caller's thread.
///
/// Cost: O(n) for n pairs of the piece, or up to where the part is settled, no lock. Refused: `NoMemory`, if memory
/// runs out.
pub fn work<K: PathKey + Drop, V: Drop, B: Bulk<K, V>>(
    alloc: Global,
    piece: &Piece<K, V>,
    bulk: &B,
) -> Result<B::Part, NoMemory>
    requires { B.ready bulk.now }
    ensures { IfOk result (λ made. B.answers bulk.now (part K.path_of piece.now.map piece.now.interval) made) }
{
    work_in(alloc, piece, &OnHandles { bulk })
}

/// The part of the piece's pairs and of those that `begun` is of, which have none of their keys, for any operation.
///
/// It means what `work` and then a `join` do, and makes no part of the piece by itself: an operation that may have a part
/// by the shape of a trie joins the piece's root, and every other one adds pair after pair. A part that is settled is
/// returned as it is. After `NoMemory` the part is gone.
pub fn work_into<K: PathKey + Drop, V: Drop, B: Bulk<K, V>>(
    alloc: Global,
    piece: &Piece<K, V>,
    bulk: &B,
    begun: B::Part,
) -> Result<B::Part, NoMemory>
    requires ready { B.ready bulk.now }
    requires apart { CanJoinMap K.cmp (B.answers bulk.now) begun (part K.path_of piece.now.map piece.now.interval) }
    ensures { IfOk result (λ made. IsJoinedMap K.cmp (B.answers bulk.now) begun (part K.path_of piece.now.map piece.now.interval) made) }
{
    grow_in(alloc, piece, &OnHandles { bulk }, begun)
}

/// `work` over any storage: the part of all pairs of the piece, for any operation on maps of the storage. It is worked on the caller's thread.
///
/// Cost: O(n) for n pairs of the piece, or up to where the part is settled, no lock. Refused: `NoMemory`, if memory
/// runs out.
pub fn work_in<K: PathKey, V, S: Slots<K, V>, B: BulkIn<K, V, S>>(
    alloc: Global,
    piece: &Piece<K, V, S>,
    bulk: &B,
) -> Result<B::Part, NoMemory>
where
    S::Key: Drop,
    S::Value: Drop,
    requires { B.ready bulk.now }
    ensures { IfOk result (λ made. B.answers bulk.now (part K.path_of piece.now.map piece.now.interval) made) }
{
    if bulk.by_shape() {
        if let Some(made) = work_root(alloc, piece, bulk)? {
            return Ok(made);
        }
    }
    work_pairs(alloc, piece, bulk)
}

/// `work_into` over any storage: the part of the piece's pairs and of those that `begun` is of, which have none of their keys, for any operation.
///
/// It means what `work` and then a `join` do, and makes no part of the piece by itself: an operation that may have a part
/// by the shape of a trie joins the piece's root, and every other one adds pair after pair. A part that is settled is
/// returned as it is. After `NoMemory` the part is gone.
pub fn grow_in<K: PathKey, V, S: Slots<K, V>, B: BulkIn<K, V, S>>(
    alloc: Global,
    piece: &Piece<K, V, S>,
    bulk: &B,
    begun: B::Part,
) -> Result<B::Part, NoMemory>
where
    S::Key: Drop,
    S::Value: Drop,
    requires ready { B.ready bulk.now }
    requires apart { CanJoinMap K.cmp (B.answers bulk.now) begun (part K.path_of piece.now.map piece.now.interval) }
    ensures { IfOk result (λ made. IsJoinedMap K.cmp (B.answers bulk.now) begun (part K.path_of piece.now.map piece.now.interval) made) }
{
    if bulk.settled(&begun) {
        return Ok(begun);
    }
    if !bulk.by_shape() {
        return add_pairs(alloc, piece, bulk, begun);
    }
    match join_root(alloc, piece, bulk, begun)? {
        Ok(made) => Ok(made),
        Err(begun) => add_pairs(alloc, piece, bulk, begun),
    }
}

/// The part that the operation makes of the piece's root, if it makes one.
fn work_root<K: PathKey, V, S: Slots<K, V>, B: BulkIn<K, V, S>>(
    alloc: Global,
    piece: &Piece<K, V, S>,
    bulk: &B,
) -> Result<Option<B::Part>, NoMemory>
where
    S::Key: Drop,
    S::Value: Drop,
    requires { B.ready bulk.now }
    ensures { IfOk result (λ made. IfSome made (λ made. B.answers bulk.now (part K.path_of piece.now.map piece.now.interval) made)) }
{
    // Called for its contract: the piece has no more pairs than a map may have.
    piece.bunched_pairs();
    let root = piece.root()?;
    bulk.of_root(alloc, &root)
}

/// The part that the operation joins of the piece's root, or the part as it was.
fn join_root<K: PathKey, V, S: Slots<K, V>, B: BulkIn<K, V, S>>(
    alloc: Global,
    piece: &Piece<K, V, S>,
    bulk: &B,
    begun: B::Part,
) -> Result<Result<B::Part, B::Part>, NoMemory>
where
    S::Key: Drop,
    S::Value: Drop,
    requires ready { B.ready bulk.now }
    requires apart { CanJoinMap K.cmp (B.answers bulk.now) begun (part K.path_of piece.now.map piece.now.interval) }
    ensures { IfOk result (λ made. MatchResult made (λ more. IsJoinedMap K.cmp (B.answers bulk.now) begun (part K.path_of piece.now.map piece.now.interval) more) (λ back. back ≡ begun)) }
{
    // Called for its contract: the piece has no more pairs than a map may have.
    piece.bunched_pairs();
    let root = piece.root()?;
    bulk.join_root(alloc, begun, &root)
}

/// The part of pair after pair.
fn work_pairs<K: PathKey, V, S: Slots<K, V>, B: BulkIn<K, V, S>>(
    alloc: Global,
    piece: &Piece<K, V, S>,
    bulk: &B,
) -> Result<B::Part, NoMemory>
    requires { B.ready bulk.now }
    ensures { IfOk result (λ made. B.answers bulk.now (part K.path_of piece.now.map piece.now.interval) made) }
{
    // Called for its contract: the pairs of the piece are a map.
    piece.bunched_pairs();
    let none = bulk.unit(alloc)?;
    let made = add_pairs(alloc, piece, bulk, none)?;
    Ok(made)
}

/// The part with pair after pair, up to the first with which it is settled.
fn add_pairs<K: PathKey, V, S: Slots<K, V>, B: BulkIn<K, V, S>>(
    alloc: Global,
    piece: &Piece<K, V, S>,
    bulk: &B,
    begun: B::Part,
) -> Result<B::Part, NoMemory>
    requires ready { B.ready bulk.now }
    requires apart { CanJoinMap K.cmp (B.answers bulk.now) begun (part K.path_of piece.now.map piece.now.interval) }
    ensures { IfOk result (λ made. IsJoinedMap K.cmp (B.answers bulk.now) begun (part K.path_of piece.now.map piece.now.interval) made) }
{
    walk_lists_map::<K, V>();
    let mut made = begun;
    for (key, value) in piece.bunched_pairs() {
        let Ok(()) = bulk.add(alloc, &mut made, key, value) else {
            drop(made);
            return Err(NoMemory);
        };
        if bulk.settled(&made) {
            return Ok(made);
        }
    }
    Ok(made)
}
