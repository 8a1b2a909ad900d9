//! Operations whose requests for memory are refused: the first, then the second, and so on.

use super::combining::union_of;
use super::{
    Asked, Contents, Plain, SUMS, ThreeItems, assert_is, assert_plain, at_three, below, chosen,
    first, instead, many, map_of, plain_of, values,
};
use bulk_ops::Part;
use bulk_work::work;
use combiner::{Both, Bulk, Greatest, Least, Sum};
use splitter::{Piece, whole};
use std::alloc::{AllocError, Global};
use std::panic::Expect;
use std::process::Abort;
use std::sync::Arc;
use test_keys::{ChosenKey, take_all};
use trie_node::NoMemory;

// The bytes of a row of four places, of the first room for children, of a row of two places, of room for two children and
// for one, and of a value.
const SIZES: [usize; 6] = [136, 128, 72, 64, 32, 16];

/// How many blocks are given back at most.
pub(super) const MOST_GIVEN: usize = 90;

// Blocks of memory.
type Blocks = Vec<Vec<u8>>;

// Blocks of each size in turn. Each that is dropped is room for one request of its size.
fn spare(alloc: Global) -> Result<Blocks, AllocError> {
    let mut blocks = Vec::with_capacity(alloc, MOST_GIVEN)?;
    for number in 0..MOST_GIVEN {
        blocks.push(Vec::with_capacity(alloc, SIZES[number % 6])?)?;
    }
    Ok(blocks)
}

/// All memory but `given` blocks of those sizes, and the blocks that are left.
pub(super) fn take_all_but(rt: &impl Abort, alloc: Global, given: usize) -> (Blocks, Blocks) {
    let mut blocks = spare(alloc).expect(rt, "no blocks");
    let taken = take_all(alloc).expect(rt, "no list");
    for _ in 0..given {
        let _ = blocks.pop();
    }
    (taken, blocks)
}

// The answer to the query about the piece, where there is memory for it.
fn plain_of_piece(
    rt: &impl Abort,
    alloc: Global,
    piece: &Piece<ChosenKey, i64>,
    query: &Asked,
) -> Option<Plain>
    requires { ⟦<Asked as Bulk<ChosenKey, i64>>⟧.ready query.now }
{
    plain_if_made(rt, &work(alloc, piece, query))
}

// The answer that the part comes to, if it was made.
fn plain_if_made(
    rt: &impl Abort,
    part: &Result<Part<ChosenKey, i64, ThreeItems>, NoMemory>,
) -> Option<Plain> {
    match part {
        Ok(part) => Some(plain_of(rt, part)),
        Err(NoMemory) => None,
    }
}

// The least number of blocks of memory with which the query is worked on `pairs` of the three pairs, and its answer.
fn granted(rt: &impl Abort, alloc: Global, pairs: usize, query: &Asked) -> Option<(usize, Plain)>
    requires { ⟦<Asked as Bulk<ChosenKey, i64>>⟧.ready query.now }
{
    let piece = whole(alloc, first(rt, alloc, pairs));
    for given in 0..MOST_GIVEN {
        let taken = take_all_but(rt, alloc, given);
        let seen = plain_of_piece(rt, alloc, &piece, query);
        drop(taken);
        if let Some(seen) = seen {
            return Some((given, seen));
        }
    }
    None
}

#[test]
fn work_is_refused_until_there_is_memory(rt: HostRuntime) {
    let granted = granted(&rt, rt.alloc(), 3, &Asked::MapValues(instead(4), 9));
    let (given, seen) = granted.expect(&rt, "work is refused with memory to spare");
    assert!(rt; given > 0);
    assert_plain(&rt, Some(seen), Plain::Made(3, (Some(4), Some(4), Some(4))));
}

// Keys below 3 are two of the three; the sum and the extremes are those of all values.
#[test]
fn what_makes_no_map_asks_for_no_memory(rt: HostRuntime) {
    let alloc = rt.alloc();
    let piece = whole(alloc, first(&rt, alloc, 3));
    let monoid = Both(Sum, Both(Least, Greatest));
    let taken = take_all(alloc).expect(&rt, "no list");
    let count = plain_of_piece(&rt, alloc, &piece, &Asked::Count(below(3)));
    let exists = plain_of_piece(&rt, alloc, &piece, &Asked::Exists(below(1)));
    let for_all = plain_of_piece(&rt, alloc, &piece, &Asked::ForAll(below(4)));
    let find = plain_of_piece(&rt, alloc, &piece, &Asked::Find(below(2)));
    let fold = plain_of_piece(&rt, alloc, &piece, &Asked::Fold(monoid, values()));
    drop(taken);
    assert_plain(&rt, count, Plain::Number(2));
    assert_plain(&rt, exists, Plain::Truth(false));
    assert_plain(&rt, for_all, Plain::Truth(true));
    assert_plain(&rt, find, Plain::Found(Some((1, i64::MIN))));
    assert_plain(&rt, fold, Plain::Item(SUMS));
}

// Nor does it where the pairs are more than are taken from the trie at a time.
#[test]
fn a_count_of_many_pairs_asks_for_no_memory(rt: HostRuntime) {
    let alloc = rt.alloc();
    let piece = whole(alloc, many(&rt, alloc, 1_200));
    let taken = take_all(alloc).expect(&rt, "no list");
    let all = plain_of_piece(&rt, alloc, &piece, &Asked::Count(below(1_200)));
    let some = plain_of_piece(&rt, alloc, &piece, &Asked::Count(below(301)));
    let exists = plain_of_piece(&rt, alloc, &piece, &Asked::Exists(below(0)));
    drop(taken);
    assert_plain(&rt, all, Plain::Number(1_200));
    assert_plain(&rt, some, Plain::Number(301));
    assert_plain(&rt, exists, Plain::Truth(false));
}

// How many blocks of memory a filter of `pairs` pairs wants that keeps the keys below a number.
fn wanted_by_filter(rt: &impl Abort, alloc: Global, pairs: usize, id: u32) -> usize {
    let granted = granted(rt, alloc, pairs, &Asked::Filter(below(id), 9));
    let (given, _) = granted.expect(rt, "a filter is refused with memory to spare");
    given
}

// No key is below 1, two are below 3: a filter that keeps nothing wants its empty map alone, of one pair as of three.
#[test]
fn a_pair_that_does_not_pass_asks_for_no_memory(rt: HostRuntime) {
    let alloc = rt.alloc();
    let empty = wanted_by_filter(&rt, alloc, 1, 1);
    assert!(rt; empty > 0);
    let none = wanted_by_filter(&rt, alloc, 3, 1);
    assert_eq!(rt; none, empty);
    let some = wanted_by_filter(&rt, alloc, 3, 3);
    assert!(rt; some > empty);
}

// Whether the part of no pairs is made, and the answer of the part of one pair, with `given` blocks of memory.
fn started(rt: &impl Abort, alloc: Global, given: usize) -> (bool, Option<Plain>) {
    let query = Asked::Filter(below(9), 9);
    let key = Arc::new(alloc, chosen(0, 2)).expect(rt, "no key");
    let value = Arc::new(alloc, 7).expect(rt, "no value");
    let taken = take_all_but(rt, alloc, given);
    let unit = query.unit(alloc).is_ok();
    let one = query.one(alloc, &key, &value);
    drop(taken);
    drop((key, value));
    drop(query);
    let plain = plain_if_made(rt, &one);
    drop(one);
    (unit, plain)
}

#[test]
fn unit_and_one_are_refused_until_there_is_memory(rt: HostRuntime) {
    let alloc = rt.alloc();
    let (unit, one) = started(&rt, alloc, 0);
    assert!(rt; !unit && one.is_none());
    for given in 1..MOST_GIVEN {
        let (unit, one) = started(&rt, alloc, given);
        if one.is_some() {
            assert!(rt; unit && given > 1);
            return assert_plain(&rt, one, Plain::Made(1, (Some(7), None, None)));
        }
    }
    assert!(rt; false, "one is refused with memory to spare");
}

// What a map has of two that share no key, put together with `given` blocks of memory.
fn merged(rt: &impl Abort, alloc: Global, given: usize) -> Option<Contents> {
    let left = map_of(rt, alloc, &[(chosen(0, 2), 7)]);
    let right = map_of(rt, alloc, &[(chosen(0xc000_0000_0000_0000, 3), 7)]);
    let taken = take_all_but(rt, alloc, given);
    let both = union_of(rt, alloc, &left, &right);
    drop(taken);
    drop((left, right));
    let contents = match &both {
        Some(map) => Some(at_three(map)),
        None => None,
    };
    drop(both);
    contents
}

// The keys part at the last digit, so the merge makes thirteen branches.
#[test]
fn merges_are_refused_until_there_is_memory(rt: HostRuntime) {
    let alloc = rt.alloc();
    for given in 0..MOST_GIVEN {
        if let Some(both) = merged(&rt, alloc, given) {
            assert!(rt; given > 6);
            return assert_is(&rt, both, (Some(7), Some(7), None));
        }
    }
    assert!(rt; false, "a merge is refused with memory to spare");
}
