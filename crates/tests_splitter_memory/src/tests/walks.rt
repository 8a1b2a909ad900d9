//! Walks and cuts with every request for memory refused.

use super::{map_of, number_of, repeated, view_of};
use iter::{Pairs, pairs, pairs_of};
use splitter::{Cut, Piece, cut, whole};
use std::panic::Expect;
use test_keys::{ChosenKey, PARTING_WORDS, take_all};
use trie_node::NoMemory;

// The number of a walk's last key, and that of its pairs.
type End = (Option<u32>, u64);

// How a walk ends, where it was made.
fn end_of(walk: Result<Pairs<'_, ChosenKey, i64>, NoMemory>) -> Option<End> {
    let mut walk = walk.ok()?;
    let mut last = None;
    let mut count = 0u64;
    for _ in 0..1000 {
        let Some(number) = number_of(walk.step()) else {
            break;
        };
        last = Some(number);
        count = count.saturating_add(1);
    }
    Some((last, count))
}

// Where the pieces of a cut meet, and how a walk over each ends; none where there are no two.
fn meeting(piece: Piece<ChosenKey, i64>, grain: u64) -> Option<(u128, Option<End>, Option<End>)> {
    match cut(piece, grain) {
        Ok(Cut::Two(lower, upper)) => {
            Some((lower.hi(), end_of(lower.pairs()), end_of(upper.pairs())))
        }
        _ => None,
    }
}

#[test]
fn walks_and_cuts_make_no_request(rt: HostRuntime) {
    let alloc = rt.alloc();
    let words = repeated(alloc, &PARTING_WORDS, 10).expect(&rt, "no words");
    let map = map_of(&rt, alloc, &words);
    let (view, kept, again) = (view_of(&rt, &map), view_of(&rt, &map), view_of(&rt, &map));
    let (of_view, of_map) = (end_of(pairs(alloc, &view)), end_of(pairs_of(alloc, &map)));
    let met = meeting(whole(alloc, again), 1);
    let taken = take_all(alloc).expect(&rt, "no list");
    let without = (end_of(pairs(alloc, &view)), end_of(pairs_of(alloc, &map)));
    let met_without = meeting(whole(alloc, kept), 1);
    drop(taken);
    assert_eq!(rt; without, (of_view, of_map));
    assert_eq!(rt; met_without, met);
    assert_eq!(rt; of_view.map(|end| end.1), Some(words.len() as u64));
    assert!(rt; met.is_some());
}
