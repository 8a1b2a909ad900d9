//! Walks over random maps.

use super::{MAPS, Walk, assert_gives};
use crate::maps::{random_map, view_of};
use crate::plain::{PlainPair, nodes_between};
use iter::{pairs, pairs_of};
use std::alloc::{AllocError, Global};
use std::panic::Expect;
use std::process::Abort;
use test_keys::Random;

#[test]
fn walks_list_random_maps(rt: HostRuntime) {
    let alloc = rt.alloc();
    let mut random = Random(11);
    for _ in 0..MAPS {
        let (map, rows) = random_map(&rt, alloc, &mut random);
        let view = view_of(&rt, &map);
        let mut of_view = pairs(alloc, &view).expect(&rt, "no walk");
        assert_gives(&rt, &mut of_view, &rows);
        let mut of_map = pairs_of(alloc, &map).expect(&rt, "no walk");
        assert_gives(&rt, &mut of_map, &rows);
    }
}

// The positions of rows, each once, with the number of its rows.
fn positions_of(alloc: Global, rows: &[PlainPair]) -> Result<Vec<(u128, u32)>, AllocError> {
    let mut positions = Vec::new(alloc);
    let mut count = 0u32;
    for (n, row) in rows.iter().enumerate() {
        count = count.saturating_add(1);
        let next = rows.get(n.saturating_add(1));
        if next.map(|next| next.position) != Some(row.position) {
            positions.push((row.position, count))?;
            count = 0;
        }
    }
    Ok(positions)
}

// The walk has entered the root at first, with the first pair of a position the nodes on the way to it, and none with
// the others.
fn assert_enters(rt: &impl Abort, walk: &mut Walk<'_>, positions: &[(u128, u32)]) {
    let mut entered = 1u64;
    let mut before = None;
    for (n, (here, count)) in positions.iter().enumerate() {
        let after = positions.get(n.saturating_add(1)).map(|next| next.0);
        assert_eq!(rt; walk.entered(), entered);
        entered = entered.saturating_add(nodes_between(before, *here, after));
        for _ in 0..*count {
            assert!(rt; walk.step().is_some());
            assert_eq!(rt; walk.entered(), entered);
        }
        before = Some(*here);
    }
    assert!(rt; walk.step().is_none());
    assert_eq!(rt; walk.entered(), entered);
}

#[test]
fn walks_enter_the_nodes_of_random_maps(rt: HostRuntime) {
    let alloc = rt.alloc();
    let mut random = Random(12);
    for _ in 0..MAPS {
        let (map, rows) = random_map(&rt, alloc, &mut random);
        let positions = positions_of(alloc, &rows).expect(&rt, "no list");
        let mut walk = pairs_of(alloc, &map).expect(&rt, "no walk");
        assert_enters(&rt, &mut walk, &positions);
    }
}
