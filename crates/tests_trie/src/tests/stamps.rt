use super::{Trie, assert_is, key, put, put_in, remove_in, removed, seen, trie_of};
use std::alloc::Global;
use std::process::Abort;
use trie_node::Stamp;

// The nodes of the trie have these stamps, in the order of a walk.
fn assert_stamps(rt: &impl Abort, alloc: Global, trie: &Trie, stamps: &[u64]) {
    let seen = seen(rt, alloc, trie);
    assert_is(rt, seen.stamps.len(), stamps.len());
    for (stamp, want) in seen.stamps.iter().zip(stamps) {
        assert_is(rt, stamp.0, *want);
    }
}

#[test]
fn writes_stamp_one_path(rt: HostRuntime) {
    let alloc = rt.alloc();
    let (p, q, r) = (key(0, 0), key(0xc000_0000_0000_0000, 0), key(1, 0));
    let trie = trie_of(&rt, alloc, &[(p, 1), (q, 2), (r, 3)]);

    // The root, twelve branches down to p and q, these two, and r.
    let trie = put(&rt, alloc, &trie, (r, 4), 2);
    let stamps = [2, 1, 1, 1, 1, 1, 1, 1, 1, 1, 1, 1, 1, 1, 1, 2];
    assert_stamps(&rt, alloc, &trie, &stamps);

    // The leaf of p is drawn up and keeps its stamp.
    let trie = removed(&rt, alloc, &trie, q, 3);
    assert_stamps(&rt, alloc, &trie, &[3, 1, 2]);

    let trie = removed(&rt, alloc, &trie, q, 4);
    assert_stamps(&rt, alloc, &trie, &[3, 1, 2]);

    // The leaf of p moves down and keeps its stamp.
    let trie = put(&rt, alloc, &trie, (q, 5), Stamp::LOOSE.0);
    let stamps = [0, 0, 0, 0, 0, 0, 0, 0, 0, 0, 0, 0, 0, 1, 0, 2];
    assert_stamps(&rt, alloc, &trie, &stamps);
}

// Nobody else holds the nodes, so they are written where they stand. The keys are those of the digits 0 and 0, 0 and 1, 0
// and 2, and 1.
#[test]
fn writes_in_place_stamp_one_path(rt: HostRuntime) {
    let alloc = rt.alloc();
    let (p, q, r) = (key(0, 0), key(0x20, 0), key(1, 0));
    let mut trie = trie_of(&rt, alloc, &[(p, 1), (q, 2), (r, 3)]);

    // The root, the branch of p and q, these two, the new leaf, and r.
    put_in(&rt, alloc, &mut trie, (key(0x40, 0), 4), 2);
    assert_stamps(&rt, alloc, &trie, &[2, 2, 1, 1, 2, 1]);

    put_in(&rt, alloc, &mut trie, (q, 5), 3);
    assert_stamps(&rt, alloc, &trie, &[3, 3, 1, 3, 2, 1]);

    remove_in(&rt, alloc, &mut trie, p, 4);
    assert_stamps(&rt, alloc, &trie, &[4, 4, 3, 2, 1]);
}
