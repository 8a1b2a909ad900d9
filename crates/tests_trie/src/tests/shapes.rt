use super::{Trie, assert_is, assert_lines, assert_pairs, key, removed, seen, trie_of};
use std::alloc::Global;
use std::process::Abort;
use test_keys::ChosenKey;
use test_roots::Line;
use trie_node::size;

// The trie has these nodes and pairs, in the order of a walk.
fn assert_outline(
    rt: &impl Abort,
    alloc: Global,
    trie: &Trie,
    lines: &[Line],
    pairs: &[(ChosenKey, u32)],
) {
    let seen = seen(rt, alloc, trie);
    assert_is(rt, size(trie.root()), pairs.len() as u64);
    assert_lines(rt, &seen.lines, lines);
    assert_pairs(rt, &seen.pairs, pairs);
}

#[test]
fn keys_of_one_word_share_a_bucket(rt: HostRuntime) {
    let alloc = rt.alloc();
    let (x, y, z) = (key(0, 1), key(0, 2), key(0, 3));
    let trie = trie_of(&rt, alloc, &[(z, 13), (x, 11), (y, 12)]);
    let lines = [Line::branch(0, 1, 3), Line::pairs(1, 3)];
    assert_outline(&rt, alloc, &trie, &lines, &[(x, 11), (y, 12), (z, 13)]);

    let trie = removed(&rt, alloc, &trie, y, 2);
    let lines = [Line::branch(0, 1, 2), Line::pairs(1, 2)];
    assert_outline(&rt, alloc, &trie, &lines, &[(x, 11), (z, 13)]);
}

#[test]
fn words_that_differ_last_make_fifteen_nodes(rt: HostRuntime) {
    let alloc = rt.alloc();
    let (p, q) = (key(0, 0), key(0xc000_0000_0000_0000, 0));
    let trie = trie_of(&rt, alloc, &[(p, 1), (q, 2)]);
    let fifteen = [
        Line::branch(0, 1, 2),
        Line::branch(1, 1, 2),
        Line::branch(2, 1, 2),
        Line::branch(3, 1, 2),
        Line::branch(4, 1, 2),
        Line::branch(5, 1, 2),
        Line::branch(6, 1, 2),
        Line::branch(7, 1, 2),
        Line::branch(8, 1, 2),
        Line::branch(9, 1, 2),
        Line::branch(10, 1, 2),
        Line::branch(11, 1, 2),
        Line::branch(12, 1 << 12 | 1, 2),
        Line::pairs(13, 1),
        Line::pairs(13, 1),
    ];
    assert_outline(&rt, alloc, &trie, &fifteen, &[(p, 1), (q, 2)]);

    let trie = removed(&rt, alloc, &trie, q, 2);
    let two = [Line::branch(0, 1, 1), Line::pairs(1, 1)];
    assert_outline(&rt, alloc, &trie, &two, &[(p, 1)]);
}

#[test]
fn words_of_three_first_digits_make_three_leaves(rt: HostRuntime) {
    let alloc = rt.alloc();
    let (a, b, c) = (
        key(0xaf63_dc4c_8601_ec8c, 0),
        key(0xaf63_df4c_8601_f1a5, 0),
        key(0xaf63_de4c_8601_eff2, 0),
    );
    let trie = trie_of(&rt, alloc, &[(a, 1), (b, 2), (c, 3)]);
    let digits = 1 << 5 | 1 << 12 | 1 << 18;
    let lines = [
        Line::branch(0, digits, 3),
        Line::pairs(1, 1),
        Line::pairs(1, 1),
        Line::pairs(1, 1),
    ];
    assert_outline(&rt, alloc, &trie, &lines, &[(b, 2), (a, 1), (c, 3)]);
}

#[test]
fn removal_leaves_the_shape_of_the_rest(rt: HostRuntime) {
    let alloc = rt.alloc();
    let (first, second, third) = (
        key(0, 0),
        key(0xc000_0000_0000_0000, 0),
        key(0xffff_ffff_ffff_ffff, 0),
    );
    let trie = trie_of(&rt, alloc, &[(first, 1), (second, 2), (third, 3)]);
    let trie = removed(&rt, alloc, &trie, second, 2);
    let lines = [
        Line::branch(0, 1 << 31 | 1, 2),
        Line::pairs(1, 1),
        Line::pairs(1, 1),
    ];
    assert_outline(&rt, alloc, &trie, &lines, &[(first, 1), (third, 3)]);
}
