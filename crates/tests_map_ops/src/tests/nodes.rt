//! How many nodes versions own.
use super::{
    Chosen, Texts, assert_before, assert_is, assert_own, assert_put, assert_removal, assert_sizes,
    assert_text, assert_value, chosen, clear, empty, fork, len, own, put, remove, started,
};
use generation::Source;
use std::alloc::Global;
use std::process::Abort;
use test_keys::ChosenKey;
use trie_node::Stamp;

#[test]
fn a_fork_owns_no_node_until_it_is_written(rt: HostRuntime) {
    let alloc = rt.alloc();
    let (mut version, mut source) = started(&rt, alloc);
    assert_own(&rt, &version, 4);
    let mut copy = fork(&rt, &mut version, &mut source);
    assert_own(&rt, &version, 0);
    assert_own(&rt, &copy, 0);
    assert_put(&rt, alloc, &mut copy, ("a", 9), Ok(Some(1)));
    assert_own(&rt, &version, 0);
    assert_own(&rt, &copy, 2);
    assert_text(&rt, alloc, &version, "a", Some(1));
}

#[test]
fn each_of_four_versions_owns_what_it_wrote(rt: HostRuntime) {
    let alloc = rt.alloc();
    let (mut first, mut source) = started(&rt, alloc);
    assert_own(&rt, &first, 4);
    let mut second = fork(&rt, &mut first, &mut source);
    let mut third = fork(&rt, &mut second, &mut source);
    assert_put(&rt, alloc, &mut second, ("b", 9), Ok(Some(2)));
    assert_own(&rt, &first, 0);
    assert_own(&rt, &second, 2);
    assert_own(&rt, &third, 0);
    assert_removal(&rt, alloc, &mut third, "a", Some(1));
    assert_own(&rt, &third, 1);
    assert_removal(&rt, alloc, &mut third, "a", None);
    assert_own(&rt, &third, 1);
    let fourth = fork(&rt, &mut third, &mut source);
    assert_own(&rt, &third, 0);
    assert_own(&rt, &fourth, 0);
    assert_is(&rt, (len(&first), len(&second)), (3, 3));
    assert_is(&rt, (len(&third), len(&fourth)), (2, 2));
}

// The key has the value, and is removed.
fn assert_gone(rt: &impl Abort, alloc: Global, version: &mut Chosen, key: ChosenKey, value: i64) {
    assert_value(rt, version, key, Some(value));
    assert_is(rt, remove(rt, alloc, version, &key), Some(value));
}

#[test]
fn keys_of_one_word_share_a_bucket(rt: HostRuntime) {
    let alloc = rt.alloc();
    let mut version: Chosen = empty(&rt, alloc, 10);
    for id in [0, 1, 2] {
        let pair = (chosen(0, id), i64::from(id));
        assert_before(&rt, alloc, &mut version, pair, None);
    }
    assert_sizes(&rt, &version, (3, 2));
    assert_gone(&rt, alloc, &mut version, chosen(0, 1), 1);
    assert_sizes(&rt, &version, (2, 2));
    assert_value(&rt, &version, chosen(0, 0), Some(0));
    assert_value(&rt, &version, chosen(0, 2), Some(2));
}

// Words that part at the last digit have thirteen branches above their two leaves. Without one of them the other's leaf
// stands below the root, beside a third.
#[test]
fn words_that_part_late_have_thirteen_branches(rt: HostRuntime) {
    let alloc = rt.alloc();
    let mut version: Chosen = empty(&rt, alloc, 10);
    for (path, value, nodes) in [
        (0, 1, 2),
        (0xc000_0000_0000_0000, 2, 15),
        (0xffff_ffff_ffff_ffff, 3, 16),
    ] {
        let pair = (chosen(path, 0), value);
        assert_before(&rt, alloc, &mut version, pair, None);
        assert_own(&rt, &version, nodes);
    }
    assert_gone(
        &rt,
        alloc,
        &mut version,
        chosen(0xc000_0000_0000_0000, 0),
        2,
    );
    assert_sizes(&rt, &version, (2, 3));
    assert_value(&rt, &version, chosen(0, 0), Some(1));
    assert_value(&rt, &version, chosen(0xffff_ffff_ffff_ffff, 0), Some(3));
}

#[test]
fn many_keys_of_one_word_and_many_of_one_branch(rt: HostRuntime) {
    let alloc = rt.alloc();
    let mut version: Chosen = empty(&rt, alloc, 200);
    for id in 0..100 {
        let pair = (chosen(7, id), i64::from(id));
        assert_before(&rt, alloc, &mut version, pair, None);
    }
    assert_own(&rt, &version, 2);
    for digit in 0..32 {
        let answer = put(&rt, alloc, &mut version, chosen(digit, 0), -1);
        assert_is(&rt, answer.is_ok(), true);
    }
    assert_sizes(&rt, &version, (131, 33));
    for id in 1..100 {
        assert_gone(&rt, alloc, &mut version, chosen(7, id), i64::from(id));
    }
    for digit in 0..32 {
        assert_gone(&rt, alloc, &mut version, chosen(digit, 0), -1);
    }
    assert_sizes(&rt, &version, (0, 1));
}

#[test]
fn a_cleared_fork_of_a_fork_has_one_node(rt: HostRuntime) {
    let alloc = rt.alloc();
    let (mut version, mut source) = started(&rt, alloc);
    let mut copy = fork(&rt, &mut version, &mut source);
    let mut again = fork(&rt, &mut copy, &mut source);
    assert_is(&rt, clear(alloc, &mut again), Ok(()));
    assert_sizes(&rt, &again, (0, 1));
    assert_is(&rt, (len(&version), len(&copy)), (3, 3));
}

// Gives the version the next stamp of the source.
fn restamp(rt: &impl Abort, version: &mut Texts, source: &mut Source) {
    assert!(rt; version.stamp().0 <= source.issued());
    assert!(rt; source.issued() < 1000);
    version.restamp(source);
}

#[test]
fn a_restamped_version_owns_no_node(rt: HostRuntime) {
    let alloc = rt.alloc();
    let (mut version, mut source) = started(&rt, alloc);
    restamp(&rt, &mut version, &mut source);
    assert_is(&rt, (version.stamp(), own(&version)), (Stamp(2), 0));
    assert_is(&rt, len(&version), 3);
}
