//! Roots, whose calls ask for what only their makers show.
use super::{Texts, assert_is, assert_put, assert_sizes, assert_text, shared};
use generation::own_nodes;
use std::alloc::Global;
use std::panic::Expect;
use std::process::Abort;
use std::sync::Arc;
use test_keys::ChosenKey;
use trie_node::{Node, Stamp, empty_root, root_has_few_nodes, with_put};
use versions::{Refusal, Version};

// A map of the root of no pairs, with another stamp than the root's.
fn of_empty_root(rt: &impl Abort, alloc: Global) -> Texts {
    let root = empty_root(alloc, Stamp(2)).expect(rt, "no root");
    Version::from_root(root, 2, Stamp(5))
}

// Gives a map of three pairs at most the limit 3.
fn limit_to_three(rt: &impl Abort, version: &mut Texts) {
    assert!(rt; version.len() <= 3);
    version.relimit(3);
}

#[test]
fn a_map_of_a_root_may_get_another_limit(rt: HostRuntime) {
    let alloc = rt.alloc();
    let mut version = of_empty_root(&rt, alloc);
    assert_is(&rt, (version.limit(), version.stamp()), (2, Stamp(5)));
    assert_sizes(&rt, &version, (0, 0));
    assert_put(&rt, alloc, &mut version, ("a", 1), Ok(None));
    assert_put(&rt, alloc, &mut version, ("b", 2), Ok(None));
    assert_put(&rt, alloc, &mut version, ("c", 3), Err(Refusal::Full));
    limit_to_three(&rt, &mut version);
    assert_put(&rt, alloc, &mut version, ("c", 3), Ok(None));
    assert_put(&rt, alloc, &mut version, ("d", 4), Err(Refusal::Full));
    assert_is(&rt, (version.limit(), version.stamp()), (3, Stamp(5)));
    assert_text(&rt, alloc, &version, "b", Some(2));
}

#[test]
fn a_put_owns_its_path(rt: HostRuntime) {
    let alloc = rt.alloc();
    // the roots below have few nodes, since they have few pairs
    root_has_few_nodes::<ChosenKey, i64>();
    let empty: Node<ChosenKey, i64> = empty_root(alloc, Stamp(1)).expect(&rt, "no root");
    assert_is(&rt, own_nodes(&empty, Stamp(1)), 1);
    assert_is(&rt, own_nodes(&empty, Stamp(2)), 0);
    let key = Arc::new(alloc, ChosenKey { path: 5, id: 0 }).expect(&rt, "no key");
    let value = shared(&rt, alloc, 7);
    let root = with_put(alloc, &empty, key, value, Stamp(2)).expect(&rt, "not put");
    assert_is(&rt, own_nodes(&root, Stamp(1)), 0);
    assert_is(&rt, own_nodes(&root, Stamp(2)), 2);
    assert_is(&rt, own_nodes(&empty, Stamp(1)), 1);
}
