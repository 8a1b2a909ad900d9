use super::{Trie, assert_is, key, shared_key, shared_value, trie_of};
use std::alloc::Global;
use std::panic::Expect;
use std::process::Abort;
use test_keys::ChosenKey;
use trie_node::{Always, Condition, IfAbsent, IfEqual, IfPresent, NoMemory, Stamp, Written};

// Whether the condition holds of the value 5, and of none.
fn holds_of_five<C: Condition<u32>>(rt: &impl Abort, alloc: Global, condition: &C) -> (bool, bool) {
    let five = shared_value(rt, alloc, 5);
    (condition.holds(Some(&*five)), condition.holds(None))
}

#[test]
fn conditions_decide_on_the_value_found(rt: HostRuntime) {
    let alloc = rt.alloc();
    assert_is(&rt, holds_of_five(&rt, alloc, &Always), (true, true));
    assert_is(&rt, holds_of_five(&rt, alloc, &IfAbsent), (false, true));
    assert_is(&rt, holds_of_five(&rt, alloc, &IfPresent), (true, false));
    assert_is(&rt, holds_of_five(&rt, alloc, &IfEqual(&5)), (true, false));
    assert_is(&rt, holds_of_five(&rt, alloc, &IfEqual(&6)), (false, false));
}

// Whether there is a new root, and what the key had before.
fn plainly(
    rt: &impl Abort,
    answer: Result<Written<'_, ChosenKey, u32>, NoMemory>,
) -> (bool, Option<u32>) {
    let Written { root, previous } = answer.expect(rt, "not written");
    match previous {
        Some(pair) => (root.is_some(), Some(*pair.value())),
        None => (root.is_some(), None),
    }
}

// What a put of 6 at the key returns, if it is absent.
fn put_if_absent(
    rt: &impl Abort,
    alloc: Global,
    trie: &Trie,
    at: ChosenKey,
) -> (bool, Option<u32>) {
    let key = shared_key(rt, alloc, at);
    let value = shared_value(rt, alloc, 6);
    plainly(rt, trie.put_where(alloc, key, value, Stamp(2), &IfAbsent))
}

// What a removal of the key returns, if it has this value.
fn removed_if(
    rt: &impl Abort,
    alloc: Global,
    trie: &Trie,
    at: ChosenKey,
    value: u32,
) -> (bool, Option<u32>) {
    plainly(
        rt,
        trie.removed_where(alloc, &at, Stamp(2), &IfEqual(&value)),
    )
}

#[test]
fn writes_under_a_condition_tell_what_was_there(rt: HostRuntime) {
    let alloc = rt.alloc();
    let (p, q) = (key(0, 0), key(1, 0));
    let trie = trie_of(&rt, alloc, &[(p, 5)]);
    assert_is(&rt, put_if_absent(&rt, alloc, &trie, p), (false, Some(5)));
    assert_is(&rt, put_if_absent(&rt, alloc, &trie, q), (true, None));
    assert_is(&rt, removed_if(&rt, alloc, &trie, p, 6), (false, Some(5)));
    assert_is(&rt, removed_if(&rt, alloc, &trie, p, 5), (true, Some(5)));
}
