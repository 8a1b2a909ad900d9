//! Puts and removals under a condition, by hand.
use super::{Texts, assert_is, assert_text, empty, of_three, plainly, shared, text};
use std::alloc::Global;
use std::panic::Expect;
use std::process::Abort;
use test_keys::ChosenKey;
use trie_node::{Condition, IfAbsent, IfEqual, IfPresent, Stamp};
use versions::Refusal;

// Maps the text to the value where the condition holds. It returns the value before and whether it was done.
fn put_text_where<C: Condition<i64>>(
    rt: &impl Abort,
    alloc: Global,
    version: &mut Texts,
    (at, value): (&str, i64),
    condition: &C,
) -> Result<(Option<i64>, bool), Refusal> {
    let key = text(rt, alloc, at);
    let value = shared(rt, alloc, value);
    let change = version.put_where(alloc, key, value, condition)?;
    Ok((plainly(change.previous), change.written))
}

// Removes the text where the condition holds. It returns the value before and whether it was done.
fn remove_text_where<C: Condition<i64>>(
    rt: &impl Abort,
    alloc: Global,
    version: &mut Texts,
    at: &str,
    condition: &C,
) -> (Option<i64>, bool) {
    let key = text(rt, alloc, at);
    let change = version.remove_where(alloc, &*key, condition);
    let change = change.expect(rt, "not removed");
    (plainly(change.previous), change.written)
}

// What a put of the text under a condition is answered: the value before, and whether it was done.
fn assert_put_where<C: Condition<i64>>(
    rt: &impl Abort,
    alloc: Global,
    version: &mut Texts,
    put: (&str, i64),
    condition: &C,
    want: Result<(Option<i64>, bool), Refusal>,
) {
    assert_is(rt, put_text_where(rt, alloc, version, put, condition), want);
}

// What a removal of the text under a condition is answered: the value before, and whether it was done.
fn assert_removal_where<C: Condition<i64>>(
    rt: &impl Abort,
    alloc: Global,
    version: &mut Texts,
    at: &str,
    condition: &C,
    want: (Option<i64>, bool),
) {
    let seen = remove_text_where(rt, alloc, version, at, condition);
    assert_is(rt, seen, want);
}

#[test]
fn a_put_under_a_condition_tells_whether_it_was_done(rt: HostRuntime) {
    let alloc = rt.alloc();
    let mut map = empty(&rt, alloc, 1);
    assert_put_where(
        &rt,
        alloc,
        &mut map,
        ("a", 5),
        &IfPresent,
        Ok((None, false)),
    );
    assert_put_where(&rt, alloc, &mut map, ("a", 5), &IfAbsent, Ok((None, true)));
    assert_put_where(
        &rt,
        alloc,
        &mut map,
        ("a", 6),
        &IfAbsent,
        Ok((Some(5), false)),
    );
    assert_put_where(
        &rt,
        alloc,
        &mut map,
        ("a", 6),
        &IfEqual(&6),
        Ok((Some(5), false)),
    );
    assert_put_where(
        &rt,
        alloc,
        &mut map,
        ("a", 6),
        &IfEqual(&5),
        Ok((Some(5), true)),
    );
    assert_put_where(
        &rt,
        alloc,
        &mut map,
        ("b", 6),
        &IfAbsent,
        Err(Refusal::Full),
    );
    assert_put_where(
        &rt,
        alloc,
        &mut map,
        ("b", 6),
        &IfPresent,
        Ok((None, false)),
    );
    assert_text(&rt, alloc, &map, "a", Some(6));
}

// A view shares the key's node, so that its value is not exchanged where it stands.
#[test]
fn a_full_map_beside_a_view_replaces_a_value(rt: HostRuntime) {
    let alloc = rt.alloc();
    let mut map = empty(&rt, alloc, 1);
    assert_put_where(&rt, alloc, &mut map, ("a", 5), &IfAbsent, Ok((None, true)));
    let view = map.view().expect(&rt, "no view");
    assert_put_where(
        &rt,
        alloc,
        &mut map,
        ("a", 6),
        &IfEqual(&5),
        Ok((Some(5), true)),
    );
    assert_is(&rt, view.len(), 1);
    assert_text(&rt, alloc, &map, "a", Some(6));
}

#[test]
fn a_removal_under_a_condition_tells_whether_it_was_done(rt: HostRuntime) {
    let alloc = rt.alloc();
    let mut map = of_three(&rt, alloc, Stamp(1));
    assert_removal_where(&rt, alloc, &mut map, "a", &IfEqual(&5), (Some(1), false));
    assert_removal_where(&rt, alloc, &mut map, "a", &IfEqual(&1), (Some(1), true));
    assert_removal_where(&rt, alloc, &mut map, "a", &IfPresent, (None, false));
}
