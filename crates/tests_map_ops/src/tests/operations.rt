//! What operations on maps of a few pairs answer, by hand.
mod limits;
mod nodes;

use super::{Texts, assert_is, at_text, empty, len, plainly, shared, text};
use map_ops::{get_or_else_update, put, put_if_absent, remove, remove_if, replace, replace_if};
use std::alloc::Global;
use std::process::Abort;
use versions::Refusal;

// An operation on one key, with its values.
#[derive(Clone, Copy)]
enum Call {
    Get,
    Put(i64),
    PutIfAbsent(i64),
    Replace(i64),
    ReplaceIf(i64, i64),
    Remove,
    RemoveIf(i64),
    GetOrElseUpdate(i64),
}

// What an operation returns.
#[derive(Clone, Copy, Debug, PartialEq, Eq)]
enum Answer {
    // The value before, or none.
    Was(Option<i64>),
    // Whether it was done.
    Done(bool),
    // The value that is then there, and whether the closure ran that makes it.
    Is(i64, bool),
}

// A call, its key, and what it returns.
type Case<'a> = (Call, &'a str, Result<Answer, Refusal>);

// Puts the value, and returns the one before.
fn put_at(
    rt: &impl Abort,
    alloc: Global,
    map: &mut Texts,
    at: &str,
    value: i64,
) -> Result<Option<i64>, Refusal> {
    let key = text(rt, alloc, at);
    Ok(plainly(put(map, alloc, key, shared(rt, alloc, value))?))
}

// Puts the value where there is none, and returns the one before.
fn add_at(
    rt: &impl Abort,
    alloc: Global,
    map: &mut Texts,
    at: &str,
    value: i64,
) -> Result<Option<i64>, Refusal> {
    let key = text(rt, alloc, at);
    Ok(plainly(put_if_absent(map, alloc, key, shared(rt, alloc, value))?))
}

// Puts the value where there is one, and returns the one before.
fn replace_at(
    rt: &impl Abort,
    alloc: Global,
    map: &mut Texts,
    at: &str,
    value: i64,
) -> Result<Option<i64>, Refusal> {
    let key = text(rt, alloc, at);
    Ok(plainly(replace(map, alloc, key, shared(rt, alloc, value))?))
}

// Puts the new value where the old one is, and returns whether it was.
fn swap_at(
    rt: &impl Abort,
    alloc: Global,
    map: &mut Texts,
    at: &str,
    (old, new): (i64, i64),
) -> Result<bool, Refusal> {
    let key = text(rt, alloc, at);
    replace_if(map, alloc, key, &old, shared(rt, alloc, new))
}

// Removes the key, and returns the value before.
fn remove_at(
    rt: &impl Abort,
    alloc: Global,
    map: &mut Texts,
    at: &str,
) -> Result<Option<i64>, Refusal> {
    let key = text(rt, alloc, at);
    Ok(remove(map, alloc, &*key).map(plainly)?)
}

// Removes the key where the value is this one, and returns whether it was.
fn remove_value_at(
    rt: &impl Abort,
    alloc: Global,
    map: &mut Texts,
    at: &str,
    value: i64,
) -> Result<bool, Refusal> {
    let key = text(rt, alloc, at);
    remove_if(map, alloc, &*key, &value)
}

// The value of the key, which is this one where there was none, and whether the closure ran that makes it.
fn get_or_put(
    rt: &impl Abort,
    alloc: Global,
    map: &mut Texts,
    at: &str,
    value: i64,
) -> Result<(i64, bool), Refusal> {
    let key = text(rt, alloc, at);
    let mut ran = false;
    let found = get_or_else_update(map, alloc, key, || {
        ran = true;
        value
    })?;
    Ok((*found, ran))
}

// What the call on the key returns.
fn answer_of(
    rt: &impl Abort,
    alloc: Global,
    map: &mut Texts,
    call: Call,
    at: &str,
) -> Result<Answer, Refusal> {
    Ok(match call {
        Call::Get => Answer::Was(at_text(rt, alloc, map, at)),
        Call::Put(value) => Answer::Was(put_at(rt, alloc, map, at, value)?),
        Call::PutIfAbsent(value) => Answer::Was(add_at(rt, alloc, map, at, value)?),
        Call::Replace(value) => Answer::Was(replace_at(rt, alloc, map, at, value)?),
        Call::ReplaceIf(old, new) => Answer::Done(swap_at(rt, alloc, map, at, (old, new))?),
        Call::Remove => Answer::Was(remove_at(rt, alloc, map, at)?),
        Call::RemoveIf(value) => Answer::Done(remove_value_at(rt, alloc, map, at, value)?),
        Call::GetOrElseUpdate(value) => {
            let (value, ran) = get_or_put(rt, alloc, map, at, value)?;
            Answer::Is(value, ran)
        }
    })
}

// The calls are made one after another, and answered so.
fn assert_answers(rt: &impl Abort, alloc: Global, map: &mut Texts, rows: &[Case<'_>]) {
    for (number, (call, at, want)) in rows.iter().enumerate() {
        let seen = answer_of(rt, alloc, map, *call, at);
        assert_is(rt, (number, seen), (number, *want));
    }
}

#[test]
fn conditional_writes_of_one_key(rt: HostRuntime) {
    let alloc = rt.alloc();
    let mut map = empty(&rt, alloc, 10);
    assert_answers(
        &rt,
        alloc,
        &mut map,
        &[
            (Call::Put(5), "a", Ok(Answer::Was(None))),
            (Call::PutIfAbsent(6), "a", Ok(Answer::Was(Some(5)))),
            (Call::ReplaceIf(6, 8), "a", Ok(Answer::Done(false))),
            (Call::ReplaceIf(5, 8), "a", Ok(Answer::Done(true))),
            (Call::RemoveIf(5), "a", Ok(Answer::Done(false))),
            (Call::RemoveIf(8), "a", Ok(Answer::Done(true))),
            (Call::Replace(1), "a", Ok(Answer::Was(None))),
            (Call::GetOrElseUpdate(4), "a", Ok(Answer::Is(4, true))),
            (Call::GetOrElseUpdate(6), "a", Ok(Answer::Is(4, false))),
        ],
    );
    assert_is(&rt, len(&map), 1);
}

#[test]
fn writes_of_a_key_that_is_there_and_of_one_that_is_not(rt: HostRuntime) {
    let alloc = rt.alloc();
    let mut map = empty(&rt, alloc, 10);
    assert_answers(
        &rt,
        alloc,
        &mut map,
        &[
            (Call::Remove, "a", Ok(Answer::Was(None))),
            (Call::RemoveIf(0), "a", Ok(Answer::Done(false))),
            (Call::ReplaceIf(0, 1), "a", Ok(Answer::Done(false))),
            (Call::PutIfAbsent(1), "a", Ok(Answer::Was(None))),
            (Call::Replace(2), "a", Ok(Answer::Was(Some(1)))),
            (Call::Put(3), "a", Ok(Answer::Was(Some(2)))),
            (Call::Get, "a", Ok(Answer::Was(Some(3)))),
            (Call::Remove, "a", Ok(Answer::Was(Some(3)))),
            (Call::Get, "a", Ok(Answer::Was(None))),
        ],
    );
    assert_is(&rt, len(&map), 0);
}

#[test]
fn the_closure_runs_where_the_key_is_absent_alone(rt: HostRuntime) {
    let alloc = rt.alloc();
    let mut map = empty(&rt, alloc, 10);
    assert_answers(
        &rt,
        alloc,
        &mut map,
        &[
            (Call::GetOrElseUpdate(4), "a", Ok(Answer::Is(4, true))),
            (Call::GetOrElseUpdate(6), "a", Ok(Answer::Is(4, false))),
            (Call::Get, "a", Ok(Answer::Was(Some(4)))),
        ],
    );
}
