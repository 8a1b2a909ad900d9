//! Calls with requests for memory refused.
use super::{
    Chosen, Texts, assert_is, assert_own, assert_sizes, assert_text, chosen, empty, fork, len,
    of_three, plainly, put, put_text, shared, sizes, started, text, value_of,
};
use generation::Source;
use keys::ByteText;
use std::alloc::Global;
use std::panic::Expect;
use std::process::Abort;
use std::sync::Arc;
use test_keys::{Shortage, take_all};
use trie_node::Stamp;
use versions::{NoMemory, Refusal};

// What writes of the pair are answered. What a refused put gives back has its holder here, so that it frees nothing for
// the calls behind it.
fn writes(
    rt: &impl Abort,
    alloc: Global,
    version: &mut Texts,
    key: &Arc<ByteText>,
    value: &Arc<i64>,
) -> (
    Result<Option<i64>, Refusal>,
    Result<Option<i64>, NoMemory>,
    Result<(), NoMemory>,
) {
    let same_key = Arc::try_clone(key).expect(rt, "no key");
    let same_value = Arc::try_clone(value).expect(rt, "no value");
    let put = version.put(alloc, same_key, same_value).map(plainly);
    let removed = version.remove(alloc, &**key).map(plainly);
    (put, removed, version.clear(alloc))
}

#[test]
fn forks_and_views_make_no_request(rt: HostRuntime) {
    let alloc = rt.alloc();
    let (mut version, mut source) = started(&rt, alloc);
    let a = text(&rt, alloc, "a");
    let nine = shared(&rt, alloc, 9);

    let taken = take_all(alloc).expect(&rt, "no list");
    let viewed = version.view().is_ok();
    let forked = fork(&rt, &mut version, &mut source);
    let answers = writes(&rt, alloc, &mut version, &a, &nine);
    let left = sizes(&version);
    drop(taken);

    assert_is(&rt, viewed, true);
    let refused = (Err(Refusal::NoMemory), Err(NoMemory), Err(NoMemory));
    assert_is(&rt, answers, refused);
    assert_is(&rt, left, (3, 0));
    assert_is(&rt, source.issued(), 3);
    assert_sizes(&rt, &forked, (3, 0));
}

// A body that copies the path fails here: nobody shares the nodes.
#[test]
fn writes_of_keys_that_are_there_make_no_request(rt: HostRuntime) {
    let alloc = rt.alloc();
    let mut version = of_three(&rt, alloc, Stamp(1));
    let a = text(&rt, alloc, "a");
    let c = text(&rt, alloc, "c");
    let again = text(&rt, alloc, "a");
    let nine = shared(&rt, alloc, 9);

    let taken = take_all(alloc).expect(&rt, "no list");
    let put = version.put(alloc, again, nine);
    let removed = version.remove(alloc, &*c);
    drop(taken);

    assert_is(&rt, put.map(plainly), Ok(Some(1)));
    assert_is(&rt, removed.map(plainly), Ok(Some(3)));
    assert_is(&rt, (value_of(&version, &*a), len(&version)), (Some(9), 2));
    assert_own(&rt, &version, 3);
}

// A map that is full says so with every request refused, and no other refusal hides it.
#[test]
fn a_full_map_says_so_without_memory(rt: HostRuntime) {
    let alloc = rt.alloc();
    let mut version: Chosen = empty(&rt, alloc, 1);
    assert_is(
        &rt,
        put(&rt, alloc, &mut version, chosen(0, 0), 1),
        Ok(None),
    );
    let key = Arc::new(alloc, chosen(1, 0)).expect(&rt, "no key");
    let value = shared(&rt, alloc, 2);
    let taken = take_all(alloc).expect(&rt, "no list");
    let answer = version.put(alloc, key, value);
    drop(taken);
    assert_is(&rt, answer, Err(Refusal::Full));
}

// Writes the text while a view and a fork share what the version has, so that its path is copied, and drops both. The
// answer is how many writes were made.
fn written_beside(
    rt: &impl Abort,
    alloc: Global,
    version: &mut Texts,
    source: &mut Source,
    value: i64,
) -> u64 {
    let _view = version.view();
    let _forked = fork(rt, version, source);
    u64::from(put_text(rt, alloc, version, "a", value).is_ok())
}

// A body that keeps what a dropped view or fork shared comes to the end of so little memory.
#[test]
fn dropped_views_and_forks_keep_no_memory(rt: HostRuntime) {
    let alloc = rt.alloc();
    let (mut version, mut source) = started(&rt, alloc);
    let mut shortage = Shortage::new(alloc).expect(&rt, "no shortage");
    shortage.give(alloc, 8_192).expect(&rt, "not given");
    let mut made = 0u64;
    for value in 0..1_000 {
        let one = written_beside(&rt, alloc, &mut version, &mut source, value);
        made = made.saturating_add(one);
    }
    drop(shortage);
    assert_is(&rt, made, 1_000);
    assert_text(&rt, alloc, &version, "a", Some(999));
}
