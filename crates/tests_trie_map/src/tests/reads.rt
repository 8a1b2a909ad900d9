//! Reads that clone no handle, and maps in text.
use super::{Map, assert_is, empty, key, put, view_of};
use std::alloc::AllocError;
use std::process::Abort;
use std::sync::Wait;
use trie_map::{PutError, TrieMap, View};

// Whether `look` was given a value, and what it makes of it.
fn looked<R: Wait>(rt: &R, map: &Map, id: u32) -> (bool, u64) {
    map.read(rt, &key(1, id), |found| match found {
        Some(value) => (true, value.wrapping_mul(2)),
        None => (false, 0),
    })
}

#[test]
fn a_value_is_read_where_it_is(rt: HostRuntime) {
    let map = empty(&rt);
    put(&rt, &map, key(1, 0), 21);
    put(&rt, &map, key(1, 1), 4);
    assert_is(&rt, looked(&rt, &map, 0), (true, 42));
    assert_is(&rt, looked(&rt, &map, 1), (true, 8));
    assert_is(&rt, looked(&rt, &map, 2), (false, 0));
}

#[test]
fn a_value_is_copied(rt: HostRuntime) {
    let map = empty(&rt);
    put(&rt, &map, key(1, 0), 21);
    put(&rt, &map, key(1, 1), 4);
    let copies = [0, 1, 2].map(|id| map.get_copied(&rt, &key(1, id)));
    assert_is(&rt, copies, [Some(21), Some(4), None]);
    let view = view_of(&rt, &map);
    put(&rt, &map, key(1, 1), 5);
    let copies = [0, 1, 2].map(|id| view.get_copied(&key(1, id)));
    assert_is(&rt, copies, [Some(21), Some(4), None]);
}

#[test]
fn pairs_are_counted_stripe_by_stripe(rt: HostRuntime) {
    let map = empty(&rt);
    assert_is(&rt, map.approx_len(&rt), 0);
    for id in 0..40 {
        put(&rt, &map, key(id % 32, id), 1);
    }
    assert_is(&rt, map.approx_len(&rt), 40);
}

// A map in text while one of its stripes is locked.
fn shown_locked<R: AllocGlobal + Wait>(rt: &R, map: &Map) -> Result<String, AllocError> {
    map.read(rt, &key(1, 0), |_| format!(in rt.alloc(); "{map:?}"))
}

#[test]
fn a_locked_map_in_text(rt: HostRuntime) {
    let map = empty(&rt);
    put(&rt, &map, key(1, 0), 21);
    put(&rt, &map, key(2, 0), 4);
    let text = shown_locked(&rt, &map).expect(&rt, "no text");
    assert_is(&rt, text.as_str(), "TrieMap { .. }");
}

#[test]
fn errors_in_text(rt: HostRuntime) {
    for (error, text) in [
        (
            PutError::Full,
            "the key is new and its part of the map is full",
        ),
        (PutError::NoMemory, "out of memory"),
    ] {
        let shown = format!(in rt.alloc(); "{error}").expect(&rt, "no text");
        assert_is(&rt, shown.as_str(), text);
    }
}

// A map of numbers and a view of it in text.
fn shown<R: AllocGlobal + Wait + Abort>(rt: &R) -> Result<(String, String), AllocError> {
    let map: TrieMap<u64, u32> = TrieMap::new(rt).expect(rt, "no map");
    map.put(rt, 7, 70).expect(rt, "not put");
    let view: View<u64, u32> = map.view(rt).expect(rt, "no view");
    Ok((
        format!(in rt.alloc(); "{map:?}")?,
        format!(in rt.alloc(); "{view:?}")?,
    ))
}

#[test]
fn a_map_and_a_view_in_text(rt: HostRuntime) {
    let (map, view) = shown(&rt).expect(&rt, "no text");
    assert_is(&rt, map.as_str(), "TrieMap { len: 1 }");
    assert_is(&rt, view.as_str(), "{7: 70}");
    assert_is(&rt, view_of(&rt, &empty(&rt)).is_empty(), true);
}
