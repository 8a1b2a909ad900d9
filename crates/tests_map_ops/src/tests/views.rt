//! Views of a version.
use super::{
    Texts, assert_is, assert_own, assert_put, assert_removal, clear, has, is_empty, of_three, text,
};
use keys::ByteText;
use std::panic::Expect;
use std::process::Abort;
use trie_node::Stamp;
use versions::View;

// Takes a value that other threads may have and read.
fn for_threads<T: Send + Sync>(value: T) -> T {
    value
}

// The value of the key, or none.
fn seen(view: &View<ByteText, i64>, key: &ByteText) -> Option<i64> {
    match view.get(key) {
        Some(value) => Some(**value),
        None => None,
    }
}

// A view of the version.
fn view(rt: &impl Abort, version: &Texts) -> View<ByteText, i64> {
    version.view().expect(rt, "no view")
}

// The view has three pairs, the key's among them.
fn assert_has_all_three(rt: &impl Abort, view: &View<ByteText, i64>, key: &ByteText) {
    assert_is(rt, (view.len(), view.is_empty()), (3, false));
    assert_is(rt, view.contains_key(key), true);
    assert_is(rt, trie_node::size(view.root()), 3);
}

// Another view of the same map, once the first one is dropped.
fn another(rt: &impl Abort, view: View<ByteText, i64>) -> View<ByteText, i64> {
    view.try_clone().expect(rt, "no clone")
}

// How many pairs the view has, and the value of the key.
fn pairs_and_value(view: &View<ByteText, i64>, key: &ByteText) -> (u64, Option<i64>) {
    (view.len(), seen(view, key))
}

#[test]
fn a_view_shows_no_later_write(rt: HostRuntime) {
    let alloc = rt.alloc();
    let a = text(&rt, alloc, "a");
    let c = text(&rt, alloc, "c");
    let mut version = of_three(&rt, alloc, Stamp(1));
    assert_own(&rt, &version, 4);
    let view = for_threads(view(&rt, &version));
    assert_put(&rt, alloc, &mut version, ("a", 9), Ok(Some(1)));
    assert_own(&rt, &version, 4);
    assert_is(&rt, seen(&view, &*a), Some(1));
    assert_removal(&rt, alloc, &mut version, "c", Some(3));
    assert_own(&rt, &version, 3);
    assert_is(&rt, has(&version, &*c), false);
    assert_has_all_three(&rt, &view, &*c);
    assert_is(&rt, clear(alloc, &mut version), Ok(()));
    assert_is(&rt, is_empty(&version), true);
    assert_has_all_three(&rt, &view, &*c);
    let again = another(&rt, view);
    assert_is(&rt, pairs_and_value(&again, &*c), (3, Some(3)));
}
