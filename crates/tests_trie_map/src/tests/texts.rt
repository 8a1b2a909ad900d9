//! Calls by a text, with no key made of it.
use super::{assert_is, plain};
use std::sync::Wait;
use trie_map::{ByteText, NoMemory, PutError, TrieMap, View};

// A map of two texts.
fn of_texts<R: AllocGlobal + Wait>(rt: &R) -> Result<TrieMap<ByteText, u64>, PutError> {
    let map: TrieMap<ByteText, u64> = TrieMap::new(rt)?;
    map.put(rt, ByteText::from_text(rt.alloc(), "a")?, 4)?;
    map.put(rt, ByteText::from_text(rt.alloc(), "ab")?, 6)?;
    Ok(map)
}

// The value of a text, by `get`.
fn got<R: Wait>(rt: &R, map: &TrieMap<ByteText, u64>, text: &str) -> Result<Option<u64>, NoMemory> {
    Ok(map.get(rt, text)?.map(|value| *value))
}

// What removals of the texts "a" and "ab" answer, whose values are 4 and 6.
fn removed<R: Wait>(rt: &R, map: &TrieMap<ByteText, u64>) -> Result<[Option<u64>; 4], NoMemory> {
    Ok([
        plain(map.remove(rt, "b")?),
        plain(map.remove(rt, "a")?),
        plain(map.remove(rt, b"a".as_slice())?),
        plain(map.remove(rt, b"ab".as_slice())?),
    ])
}

#[test]
fn a_text_is_looked_up_with_no_key_made(rt: HostRuntime) {
    let map = of_texts(&rt).expect(&rt, "no map of texts");
    assert_is(&rt, got(&rt, &map, "a"), Ok(Some(4)));
    assert_is(&rt, got(&rt, &map, "b"), Ok(None));
    let copies = ["a", "ab", "b", ""].map(|text| map.get_copied(&rt, text));
    assert_is(&rt, copies, [Some(4), Some(6), None, None]);
    let there = [b"ab".as_slice(), b"ba".as_slice()].map(|bytes| map.contains_key(&rt, bytes));
    assert_is(&rt, there, [true, false]);
    assert_is(&rt, map.read(&rt, "ab", |found| found.is_some()), true);
}

#[test]
fn a_text_is_looked_up_in_a_view(rt: HostRuntime) {
    let map = of_texts(&rt).expect(&rt, "no map of texts");
    let view: View<ByteText, u64> = map.view(&rt).expect(&rt, "no view");
    let there = ["a", "ab", "b"].map(|text| view.contains_key(text));
    assert_is(&rt, there, [true, true, false]);
    assert_is(&rt, view.get("ab").map(|value| **value), Some(6));
}

#[test]
fn a_text_is_removed_with_no_key_made(rt: HostRuntime) {
    let map = of_texts(&rt).expect(&rt, "no map of texts");
    let answers = [None, Some(4), None, Some(6)];
    assert_is(&rt, removed(&rt, &map), Ok(answers));
    assert_is(&rt, map.is_empty(&rt), true);
}

// Whether a text is removed where its value is to be equal to another: the values are 4 and 6.
fn removed_if<R: Wait>(rt: &R, map: &TrieMap<ByteText, u64>) -> Result<[bool; 4], NoMemory> {
    Ok([
        map.remove_if(rt, "a", &6)?,
        map.remove_if(rt, "a", &4)?,
        map.remove_if(rt, b"ab".as_slice(), &6)?,
        map.remove_if(rt, "ab", &6)?,
    ])
}

// What removals of the text "ab" answer, whose value is 6, where it is to pass a test.
fn removed_where<R: Wait>(
    rt: &R,
    map: &TrieMap<ByteText, u64>,
) -> Result<[Option<u64>; 3], NoMemory> {
    Ok([
        plain(map.remove_where(rt, "ab", |value| *value > 6)?),
        plain(map.remove_where(rt, b"b".as_slice(), |_| true)?),
        plain(map.remove_where(rt, "ab", |value| *value == 6)?),
    ])
}

#[test]
fn a_text_is_removed_where_its_value_is_so(rt: HostRuntime) {
    let map = of_texts(&rt).expect(&rt, "no map of texts");
    assert_is(&rt, removed_where(&rt, &map), Ok([None, None, Some(6)]));
    assert_is(&rt, map.len(&rt), 1);
    let map = of_texts(&rt).expect(&rt, "no map of texts");
    assert_is(&rt, removed_if(&rt, &map), Ok([false, true, true, false]));
    assert_is(&rt, map.is_empty(&rt), true);
}
