//! Removals by a text, with no key made of it.
use super::{Texts, assert_is, assert_text, empty_at, fork, len, next, of_three, plainly, put};
use generation::Source;
use keys::ByteText;
use std::alloc::Global;
use std::panic::Expect;
use std::process::Abort;
use trie_node::{IfEqual, Stamp};
use versions::NoMemory;

// What removals by a text and by bytes answer of a map of three.
fn removed(alloc: Global, version: &mut Texts) -> Result<[Option<i64>; 4], NoMemory> {
    Ok([
        plainly(version.remove(alloc, "d")?),
        plainly(version.remove(alloc, "a")?),
        plainly(version.remove(alloc, b"a".as_slice())?),
        plainly(version.remove(alloc, b"b".as_slice())?),
    ])
}

#[test]
fn a_text_is_removed_with_no_key_made(rt: HostRuntime) {
    let alloc = rt.alloc();
    let mut version = of_three(&rt, alloc, Stamp(1));
    let answers = [None, Some(1), None, Some(2)];
    assert_is(&rt, removed(alloc, &mut version), Ok(answers));
    assert_is(&rt, len(&version), 1);
    assert_text(&rt, alloc, &version, "c", Some(3));
}

// What removals under a condition answer of a map of three: the value before, and whether it was removed.
fn removed_where(alloc: Global, version: &mut Texts) -> Result<[(Option<i64>, bool); 3], NoMemory> {
    let other = version.remove_where(alloc, "a", &IfEqual(&5))?;
    let equal = version.remove_where(alloc, b"a".as_slice(), &IfEqual(&1))?;
    let absent = version.remove_where(alloc, "a", &IfEqual(&1))?;
    Ok([other, equal, absent].map(|change| (plainly(change.previous), change.written)))
}

#[test]
fn a_text_is_removed_under_a_condition(rt: HostRuntime) {
    let alloc = rt.alloc();
    let mut version = of_three(&rt, alloc, Stamp(1));
    let answers = [(Some(1), false), (Some(1), true), (None, false)];
    assert_is(&rt, removed_where(alloc, &mut version), Ok(answers));
    assert_is(&rt, len(&version), 2);
}

// The letters of the texts of a larger map.
const LETTERS: [u8; 16] = *b"abcdefghijklmnop";

// Maps each text of the letter and another to 7.
fn put_row(rt: &impl Abort, alloc: Global, version: &mut Texts, letter: u8) {
    for other in LETTERS {
        let key = ByteText::from_slice(alloc, &[letter, other]).expect(rt, "no text");
        assert_is(rt, put(rt, alloc, version, key, 7), Ok(None));
    }
}

// A map of all texts of two letters.
fn of_two_letters(rt: &impl Abort, alloc: Global, stamp: Stamp) -> Texts {
    let mut version = empty_at(rt, alloc, 256, stamp);
    for letter in LETTERS {
        put_row(rt, alloc, &mut version, letter);
    }
    version
}

// Removes each text of the letter and another, by its bytes.
fn remove_row(rt: &impl Abort, alloc: Global, version: &mut Texts, letter: u8) {
    for other in LETTERS {
        let text = [letter, other];
        let before = version.remove(alloc, text.as_slice());
        assert_is(rt, before.map(plainly), Ok(Some(7)));
    }
}

#[test]
fn texts_are_removed_beside_a_fork(rt: HostRuntime) {
    let alloc = rt.alloc();
    let mut source = Source::new();
    let mut version = of_two_letters(&rt, alloc, next(&rt, &mut source));
    let other = fork(&rt, &mut version, &mut source);
    for letter in *b"acegikmo" {
        remove_row(&rt, alloc, &mut version, letter);
    }
    assert_is(&rt, (len(&version), len(&other)), (128, 256));
    for (text, value) in [("aa", None), ("ap", None), ("ba", Some(7)), ("po", Some(7))] {
        assert_text(&rt, alloc, &version, text, value);
        assert_text(&rt, alloc, &other, text, Some(7));
    }
}
