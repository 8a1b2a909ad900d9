//! Rows that hold long texts, of which each copy requests memory, with each request of a put refused in turn.

use super::assert_is;
use keys::ByteText;
use std::alloc::{AllocError, Global};
use std::panic::Expect;
use std::process::Abort;
use test_keys::Shortage;
use test_roots::TestRoot;
use trie_node::{InPlace, Stamp};

/// A trie whose rows hold keys and values that take memory beside them.
type Texts = TestRoot<ByteText, ByteText, InPlace>;

// How many pairs there are before the put, each of a text and itself.
const PAIRS: u8 = 64;

// What the put maps its key to.
const NEW: u8 = 255;

// How many bytes of room a put has more than the one before, which is less than a text takes, and how many puts there are
// at most.
const STEP: usize = 64;

const STEPS: usize = 400;

// A text of 64 bytes, the last of which is the number.
fn text(alloc: Global, number: u8) -> Result<ByteText, AllocError> {
    let mut bytes = [b'k'; 64];
    bytes[63] = number;
    ByteText::from_slice(alloc, &bytes)
}

// The number of the value of the text with this number, if it is there.
fn value_at(rt: &impl Abort, alloc: Global, texts: &Texts, number: u8) -> Option<u8> {
    let sought = text(alloc, number).expect(rt, "no key");
    let found = texts
        .find(&sought)
        .map(|value| value.as_bytes().last().copied().unwrap_or(0));
    drop(sought);
    found
}

// Puts the new value at the text with this number.
fn put(rt: &impl Abort, alloc: Global, texts: &mut Texts, number: u8, value: u8) {
    let key = text(alloc, number).expect(rt, "no key");
    let value = text(alloc, value).expect(rt, "no value");
    let answer = texts.put_in(alloc, key, value, Stamp(1));
    answer.expect(rt, "not put");
}

// A trie of the texts.
fn filled(rt: &impl Abort, alloc: Global) -> Texts {
    let mut texts: Texts = TestRoot::new(alloc, Stamp(1)).expect(rt, "no root");
    for number in 0..PAIRS {
        put(rt, alloc, &mut texts, number, number);
    }
    texts
}

// Each text but the one with this number has the value that it had.
fn assert_others(rt: &impl Abort, alloc: Global, texts: &Texts, but: u8) {
    for number in 0..PAIRS {
        if number != but {
            assert_is(rt, value_at(rt, alloc, texts, number), Some(number));
        }
    }
}

// Whether a put of the new value is granted where there is room for so many bytes.
fn is_granted(rt: &impl Abort, alloc: Global, texts: &mut Texts, number: u8, bytes: usize) -> bool {
    let key = text(alloc, number).expect(rt, "no key");
    let value = text(alloc, NEW).expect(rt, "no value");
    let shortage = Shortage::with_bytes(alloc, bytes).expect(rt, "no list");
    let granted = texts.put_in(alloc, key, value, Stamp(2)).is_ok();
    drop(shortage);
    granted
}

// Whether the put is granted. If it is refused, all is as it was; else the new value is there.
fn is_put_in_room(
    rt: &impl Abort,
    alloc: Global,
    texts: &mut Texts,
    number: u8,
    bytes: usize,
) -> bool {
    let before = value_at(rt, alloc, texts, number);
    let granted = is_granted(rt, alloc, texts, number, bytes);
    let after = if granted { Some(NEW) } else { before };
    assert_is(rt, value_at(rt, alloc, texts, number), after);
    assert_others(rt, alloc, texts, number);
    granted
}

// How many puts are refused before one is granted. Each is tried on the trie that the one before left.
fn count_refused(rt: &impl Abort, alloc: Global, texts: &mut Texts, number: u8) -> usize {
    for step in 0..STEPS {
        if is_put_in_room(rt, alloc, texts, number, step.wrapping_mul(STEP)) {
            return step;
        }
    }
    STEPS
}

// One text that is there, and new ones, of which some stand beside others, and some below a leaf, which becomes a branch.
const NUMBERS: [u8; 4] = [3, 64, 66, 69];

// One that is there, and a new one. All memory is taken for each put, which takes long.
const FEW: [u8; 2] = [3, 66];

// Where nobody else holds a row, a put of a text that is there requests no memory but for what it makes.
#[test]
fn a_refused_put_leaves_rows_of_long_texts(rt: HostRuntime) {
    let alloc = rt.alloc();
    for number in NUMBERS {
        let mut texts = filled(&rt, alloc);
        let refused = count_refused(&rt, alloc, &mut texts, number);
        drop(texts);
        assert_is(&rt, refused < STEPS, true);
    }
}

// Where another holds the rows, each of its way is copied, with the texts in it. The other is as it was.
#[test]
fn a_refused_copy_of_a_row_leaves_long_texts(rt: HostRuntime) {
    let alloc = rt.alloc();
    for number in FEW {
        let mut texts = filled(&rt, alloc);
        let other = texts.try_clone().expect(&rt, "no handle");
        let before = value_at(&rt, alloc, &other, number);
        let refused = count_refused(&rt, alloc, &mut texts, number);
        drop(texts);
        assert_is(&rt, value_at(&rt, alloc, &other, number), before);
        assert_others(&rt, alloc, &other, number);
        drop(other);
        assert_is(&rt, 1 < refused && refused < STEPS, true);
    }
}
