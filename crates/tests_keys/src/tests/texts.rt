//! Texts of any bytes as keys.

use super::{found, half, seen};
use hash_path::{Path, PathKey};
use keys::{ByteText, MOST_IN_PLACE};
use slots::Inline;
use std::alloc::Global;
use std::cmp::Ordering;
use std::process::Abort;
use std::sync::Arc;
use std::test::Fail;

/// Keys of the same bytes, made in each way, are one key; the hashes are published ones.
#[test]
fn byte_text_has_its_bytes(rt: HostRuntime) -> Result<(), Fail> {
    let foobar = ByteText::from_text(rt.alloc(), "foobar")?;
    let same = ByteText::from_slice(rt.alloc(), b"foobar")?;
    let owned = ByteText::new(b"foo".to_vec(rt.alloc())?);
    assert_eq!(rt; foobar.as_bytes(), b"foobar".as_slice());
    assert_eq!(rt; owned.as_bytes(), b"foo".as_slice());
    assert!(rt; foobar == same);
    assert!(rt; foobar != owned);
    assert_eq!(rt; seen(&owned, &foobar), (Path(0xdcb2_7518_fed9_d577), true));
    assert_eq!(rt; seen(&foobar, &owned), (Path(0x8594_4171_f739_67e8), false));
    Ok(())
}

/// A key is shown as its text, and what is not UTF-8 as U+FFFD; a copy is an equal key.
#[test]
fn byte_text_is_shown_as_text(rt: HostRuntime) -> Result<(), Fail> {
    let plain = ByteText::from_text(rt.alloc(), "h\u{e9}llo")?;
    assert_eq!(rt; plain.as_str(), Some("h\u{e9}llo"));
    assert_eq!(rt; format!(in rt.alloc(); "{plain}")?.as_str(), "h\u{e9}llo");
    let odd = ByteText::from_slice(rt.alloc(), b"a\xffb")?;
    assert!(rt; odd.as_str().is_none());
    assert!(rt; odd.try_clone(rt.alloc())? == odd);
    assert!(rt; odd != plain);
    Ok(())
}

/// One U+FFFD stands for each sequence that is none, and for the longest that begins one: two texts of the Unicode
/// Standard 15, its tables 3-8 and 3-11.
#[test]
fn bytes_that_are_no_text_are_shown_as_the_standard_has_it(rt: HostRuntime) -> Result<(), Fail> {
    for (bytes, shown) in [
        (
            b"\xc0\xaf\xe0\x80\xbf\xf0\x81\x82A".as_slice(),
            "\u{fffd}\u{fffd}\u{fffd}\u{fffd}\u{fffd}\u{fffd}\u{fffd}\u{fffd}A",
        ),
        (
            b"\xe1\x80\xe2\xf0\x91\x92\xf1\xbfA".as_slice(),
            "\u{fffd}\u{fffd}\u{fffd}\u{fffd}A",
        ),
    ] {
        let text = ByteText::from_slice(rt.alloc(), bytes)?;
        assert_eq!(rt; format!(in rt.alloc(); "{text}")?.as_str(), shown);
    }
    Ok(())
}

/// What lies in place takes no more room than a `Vec` beside it.
#[test]
fn byte_text_has_four_words(rt: HostRuntime) {
    assert_eq!(rt; size_of::<ByteText>(), 32usize);
}

/// A text of these bytes: each way to make it gives one key, and each reads it back.
fn assert_whole(rt: &impl Abort, alloc: Global, bytes: &[u8]) {
    let text = ByteText::from_slice(alloc, bytes).expect(rt, "no text");
    let owned = ByteText::new(bytes.to_vec(alloc).expect(rt, "no bytes"));
    let clone = text.clone().expect(rt, "no clone");
    assert_eq!(rt; text.as_bytes(), bytes);
    assert_eq!(rt; owned.as_bytes(), bytes);
    assert!(rt; text == owned);
    assert!(rt; clone == owned);
    assert_eq!(rt; text.path(), Path::fnv1a(bytes));
}

/// Texts that lie in place, and those that do not.
#[test]
fn texts_about_the_border(rt: HostRuntime) {
    let all = b"0123456789012345678901234567890123456789012345678901234567890123";
    for len in [
        0,
        1,
        MOST_IN_PLACE - 1,
        MOST_IN_PLACE,
        MOST_IN_PLACE + 1,
        64,
    ] {
        assert_whole(&rt, rt.alloc(), &all[..len]);
    }
}

/// A key is looked up by a reference to one, by its bytes and by its text; the hashes are published ones.
#[test]
fn byte_text_is_sought_by_each_form(rt: HostRuntime) -> Result<(), Fail> {
    let foo = Path(0xdcb2_7518_fed9_d577);
    let key = Arc::new(rt.alloc(), ByteText::from_text(rt.alloc(), "foo")?)?;
    assert_eq!(rt; found(&key, &key), (foo, Ordering::Equal));
    assert_eq!(rt; found(key.as_ref(), &key), (foo, Ordering::Equal));
    assert_eq!(rt; found(b"foo".as_slice(), &key), (foo, Ordering::Equal));
    assert_eq!(rt; found("foo", &key), (foo, Ordering::Equal));
    assert_eq!(rt;
        found("fo", &key),
        (Path(0x0898_5907_b541_d342), Ordering::Less)
    );
    assert_eq!(rt;
        found(b"foob".as_slice(), &key),
        (Path(0xdd12_0e79_0c25_12af), Ordering::Greater)
    );
    Ok(())
}

/// Texts lie in rows of a trie, in place or not, and pairs of them.
#[test]
fn texts_lie_in_rows(rt: HostRuntime) -> Result<(), Fail> {
    let short = ByteText::from_text(rt.alloc(), "foo")?;
    let long = ByteText::from_slice(rt.alloc(), &[b'x'; 40])?;
    let pair = (half(&short)?, half(&long)?);
    assert_eq!(rt; pair.0.as_str(), Some("foo"));
    assert_eq!(rt; pair.1.as_bytes(), [b'x'; 40].as_slice());
    assert!(rt; pair.another()? == (short, long));
    Ok(())
}
