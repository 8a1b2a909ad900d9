//! Texts with a path word that nobody can foresee who does not know the seed.

use super::{found, twin};
use hash_path::{Path, PathKey};
use keys::ByteText;
use seeded_keys::{Seed, SeededText};
use std::cmp::Ordering;
use std::sync::Arc;
use std::test::Fail;

/// The seed of the published vectors: the bytes from 0 to 15.
fn counted() -> Seed {
    Seed::new(0x0706_0504_0302_0100, 0x0f0e_0d0c_0b0a_0908)
}

/// Words of the bytes 0, 1, 2 .., so many of them: vectors of SipHash-1-3 that the tests of Rust's standard library have.
#[test]
fn words_are_the_published_ones(rt: HostRuntime) -> Result<(), Fail> {
    let vectors = [
        (0, 0xabac_0158_050f_c4dc),
        (1, 0xc9f4_9bf3_7d57_ca93),
        (2, 0x82cb_9b02_4dc7_d44d),
        (3, 0x8bf8_0ab8_e7dd_f7fb),
        (7, 0xd392_7d98_9bb1_1140),
        (8, 0x3690_9511_8d29_9a8e),
        (9, 0x25a4_8eb3_6c06_3de4),
        (15, 0xd320_d86d_2a51_9956),
        (16, 0xcc4f_dd1a_7d90_8b66),
        (30, 0x540f_11d6_43c5_e663),
        (31, 0x2370_dd1f_8c21_d1bc),
        (63, 0x9d19_9062_b7bb_b3a8),
    ];
    let mut bytes = [0u8; 64];
    for place in 0..64u8 {
        bytes[usize::from(place)] = place;
    }
    for (count, wanted) in vectors {
        assert_eq!(rt; counted().word(&bytes[..count.min(64)]), wanted);
    }
    Ok(())
}

/// Words under the seed of zeros: those of Rust's `DefaultHasher`, and of `hash` in CPython.
#[test]
fn words_under_no_seed(rt: HostRuntime) {
    let zeros = Seed::new(0, 0);
    assert_eq!(rt; zeros.word(b"a"), 0x4074_48d2_b89b_1813);
    assert_eq!(rt; zeros.word(b"alice"), 0x11af_1c34_7e79_d641);
    assert_eq!(rt; zeros.word(b"0123456789abcdef"), 0x1d42_b30f_7e06_0c24);
}

/// The path word of a key and its place in order beside another, by the bound alone.
fn placed<K: PathKey>(key: &K, other: &K) -> (Path, Ordering) {
    (key.path(), key.cmp(other))
}

/// Keys of one seed and one text are one key, in the order of their texts; a key shows its text.
#[test]
fn keys_have_their_texts(rt: HostRuntime) -> Result<(), Fail> {
    let (alloc, zeros) = (rt.alloc(), Seed::new(0, 0));
    let alice = zeros.key(alloc, "alice")?;
    let same = zeros.key_of(ByteText::from_slice(alloc, b"alice")?);
    let bob = zeros.key(alloc, "bob")?;
    assert!(rt; alice == same);
    assert!(rt; alice.try_clone(alloc)? == alice);
    assert!(rt; alice.clone()? != bob);
    assert_eq!(rt;
        placed(&alice, &bob),
        (Path(0x11af_1c34_7e79_d641), Ordering::Less)
    );
    assert_eq!(rt; alice.as_str(), Some("alice"));
    assert_eq!(rt; alice.as_bytes(), b"alice".as_slice());
    assert_eq!(rt;
        format!(in alloc; "{alice} {bob:?}")?.as_str(),
        "alice ByteText { bytes: [98, 111, 98] }"
    );
    assert!(rt; counted().key(alloc, "alice")? != alice);
    Ok(())
}

/// A word stands beside the text.
#[test]
fn keys_have_five_words(rt: HostRuntime) {
    assert_eq!(rt; size_of::<SeededText>(), 40usize);
}

/// A key is looked up by a reference to one, and by its seed with its text or its bytes.
#[test]
fn keys_are_sought_by_each_form(rt: HostRuntime) -> Result<(), Fail> {
    let (zeros, path) = (Seed::new(0, 0), Path(0x11af_1c34_7e79_d641));
    let key = Arc::new(rt.alloc(), zeros.key(rt.alloc(), "alice")?)?;
    assert_eq!(rt; found(&key, &key), (path, Ordering::Equal));
    assert_eq!(rt; found(key.as_ref(), &key), (path, Ordering::Equal));
    assert_eq!(rt; found((&zeros, "alice"), &key), (path, Ordering::Equal));
    assert_eq!(rt;
        found((&zeros, b"alice".as_slice()), &key),
        (path, Ordering::Equal)
    );
    assert_eq!(rt; found((&zeros, "alic"), &key).1, Ordering::Less);
    assert_eq!(rt; found((&zeros, "bob"), &key).1, Ordering::Greater);
    assert!(rt; found((&counted(), "alice"), &key).1 != Ordering::Equal);
    Ok(())
}

/// A seed that the system gives makes keys, and shows none of its bits.
#[test]
fn seeds_are_drawn(rt: HostRuntime) -> Result<(), Fail> {
    let alloc = rt.alloc();
    let seed = Seed::random(&rt)?;
    let alice = seed.key(alloc, "alice")?;
    assert!(rt; alice == seed.key(alloc, "alice")?);
    assert!(rt; alice != Seed::random(&rt)?.key(alloc, "alice")?);
    assert_eq!(rt; format!(in alloc; "{seed:?}")?.as_str(), "Seed { .. }");
    Ok(())
}

/// A key lies in a row of a trie with its word.
#[test]
fn keys_lie_in_rows(rt: HostRuntime) -> Result<(), Fail> {
    let alice = Seed::new(0, 0).key(rt.alloc(), "alice")?;
    let same = twin(&alice)?;
    assert!(rt; same == alice);
    assert_eq!(rt; same.path(), Path(0x11af_1c34_7e79_d641));
    Ok(())
}
