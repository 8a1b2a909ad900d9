//! Look-ups by the parts of a pair and of a triple.

use super::found;
use hash_path::PathKey;
use key_parts::{Parts, ThreeParts};
use keys::ByteText;
use std::cmp::Ordering;
use std::test::Fail;

/// Parts have the path word and the order of the pair that they stand for.
#[test]
fn parts_stand_for_pairs(rt: HostRuntime) -> Result<(), Fail> {
    let alloc = rt.alloc();
    let pair = (
        ByteText::from_text(alloc, "acme")?,
        ByteText::from_text(alloc, "dark-mode")?,
    );
    let flag = Parts("acme", "dark-mode");
    assert_eq!(rt; found(flag, &pair), (pair.path(), Ordering::Equal));
    assert_eq!(rt; found(Parts("acme", "dark"), &pair).1, Ordering::Less);
    assert_eq!(rt; found(Parts("acne", "a"), &pair).1, Ordering::Greater);
    let counted = (ByteText::from_text(alloc, "acme")?, 7u32);
    assert_eq!(rt;
        found(Parts("acme", &7u32), &counted),
        (counted.path(), Ordering::Equal)
    );
    assert_eq!(rt; found(Parts("acme", &8u32), &counted).1, Ordering::Greater);
    Ok(())
}

/// So have three parts.
#[test]
fn parts_stand_for_triples(rt: HostRuntime) -> Result<(), Fail> {
    let triple = (
        ByteText::from_text(rt.alloc(), "acme")?,
        7u32,
        ByteText::from_text(rt.alloc(), "eu")?,
    );
    let sought = ThreeParts("acme", &7u32, "eu");
    assert_eq!(rt; found(sought, &triple), (triple.path(), Ordering::Equal));
    assert_eq!(rt;
        found(ThreeParts("acme", &7u32, "us"), &triple).1,
        Ordering::Greater
    );
    assert_eq!(rt;
        found(ThreeParts("acme", &6u32, "us"), &triple).1,
        Ordering::Less
    );
    assert_eq!(rt;
        found(ThreeParts("a", &8u32, "us"), &triple).1,
        Ordering::Less
    );
    Ok(())
}
