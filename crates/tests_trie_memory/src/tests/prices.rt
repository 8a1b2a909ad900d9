//! A type of a user's own in rows.

use super::assert_is;
use slots::{Half, InPlace, Inline, Pair};
use std::alloc::AllocError;
use std::panic::Expect;

#[derive(Clone, Copy, PartialEq, Debug)]
struct Price {
    cents: u64,
    currency: [u8; 4],
}

impl Inline for Price {
    ghost use Rattle.std.proofs.Common.{rules};

    ghost small = { Prim.search rules };

    fn another(&self) -> Result<Price, AllocError> {
        Ok(*self)
    }
}

/// So that it may be a part of a pair.
impl Half for Price {
    ghost use Rattle.std.proofs.Common.{rules};

    ghost half = { Prim.search rules };
}

const PRICE: Price = Price {
    cents: 1250,
    currency: *b"EUR ",
};

// Another of it, by the bound alone.
fn twin<T: Inline>(value: &T) -> Result<T, AllocError> {
    value.another()
}

// As `twin`, of what takes half a place.
fn half<T: Half>(value: &T) -> Result<T, AllocError> {
    value.another()
}

// Alone, in a pair and in an option; it takes the room that it is said to take.
#[test]
fn a_price_lies_in_rows(rt: HostRuntime) {
    assert_is(&rt, half(&PRICE).expect(&rt, "no price"), PRICE);
    let pair = (PRICE, [1u8; 32]);
    assert_is(&rt, twin(&pair).expect(&rt, "no pair"), pair);
    assert_is(
        &rt,
        twin(&Some(PRICE)).expect(&rt, "no option"),
        Some(PRICE),
    );
    assert!(rt; size_of::<Price>() <= 32);
}

// A pair in a row is exchanged and taken apart.
#[test]
fn a_pair_in_a_row_is_exchanged(rt: HostRuntime) {
    let mut pair: Pair<u64, Price, InPlace> = Pair::new(3, PRICE);
    let copy = pair.another().expect(&rt, "no pair");
    let dearer = Price {
        cents: 1300,
        ..PRICE
    };
    assert_is(&rt, pair.exchange(dearer), PRICE);
    assert_is(&rt, (*pair.key(), *pair.value()), (3, dearer));
    assert_is(&rt, copy.into_parts(), (3, PRICE));
}
