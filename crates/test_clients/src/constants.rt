//! The keys that the tests put, and what views show of them; and the largest limits.
use crate::outcomes::Seen;
use handles::Limits;
use test_keys::ChosenKey;

pub const A: ChosenKey = ChosenKey { path: 97, id: 0 };

pub const B: ChosenKey = ChosenKey { path: 98, id: 0 };

pub const C: ChosenKey = ChosenKey { path: 99, id: 0 };

const D: ChosenKey = ChosenKey { path: 100, id: 0 };

pub const KEYS: [ChosenKey; 4] = [A, B, C, D];

/// No pairs.
pub const NOTHING: Seen = Seen {
    len: 0,
    values: [None; 4],
};

/// The values 4 of A and 5 of B.
pub const FOUR_AND_FIVE: Seen = Seen {
    len: 2,
    values: [Some(4), Some(5), None, None],
};

/// The largest limits.
pub const LARGEST: Limits = Limits {
    pairs: 16_777_216,
    entries: 1_048_576,
};
