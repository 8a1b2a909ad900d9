//! Keys seen by their bounds alone: a path word, an order, and what is sought.

mod integers;
mod parts;
mod rows;
mod seeded;
mod texts;
mod words;

use hash_path::{Path, PathKey, Sought};
use slots::{Half, Inline, Quarter};
use std::alloc::AllocError;
use std::cmp::Ordering;

/// The path word of a key and whether it comes before another.
fn seen<K: PathKey>(key: &K, other: &K) -> (Path, bool) {
    (key.path(), key < other)
}

/// The path word of what a key is looked up by, and how it compares with a key.
fn found<K: PathKey, Q: Sought<K>>(sought: Q, key: &K) -> (Path, Ordering) {
    (sought.path_sought(), sought.compare_with(key))
}

/// Another of what lies in a row.
fn twin<T: Inline>(value: &T) -> Result<T, AllocError> {
    value.another()
}

/// As `twin`, of what takes half a place.
fn half<T: Half>(value: &T) -> Result<T, AllocError> {
    value.another()
}

/// As `twin`, of what takes a quarter of a place.
fn quarter<T: Quarter>(value: &T) -> Result<T, AllocError> {
    value.another()
}
