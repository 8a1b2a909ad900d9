//! What stands behind the front of a field.

ghost use Rattle.std.specs.Prelude.{◌≡◌, ◌≢◌, ◌++◌, ℕ, ℤ, List, IfOk, FitsSigned, MatchOption};
ghost use Rattle.std.specs.Fmt.{signed_decimal};
ghost use Rattle.std.specs.Int.{w64};
ghost use Rattle.arguments.specs.Keys.{IsKey};

use crate::key::Key;
use crate::number::value_of;
use std::alloc::{AllocError, Global};

/// The value that stands behind the front, where the field is made of both.
pub fn value_behind(front: &[u8], field: &[u8]) -> Option<i64>
    ensures { MatchOption result ((z : ℤ) → FitsSigned w64 z → field.now ≢ front.now ++ signed_decimal z) (λ z. field.now ≡ front.now ++ signed_decimal z) }
{
    match behind(front, field) {
        Some(rest) => value_of(rest),
        None => None,
    }
}

/// The key that stands behind the front, where the field is made of both.
pub fn key_behind(alloc: Global, front: &[u8], field: &[u8]) -> Result<Option<Key>, AllocError>
    ensures { IfOk result (λ key. MatchOption key ((k : List ℕ) → IsKey k → field.now ≢ front.now ++ k) (λ k. IsKey k × (field.now ≡ front.now ++ k))) }
{
    match behind(front, field) {
        Some(rest) => Key::new(alloc, rest),
        None => Ok(None),
    }
}

/// What stands behind the front, where the field begins with it.
fn behind<'a>(front: &[u8], field: &'a [u8]) -> Option<&'a [u8]>
    ensures { MatchOption result ((rest : List ℕ) → field.now ≢ front.now ++ rest) (λ rest. field.now ≡ front.now ++ rest.now) }
{
    field.strip_prefix(front)
}
