//! Tests of pairs.

ghost use Rattle.std.specs.Prelude.{◌≡◌, ◌≢◌, ◌++◌, codes, IfOk, MatchOption, OnOk};
ghost use Rattle.arguments.specs.Questions.{IsTest, passes, test_text};
ghost use Rattle.arguments.specs.declared.passing.Test.{Test};

use crate::behind::{key_behind, value_behind};
use crate::key::Key;
use std::alloc::{AllocError, Global};
use std::io;
use std::io::Write;

/// A test that a pair passes or fails.
#[derive(Debug, Drop)]
pub enum Test {
    /// Every pair passes.
    All,
    /// A value that is a multiple of 2 passes.
    Even,
    /// A value that is none passes.
    Odd,
    /// A value below this one passes.
    Below(i64),
    /// This value and those above it pass.
    AtLeast(i64),
    /// This value passes.
    Equal(i64),
    /// A key that begins with the bytes of this one passes.
    Prefix(Key),
}

impl Test {
    /// Whether the pair of a key's bytes and a value passes.
    pub fn passes(&self, key: &[u8], value: i64) -> bool
        ensures { result ≡ passes self.now key.now value }
    {
        match self {
            Test::All => true,
            Test::Even => value.unsigned_abs() % 2 == 0,
            Test::Odd => value.unsigned_abs() % 2 != 0,
            Test::Below(limit) => value < *limit,
            Test::AtLeast(limit) => value >= *limit,
            Test::Equal(other) => value == *other,
            Test::Prefix(front) => key.starts_with(front.as_slice()),
        }
    }

    /// Appends the text of the test.
    ///
    /// # Errors
    ///
    /// Memory was refused.
    pub fn push_to(&self, out: &mut Vec<u8>) -> io::Result<()>
        ensures { OnOk result (out.new.items ≡ out.old.items ++ test_text self.now) }
    {
        match self {
            Test::All => write!(out, "all"),
            Test::Even => write!(out, "even"),
            Test::Odd => write!(out, "odd"),
            Test::Below(limit) => write!(out, "lt:{limit}"),
            Test::AtLeast(limit) => write!(out, "ge:{limit}"),
            Test::Equal(other) => write!(out, "eq:{other}"),
            Test::Prefix(front) => {
                write!(out, "prefix:")?;
                out.extend_from_slice(front.as_slice())?;
                Ok(())
            }
        }
    }

    /// The same test. The bytes of a key are shared.
    ///
    /// # Errors
    ///
    /// The key's text has as many owners as it may.
    pub fn try_clone(&self) -> Result<Test, AllocError>
        ensures { IfOk result (λ test. test ≡ self.now) }
    {
        Ok(match self {
            Test::All => Test::All,
            Test::Even => Test::Even,
            Test::Odd => Test::Odd,
            Test::Below(limit) => Test::Below(*limit),
            Test::AtLeast(limit) => Test::AtLeast(*limit),
            Test::Equal(other) => Test::Equal(*other),
            Test::Prefix(front) => Test::Prefix(front.try_clone()?),
        })
    }
}

/// The test that the field spells, if it spells one.
///
/// # Errors
///
/// Memory for its key was refused.
pub fn test_of(alloc: Global, field: &[u8]) -> Result<Option<Test>, AllocError>
    ensures { IfOk result (λ test. MatchOption test ((t : Test) → IsTest t → field.now ≢ test_text t) (λ t. IsTest t × (field.now ≡ test_text t))) }
{
    if let Some(test) = word_of(field) {
        return Ok(Some(test));
    }
    if let Some(value) = value_behind(b"lt:", field) {
        return Ok(Some(Test::Below(value)));
    }
    if let Some(value) = value_behind(b"ge:", field) {
        return Ok(Some(Test::AtLeast(value)));
    }
    if let Some(value) = value_behind(b"eq:", field) {
        return Ok(Some(Test::Equal(value)));
    }
    match key_behind(alloc, b"prefix:", field)? {
        Some(key) => Ok(Some(Test::Prefix(key))),
        None => Ok(None),
    }
}

/// The test of one word that the field spells, if it spells one.
fn word_of(field: &[u8]) -> Option<Test>
    ensures { MatchOption result ((field.now ≢ codes "all") × (field.now ≢ codes "even") × (field.now ≢ codes "odd")) (λ t. IsTest t × (field.now ≡ test_text t)) }
{
    match field {
        b"all" => Some(Test::All),
        b"even" => Some(Test::Even),
        b"odd" => Some(Test::Odd),
        _ => None,
    }
}
