//! Folds of all values.

ghost use Rattle.std.specs.Prelude.{◌≡◌, ◌≢◌, ◌++◌, MatchOption, OnOk};
ghost use Rattle.arguments.specs.Questions.{folding_text};
ghost use Rattle.arguments.specs.declared.folding.Folding.{Folding};

use std::io;
use std::io::Write;

/// What is asked of all values.
#[derive(Clone, Copy, Debug)]
pub enum Folding {
    /// Their sum.
    Sum,
    /// The least of them.
    Least,
    /// The greatest of them.
    Greatest,
}

impl Folding {
    /// Appends the text of the fold.
    ///
    /// # Errors
    ///
    /// Memory was refused.
    pub fn push_to(&self, out: &mut Vec<u8>) -> io::Result<()>
        ensures { OnOk result (out.new.items ≡ out.old.items ++ folding_text self.now) }
    {
        match self {
            Folding::Sum => write!(out, "sum"),
            Folding::Least => write!(out, "least"),
            Folding::Greatest => write!(out, "greatest"),
        }
    }
}

/// The fold that the field spells, if it spells one.
pub fn folding_of(field: &[u8]) -> Option<Folding>
    ensures { MatchOption result ((f : Folding) → field.now ≢ folding_text f) (λ f. field.now ≡ folding_text f) }
{
    match field {
        b"sum" => Some(Folding::Sum),
        b"least" => Some(Folding::Least),
        b"greatest" => Some(Folding::Greatest),
        _ => None,
    }
}
