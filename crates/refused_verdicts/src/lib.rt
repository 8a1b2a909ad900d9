//! A caller of the audit, which hands on the clause of the call that it makes.
//!
//! No program calls it. The edit in `must-fail/` makes of it the wrong body that the clause is to refuse. It stands here
//! since an edit costs the proof of its crate once more, and the crates below are large.
#![tactic(auto)]

ghost use Rattle.std.specs.Prelude.{IfOk};
ghost use Rattle.audit.specs.Verdicts.{IsVerdict};

use audit::{Verdict, audit};
use std::alloc::Global;
use versions::NoMemory;

/// Whether the text is that of a legal journal.
pub fn verdict(alloc: Global, text: &[u8]) -> Result<Verdict, NoMemory>
    ensures { IfOk result (IsVerdict text.now) }
{
    audit(alloc, text)
}
