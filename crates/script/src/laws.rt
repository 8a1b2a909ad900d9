//! Laws of the language of scripts. Each function says one, and does nothing.

ghost use Rattle.std.specs.Prelude.{◌≡◌, ℕ, List};
ghost use Rattle.script.specs.Scripts.{HasFault, IsFirstFault, Spells};
ghost use Rattle.script.specs.declared.statement.CommandLine.{CommandLine};
ghost use Rattle.script.specs.declared.fault.Reason.{Reason};

/// A text that spells a script has no fault.
pub fn spelled_text_has_no_fault()
    ensures { (text : List ℕ) (script : List CommandLine) → Spells text script → ¬ (HasFault text) }
{}

/// A text spells one script at most.
pub fn text_has_one_script()
    ensures { (text : List ℕ) (one other : List CommandLine) → Spells text one → Spells text other → one ≡ other }
{}

/// A text has one first fault at most.
pub fn text_has_one_fault()
    ensures { (text : List ℕ) (at place : ℕ) (reason other : Reason) → IsFirstFault text at reason → IsFirstFault text place other → (at ≡ place) × (reason ≡ other) }
{}
