//! Laws of the text of journals. Each function says one, and does nothing.

ghost use Rattle.std.specs.Prelude.{◌≡◌};
ghost use Rattle.questions.specs.Program.{ProgramRequest};
ghost use Rattle.journal_text.specs.Calls.{IsLawfulRequest, call_text};

/// The text of a lawful request determines the request.
pub fn law_of_calls()
    ensures { (r q : ProgramRequest) → IsLawfulRequest r → IsLawfulRequest q → call_text r ≡ call_text q → r ≡ q }
{}
