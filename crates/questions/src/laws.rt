//! Laws of the program's machine. Each function says one, and does nothing.

ghost use Rattle.questions.specs.Laws.{FinishesLeaveOne, FinishesTellOne, HaveOneOutcome};

/// A request that is neither a finish nor a worker's step has one outcome in a state, and leaves one state.
pub fn requests_have_one_outcome()
    ensures { HaveOneOutcome }
{}

/// A finish with a given outcome leaves one state.
pub fn finishes_leave_one_state()
    ensures { FinishesLeaveOne }
{}

/// A finish of a job that has one answer has one outcome and leaves one state, unless it is `unfinished`.
pub fn finishes_tell_one_answer()
    ensures { FinishesTellOne }
{}
