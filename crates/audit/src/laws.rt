//! Laws of verdicts. Each function says one, and does nothing.

ghost use Rattle.audit.specs.Runs.{EntriesAreLawful, HasOneVerdict, RunsAreLegal, StatementsMayBeAsked};

/// A text has one verdict: a legal text has one number of entries and no bad line, and of any other text one line is
/// the first with which no legal journal's text begins.
pub fn law_of_verdicts()
    ensures { HasOneVerdict }
{}

/// The text of a run's journal is legal: of every journal that is a run of the machine, where each entry is that of one
/// of the 64 seats, and the handles, keys, values and tests of what it asked are in the ranges of a script's.
pub fn law_of_runs()
    ensures { RunsAreLegal }
{}

/// The entries of such a journal are lawful, so each has a line: what it asked and what was returned is text.
pub fn law_of_entries()
    ensures { EntriesAreLawful }
{}

/// What a lawful statement asks at first has its parts in these ranges.
pub fn law_of_statements()
    ensures { StatementsMayBeAsked }
{}
