//! The kinds of outcomes, so that a test can check that each is met.

use core_steps::Progress;
use test_cores::PlainOutcome;
use versions::Refusal;

/// How many kinds there are.
pub const KINDS: usize = 32;

/// The number of the kind of an outcome, or `KINDS` where no step has that outcome.
pub fn kind_of(returned: PlainOutcome) -> usize {
    match returned {
        PlainOutcome::Unit => 0,
        PlainOutcome::Old(None) => 1,
        PlainOutcome::Old(Some(_)) => 2,
        PlainOutcome::Done(false) => 3,
        PlainOutcome::Done(true) => 4,
        PlainOutcome::Size(_) => 5,
        PlainOutcome::Cleared => 6,
        PlainOutcome::Viewed => 7,
        PlainOutcome::Job(_) => 8,
        PlainOutcome::Count(_) => 9,
        PlainOutcome::Truth(false) => 10,
        PlainOutcome::Truth(true) => 11,
        PlainOutcome::Found(false) => 12,
        PlainOutcome::Found(true) => 13,
        PlainOutcome::Made(_) => 14,
        PlainOutcome::Total(_) => 15,
        PlainOutcome::Unfinished => 16,
        PlainOutcome::Abandoned => 17,
        PlainOutcome::Moved(progress) => kind_of_progress(progress),
        PlainOutcome::Refused(refusal) => kind_of_refusal(refusal),
    }
}

fn kind_of_progress(progress: Progress) -> usize {
    match progress {
        Progress::Took(_, _) => 18,
        Progress::Cut(_, _, _) => 19,
        Progress::Whole => 20,
        Progress::Worked(_, _, _, false) => 21,
        Progress::Worked(_, _, _, true) => 22,
        Progress::Idle => 23,
    }
}

fn kind_of_refusal(refusal: Refusal) -> usize {
    match refusal {
        Refusal::NoHandle => 24,
        Refusal::Taken => 25,
        Refusal::Full => 26,
        Refusal::NoJob => 27,
        Refusal::NoWorker => 28,
        Refusal::TooManyJobs => 29,
        Refusal::JournalFull => 30,
        Refusal::BadNumber => 31,
        Refusal::Unfinished | Refusal::NoMemory => KINDS,
    }
}
