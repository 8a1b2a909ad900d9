//! The steps of a list, as plain values: what each does, its outcome, and what it files.
use test_clients::{Deed, Entered, Outcome, Seen};
use test_keys::ChosenKey;
use test_machine::{Question, Request};

/// A step of the thread. The first number is that of the seat.
#[derive(Clone, Copy)]
pub enum Step {
    /// The seat makes the request, with this outcome.
    Ask(u32, Request, Outcome),
    /// The same with every request for memory refused.
    Dry(u32, Request, Outcome),
    /// The same with requests for memory refused until one more is not.
    Short(u32, Request, Outcome),
    /// The same with this many bytes of memory. No outcome is looked for.
    Scarce(u32, Request, usize),
    /// The seat gets the value of the key on the handle or stores this one, with this outcome.
    GetOrStore(u32, u32, ChosenKey, u64, Outcome),
    /// The same with requests for memory refused until one more is not.
    ShortGet(u32, u32, ChosenKey, u64, Outcome),
    /// A crew answers the question about the handle's map, with this outcome.
    Bulk(u32, u32, Question, Outcome),
    /// The same with every request for memory refused.
    DryBulk(u32, u32, Question, Outcome),
    /// The same with requests for memory refused until one more is not.
    ShortBulk(u32, u32, Question, Outcome),
    /// The seat finishes every job whose ticket there is, each with this outcome.
    FinishAll(u32, Outcome),
    /// The seat takes a view of the handle that shows this, and shows it still once the map is gone.
    Keep(u32, u32, Seen),
    /// The step before files this entry, by what is no request.
    Files(u32, Request, Outcome),
    /// Seats 0 and 1 meet.
    Meet,
    /// The ticket of the job is dropped.
    Lose(u64),
}

/// How much memory there is.
#[derive(Clone, Copy)]
pub enum Memory {
    Ample,
    Wanting,
    None,
    /// This many bytes next to one another.
    Bytes(usize),
}

/// What a seat does in a step, and its outcome.
pub type Turn = (u32, Memory, Deed, Outcome);

/// What a seat does in the step, if it is such a step.
pub fn turn_of(step: Step) -> Option<Turn> {
    match step {
        Step::Ask(seat, request, returned) => Some((
            seat,
            Memory::Ample,
            Deed::Ask(request),
            returned,
        )),
        Step::Dry(seat, request, returned) => Some((
            seat,
            Memory::None,
            Deed::Ask(request),
            returned,
        )),
        Step::Short(seat, request, returned) => {
            Some((seat, Memory::Wanting, Deed::Ask(request), returned))
        }
        Step::Scarce(seat, request, bytes) => {
            let memory = Memory::Bytes(bytes);
            Some((seat, memory, Deed::Ask(request), Outcome::Lost))
        }
        Step::GetOrStore(seat, handle, key, value, returned) => {
            let deed = Deed::GetOrStore(handle, key, value);
            Some((seat, Memory::Ample, deed, returned))
        }
        Step::ShortGet(seat, handle, key, value, returned) => {
            let deed = Deed::GetOrStore(handle, key, value);
            Some((seat, Memory::Wanting, deed, returned))
        }
        Step::Bulk(seat, handle, question, returned) => {
            Some((seat, Memory::Ample, Deed::Bulk(handle, question), returned))
        }
        Step::DryBulk(seat, handle, question, returned) => {
            Some((seat, Memory::None, Deed::Bulk(handle, question), returned))
        }
        Step::ShortBulk(seat, handle, question, returned) => {
            Some((
                seat,
                Memory::Wanting,
                Deed::Bulk(handle, question),
                returned,
            ))
        }
        _ => None,
    }
}

/// The outcome that a step has to have.
pub fn outcome_in(step: Step) -> Outcome {
    match step {
        Step::Keep(_, _, seen) => Outcome::View(seen),
        Step::FinishAll(_, returned) => returned,
        _ => match turn_of(step) {
            Some((_, _, _, returned)) => returned,
            None => Outcome::Unit,
        },
    }
}

/// The entry of a step, where it is known which that is.
pub fn entry_in(step: Step) -> Option<Entered> {
    let (seat, request, outcome) = match step {
        Step::Ask(seat, request, returned) => (seat, request, returned),
        Step::Dry(seat, request, returned) => (seat, request, returned),
        Step::Short(seat, request, returned) => (seat, request, returned),
        Step::Keep(seat, handle, seen) => (seat, Request::View(handle), Outcome::View(seen)),
        Step::Files(seat, request, returned) => (seat, request, returned),
        _ => return None,
    };
    if outcome.is_entry() {
        Some(Entered {
            seat,
            request,
            outcome,
        })
    } else {
        None
    }
}
