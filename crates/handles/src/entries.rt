//! Which calls are entries of a journal.
ghost use Rattle.std.specs.Prelude.{◌≡◌};
ghost use Rattle.handles.specs.Machine.{is_entry};
ghost use Rattle.handles.specs.Views.{is_counted, lacks_memory};

use versions::Refusal;

/// Whether a call that is refused so is an entry.
pub fn is_entry(refusal: Refusal) -> bool
    ensures { result ≡ is_entry refusal }
{
    !matches!(
        refusal,
        Refusal::NoJob | Refusal::Unfinished | Refusal::JournalFull | Refusal::NoMemory
    )
}

/// Whether a call that returns this is an entry.
pub(crate) fn is_counted<T>(answer: &Result<T, Refusal>) -> bool
    ensures { result ≡ is_counted answer.now }
{
    match answer {
        Ok(_) => true,
        Err(refusal) => is_entry(*refusal),
    }
}

/// Whether the call ran out of memory.
pub fn lacks_memory<T>(answer: &Result<T, Refusal>) -> bool
    ensures { result ≡ lacks_memory answer.now }
{
    matches!(answer, Err(Refusal::NoMemory))
}
