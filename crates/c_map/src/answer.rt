//! What calls return.

ghost use Rattle.std.specs.Prelude.{◌≡◌};
ghost use Rattle.c_map.specs.Outcomes.{Outcome, outcome, of_found, of_done};
ghost use Rattle.c_map.specs.Outcomes.Outcome.{full, no_memory};

/// What a call returns: how it ended, and what is shown of a value.
///
/// The status is 0 where the key has no value, or had none, or where a condition did not hold. It is 1 where the key has a
/// value, or had one, or where the condition held. It is 2 where the key is new and the map is full, and 3 where memory
/// ran out; the map is then as before.
///
/// Of a number the number itself is shown, and of a text how many bytes it has. Where no value is shown there is 0.
#[repr(C)]
#[derive(Clone, Copy, Debug, PartialEq, Eq)]
pub struct Answer {
    pub status: u64,
    pub value: u64,
}

/// Which pairs a page has.
///
/// Where it has no pair, `bytes` is how many bytes the next one takes, or 0 where there is none.
#[repr(C)]
#[derive(Clone, Copy, Debug, PartialEq, Eq)]
pub struct Page {
    /// How many pairs there are.
    pub pairs: u64,
    /// How many bytes they take.
    pub bytes: u64,
}

impl Answer {
    /// The answer of a value that is there, or was, or of none.
    pub(crate) fn found(shown: Option<u64>) -> Answer
        ensures { outcome result.status result.value ≡ of_found shown }
    {
        match shown {
            None => Answer {
                status: 0,
                value: 0,
            },
            Some(value) => Answer { status: 1, value },
        }
    }

    /// The answer of a condition.
    pub(crate) fn done(done: bool) -> Answer
        ensures { outcome result.status result.value ≡ of_done done }
    {
        Answer {
            status: u64::from(done),
            value: 0,
        }
    }

    /// The answer where the key is new and the map is full.
    pub(crate) fn full() -> Answer
        ensures { outcome result.status result.value ≡ full }
    {
        Answer {
            status: 2,
            value: 0,
        }
    }

    /// The answer where memory ran out.
    pub(crate) fn no_memory() -> Answer
        ensures { outcome result.status result.value ≡ no_memory }
    {
        Answer {
            status: 3,
            value: 0,
        }
    }
}
