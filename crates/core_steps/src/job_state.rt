//! The open jobs of a core.
ghost use Rattle.std.specs.Prelude.{◌≡◌, ◌<◌, IfNone, IfSome, None, Some};
ghost use Rattle.std.specs.Ordering.{nat_cmp};
ghost use Rattle.versions.specs.Map.{value_at, without};
ghost use Rattle.core_steps.specs.JobStates.{IsPlaceOf, job_states_of};

use crate::board::Board;
use hash_path::PathKey;
use std::sync::Arc;

/// The state of an open job: its number, its query and its board.
#[derive(Drop)]
pub(crate) struct JobState<K: PathKey, V, Q, P> {
    pub(crate) number: u64,
    pub(crate) query: Arc<Q>,
    pub(crate) board: Board<K, V, P>,
}

/// Where the job of the number stands, if it is open.
pub(crate) fn place_of<K: PathKey, V, Q, P>(
    job_states: &[JobState<K, V, Q, P>],
    number: u64,
) -> Option<usize>
    ensures some { IfSome result (λ place. IsPlaceOf job_states.now number place) }
    ensures none { IfNone result (value_at nat_cmp (job_states_of job_states.now) number ≡ None) }
{
    let mut place = 0;
    for job_state in job_states {
        if job_state.number == number {
            return Some(place);
        }
        place += 1;
    }
    None
}

/// Takes the job of the number away, if it is open.
pub(crate) fn close<K: PathKey + Drop, V: Drop, Q: Drop, P: Drop>(
    job_states: &mut Vec<JobState<K, V, Q, P>>,
    number: u64,
)
    ensures { job_states_of job_states.new.items ≡ without nat_cmp (job_states_of job_states.old.items) number }
{
    job_states.retain(|job_state| job_state.number != number);
}
