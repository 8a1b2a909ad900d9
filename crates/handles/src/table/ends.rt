//! How jobs are opened, and closed by an answer, and what that answer would be.
ghost use Rattle.std.specs.Prelude.{◌≡◌, ◌<◌, ◌≤◌, ◌+◌, ◌^◌, [], length, IfErr, IfOk, IsSome, OnErr, OnOk, Some, None, unwrap_or};
ghost use Rattle.std.specs.Ordering.{nat_cmp};
ghost use Rattle.bulk_work.specs.Answers as plain;
ghost use Rattle.bulk_work.specs.Summaries.{summary_of};
ghost use Rattle.handles.specs.Jobs.{AllCanFinish, Concludes, Tells};
ghost use Rattle.handles.specs.Machine.{Job};
ghost use Rattle.handles.specs.declared.limits.TheConstants.{MOST_JOBS};
ghost use Rattle.versions.specs.Map.{value_at, with_pair};

use crate::jobs::Jobs;
use bulk_work::{Answer, Asks};
use hash_path::PathKey;
use held_maps::Places;
use std::sync::Arc;
use versions::{Refusal, View};

/// Opens a job with the query on the map of the handle as it stands now, and gives the job's number and that map.
pub(super) fn open_job<K: PathKey + Drop, V: Eq + Drop, Q: Asks<K, V> + Drop>(
    places: &Places<K, V>,
    jobs: &mut Jobs<K, V, Q>,
    handle: u32,
    query: Arc<Q>,
) -> Result<(u64, View<K, V>), Refusal>
    requires live { IsSome (value_at nat_cmp places.now.live handle) }
    requires few { length jobs.old.jobs < MOST_JOBS }
    requires next { jobs.old.next < 2 ^ 63 }
    ensures number { IfOk result (λ shown. shown.0 ≡ jobs.old.next) }
    ensures map { IfOk result (λ shown. shown.1 ≡ unwrap_or (value_at nat_cmp places.now.live handle) []) }
    ensures fits { IfOk result (λ shown. length shown.1 ≤ places.now.limit) }
    ensures opened { IfOk result (λ shown. jobs.new.jobs ≡ with_pair nat_cmp jobs.old.jobs jobs.old.next (record { query = query.value; frozen = shown.1 })) }
    ensures next { OnOk result (jobs.new.next ≡ jobs.old.next + 1) }
    ensures memory { IfErr result (λ e. e ≡ Refusal.NoMemory) }
    ensures err { OnErr result (jobs.new ≡ jobs.old) }
{
    let view = match places.view(handle) {
        Ok(view) => view,
        Err(refusal) => {
            drop(query);
            return Err(refusal);
        }
    };
    let Ok(kept) = view.try_clone() else {
        drop(query);
        drop(view);
        return Err(Refusal::NoMemory);
    };
    Ok((jobs.add(query, kept), view))
}

/// Closes the job by the part's answer, and opens its target, if it has one, with the map that the part made.
///
/// It is refused as `NoJob`.
pub(super) fn close_job<K: PathKey + Drop, V: Eq + Drop, Q: Asks<K, V> + Drop>(
    places: &mut Places<K, V>,
    jobs: &mut Jobs<K, V, Q>,
    job: u64,
    part: Q::Part,
) -> Result<Answer<K, V, Q::Item>, Refusal>
    requires answers { (j : Job K V Q) → value_at nat_cmp jobs.old.jobs job ≡ Some j → Q.answers j.query j.frozen part }
    requires can { AllCanFinish Q.target_of places.old.limit jobs.old.jobs }
    requires room { places.old.issued < 2 ^ 63 }
    ensures done { IfOk result (λ answer. Concludes Q.target_of Q.answered places.old jobs.old job answer places.new jobs.new) }
    ensures told { IfOk result (λ answer. summary_of answer ≡ plain.summary (Q.answer_of part)) }
    ensures limit { places.new.limit ≡ places.old.limit }
    ensures issued { places.new.issued ≤ places.old.issued + 1 }
    ensures closed { OnErr result (value_at nat_cmp jobs.old.jobs job ≡ None) }
    ensures memory { IfErr result (λ e. e ≡ Refusal.NoJob) }
{
    let Some(open) = jobs.get(job) else {
        return Err(Refusal::NoJob);
    };
    let target = open.query.target();
    let (answer, made) = open.query.conclude(part);
    jobs.close(job);
    places.open_target(target, made);
    Ok(answer)
}

/// What `close_job` would return.
///
/// It is refused as `NoJob` where the job is not open, and as `NoMemory`.
pub(super) fn tell_job<K: PathKey + Drop, V: Eq + Drop, Q: Asks<K, V> + Drop>(
    jobs: &Jobs<K, V, Q>,
    job: u64,
    part: &Q::Part,
) -> Result<Answer<K, V, Q::Item>, Refusal>
    requires { (j : Job K V Q) → value_at nat_cmp jobs.now.jobs job ≡ Some j → Q.answers j.query j.frozen part.now }
    ensures tells { IfOk result (λ answer. Tells Q.answered jobs.now job answer) }
    ensures told { IfOk result (λ answer. summary_of answer ≡ plain.summary (Q.answer_of part.now)) }
    ensures memory { IsSome (value_at nat_cmp jobs.now.jobs job) → IfErr result (λ e. e ≡ Refusal.NoMemory) }
{
    match jobs.get(job) {
        Some(open) => Ok(open.query.tell(part)?),
        None => Err(Refusal::NoJob),
    }
}
