//! What the laws of the machine show of calls.
ghost use Rattle.std.specs.Prelude.{◌≡◌, ◌≢◌, ℕ, IfOk, OnErr, Some};
ghost use Rattle.handles.specs.Machine.{job_at, map_at};

use super::{assert_is, assert_rows, with_four};
use bulk_work::{Answer, Asks};
use handles::{
    Call, CallReply, Command, Table, law_of_answers, law_of_freezes, law_of_open_jobs,
    law_of_other_handles, law_of_refusals,
};
use hash_path::PathKey;
use std::alloc::Global;
use std::panic::Expect;
use std::sync::Arc;
use test_keys::ChosenKey;
use test_tables::{
    Act, Ask, Asked, Asking, Do, PlainOutcome, ThreeItems, call_outcome_of, command_of,
    finish_outcome, query_of, worked,
};
use versions::{Refusal, View};

// Makes the command on handle 1. Every other handle has the map that it had.
fn written(
    alloc: Global,
    table: &mut Asking,
    command: Command<ChosenKey, i64>,
) -> Result<CallReply<i64>, Refusal>
    ensures { (other : ℕ) → other ≢ 1 → map_at table.new other ≡ map_at table.old other }
{
    law_of_answers::<ChosenKey, i64, Asked>();
    law_of_other_handles::<ChosenKey, i64, Asked>();
    table.serve(alloc, Call::On(1, command))
}

// Makes the call. Where it is refused, every handle has the map that it had.
fn refused(
    alloc: Global,
    table: &mut Asking,
    call: Call<ChosenKey, i64>,
) -> Result<CallReply<i64>, Refusal>
    ensures { OnErr result (table.new.live ≡ table.old.live) }
{
    law_of_answers::<ChosenKey, i64, Asked>();
    law_of_refusals::<ChosenKey, i64, Asked>();
    table.serve(alloc, call)
}

#[test]
fn laws_tell_of_calls(rt: HostRuntime) {
    let mut table = with_four(&rt, rt.alloc());
    let kept = [(Do::On(2, Act::Get(97)), PlainOutcome::Old(Some(4)))];
    assert_rows(
        &rt,
        rt.alloc(),
        &mut table,
        &[(Do::Snapshot(1, 2), PlainOutcome::Unit)],
    );
    for (act, want) in [
        (Act::Put(97, 9), PlainOutcome::Old(Some(4))),
        (Act::Clear, PlainOutcome::Cleared),
    ] {
        let command = command_of(rt.alloc(), act).expect(&rt, "no command");
        assert_is(
            &rt,
            call_outcome_of(&written(rt.alloc(), &mut table, command)),
            want,
        );
    }
    assert_rows(&rt, rt.alloc(), &mut table, &kept);
    let outcome = call_outcome_of(&refused(rt.alloc(), &mut table, Call::Snapshot(1, 2)));
    assert_is(&rt, outcome, PlainOutcome::Refused(Refusal::Taken));
    assert_rows(&rt, rt.alloc(), &mut table, &kept);
}

// Makes the call, which leaves the open jobs.
fn serve(
    alloc: Global,
    table: &mut Asking,
    call: Call<ChosenKey, i64>,
) -> Result<CallReply<i64>, Refusal>
    ensures { table.new.jobs ≡ table.old.jobs }
{
    law_of_answers::<ChosenKey, i64, Asked>();
    law_of_open_jobs::<ChosenKey, i64, Asked>();
    table.serve(alloc, call)
}

// Opens a job, which is open then with the query and the map that is shown.
fn freeze<K: PathKey + Drop, V: Eq + Drop, Q: Asks<K, V> + Drop>(
    table: &mut Table<K, V, Q>,
    handle: u32,
    query: &Arc<Q>,
) -> Result<(u64, View<K, V>), Refusal>
    ensures { IfOk result (λ shown. job_at table.new shown.0 ≡ Some (record { query = query.now.value; frozen = shown.1 })) }
{
    law_of_freezes::<K, V, Q>();
    table.freeze(handle, Arc::try_clone(query)?)
}

// Finishes the job by a part that answers its query for the view that its freeze showed.
fn finish<K: PathKey + Drop, V: Eq + Drop, Q: Asks<K, V> + Drop>(
    table: &mut Table<K, V, Q>,
    job: u64,
    view: &View<K, V>,
    query: &Q,
    part: Q::Part,
) -> Result<Answer<K, V, Q::Item>, Refusal>
    requires job { job_at table.old job ≡ Some (record { query = query.now; frozen = view.now }) }
    requires part { Q.answers query.now view.now part }
{
    table.finish(job, part)
}

// What a job on the handle 1 returns that is worked by the view of its freeze, after the call.
fn finished_after(
    alloc: Global,
    table: &mut Asking,
    query: &Arc<Asked>,
    call: Call<ChosenKey, i64>,
) -> Result<Answer<ChosenKey, i64, ThreeItems>, Refusal> {
    let (job, view) = freeze(table, 1, query)?;
    let _answer = serve(alloc, table, call);
    let part = worked(alloc, &view, &**query)?;
    finish(table, job, &view, &**query, part)
}

#[test]
fn laws_tell_of_jobs(rt: HostRuntime) {
    let mut table = with_four(&rt, rt.alloc());
    let query = Arc::new(rt.alloc(), query_of(Ask::Count(4, 4))).expect(&rt, "no query");
    for want in [1, 0] {
        let outcome = finish_outcome(&finished_after(
            rt.alloc(),
            &mut table,
            &query,
            Call::On(1, Command::Clear),
        ));
        assert_is(&rt, outcome, PlainOutcome::Count(want));
    }
}
