//! What the twins of calls foresee, with every request for memory refused and by a part of the job.
ghost use Rattle.std.specs.Prelude.{◌≡◌, IfOk, IfSome};
ghost use Rattle.bulk_work.specs.Summaries.{summary_of};
ghost use Rattle.handles.specs.Machine.{Step, drop_handle, job_at};
ghost use Rattle.handles.specs.Views.{call_outcome, machine};

use super::{assert_entries, assert_is, assert_rows, no_memory, step, table_of, with_four};
use bulk_ops::Part;
use bulk_work::{Answer, Asks};
use combiner::Bulk;
use handles::{Call, CallReply, Table, law_of_answers, law_of_foresight};
use hash_path::PathKey;
use std::alloc::Global;
use std::panic::Expect;
use std::process::Abort;
use test_keys::ChosenKey;
use test_tables::{
    Act, Ask, Asked, Asking, Do, PlainOutcome, ThreeItems, call_outcome_of, finish_outcome,
    foresee, part_of,
};
use versions::Refusal;

// What the step's twin answers with every request for memory refused.
fn foreseen_without(rt: &impl Abort, alloc: Global, table: &Asking, what: Do) -> PlainOutcome {
    let step = step(rt, alloc, what);
    let _taken = no_memory(rt, alloc);
    foresee(table, &step)
}

#[test]
fn twins_make_no_request(rt: HostRuntime) {
    let table = with_four(&rt, rt.alloc());
    let rows = [
        (Do::On(1, Act::Get(97)), PlainOutcome::Old(Some(4))),
        (Do::View(1), PlainOutcome::Viewed(1, Some(4))),
        (
            Do::Freeze(1, Ask::Count(4, 4)),
            PlainOutcome::Frozen(0, 1, Some(4)),
        ),
    ];
    for (what, want) in rows {
        assert_is(&rt, foreseen_without(&rt, rt.alloc(), &table, what), want);
    }
}

// Closes the handle. What was foreseen is the outcome of the step that the call makes, whatever the call answers.
fn dropped_as_foreseen<K: PathKey + Drop, V: Eq + Drop, Q: Asks<K, V> + Drop>(
    alloc: Global,
    table: &mut Table<K, V, Q>,
    handle: u32,
) -> Result<CallReply<V>, Refusal>
    ensures { IfOk result (λ reply. Step (machine K.cmp V.eq Q.target_of Q.answered) table.old (drop_handle handle) (call_outcome reply) table.new) }
{
    law_of_answers::<K, V, Q>();
    law_of_foresight::<K, V, Q>();
    let foreseen = table.foresee_serve(&Call::Drop(handle));
    let _answer = table.serve(alloc, Call::Drop(handle));
    foreseen
}

#[test]
fn what_was_foreseen_is_an_outcome_of_the_step(rt: HostRuntime) {
    let mut table = table_of(&rt, rt.alloc());
    assert_rows(
        &rt,
        rt.alloc(),
        &mut table,
        &[(Do::Open(1), PlainOutcome::Unit)],
    );
    for want in [PlainOutcome::Unit, PlainOutcome::Refused(Refusal::NoHandle)] {
        let dropped = dropped_as_foreseen(rt.alloc(), &mut table, 1);
        assert_is(&rt, call_outcome_of(&dropped), want);
    }
    assert_entries(&rt, &table, 3);
}

// What is foreseen of the job's finish by the part, and what the finish then returns: the same.
fn closed_as_foreseen<K: PathKey + Drop, V: Eq + Drop, Q: Asks<K, V> + Drop>(
    table: &mut Table<K, V, Q>,
    job: u64,
    part: Q::Part,
) -> Result<(Answer<K, V, Q::Item>, Answer<K, V, Q::Item>), Refusal>
    requires { IfSome (job_at table.old job) (λ asking. Q.answers asking.query asking.frozen part) }
    ensures { IfOk result (λ both. summary_of both.0 ≡ summary_of both.1) }
{
    let foreseen = table.foresee_finish(job, &part)?;
    let answer = table.finish(job, part)?;
    Ok((foreseen, answer))
}

// Both, as plain values.
fn finished_twice(
    table: &mut Asking,
    job: u64,
    part: Part<ChosenKey, i64, ThreeItems>,
) -> (PlainOutcome, PlainOutcome)
    requires { IfSome (job_at table.old job) (λ asking. ⟦<Asked as Bulk<ChosenKey, i64>>⟧.answers asking.query asking.frozen part) }
{
    match closed_as_foreseen(table, job, part) {
        Ok((foreseen, answer)) => (finish_outcome(&Ok(foreseen)), finish_outcome(&Ok(answer))),
        Err(refusal) => (
            PlainOutcome::Refused(refusal),
            PlainOutcome::Refused(refusal),
        ),
    }
}

// The job is foreseen to return this, and returns it, with every request for memory refused.
fn assert_finished(
    rt: &impl Abort,
    alloc: Global,
    table: &mut Asking,
    job: u64,
    want: PlainOutcome,
) {
    let part = part_of(alloc, table, job).expect(rt, "no part");
    let taken = no_memory(rt, alloc);
    let both = finished_twice(table, job, part);
    drop(taken);
    assert_is(rt, both, (want, want));
}

#[test]
fn each_finish_is_foreseen(rt: HostRuntime) {
    let mut table = with_four(&rt, rt.alloc());
    assert_rows(
        &rt,
        rt.alloc(),
        &mut table,
        &[(Do::On(1, Act::Put(98, 5)), PlainOutcome::Old(None))],
    );
    let rows = [
        (Ask::Count(4, 4), PlainOutcome::Count(1)),
        (Ask::Exists(4, 4), PlainOutcome::Truth(true)),
        (Ask::ForAll(4, 4), PlainOutcome::Truth(false)),
        (Ask::Find(5, 5), PlainOutcome::Found(Some((98, 5)))),
        (Ask::Filter(4, 4, 2), PlainOutcome::Made(1)),
        (Ask::NewValues(7, 3), PlainOutcome::Made(2)),
        (Ask::Fold, PlainOutcome::Item(9, Some(4), Some(5))),
    ];
    let mut job = 0u64;
    for (ask, want) in rows {
        let frozen = PlainOutcome::Frozen(job, 2, Some(4));
        assert_rows(&rt, rt.alloc(), &mut table, &[(Do::Freeze(1, ask), frozen)]);
        assert_finished(&rt, rt.alloc(), &mut table, job, want);
        job = job.saturating_add(1);
    }
}

// What the job's finish by the part would return.
fn foreseen_finish<K: PathKey + Drop, V: Eq + Drop, Q: Asks<K, V> + Drop>(
    table: &Table<K, V, Q>,
    job: u64,
    part: &Q::Part,
) -> Result<Answer<K, V, Q::Item>, Refusal>
    requires { IfSome (job_at table.now job) (λ asking. Q.answers asking.query asking.frozen part.now) }
{
    table.foresee_finish(job, part)
}

#[test]
fn a_finish_of_no_job_is_foreseen(rt: HostRuntime) {
    let table = table_of(&rt, rt.alloc());
    let part = part_of(rt.alloc(), &table, 0).expect(&rt, "no part");
    let outcome = finish_outcome(&foreseen_finish(&table, 0, &part));
    assert_is(&rt, outcome, PlainOutcome::Refused(Refusal::NoJob));
}
