//! What jobs are answered, what they record and what they reserve. Each question of maps with pairs and with none is a
//! case of the built program.

use super::{Case, LARGEST, assert_entries, assert_is, assert_new, assert_rows, table_of};
use handles::Limits;
use std::alloc::Global;
use std::process::Abort;
use test_tables::{Act, Ask, Asked, Asking, Do, PlainOutcome, Within};
use versions::Refusal;

const COUNT: Ask = Ask::Count(4, 4);

// The number of the handle that gets the map is reserved.
const MAKES_5: Ask = Ask::Filter(4, 4, 5);

// The handle 1 is written, dropped and opened again while a job has its map and has reserved the number 5.
const KEPT: [Case; 17] = [
    (Do::Open(1), PlainOutcome::Unit),
    (Do::On(1, Act::Put(97, 4)), PlainOutcome::Old(None)),
    (Do::On(1, Act::Put(98, 5)), PlainOutcome::Old(None)),
    (Do::Freeze(1, MAKES_5), PlainOutcome::Frozen(0, 2, Some(4))),
    (Do::Open(5), PlainOutcome::Refused(Refusal::Taken)),
    (Do::Snapshot(1, 5), PlainOutcome::Refused(Refusal::Taken)),
    (
        Do::On(5, Act::Get(97)),
        PlainOutcome::Refused(Refusal::NoHandle),
    ),
    (Do::On(1, Act::Put(97, 9)), PlainOutcome::Old(Some(4))),
    (Do::On(1, Act::Put(98, 4)), PlainOutcome::Old(Some(5))),
    (Do::Drop(1), PlainOutcome::Unit),
    (Do::Open(1), PlainOutcome::Unit),
    (Do::Finish(0), PlainOutcome::Made(1)),
    (Do::On(5, Act::Get(97)), PlainOutcome::Old(Some(4))),
    (Do::On(5, Act::Get(98)), PlainOutcome::Old(None)),
    (Do::On(5, Act::Size), PlainOutcome::Size(1)),
    (Do::On(1, Act::Size), PlainOutcome::Size(0)),
    (Do::Finish(0), PlainOutcome::Refused(Refusal::NoJob)),
];

#[test]
fn a_job_keeps_the_map_of_its_freeze(rt: HostRuntime) {
    assert_new(&rt, rt.alloc(), LARGEST, &KEPT, 16);
}

const FREED: [Case; 10] = [
    (Do::Open(1), PlainOutcome::Unit),
    (Do::On(1, Act::Put(97, 4)), PlainOutcome::Old(None)),
    (Do::Freeze(1, MAKES_5), PlainOutcome::Frozen(0, 1, Some(4))),
    (
        Do::Freeze(1, MAKES_5),
        PlainOutcome::Refused(Refusal::Taken),
    ),
    (Do::Abandon(0), PlainOutcome::Unit),
    (
        Do::On(5, Act::Get(97)),
        PlainOutcome::Refused(Refusal::NoHandle),
    ),
    (Do::Open(5), PlainOutcome::Unit),
    (
        Do::Freeze(1, MAKES_5),
        PlainOutcome::Refused(Refusal::Taken),
    ),
    (Do::Freeze(1, COUNT), PlainOutcome::Frozen(1, 1, Some(4))),
    (Do::Finish(1), PlainOutcome::Count(1)),
];

#[test]
fn an_abandoned_job_frees_its_target(rt: HostRuntime) {
    assert_new(&rt, rt.alloc(), LARGEST, &FREED, 10);
}

const NO_JOB: [Case; 2] = [
    (Do::Finish(0), PlainOutcome::Refused(Refusal::NoJob)),
    (Do::Abandon(0), PlainOutcome::Refused(Refusal::NoJob)),
];

#[test]
fn a_job_that_was_never_open(rt: HostRuntime) {
    assert_new(&rt, rt.alloc(), LARGEST, &NO_JOB, 0);
}

const CLOSED: [Case; 5] = [
    (Do::Open(1), PlainOutcome::Unit),
    (Do::Freeze(1, COUNT), PlainOutcome::Frozen(0, 0, None)),
    (Do::Finish(0), PlainOutcome::Count(0)),
    (Do::Abandon(0), PlainOutcome::Refused(Refusal::NoJob)),
    (Do::Finish(0), PlainOutcome::Refused(Refusal::NoJob)),
];

#[test]
fn a_job_that_is_closed(rt: HostRuntime) {
    assert_new(&rt, rt.alloc(), LARGEST, &CLOSED, 3);
}

// Which values the open job 0 counts, from the first to the second, and how many pairs its map has.
fn counted(table: &Asking) -> Option<(i64, i64, u64)> {
    match table.open_job(0) {
        Some((Asked::Count(test), view)) => {
            let Within(least, most) = test.closure();
            Some((*least, *most, view.len()))
        }
        _ => None,
    }
}

#[test]
fn an_open_job_shows_its_query_and_its_map(rt: HostRuntime) {
    let mut table = table_of(&rt, rt.alloc(), LARGEST);
    assert_is(&rt, counted(&table), None);
    let rows = [
        (Do::Open(1), PlainOutcome::Unit),
        (Do::On(1, Act::Put(97, 4)), PlainOutcome::Old(None)),
        (Do::Freeze(1, COUNT), PlainOutcome::Frozen(0, 1, Some(4))),
        (Do::On(1, Act::Put(98, 6)), PlainOutcome::Old(None)),
    ];
    assert_rows(&rt, rt.alloc(), &mut table, &rows);
    assert_is(&rt, counted(&table), Some((4, 4, 1)));
    assert_rows(
        &rt,
        rt.alloc(),
        &mut table,
        &[(Do::Abandon(0), PlainOutcome::Unit)],
    );
    assert_is(&rt, counted(&table), None);
}

// A table with handle 1 and 64 open jobs on it, with the numbers from 0 to 63.
fn with_all_jobs(rt: &impl Abort, alloc: Global) -> Asking {
    let mut table = table_of(rt, alloc, LARGEST);
    assert_rows(rt, alloc, &mut table, &[(Do::Open(1), PlainOutcome::Unit)]);
    for number in 0..64 {
        let row = (Do::Freeze(1, COUNT), PlainOutcome::Frozen(number, 0, None));
        assert_rows(rt, alloc, &mut table, &[row]);
    }
    table
}

const MANY: [Case; 4] = [
    (
        Do::Freeze(1, COUNT),
        PlainOutcome::Refused(Refusal::TooManyJobs),
    ),
    (Do::Abandon(0), PlainOutcome::Unit),
    (Do::Freeze(1, COUNT), PlainOutcome::Frozen(64, 0, None)),
    (
        Do::Freeze(1, COUNT),
        PlainOutcome::Refused(Refusal::TooManyJobs),
    ),
];

#[test]
fn sixty_four_jobs_may_be_open(rt: HostRuntime) {
    let mut table = with_all_jobs(&rt, rt.alloc());
    assert_rows(&rt, rt.alloc(), &mut table, &MANY);
    assert_entries(&rt, &table, 69);
}

const FAR: Ask = Ask::Filter(4, 4, 1024);

const ONTO_ITSELF: Ask = Ask::Filter(4, 4, 1);

const IN_ORDER: [Case; 5] = [
    (
        Do::Freeze(7, FAR),
        PlainOutcome::Refused(Refusal::BadNumber),
    ),
    (
        Do::Freeze(1024, ONTO_ITSELF),
        PlainOutcome::Refused(Refusal::BadNumber),
    ),
    (
        Do::Freeze(7, ONTO_ITSELF),
        PlainOutcome::Refused(Refusal::NoHandle),
    ),
    (
        Do::Freeze(1, ONTO_ITSELF),
        PlainOutcome::Refused(Refusal::Taken),
    ),
    (
        Do::Freeze(1, COUNT),
        PlainOutcome::Refused(Refusal::TooManyJobs),
    ),
];

#[test]
fn the_first_of_several_refusals(rt: HostRuntime) {
    let mut table = with_all_jobs(&rt, rt.alloc());
    assert_rows(&rt, rt.alloc(), &mut table, &IN_ORDER);
    assert_entries(&rt, &table, 70);
}

const FOUR_ENTRIES: Limits = Limits {
    pairs: 2,
    entries: 4,
};

const ROOM_TO_FINISH: [Case; 5] = [
    (Do::Open(1), PlainOutcome::Unit),
    (Do::Freeze(1, COUNT), PlainOutcome::Frozen(0, 0, None)),
    (
        Do::On(1, Act::Put(97, 4)),
        PlainOutcome::Refused(Refusal::JournalFull),
    ),
    (Do::Finish(0), PlainOutcome::Count(0)),
    (
        Do::On(1, Act::Get(97)),
        PlainOutcome::Refused(Refusal::JournalFull),
    ),
];

#[test]
fn a_job_keeps_room_for_its_answer(rt: HostRuntime) {
    assert_new(&rt, rt.alloc(), FOUR_ENTRIES, &ROOM_TO_FINISH, 3);
}

const ROOM_TO_ABANDON: [Case; 5] = [
    (Do::Open(1), PlainOutcome::Unit),
    (Do::Freeze(1, COUNT), PlainOutcome::Frozen(0, 0, None)),
    (
        Do::Freeze(1, COUNT),
        PlainOutcome::Refused(Refusal::JournalFull),
    ),
    (Do::Abandon(0), PlainOutcome::Unit),
    (Do::Abandon(0), PlainOutcome::Refused(Refusal::NoJob)),
];

#[test]
fn a_job_keeps_room_to_be_abandoned(rt: HostRuntime) {
    assert_new(&rt, rt.alloc(), FOUR_ENTRIES, &ROOM_TO_ABANDON, 3);
}
