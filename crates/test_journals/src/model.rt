//! The plain table beside a map that was closed: it returns the same for each entry, and comes to the same handles and
//! jobs.
use crate::unlike::Unlike;
use handles::Limits;
use std::alloc::{AllocError, Global};
use test_clients::{
    Entered, Outcome, Seen, TestClosed, TestVersion, entry_at, outcome_of, seen_in, shown,
};
use test_keys::ChosenKey;
use test_machine::{PlainPair, PlainTable, Request, row_of};
use versions::NoMemory;

// Adds the entries of the journal, in order.
fn add_entries(entries: &mut Vec<Entered>, closed: &TestClosed) -> Result<(), Unlike> {
    for place in 0..closed.journal.len() {
        let Some(entry) = entry_at(closed, place) else {
            return Err(Unlike::Entry(None, None));
        };
        let Ok(()) = entries.push(entry) else {
            return Err(Unlike::NoMemory);
        };
    }
    Ok(())
}

// What the plain table returns for the request. The outcome `elsewhere` decides only which row a find gives.
fn plain_returns(
    alloc: Global,
    table: &mut PlainTable,
    request: Request,
    elsewhere: Outcome,
) -> Result<Outcome, AllocError> {
    let expected = table.serve(alloc, request)?;
    let found = found_in(&expected.rows, elsewhere);
    Ok(outcome_of(expected.outcome, shown(&expected.rows), found))
}

// One of the rows, where there are some: the one in `returned`, if it is among them.
fn found_in(rows: &[PlainPair], returned: Outcome) -> Option<(u64, u64)> {
    match returned {
        Outcome::Found(Some((path, value))) if rows.contains(&row_at(path, value)) => {
            Some((path, value))
        }
        _ => match rows.first() {
            Some(row) => Some((row.key.path, row.value)),
            None => None,
        },
    }
}

// The row of a key that has no other one of its path word.
fn row_at(path: u64, value: u64) -> PlainPair {
    row_of(ChosenKey { path, id: 0 }, value)
}

// The plain table makes the request of each entry, one after another, and returns the same.
fn serve_all(alloc: Global, table: &mut PlainTable, entries: &[Entered]) -> Result<(), Unlike> {
    for entry in entries {
        let Entered {
            request,
            outcome,
            ..
        } = *entry;
        let returned = plain_returns(alloc, table, request, outcome)?;
        if returned != outcome {
            return Err(Unlike::Replayed(request, returned, outcome));
        }
    }
    Ok(())
}

// What the version of a handle shows, where there is one.
fn seen_at(place: &Option<TestVersion>) -> Result<Option<Seen>, NoMemory> {
    match place {
        Some(version) => {
            let view = version.view()?;
            let seen = seen_in(&view);
            drop(view);
            Ok(Some(seen))
        }
        None => Ok(None),
    }
}

// The table has the same handles, each with the same pairs.
fn compare_handles(table: &PlainTable, places: &[Option<TestVersion>]) -> Result<(), Unlike> {
    for (handle, place) in (0u32..).zip(places) {
        let here = seen_at(place)?;
        let there = table.rows(handle).map(|rows| shown(rows));
        if here != there {
            return Err(Unlike::Handle(handle, here, there));
        }
    }
    Ok(())
}

// It has the same open jobs.
fn compare_jobs(table: &PlainTable, closed: &TestClosed) -> Result<(), Unlike> {
    for job in 0..=table.next {
        let is_open = closed.table.foresee_abandon(job).is_ok();
        let is_wanted = table.job(job).is_some();
        if is_open != is_wanted {
            return Err(Unlike::Job(job, is_open, is_wanted));
        }
    }
    Ok(())
}

// It has the same handles and open jobs, and has counted as many entries.
fn compare_tables(table: &PlainTable, closed: &TestClosed) -> Result<(), Unlike> {
    compare_handles(table, closed.table.places())?;
    compare_jobs(table, closed)?;
    let counted = closed.table.entries();
    if counted != table.entries {
        return Err(Unlike::Entries(counted, table.entries));
    }
    Ok(())
}

// Adds the entries of the journal, which the plain table is given.
fn replay(
    alloc: Global,
    table: &mut PlainTable,
    entries: &mut Vec<Entered>,
    closed: &TestClosed,
) -> Result<(), Unlike> {
    add_entries(entries, closed)?;
    serve_all(alloc, table, entries)?;
    compare_tables(table, closed)
}

/// The entries of the journal. The plain table returns the same for each, and comes to the same handles and jobs.
///
/// # Errors
///
/// What the plain table has otherwise.
pub fn replayed(
    alloc: Global,
    limits: Limits,
    closed: &TestClosed,
) -> Result<Vec<Entered>, Unlike> {
    let mut entries = Vec::new(alloc);
    let mut table = PlainTable::new(alloc, limits);
    let compared = replay(alloc, &mut table, &mut entries, closed);
    drop(table);
    entries_where(compared, entries)
}

/// The entries, where nothing else is found.
pub fn entries_where(
    compared: Result<(), Unlike>,
    entries: Vec<Entered>,
) -> Result<Vec<Entered>, Unlike> {
    match compared {
        Ok(()) => Ok(entries),
        Err(unlike) => {
            drop(entries);
            Err(unlike)
        }
    }
}
