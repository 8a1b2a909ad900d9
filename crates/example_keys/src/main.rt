//! Visits that four threads count, by page and hour: a map whose key is a type of the program's own.
#![tactic(auto)]

mod visit;

use std::rt::Runtime;
use std::sync::Wait;
use std::thread::Threads;
use std::{io, thread};
use tambyulo::{PutError, TrieMap};
use visit::Visit;

/// How often each page was visited in each hour.
type Visits = TrieMap<Visit, u64>;

/// Counts the 600 visits that one thread saw, of three pages in two hours.
fn count<R: Wait>(rt: &R, visits: &Visits) -> Result<(), PutError> {
    for number in 0..600u64 {
        let (page, hour) = (number % 3, number % 2);
        visits.update(rt, Visit { page, hour }, |old| {
            Some(old.map_or(1, |n| n.saturating_add(1)))
        })?;
    }
    Ok(())
}

/// Counts what four threads saw.
fn count_all<R: AllocGlobal + Threads + Wait + Sync>(
    rt: &R,
    visits: &Visits,
) -> Result<(), PutError> {
    let count_one = |_: usize| count(rt, visits);
    for done in thread::map_indices(rt, rt.alloc(), 4, &count_one)? {
        done?;
    }
    Ok(())
}

/// How many keys there are, the visits of page 1 in hour 0, and in how many hours page 1 was visited.
type Figures = (u64, u64, u64);

/// Counts the visits, and looks at what was counted.
fn tour<R: AllocGlobal + Threads + Wait + Sync>(rt: &R) -> Result<Figures, PutError> {
    let visits: Visits = TrieMap::new(rt)?;
    count_all(rt, &visits)?;
    let found = visits
        .get(rt, &Visit { page: 1, hour: 0 })?
        .map_or(0, |times| *times);
    let hours = visits.count(rt, |visit, _| visit.page == 1)?;
    Ok((visits.len(rt), found, hours))
}

/// Prints the figures of the tour.
fn print_figures<R: Runtime>(rt: &R, figures: Figures) -> io::Result<()> {
    let (keys, found, hours) = figures;
    println!(rt; "{keys} keys; {found} visits of page 1 in hour 0; it was visited in {hours} hours")
}

fn main(rt: HostRuntime) -> io::Result<()> {
    match tour(&rt) {
        Ok(figures) => print_figures(&rt, figures),
        Err(error) => println!(rt; "refused: {error}"),
    }
}
