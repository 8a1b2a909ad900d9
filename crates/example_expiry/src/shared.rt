//! A registry that threads share: a crew counts how its leases end while other threads write it.
ghost use Rattle.std.specs.Prelude.{IfOk};
ghost use Rattle.example_expiry.specs.Outlooks.{IsOutlook};

use crate::lease::Lease;
use crate::outlook::{Outlook, OutlookAt};
use anyhow::Result;
use std::rt::Runtime;
use std::sync::Wait;
use std::thread;
use std::thread::Threads;
use task_pool::{Crew, Free, run_crew};
use trie_map::{NoMemory, PutError, TrieMap, View};

/// The leases of clients, by their numbers.
type Registry = TrieMap<u64, Lease>;

/// A registry as it stood at one moment.
type Frozen = View<u64, Lease>;

/// How many threads write the registry, and to how many clients each of them leases.
const WRITERS: usize = 3;

const CLIENTS: u64 = 20_000;

/// What is asked.
const ASKED: OutlookAt = OutlookAt {
    moment: 100,
    soon: 150,
};

/// Leases to clients, asks for the outlook while three threads write the registry, and asks again when they have.
pub fn tour<R: Runtime + AllocGlobal + Threads + Wait + Sync>(rt: &R) -> Result<()> {
    let registry: Registry = TrieMap::new(rt)?;
    lease_from(rt, &registry, 0, 0)?;
    ask_meanwhile(rt, &registry)?;
    ask_afterwards(rt, &registry)
}

// The view was taken before the writes, and what is found is of those leases alone.
fn ask_meanwhile<R: Runtime + AllocGlobal + Threads + Wait + Sync>(
    rt: &R,
    registry: &Registry,
) -> Result<()> {
    let before = registry.view(rt)?;
    let outlook = outlook_meanwhile(rt, registry, &before, ASKED)?;
    rt.println(format_args!("of {} clients before: {outlook}", before.len()))?;
    Ok(())
}

fn ask_afterwards<R: Runtime + AllocGlobal + Threads + Wait + Sync>(
    rt: &R,
    registry: &Registry,
) -> Result<()> {
    let after = registry.view(rt)?;
    let outlook = outlook_of(rt, &after, ASKED)?;
    rt.println(format_args!("of {} clients after: {outlook}", after.len()))?;
    Ok(())
}

/// The outlook of a view, while three threads write the registry that it was taken of.
fn outlook_meanwhile<R: AllocGlobal + Threads + Wait + Sync>(
    rt: &R,
    registry: &Registry,
    view: &Frozen,
    asked: OutlookAt,
) -> Result<Outlook>
    ensures { IfOk result (λ outlook. IsOutlook asked view.now outlook) }
{
    let (written, outlook) = thread::join(
        rt,
        || write(rt, registry),
        || outlook_of(rt, view, asked),
    );
    written?;
    Ok(outlook?)
}

/// The outlook of a view, by a crew of four threads, whatever the schedule.
fn outlook_of<R: AllocGlobal + Threads + Wait + Sync>(
    rt: &R,
    view: &Frozen,
    asked: OutlookAt,
) -> Result<Outlook, NoMemory>
    ensures { IfOk result (λ outlook. IsOutlook asked view.now outlook) }
{
    let report = run_crew(rt, rt.alloc(), view.plain(), &asked, Crew::of(4), &Free)?;
    Ok(report.part)
}

/// Renews leases and leases to new clients, by three threads at once.
fn write<R: AllocGlobal + Threads + Wait + Sync>(
    rt: &R,
    registry: &Registry,
) -> Result<(), PutError> {
    let write_some = |writer: usize| lease_from(rt, registry, first_of(writer), 900);
    for written in thread::map_indices(rt, rt.alloc(), WRITERS, &write_some)? {
        written?;
    }
    Ok(())
}

// The first client of a writer. Half of those of the first writer have leases already.
fn first_of(writer: usize) -> u64 {
    (writer as u64).wrapping_add(1).wrapping_mul(10_000)
}

/// Leases to clients from one on, each until one of the 200 seconds from the given one on.
fn lease_from<R: Wait>(
    rt: &R,
    registry: &Registry,
    first: u64,
    earliest: u64,
) -> Result<(), PutError> {
    for place in 0..CLIENTS {
        let client = first.wrapping_add(place);
        let until = earliest.wrapping_add(client % 200);
        registry.put(rt, client, Lease { until })?;
    }
    Ok(())
}
