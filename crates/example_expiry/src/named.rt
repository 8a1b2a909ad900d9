//! A registry by names that threads share: a crew counts how many names begin with each letter.
ghost use Rattle.std.specs.Prelude.{IfOk};
ghost use Rattle.example_expiry.specs.Initials.{AreInitials};

use crate::by_initial::ByInitial;
use crate::initials::Initials;
use crate::lease::Lease;
use anyhow::Result;
use keys::ByteText;
use std::rt::Runtime;
use std::sync::Wait;
use std::thread::Threads;
use task_pool::{Crew, Free, run_crew};
use trie_map::{NoMemory, TrieMap, View};

/// The leases of devices, by their names.
type Registry = TrieMap<ByteText, Lease>;

/// A registry as it stood at one moment.
type Frozen = View<ByteText, Lease>;

/// How many devices of each kind there are.
const DEVICES: u64 = 2_000;

/// Leases to devices of four kinds, and prints how many of their names begin with each letter.
pub fn tour<R: Runtime + AllocGlobal + Threads + Wait + Sync>(rt: &R) -> Result<()> {
    let registry: Registry = TrieMap::new(rt)?;
    lease_to(rt, &registry, "camera")?;
    lease_to(rt, &registry, "laptop")?;
    lease_to(rt, &registry, "phone")?;
    lease_to(rt, &registry, "printer")?;
    let view = registry.view(rt)?;
    let initials = initials_of(rt, &view)?;
    rt.println(format_args!("{} names by first letter: {initials}", view.len()))?;
    Ok(())
}

/// The initials of a view, by a crew of four threads, whatever the schedule.
fn initials_of<R: AllocGlobal + Threads + Wait + Sync>(
    rt: &R,
    view: &Frozen,
) -> Result<Initials, NoMemory>
    ensures { IfOk result (λ initials. AreInitials view.now initials) }
{
    let report = run_crew(rt, rt.alloc(), view.plain(), &ByInitial, Crew::of(4), &Free)?;
    Ok(report.part)
}

/// Leases to all devices of a kind, whose names begin with it.
fn lease_to<R: AllocGlobal + Wait>(rt: &R, registry: &Registry, kind: &str) -> Result<()> {
    let alloc = rt.alloc();
    for number in 0..DEVICES {
        let name = format!(in alloc; "{kind}-{number}")?;
        registry.put(rt, ByteText::from_text(alloc, &name)?, Lease { until: 900 })?;
    }
    Ok(())
}
