//! What the program does.

use crate::lease::{Lease, name, until};
use crate::queries::{expired, live, seconds_left};
use anyhow::Result;
use bulk_work::{Answer, ask};
use generation::Source;
use keys::ByteText;
use std::alloc::Global;
use std::rt::Runtime;
use versions::{Version, View};

/// The moment at which the program asks.
const NOW: u64 = 100;

/// The handle that a table would give the new map; this program keeps it itself.
const LIVE: u32 = 2;

/// A registry of leases, and a view of it.
type Registry = Version<ByteText, Lease>;

type Frozen = View<ByteText, Lease>;

/// Counts what has expired in a registry, and filters what is live into a new map, while the registry is written.
pub fn tour<R: Runtime + AllocGlobal>(rt: &R) -> Result<()> {
    let alloc = rt.alloc();
    let mut registry = Version::empty(alloc, 1_000, Source::new().next())?;
    lease(alloc, &mut registry, "alpha", 50)?;
    lease(alloc, &mut registry, "beta", 150)?;
    lease(alloc, &mut registry, "gamma", 99)?;
    lease(alloc, &mut registry, "delta", 300)?;

    // A view keeps what the registry has now. It copies nothing, and the registry is written on.
    let frozen = registry.view()?;
    lease(alloc, &mut registry, "alpha", 900)?;
    lease(alloc, &mut registry, "epsilon", 800)?;

    questions(rt, &frozen)?;
    rt.println(format_args!("in the registry by now: {}", registry.len()))?;
    Ok(())
}

/// Leases the name until the second.
fn lease(alloc: Global, registry: &mut Registry, text: &str, second: u64) -> Result<()> {
    registry.put(alloc, name(alloc, text)?, until(alloc, second)?)?;
    Ok(())
}

/// What the program asks of the registry as it stood.
fn questions<R: Runtime + AllocGlobal>(rt: &R, frozen: &Frozen) -> Result<()> {
    count_expired(rt, frozen)?;
    filter_live(rt, frozen)?;
    sum_seconds(rt, frozen)
}

fn count_expired<R: Runtime + AllocGlobal>(rt: &R, frozen: &Frozen) -> Result<()> {
    let alloc = rt.alloc();
    let (answer, _) = ask(alloc, frozen.try_clone()?, &expired(NOW))?;
    if let Answer::Count(count) = answer {
        rt.println(format_args!("expired: {count}"))?;
    }
    Ok(())
}

fn filter_live<R: Runtime + AllocGlobal>(rt: &R, frozen: &Frozen) -> Result<()> {
    let alloc = rt.alloc();
    let alpha = name(alloc, "alpha")?;
    let (_, made) = ask(alloc, frozen.try_clone()?, &live(NOW, LIVE))?;
    if let Some(map) = made {
        rt.println(format_args!("live: {}", map.len()))?;
        rt.println(format_args!("alpha is among them: {}", map.contains_key(&alpha)))?;
    }
    Ok(())
}

fn sum_seconds<R: Runtime + AllocGlobal>(rt: &R, frozen: &Frozen) -> Result<()> {
    let alloc = rt.alloc();
    let (answer, _) = ask(alloc, frozen.try_clone()?, &seconds_left(NOW))?;
    if let Answer::Item(seconds) = answer {
        rt.println(format_args!("seconds left: {seconds}"))?;
    }
    Ok(())
}
