//! One map, its snapshot and its limit.

use crate::endpoint::{Endpoint, at, name};
use anyhow::Result;
use generation::Source;
use keys::ByteText;
use std::rt::Runtime;
use std::sync::Arc;
use versions::{Refusal, Version};

/// A registry: the key of a service is its name, and the value is where it listens.
type Registry = Version<ByteText, Endpoint>;

/// What one map does for a registry.
pub fn tour<R: Runtime + AllocGlobal>(rt: &R) -> Result<()> {
    snapshot(rt)?;
    limit(rt)
}

/// Services are put into a registry, one is moved only if nobody moved it before, and a snapshot keeps what it had.
fn snapshot<R: Runtime + AllocGlobal>(rt: &R) -> Result<()> {
    let alloc = rt.alloc();

    // A registry of at most 1,000 services. The source gives each stamp once, so that no two maps share one.
    let mut source = Source::new();
    let mut registry = Version::empty(alloc, 1_000, source.next())?;
    registry.put(alloc, name(alloc, "billing")?, at(alloc, "10.0.0.4", 8080)?)?;
    registry.put(alloc, name(alloc, "search")?, at(alloc, "10.0.0.5", 8080)?)?;

    // A snapshot shares every node of the registry, and makes no request for memory.
    let snapshot = registry.fork(&mut source)?;
    move_billing(rt, &mut registry, &snapshot)
}

/// Moves a service twice, and shows where it is then, and where it is in the snapshot.
fn move_billing<R: Runtime + AllocGlobal>(
    rt: &R,
    registry: &mut Registry,
    snapshot: &Registry,
) -> Result<()> {
    let alloc = rt.alloc();

    // The registry is written on. billing moves only if it is still where it was seen.
    let billing = name(alloc, "billing")?;
    let seen = Endpoint {
        host: "10.0.0.4",
        port: 8080,
    };
    let new = at(alloc, "10.0.0.9", 8443)?;
    let moved = map_ops::replace_if(registry, alloc, Arc::try_clone(&billing)?, &seen, new)?;
    rt.println(format_args!("billing moved: {moved}"))?;

    // A second writer saw the same and comes too late: `replace_if` returns `false`.
    let late = at(alloc, "10.0.0.7", 8443)?;
    let moved = map_ops::replace_if(registry, alloc, Arc::try_clone(&billing)?, &seen, late)?;
    rt.println(format_args!("billing moved again: {moved}"))?;

    // Each map has its own: a key that was made once serves every look-up.
    if let (Some(now), Some(before)) = (registry.get(&billing), snapshot.get(&billing)) {
        rt.println(format_args!("billing is at {now}, and in the snapshot at {before}"))?;
    }
    Ok(())
}

/// A map that is full refuses a new key, and no other.
fn limit<R: Runtime + AllocGlobal>(rt: &R) -> Result<()> {
    let alloc = rt.alloc();
    let mut registry = Version::empty(alloc, 1, Source::new().next())?;
    registry.put(alloc, name(alloc, "mail")?, at(alloc, "10.0.0.6", 25)?)?;
    registry.put(alloc, name(alloc, "mail")?, at(alloc, "10.0.0.6", 2525)?)?;

    // A refusal is an answer that says why. The map is then as it was.
    match registry.put(alloc, name(alloc, "login")?, at(alloc, "10.0.0.8", 8080)?) {
        Err(Refusal::Full) => rt.println(format_args!("there is no room for login"))?,
        Err(refusal) => return Err(refusal.into()),
        Ok(_) => rt.println(format_args!("login was put"))?,
    }
    rt.println(format_args!("services in the small registry: {}", registry.len()))?;
    Ok(())
}
