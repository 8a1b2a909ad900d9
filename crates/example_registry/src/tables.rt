//! Maps under handle numbers, as a server keeps them for its clients.

use crate::endpoint::{Endpoint, at, name};
use anyhow::Result;
use handles::{Command, Limits, Reply, Table};
use keys::ByteText;
use std::alloc::Global;
use std::rt::Runtime;
use std::sync::Arc;

/// The handle that services are written to, and the one under which an audit reads them as they stood.
const LIVE: u32 = 1;

const AUDIT: u32 = 2;

/// The maps of a server.
type Services = Table<ByteText, Endpoint>;

/// A server's table: each call names the map by its handle, and is one step of a machine of plain maps.
pub fn tour<R: Runtime + AllocGlobal>(rt: &R) -> Result<()> {
    let alloc = rt.alloc();
    let limits = Limits {
        pairs: 1_000,
        entries: 1_000,
    };
    let mut table = Table::new(alloc, limits)?;
    let billing = name(alloc, "billing")?;
    write(alloc, &mut table, &billing)?;

    // A handle that is live is not opened again. The table counts the call, and has the maps that it had.
    if let Err(refusal) = table.open(alloc, AUDIT) {
        rt.println(format_args!("the audit's handle is not opened: {refusal:?}"))?;
    }
    show(rt, &mut table, LIVE, &billing)?;
    show(rt, &mut table, AUDIT, &billing)
}

/// Puts the service, takes a snapshot, and removes the service.
fn write(alloc: Global, table: &mut Services, billing: &Arc<ByteText>) -> Result<()> {
    table.open(alloc, LIVE)?;
    let put = Command::Put(Arc::try_clone(billing)?, at(alloc, "10.0.0.9", 8443)?);
    table.call(alloc, LIVE, put)?;
    table.snapshot(LIVE, AUDIT)?;
    table.call(alloc, LIVE, Command::Remove(Arc::try_clone(billing)?))?;
    Ok(())
}

/// Shows where the service listens by the map of the handle.
fn show<R: Runtime + AllocGlobal>(
    rt: &R,
    table: &mut Services,
    handle: u32,
    billing: &Arc<ByteText>,
) -> Result<()> {
    match table.call(rt.alloc(), handle, Command::Get(Arc::try_clone(billing)?))? {
        Reply::Old(Some(at)) => rt.println(format_args!("handle {handle} has billing at {at}"))?,
        _ => rt.println(format_args!("handle {handle} has no billing"))?,
    }
    Ok(())
}
