//! Flags of tenants, under a struct of two texts, and how many tenants have each plan, under the number of an enum.
//! All flags are put back by one call, and a crew counts those of each tenant.
#![tactic(auto)]

mod flag;
mod plan;

use flag::{Flag, FlagName};
use plan::Plan;
use std::io;
use std::rt::Runtime;
use std::sync::Wait;
use std::thread::Threads;
use tambyulo::{ByteText, Crew, NoMemory, PutError, TrieMap};

/// Whether each flag is on.
type Flags = TrieMap<Flag, bool>;

/// How many tenants have each plan, under its number.
type Plans = TrieMap<u8, u64>;

/// What the tour found.
#[derive(Drop)]
struct Found {
    on: bool,
    flags: u64,
    of_acme: u64,
    teams: u64,
}

/// Sets flags of two tenants.
fn set_flags<R: AllocGlobal + Wait>(rt: &R, flags: &Flags) -> Result<(), PutError> {
    for (tenant, name, on) in [
        ("acme", "dark-mode", true),
        ("acme", "beta", false),
        ("zenith", "dark-mode", false),
    ] {
        flags.put(rt, Flag::new(rt.alloc(), tenant, name)?, on)?;
    }
    Ok(())
}

/// Counts the plans of four tenants.
fn count_plans<R: AllocGlobal + Wait>(rt: &R, plans: &Plans) -> Result<(), PutError> {
    for plan in [Plan::Team, Plan::Free, Plan::Enterprise, Plan::Team] {
        plans.update(
            rt,
            plan.number(),
            |old| Some(old.map_or(1, |n| n.saturating_add(1))),
        )?;
    }
    Ok(())
}

/// Turns all flags off, and puts them back as they were.
fn turn_off_and_on<R: Wait>(rt: &R, flags: &Flags) -> Result<(), PutError> {
    let before = flags.view(rt)?;
    flags.replace_all(rt, |_, _| false)?;
    flags.restore(rt, &before)?;
    Ok(())
}

/// How many flags the tenant has.
fn count_of<R: AllocGlobal + Threads + Wait + Sync>(
    rt: &R,
    flags: &Flags,
    tenant: &str,
) -> Result<u64, NoMemory> {
    let counts = flags.par_try_group_count(rt, |flag, _| flag.tenant.clone(), Crew::of(2))?;
    Ok(counts.get(&ByteText::from_text(rt.alloc(), tenant)?))
}

/// Whether a flag is on, how many flags there are, how many a tenant has, and how many tenants have the plan of a team.
fn tour<R: AllocGlobal + Threads + Wait + Sync>(rt: &R) -> Result<Found, PutError> {
    let flags: Flags = TrieMap::new(rt)?;
    set_flags(rt, &flags)?;
    turn_off_and_on(rt, &flags)?;
    let name = FlagName {
        tenant: "acme",
        name: "dark-mode",
    };
    let on = flags.get_copied(rt, name).unwrap_or(false);
    let plans: Plans = TrieMap::new(rt)?;
    count_plans(rt, &plans)?;
    Ok(Found {
        on,
        flags: flags.len(rt),
        of_acme: count_of(rt, &flags, "acme")?,
        teams: plans.get_copied(rt, &Plan::Team.number()).unwrap_or(0),
    })
}

/// Prints what the tour found.
fn print_found<R: Runtime>(rt: &R, found: &Found) -> io::Result<()> {
    let (on, flags, of_acme, teams) = (found.on, found.flags, found.of_acme, found.teams);
    println!(rt; "dark mode of acme: {on}; {flags} flags, {of_acme} of acme; {teams} teams")
}

fn main(rt: HostRuntime) -> io::Result<()> {
    match tour(&rt) {
        Ok(found) => print_found(&rt, &found),
        Err(error) => println!(rt; "refused: {error}"),
    }
}
