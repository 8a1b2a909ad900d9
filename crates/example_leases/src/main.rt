//! A registry of leases that four threads share.
#![tactic(auto)]

use std::rt::Runtime;
use std::sync::Wait;
use std::thread::Threads;
use std::{io, thread};
use tambyulo::{Crew, PutError, Sum, TrieMap};

/// The port that a client has.
#[derive(Drop)]
struct Lease {
    port: u16,
}

type Leases = TrieMap<u64, Lease>;

/// Gives a thousand clients of this thread their ports, and takes every fourth away again.
fn serve<R: Wait>(rt: &R, leases: &Leases, thread: usize) -> Result<(), PutError> {
    for client in 0..1_000u64 {
        let key = client.wrapping_mul(4).wrapping_add(thread as u64);
        let port = if client % 2 == 0 { 80 } else { 443 };
        leases.put(rt, key, Lease { port })?;
        if client % 4 == 0 {
            leases.remove(rt, &key)?;
        }
    }
    Ok(())
}

/// Serves the clients of four threads at once.
fn serve_all<R: AllocGlobal + Threads + Wait + Sync>(
    rt: &R,
    leases: &Leases,
) -> Result<(), PutError> {
    let serve_one = |place: usize| serve(rt, leases, place);
    for done in thread::map_indices(rt, rt.alloc(), 4, &serve_one)? {
        done?;
    }
    Ok(())
}

/// The port of client 5, how many leases are secure, the sum of all ports, and how many leases there are in the map and
/// in its snapshot at the end.
type Figures = (u16, u64, i128, u64, u64);

/// Takes a tour of the map that four threads have filled.
fn tour<R: AllocGlobal + Threads + Wait + Sync>(rt: &R) -> Result<Figures, PutError> {
    let leases: Leases = TrieMap::new(rt)?;
    serve_all(rt, &leases)?;
    leases.put(rt, 5, Lease { port: 8_443 })?;
    let port = leases.get(rt, &5)?.map_or(0, |lease| lease.port);
    let view = leases.view(rt)?;
    let secure = view.par_count(rt, |_, lease| lease.port == 443, Crew::of(4))?;
    let sum = view.fold(&Sum, |_, lease| i128::from(lease.port));
    let before = leases.snapshot(rt)?;
    leases.clear(rt)?;
    let (now, then) = (leases.len(rt), before.len(rt));
    Ok((port, secure, sum, now, then))
}

/// Prints the figures of the tour.
fn print_figures<R: Runtime>(rt: &R, figures: Figures) -> io::Result<()> {
    let (port, secure, sum, now, then) = figures;
    println!(rt; "port {port}; {secure} secure; sum {sum}; {now} now, {then} in the snapshot")
}

fn main(rt: HostRuntime) -> io::Result<()> {
    match tour(&rt) {
        Ok(figures) => print_figures(&rt, figures),
        Err(error) => println!(rt; "refused: {error}"),
    }
}
