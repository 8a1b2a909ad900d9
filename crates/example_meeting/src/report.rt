//! What the program prints.

use crate::fault::Fault;
use crate::meeting::met;
use std::rt::Runtime;
use std::sync::{Arc, Wait};
use std::thread::Threads;
use tambyulo_clients::{Call, CallReply, Command, Outcome, Reply, Request};

/// The key that the two seats speak of, and the value that the first gives it.
const KEY: u64 = 7;

const VALUE: u64 = 100;

/// Lets two seats meet, and prints where in the journal the put and the get stand, and what was got.
pub fn report<R: Runtime + AllocGlobal + Threads + Wait + Sync>(rt: &R) -> Result<(), Fault> {
    let alloc = rt.alloc();
    let closed = met(rt, Arc::new(alloc, KEY)?, Arc::new(alloc, VALUE)?)?;
    for place in 0..closed.journal.len() {
        let Some(entry) = closed.journal.entry(place) else {
            return Ok(());
        };
        let seat = entry.seat();
        match (entry.request(), entry.outcome()) {
            (Request::Call(Call::On(_, Command::Put(_, value))), _) => {
                rt.println(format_args!("seat {seat} put {value} at place {place}"))?;
            }
            (Request::Call(_), Outcome::Reply(CallReply::Reply(Reply::Old(Some(value))))) => {
                rt.println(format_args!("seat {seat} got {value} at place {place}"))?;
            }
            _ => (),
        }
    }
    Ok(())
}
