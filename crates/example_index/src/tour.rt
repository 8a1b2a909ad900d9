//! What the program does.

use crate::fault::Fault;
use crate::indexer::{INDEX, Indexer};
use std::alloc::{AllocError, Global};
use std::rt::Runtime;
use std::sync::{Arc, Wait};
use std::thread::Threads;
use tambyulo_clients::{
    ByteText, Call, CallReply, Closed, Command, Limits, NoQuery, Outcome, Reply, Request,
    with_clients,
};

/// What the two documents say. They have words in common, and each has a word twice.
const FIRST: &str = "the quick brown fox jumps over the lazy dog";

const SECOND: &str = "the dog sleeps and the fox is over the hills";

/// The place of the counter among the clients, which is the number of its seat.
const COUNTER: u32 = 2;

/// What the clients leave.
type Closing = Closed<ByteText, u64, NoQuery>;

/// Writes an index by two threads while a third counts it, and reads in the journal what happened.
pub fn tour<R: Runtime + AllocGlobal + Threads + Wait + Sync>(rt: &R) -> Result<(), Fault> {
    let alloc = rt.alloc();

    // Each client runs on a thread of its own, and its seat has the number of its place here.
    let mut clients = Vec::new(alloc);
    clients.push(writer(alloc, 1, FIRST)?)?;
    clients.push(writer(alloc, 2, SECOND)?)?;
    clients.push(Indexer::Counts)?;
    let limits = Limits {
        pairs: 1_000,
        entries: 1_000,
    };
    let (outs, closed) = with_clients(rt, alloc, limits, clients)?;

    let [first, second, counted] = outs.as_slice() else {
        unreachable!()
    };
    let added = (*first)?.wrapping_add((*second)?);
    rt.println(format_args!("words in the index: {}", words(&closed)))?;
    rt.println(format_args!("added by the writers: {added}"))?;

    // How many words the counter found depends on the schedule. That the journal has as many before its view does not.
    let before = added_before_view(&closed, COUNTER);
    rt.println(format_args!("the count is that of its moment: {}", (*counted)? == before))?;
    rt.println(format_args!("calls in the journal: {}", closed.journal.len()))?;
    Ok(())
}

// A client that writes the words of this document.
fn writer(alloc: Global, document: u64, text: &str) -> Result<Indexer, AllocError> {
    let mut words = Vec::new(alloc);
    for word in text.split_whitespace() {
        words.push(shared(alloc, word)?)?;
    }
    Ok(Indexer::Writes { document, words })
}

// The word as a key.
fn shared(alloc: Global, word: &str) -> Result<Arc<ByteText>, AllocError> {
    Ok(Arc::new(alloc, ByteText::from_text(alloc, word)?)?)
}

// How many words the index has in the end.
fn words(closed: &Closing) -> u64 {
    match closed.table.places().get(INDEX as usize) {
        Some(Some(index)) => index.len(),
        _ => 0,
    }
}

// How many words the journal has added before the seat's view.
fn added_before_view(closed: &Closing, seat: u32) -> u64 {
    let mut added = 0u64;
    for place in 0..closed.journal.len() {
        let Some(entry) = closed.journal.entry(place) else {
            return added;
        };
        match (entry.request(), entry.outcome()) {
            (Request::View(_), _) if entry.seat() == seat => return added,
            (
                Request::Call(Call::On(_, Command::PutIfAbsent(_, _))),
                Outcome::Reply(CallReply::Reply(Reply::Old(None))),
            ) => added = added.wrapping_add(1),
            _ => (),
        }
    }
    added
}
