//! A map of handles that threads share under one lock, with a journal of all that was asked and returned.
//!
//! Each call of a seat is one step of the machine of handles, made under the lock, and one entry of the journal. The
//! journal is legal whenever the lock is free: a run of that machine, which leads to the table under the lock. A seat
//! keeps its own list of what it asked and what was returned, each with a token of its entry. `close` ends the map
//! where each seat's list is what the journal has of the seat, and gives the journal. Views are read with no lock.
#![tactic(auto)]

mod bulk;
mod clients;
mod closed;
mod closing;
mod lending;
mod seat;
mod shared_map;
mod ticket;

pub use clients::{CLIENT_STACK, Client, NoJournal, with_clients};
pub use closed::{Closed, Torn};
pub use filed_entries::Filed;
pub use handles::{Outcome, Request};
pub use journal::{Entry, Journal, JournalName};
pub use lending::{MOST_SEATS, Use, with};
pub use seat::Seat;
pub use shared_map::SharedMap;
pub use task_pool::{Crew, Free, Gate};
pub use ticket::Ticket;
