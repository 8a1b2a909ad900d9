//! One history of all writes of a map that threads share. It exists in proofs alone.
//!
//! A `Part` lies beside the pairs of one first digit, under their lock. It alone may add writes of keys of that digit,
//! so it knows which of them the history has. A `Front` is what a thread has seen of the history: a beginning of it. An
//! `Author` signs what one thread writes, so that each of its writes stands there once.
//!
//! None of these has a byte, and no call here does anything when it runs. A map with no name (`Unnamed`) has no history.
#![tactic(auto)]

mod author;
mod book;
mod clearing;
mod entry;
mod front;
mod intent;
mod part;

pub use author::{Author, Authors};
pub use book::{Law, Naming, Opened, Unnamed};
pub use clearing::{Cleared, Gathered};
pub use entry::{Entry, Write};
pub use front::Front;
pub use intent::Intent;
pub use part::{Part, Parts};
