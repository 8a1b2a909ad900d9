//! What tests of a shared map have in common: what seats do and return, and the entries of a journal, as plain values; and
//! clients of any map.
#![tactic(auto)]

mod any_map;
mod constants;
mod entries;
mod making;
mod outcomes;
mod questions;
mod requests;
mod running;
mod signs;

pub use any_map::{AnyMap, Lent};
pub use constants::{A, B, C, FOUR_AND_FIVE, KEYS, LARGEST, NOTHING};
pub use entries::{Entered, Exchange, TestClosed, TestVersion, entry_at, value_at};
pub use making::{act, bulk, take, taken};
pub use outcomes::{Outcome, Seen, outcome_of, seen_in, shown};
pub use questions::Query;
pub use requests::{Deed, Prepared, prepare};
pub use running::{Playing, Plays};
pub use signs::{MOST_TURNS, Signs, TestGate};
