//! What the tests of other crates share: a key whose path word is chosen, so that a test can make keys meet at any
//! depth of the trie or share a whole word; random numbers; where keys stand in a walk; ways to have requests for memory
//! refused; and a wait for another thread.
//!
//! Nothing here ends the process, since what may do so is refused outside of tests: a step that has no memory is an error,
//! and the test that called it ends there.
#![tactic(auto)]

mod chosen;
mod memory;
mod positions;
mod random;
mod waiting;

pub use chosen::ChosenKey;
pub use memory::{Shortage, spare_blocks, take_all};
pub use positions::{PARTING_WORDS, WIDTHS, cut_point, position_of};
pub use random::Random;
pub use waiting::wait_for;

#[cfg(test)]
mod tests;
