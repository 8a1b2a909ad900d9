//! Work that is split among threads whose stacks have a chosen size.
#![tactic(auto)]

mod fork;
mod room;
#[cfg(test)]
mod tests;
mod work;

pub use fork::map_vec;
pub use work::Work;
