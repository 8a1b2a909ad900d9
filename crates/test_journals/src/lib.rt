//! Lists of steps that one thread plays with all seats of a shared map, and journals beside the plain table. What is not as
//! it is to be comes back as a value.
#![tactic(auto)]

mod memory;
mod model;
mod playing;
mod script;
mod steps;
mod unlike;

pub use model::replayed;
pub use playing::{End, played, played_and_filed};
pub use script::{Ending, closed_len, last_and_closed};
pub use steps::Step;
pub use unlike::Unlike;
