//! Callers of the calls of a seat, of a client, and of the end of a map. Each hands on a clause of the call that it makes.
//!
//! No program calls them. The edits in `must-fail/` make of each a wrong body that its clause is to refuse. They stand here
//! since an edit costs the proof of its crate once more, and the crates below are large.
#![tactic(auto)]

mod bulks;
mod closings;
mod getting;
mod meetings;
mod running;

pub use bulks::bulk;
pub use closings::close;
pub use getting::get_or_else;
pub use meetings::meet;
pub use running::run;
