//! Reads of a shared map that mostly take no lock, by a handle that one thread has.
//!
//! A `Reader` has a base: a view of the map, and marks of what was written since it was taken. A key that was not
//! written since has its value there; any other is read under the lock of its stripe. All readers of one `Readers`
//! share a base.
#![tactic(auto)]

mod base;
mod counts;
mod latest;
mod reader;
mod readers;
mod sight;
mod since;

pub use reader::Reader;
pub use readers::Readers;
pub use since::Since;
