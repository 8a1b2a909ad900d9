//! Operations on whole maps, over closures that are stored beside what they promise.
//!
//! A `Query` asks a question of a map: how many pairs pass a test, whether some or all do, which one does, the map of
//! those that pass, of new values or of images, the items of all pairs combined. It is worked in parts (`combiner::Bulk`).
#![tactic(auto)]

mod asking;
mod closure;
mod imaging;
mod laws;
mod no_images;
mod part;
mod query;
mod shaping;
mod stored;
mod working;

pub use bulk_work::{Answer, Asks, Pair, ask, work, work_into};
pub use closure::{ImageFn, PairFn};
pub use laws::law_of_folds;
pub use no_images::NoImages;
pub use part::Part;
pub use query::Query;
pub use stored::{Stored, StoredItem, StoredMap, StoredPairs, StoredTest};
