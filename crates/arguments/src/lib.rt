//! What the arguments of a script's verbs spell: keys, numbers, tests, folds and maps, with their texts.
//!
//! Each kind has one function that reads it from a field, and what it reads has one spelling. A test, a map and a map of
//! pairs say here too what they make of a pair (`specs/Questions.antt`).
#![tactic(auto)]

mod behind;
mod folding;
mod key;
mod map_key;
mod mapping;
mod number;
mod pair_mapping;
mod passing;

pub use folding::{Folding, folding_of};
pub use key::Key;
pub use map_key::MapKey;
pub use mapping::{Mapping, mapping_of};
pub use number::{number_of, value_of};
pub use pair_mapping::{PairMapping, pair_mapping_of};
pub use passing::{Test, test_of};
