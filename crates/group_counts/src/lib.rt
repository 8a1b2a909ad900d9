//! What a map has of each group of its pairs, by a plain closure that names the group of a pair: how many pairs, or their
//! items combined.
//!
//! `GroupCounts`, `TryGroupCounts` and `GroupFolds` take the closures as they are, with no fact beside them. What they
//! promise is exact for each meaning that the closures have.
#![tactic(auto)]

mod group_counts;
mod group_folds;
mod groups;
mod joining;
mod sums;
mod try_group_counts;

pub use group_counts::GroupCounts;
pub use group_folds::GroupFolds;
pub use groups::Groups;
pub use try_group_counts::TryGroupCounts;
