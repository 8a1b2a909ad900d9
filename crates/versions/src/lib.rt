//! Finite maps with a limit on their pairs, as versions: a fork of a version is another map from then on.
//!
//! Contracts see a version as the list of its pairs in strictly rising order of keys, beside its limit, its stamp and
//! the names and stamps of the nodes of its trie. How keys and values lie is what its storage says: with `Shared`, an
//! `Arc` goes in, and the same `Arc` comes out of this version and of each of its forks. A fork or a view shares every
//! node of its source. A later write puts its version's stamp on the nodes of one path: it writes those where they stand
//! that nobody else holds, and copies the others.
#![tactic(auto)]

mod laws;
mod refusal;
mod room;
mod root;
mod version;
mod view;

pub use laws::{law_of_equal_maps, law_of_names, law_of_put, law_of_removal};
pub use refusal::Refusal;
pub use trie_node::{Change, NoMemory};
pub use version::{MOST_PAIRS, Version};
pub use view::View;
