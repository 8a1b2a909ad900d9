//! What names the history of a map's writes, for sessions and for readers of a map with a history.
//!
//! A history exists in proofs alone: none of these types has a byte, and what they do costs O(1), takes no lock, does
//! nothing when it runs, and is refused never.
//!
//! <!-- quoted from crates/example_ledger/src/main.rt -->
//! ```rust
//! let (ledger, front, mut authors) = Ledger::<J>::with_history(rt, opened)?;
//! let first = ledger.session(front, authors.next());
//! let second = first.again(authors.next());
//! ```

pub use trie_map::{Since, law_of_last_put};
pub use write_history::{Author, Authors, Entry, Front, Naming, Opened, Unnamed, Write};
