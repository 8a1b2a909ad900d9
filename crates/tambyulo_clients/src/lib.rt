//! One name for whoever uses a table of maps that threads share under one lock, with a journal of all that was asked and
//! returned.
//!
//! All that a program over such a table names is here. `with_clients` runs each client on a thread of its own and
//! closes the table; `with` lends it with all its seats to the caller's thread. A `View` of one of its maps is read
//! with no lock, walked by `pairs`, and asked by `ask` or `ask_crew`.
#![tactic(auto)]

pub use bulk_work::{ask, work};
pub use handles::{
    Call, CallReply, Command, Limits, MOST_ENTRIES, NoQuery, Outcome, Reply, Request, Table,
    law_of_answers, law_of_foresight, law_of_freezes, law_of_open_jobs, law_of_other_handles,
    law_of_refusals,
};
pub use hash_path::Path;
pub use iter::{Pairs, pairs};
pub use locked_map::{
    CLIENT_STACK, Client, Closed, Crew, Entry, Free, Gate, Journal, JournalName, MOST_SEATS,
    NoJournal, Seat, SharedMap, Ticket, Torn, Use, with, with_clients,
};
pub use task_pool::ask_crew;
pub use trie_map::{
    Answer, Asks, Both, ByteText, Greatest, ImageFn, Least, MOST_PAIRS, Monoid, NoImages, NoMemory,
    Pair, PairFn, Part, PathKey, Query, Refusal, Stored, StoredItem, StoredMap, StoredPairs,
    StoredTest, Sum, Version,
};
pub use versions::View;
