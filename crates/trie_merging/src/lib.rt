//! Two hash tries put together: the root of the union of two maps, made from their roots.
//!
//! `merged` goes down both tries at once and shares what one side alone has. Which nodes a root has is a function of its
//! pairs; each new node has the stamp of the call. `trie_node` hands it on.
#![tactic(auto)]

mod merging;

pub use merging::merged;
