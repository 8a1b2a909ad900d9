//! Generations of a trie: stamps that are issued once each, and the nodes that carry one.
//!
//! A fork gives a version and its copy a fresh stamp each and copies no node. A later write puts
//! its version's stamp on the nodes of one path, so the nodes with a version's own stamp are those
//! that it wrote since it got the stamp.
#![tactic(auto)]

mod own;
mod source;

pub use own::own_nodes;
pub use source::Source;
