//! Tests of `trie_map` that call and compare: what its calls answer, by hand and by several threads at once.
#![tactic(auto)]

#[cfg(test)]
mod tests;
