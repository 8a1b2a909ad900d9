//! Tests of `trie_map` by many calls: of eight threads on one map, while views are taken, and of many pairs.
#![tactic(auto)]

#[cfg(test)]
mod tests;
