//! Tests of `trie_map` with requests for memory refused, by keys that count, and by queries of their own. What its calls
//! answer by hand and by several threads stands in `tests_trie_map`.
#![tactic(auto)]

#[cfg(test)]
mod tests;
