//! Tests of the crates of the trie with requests for memory refused, at sizes where a limit could hide, and of what takes a
//! proof of the test's own. What writes and questions return stands in `tests_trie`.
#![tactic(auto)]

#[cfg(test)]
mod tests;
