//! Tests of the crates of the trie, over keys whose path words are chosen: worked shapes and stamps, long random runs
//! against an ordered map, and the roots of several maps; and by roots of versions look-ups of lists of keys, maps with
//! new values, and maps of the pairs that pass.
#![tactic(auto)]

#[cfg(test)]
mod tests;
