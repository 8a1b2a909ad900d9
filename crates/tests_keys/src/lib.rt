//! Tests of `hash_path`, `keys`, `seeded_keys`, `key_parts` and `slots`: published hashes and those of other programs, what
//! a key is looked up by, and what lies in a trie's rows.
#![tactic(auto)]

#[cfg(test)]
mod tests;
