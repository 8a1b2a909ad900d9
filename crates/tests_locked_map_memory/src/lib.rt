//! Tests of `locked_map` with requests for memory refused, and of when the values of a map that is dropped are dropped.
//! What calls of seats return otherwise stands in `tests_locked_map`.
#![tactic(auto)]

#[cfg(test)]
mod tests;
