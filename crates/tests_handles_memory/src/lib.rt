//! Tests of `handles` with requests for memory refused, and of what its laws show of calls. What calls of a table are
//! answered stands in `tests_handles`.
#![tactic(auto)]

#[cfg(test)]
mod tests;
