//! Tests of `generation`, `versions` and `map_ops` with requests for memory refused, and of what laws and roots show. What
//! maps answer stands in `tests_map_ops`.
#![tactic(auto)]

#[cfg(test)]
mod tests;
