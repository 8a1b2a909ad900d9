//! Tests of `batch_cli` with requests for memory refused, with writers and readers that fail, and with no job left. What
//! scripts print stands in `tests_batch_cli`.
#![tactic(auto)]

#[cfg(test)]
mod tests;
