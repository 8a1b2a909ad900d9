//! Tests of `core_steps` with requests for memory refused, what its laws show, and a client that knows it by its contracts
//! alone. What a core returns stands in `tests_core_steps`.
#![tactic(auto)]

#[cfg(test)]
mod client;
#[cfg(test)]
mod tests;
