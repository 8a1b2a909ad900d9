//! Tests of `handles`: what calls of a table are answered, what its jobs record and reserve, and what is foreseen.
#![tactic(auto)]

#[cfg(test)]
mod tests;
