//! Tests of `map_reader`: what readers return beside writers, and how often they have a new base.
#![tactic(auto)]

#[cfg(test)]
mod tests;
