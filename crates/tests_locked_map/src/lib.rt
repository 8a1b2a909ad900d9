//! Tests of `locked_map`: what calls of seats return and file, how seats meet, what tickets do, what calls of several
//! threads return at once, and when a map closes.
#![tactic(auto)]

#[cfg(test)]
mod tests;
