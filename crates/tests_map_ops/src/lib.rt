//! Tests of `generation`, `versions` and `map_ops`: what maps of a few pairs answer, by hand, and many calls beside
//! plain sorted lists.
#![tactic(auto)]

#[cfg(test)]
mod tests;
