//! Tests of `batch_cli`: what scripts print, by one client and by several; what their journals have; statuses, and
//! words of a command line.
#![tactic(auto)]

#[cfg(test)]
mod tests;
