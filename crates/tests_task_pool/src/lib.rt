//! Tests of `task_pool`: what crews answer, what their reports list, and that their threads work at one time.
#![tactic(auto)]

#[cfg(test)]
mod tests;
