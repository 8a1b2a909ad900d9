//! Tests of `core_steps` through its public surface alone: worked steps of a board and of a core, each public call, and
//! many random lists of steps beside a plain program of the machine and of the boards.
#![tactic(auto)]

#[cfg(test)]
mod choices;
#[cfg(test)]
mod machine;
#[cfg(test)]
mod maps;
#[cfg(test)]
mod tests;
#[cfg(test)]
mod worker_states;
