//! The entries of a journal as a seat keeps them, each with its place and the floor that the seat had.
#![tactic(auto)]

mod filed;

pub use filed::{Filed, file};
