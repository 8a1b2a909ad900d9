//! One map of one owner, for programs that are not in Rattle. Keys are texts of any bytes. Values are numbers of 64 bits,
//! or texts of any bytes.
//!
//! Each call takes what C can pass, and returns a number or a plain struct that C can read. What a call does is a command
//! of the table of commands (`versions`' `specs/Commands.antt`). `tambyulo_c` exports the calls under C names.
#![tactic(auto)]

mod answer;
mod commands;
mod map;
pub mod numbers;
mod page;
mod prefix;
mod shown;
pub mod texts;

pub use answer::{Answer, Page};
pub use map::{Map, maps_are_send};
