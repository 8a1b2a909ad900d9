//! What scripts say, by hand.

mod parts;
mod questions;
mod replies;
mod verbs;
