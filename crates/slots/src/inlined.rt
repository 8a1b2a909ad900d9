//! Which types of the language may lie in a row.

mod arrays;
mod options;
mod plain;
mod signed;
mod tuples;
mod unsigned;
