//! With no memory, with a little, and so on.
mod memory;
