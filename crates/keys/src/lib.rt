//! Keys of a trie map that a user takes as they are.
//!
//! `ByteText` is a key of any bytes, looked up by a `&ByteText`, a `&[u8]` or a `&str`. Its path word is the FNV-1a hash
//! of its bytes. Integers, arrays of bytes and pairs of keys are keys themselves: `hash_path` has their impls, since a
//! crate may give a foreign trait to its own types alone.
#![tactic(auto)]

mod inlined;
mod short;
mod sought;
mod text;

pub use short::MOST_IN_PLACE;
pub use text::ByteText;
