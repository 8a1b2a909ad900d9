//! The nodes of a map, or of a piece of a view, as plain values.

use splitter::Piece;
use std::alloc::{AllocError, Global};
use test_keys::ChosenKey;
use test_roots::{Outline, outline_of};
use trie_node::NoMemory;
use versions::Version;

/// The nodes and pairs of a map.
pub fn outline_of_map<V: Copy + Drop>(
    alloc: Global,
    map: &Version<ChosenKey, V>,
) -> Result<Outline<V>, AllocError> {
    outline_of(alloc, map.root())
}

/// The nodes and pairs of the piece's own root.
pub fn outline_of_piece<V: Copy + Drop>(
    alloc: Global,
    piece: &Piece<ChosenKey, V>,
) -> Result<Outline<V>, NoMemory> {
    let root = piece.root()?;
    Ok(outline_of(alloc, &root)?)
}
