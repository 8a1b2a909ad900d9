//! The cut of a piece.
ghost use Rattle.std.specs.Prelude.{◌≡◌, MatchResult};
ghost use Rattle.splitter.specs.Outcomes.{IsCut};

use hash_path::PathKey;
use splitter::{Cut, Piece, cut};

/// Cuts a piece at its cut point, where it has one.
pub fn halves<K: PathKey + Drop, V: Drop>(
    piece: Piece<K, V>,
    grain: u64,
) -> Result<Cut<K, V>, Piece<K, V>>
    ensures { MatchResult result (IsCut K.path_of piece grain) (λ back. back ≡ piece) }
{
    cut(piece, grain)
}
