//! Cuts of pieces.

ghost use Rattle.std.specs.Prelude.{◌≡◌, MatchResult};
ghost use Rattle.splitter.specs.Outcomes.{IsCut};

use crate::outcome::Cut;
use crate::piece::Piece;
use hash_path::PathKey;
use trie_node::Slots;

/// Cuts a piece at its cut point, where it has one. If memory runs out, the piece is returned as the error.
pub fn cut<K: PathKey, V, S: Slots<K, V>>(
    piece: Piece<K, V, S>,
    grain: u64,
) -> Result<Cut<K, V, S>, Piece<K, V, S>>
where
    S::Key: Drop,
    S::Value: Drop,
    ensures { MatchResult result (IsCut K.path_of piece grain) (λ back. back ≡ piece) }
{
    if piece.len() <= grain {
        return Ok(Cut::One(piece));
    }
    match piece.halves() {
        Ok(Some((lower, upper))) => {
            drop(piece);
            Ok(Cut::Two(lower, upper))
        }
        Ok(None) => Ok(Cut::One(piece)),
        Err(_) => Err(piece),
    }
}
