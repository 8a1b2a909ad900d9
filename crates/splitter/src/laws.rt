//! What is true of every cut, for proofs about callers: the call does nothing, and its contract is the law.

ghost use Rattle.splitter.specs.Laws.{CutsDivide, UncutIsSmall};

use hash_path::PathKey;
use hash_path::laws::{digits_determine_word, positions_follow_digits, shared_digits_are_interval};
use iter::intervals_tile;

/// A cut point divides its part in two pieces that tile it and have pairs; a part without one is small, or of one word.
pub fn law_of_cuts<K: PathKey, V>()
    ensures divide { CutsDivide V K.path_of }
    ensures small { UncutIsSmall V K.path_of }
{
    positions_follow_digits();
    shared_digits_are_interval();
    digits_determine_word();
    intervals_tile();
}
