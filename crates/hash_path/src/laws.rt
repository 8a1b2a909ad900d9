//! Laws of words, digits and positions, for proofs about callers: each call does nothing, and its contract is the law.

ghost use Rattle.std.specs.Prelude.{◌≡◌, ℕ, ◌<◌, ◌^◌, List, []};
ghost use Rattle.hash_path.specs.Digits.{word_bits, fnv1a};
ghost use Rattle.hash_path.specs.Fnv.{offset_basis};
ghost use Rattle.hash_path.specs.Laws.{PositionIsBelow, PositionIsInjective, PositionIsOnto, PositionOrder, DigitOrder, DigitInterval, PrefixInterval, IntervalStep, WordOfSpelled, SpelledIsInjective, SpelledPrefix, SharedDigits};

/// Position is a bijection of the path words.
pub fn position_is_bijection()
    ensures below { PositionIsBelow }
    ensures injective { PositionIsInjective }
    ensures onto { PositionIsOnto }
{}

/// Positions are in the order of the words' digits, digit 0 first.
pub fn positions_follow_digits()
    ensures whole { PositionOrder }
    ensures at_level { DigitOrder }
{}

/// Words that share the digits below a level lie in one interval of positions, and no other words do.
pub fn shared_digits_are_interval()
    ensures interval { DigitInterval }
    ensures prefix { PrefixInterval }
    ensures step { IntervalStep }
{}

/// A word is determined by its digits.
pub fn digits_determine_word()
    ensures back { WordOfSpelled }
    ensures injective { SpelledIsInjective }
    ensures prefix { SpelledPrefix }
    ensures shared { SharedDigits }
{}

/// The hash of no bytes is the offset basis, and each hash is a path word.
pub fn fnv1a_is_word()
    ensures of_none { fnv1a [] ≡ offset_basis }
    ensures small { (bytes : List ℕ) → fnv1a bytes < 2 ^ word_bits }
{}
