//! Digits of a bitmap, and of a position.

ghost use Rattle.std.specs.Prelude.{◌≡◌, ◌<◌, ◌≤◌, ◌^◌, ℕ, drop, length, get_or, take};
ghost use Rattle.hash_path.specs.Digits.{digit, digits_after, fan_out, last_level, lowest, word_bits};
ghost use Rattle.trie_shape.specs.Tree.{digits_from, digits_of};

use hash_path::laws::shared_digits_are_interval;
use hash_path::{FAN_OUT, Word, weight_at};

/// The digit of a number among those of a bitmap, counted from 0 in rising order.
pub(crate) fn nth_digit(bitmap: u32, n: u32) -> u32
    requires { n < length (digits_of bitmap) }
    ensures { result ≡ get_or (digits_of bitmap) n 0 }
{
    let mut rest = bitmap;
    let mut left = n;
    for digit in 0..FAN_OUT {
        if rest % 2 == 1 {
            if left == 0 {
                return digit;
            }
            left -= 1;
        }
        rest /= 2;
    }
    unreachable!()
}

/// The bitmap of some digits of a bitmap: those from one number on and below another, counted from 0 in rising order.
pub(crate) fn digits_between(bitmap: u32, from: u32, to: u32) -> u32
    ensures few { result ≤ bitmap }
    ensures digits { (count first : ℕ) → digits_from count first result ≡ drop from (take to (digits_from count first bitmap)) }
{
    if to == 0 || bitmap == 0 {
        return 0;
    }
    if bitmap % 2 == 0 {
        return 2 * digits_between(bitmap / 2, from, to);
    }
    if from > 0 {
        return 2 * digits_between(bitmap / 2, from - 1, to - 1);
    }
    2 * digits_between(bitmap / 2, 0, to - 1) + 1
}

/// The digit at a level of the words that share their digits above a lower level, from the least position with these
/// digits.
pub(crate) fn shared_digit(base: Word, level: u32) -> u32
    requires { level < last_level }
    ensures small { result < fan_out }
    ensures digit { (word deep : ℕ) → word < 2 ^ word_bits → level < deep → deep ≤ last_level → lowest (digits_after 0 deep word) ≡ base → digit word level ≡ result }
{
    shared_digits_are_interval();
    (base / weight_at(level) % Word::from(FAN_OUT)) as u32
}
