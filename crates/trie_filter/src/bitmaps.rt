//! Digits of a bitmap, one after another.
ghost use Rattle.std.specs.Prelude.{◌≡◌, ◌<◌, ◌*◌, ◌%◌, ◌^◌, ◌∷◌, bit_and};
ghost use Rattle.std.specs.Int.{bit_not, w32};
ghost use Rattle.hash_path.specs.Digits.{fan_out};
ghost use Rattle.trie_shape.specs.Tree.{digits_of};

/// The lowest digit of a bitmap that has one.
pub(crate) fn lowest_digit(bitmap: u32) -> u32
    requires { 0 < bitmap }
    ensures small { result < fan_out }
    ensures first { digits_of bitmap ≡ result ∷ digits_of (bit_and bitmap (bit_not w32 (1 * 2 ^ result % 2 ^ 32))) }
{
    bitmap.trailing_zeros()
}
