ghost use Rattle.std.specs.Prelude.{◌≡◌, ◌<◌, ◌≤◌};
ghost use Rattle.hash_path.specs.Digits.{last_level, fan_out, digit, weight, position, fnv1a};
ghost use Rattle.hash_path.specs.Fnv.{fnv1a_with};

/// The number of a path word: its width is here and in the definitions, and every other width follows from these.
pub type Word = u64;

/// The number of a bound of an interval of positions: also of the one after the last position, which is no word.
pub type Bound = u128;

/// How many bits a path word has.
pub const WORD_BITS: u32 = Word::BITS;

/// How many bits a digit has. A word's last digit has the bits that are left.
pub const DIGIT_BITS: u32 = 5;

/// How many digits a path word has.
pub const WORD_DIGITS: u32 = (WORD_BITS + DIGIT_BITS - 1) / DIGIT_BITS;

/// How many digits there are at one level: a branch has at most that many children.
pub const FAN_OUT: u32 = 1 << DIGIT_BITS;

/// Where FNV-1a starts, and what each of its steps multiplies by.
const OFFSET_BASIS: Word = 0xcbf2_9ce4_8422_2325;

const PRIME: Word = 0x0000_0100_0000_01b3;

/// The path word of a key.
///
/// <!-- quoted from crates/hash_path/src/compound.rt -->
/// ```rust
/// let Path(first) = self.0.path();
/// let Path(second) = self.1.path();
/// Path::fnv1a([first.to_le_bytes(), second.to_le_bytes()].as_flattened())
/// ```
#[derive(Clone, Copy, Debug, PartialEq, Eq)]
pub struct Path(pub Word);

impl Path {
    /// The digit by which a branch at `level` picks its child, below the fan-out; the last has fewer bits. The levels
    /// are those of the word's digits, and the root is at level 0.
    ///
    /// After the hash trie of "Concurrent Tries with Efficient Non-Blocking Snapshots" (2012).
    ///
    /// Cost: O(1), no lock. Refused: never.
    pub fn digit(self, level: u32) -> u32
        requires { level ≤ last_level }
        ensures value { result ≡ digit self.0 level }
        ensures small { result < fan_out }
    {
        ((self.0 >> (DIGIT_BITS * level)) & Word::from(FAN_OUT - 1)) as u32
    }

    /// The word's place in the order of a walk: its digits, with digit 0 as the most significant. It is another number
    /// than the word.
    ///
    /// Cost: O(1), no lock. Refused: never.
    pub fn position(self) -> Word
        ensures { result ≡ position self.0 }
    {
        position_of(self.0)
    }

    /// The path word of a byte text: its FNV-1a hash, as Fowler, Noll and Vo publish it.
    ///
    /// Cost: O(k) for k bytes, no lock. Refused: never.
    pub fn fnv1a(bytes: &[u8]) -> Path
        ensures { result.0 ≡ fnv1a bytes.now }
    {
        let mut hash = OFFSET_BASIS;
        for byte in bytes {
            hash = with_byte(hash, *byte);
        }
        Path(hash)
    }
}

// The hash so far with one byte more.
fn with_byte(hash: Word, byte: u8) -> Word
    ensures { result ≡ fnv1a_with hash byte }
{
    (hash ^ Word::from(byte)).wrapping_mul(PRIME)
}

// The digits, each times what it counts. A number's range is known where it is passed by value, and not in a struct.
fn position_of(word: Word) -> Word
    ensures { result ≡ position word }
{
    let mut position = 0;
    for level in 0..WORD_DIGITS {
        position += Word::from(Path(word).digit(level)) * weight_at(level);
    }
    position
}

/// What a digit at a level counts in a position: how many positions share the digits up to the level.
pub fn weight_at(level: u32) -> Word
    requires { level ≤ last_level }
    ensures { result ≡ weight level }
{
    1 << WORD_BITS.saturating_sub(DIGIT_BITS * (level + 1))
}
