ghost use Rattle.std.specs.Prelude.{◌≡◌, ◌%◌, ◌^◌};
ghost use Rattle.hash_path.specs.Widths.{word_bits};

use hash_path::{Path, PathKey, Word};

/// A key whose path word is chosen. Keys are in the order of (path, id).
#[derive(Clone, Copy, Debug, PartialEq, Eq, PartialOrd, Ord)]
pub struct ChosenKey {
    /// The number of the path word.
    pub path: Word,
    /// Tells keys of one path word apart.
    pub id: u32,
}

impl PathKey for ChosenKey {
    ghost use Rattle.test_keys.specs.Laws.{chosen-exact, chosen-small};

    ghost path_of = { λ k. k.path % 2 ^ word_bits };

    ghost exact = { chosen-exact };

    ghost small = { chosen-small };

    fn path(&self) -> Path {
        chosen_word(self.path)
    }
}

// The range of a number is known where it is passed by value, and not behind a `&self`.
fn chosen_word(number: Word) -> Path
    ensures { result.0 ≡ number % 2 ^ word_bits }
{
    Path(number)
}
