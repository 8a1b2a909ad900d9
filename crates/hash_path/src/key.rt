ghost use Rattle.std.specs.Prelude.{◌≡◌, ℕ, ◌<◌, ◌^◌};
ghost use Rattle.std.specs.declared.cmp.Ordering.TheVariants.{Equal};
ghost use Rattle.hash_path.specs.Digits.{word_bits};

use crate::word::Path;

/// A key of a trie map: it has an order and a path word.
///
/// <!-- quoted from crates/example_keys/src/visit.rt -->
/// ```rust
/// fn path(&self) -> Path {
///     Path::fnv1a([self.page.to_le_bytes(), self.hour.to_le_bytes()].as_flattened())
/// }
/// ```
///
/// Keys that compare equal are one value to contracts, and so have one path word. A map that threads share calls `path`
/// and `cmp` under its locks, so they must not call the map.
pub trait PathKey: Ord {
    /// The number of the key's path word.
    ghost path_of: { Self → ℕ };

    /// The key's path word.
    fn path(&self) -> Path
        ensures { result.0 ≡ path_of self.now };

    /// Keys that compare equal are one value.
    ghost exact: { (a b : Self) → Self.Ord.cmp a b ≡ Equal → a ≡ b };

    /// Each path word is a number of its bits.
    ghost small: { (k : Self) → path_of k < 2 ^ word_bits };
}
