//! What may lie in a row.

ghost use Rattle.std.specs.Prelude.{◌≡◌, IfOk};
ghost use Rattle.slots.specs.Small.{IsHalf, IsQuarter, IsSmall};

use std::alloc::AllocError;

/// A key or value that may lie in a row: a word, a short text. A copy of a row makes another of each.
///
/// Each type of at most 64 bytes may say so itself:
///
/// <!-- quoted from crates/tests_trie_memory/src/tests/prices.rt -->
/// ```rust
/// impl Inline for Price {
///     ghost use Rattle.std.proofs.Common.{rules};
///
///     ghost small = { Prim.search rules };
///
///     fn another(&self) -> Result<Price, AllocError> {
///         Ok(*self)
///     }
/// }
/// ```
pub trait Inline {
    /// Another of the same value. It may be refused.
    fn another(&self) -> Result<Self, AllocError>
        ensures { IfOk result (λ twin. twin ≡ self.now) };

    /// It takes little room, 64 bytes at most, so that a row of nodes has a size.
    ghost small: { IsSmall Self.row };
}

/// What takes 32 bytes at most: a pair of these, and an option of one, may lie in a row.
///
/// <!-- quoted from crates/tests_trie_memory/src/tests/prices.rt -->
/// ```rust
/// impl Half for Price {
///     ghost use Rattle.std.proofs.Common.{rules};
///
///     ghost half = { Prim.search rules };
/// }
/// ```
pub trait Half: Inline {
    /// It takes 32 bytes at most.
    ghost half: { IsHalf Self.row };
}

/// What takes 16 bytes at most: up to four of these may lie in a row, and a pair or an option of these is a `Half`.
///
/// <!-- quoted from crates/tests_keys/src/tests/rows.rt -->
/// ```rust
/// assert_eq!(rt; twin(&(1u8, 2u64, 'x'))?, (1, 2, 'x'));
/// ```
pub trait Quarter: Half {
    /// It takes 16 bytes at most.
    ghost quarter: { IsQuarter Self.row };
}
