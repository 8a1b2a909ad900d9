//! The integers as keys, in their own order. The path word of one is the FNV-1a hash of its bytes, little-endian; `usize`
//! and `isize` have eight.

// Each impl is written out: `rt ci` refuses those that a macro of the repository writes.

use crate::{Path, PathKey};

impl PathKey for u8 {
    ghost use Rattle.hash_path.specs.Integers.{bytes_path, bytes_path-below};
    ghost use Rattle.std.proofs.lemmas.Map.Lookups.{exact_unsigned};
    ghost use Rattle.std.specs.Int.{w8};

    ghost path_of = { bytes_path w8 };

    ghost exact = { exact_unsigned };

    ghost small = { bytes_path-below w8 };

    fn path(&self) -> Path {
        Path::fnv1a(&self.to_le_bytes())
    }
}

impl PathKey for u16 {
    ghost use Rattle.hash_path.specs.Integers.{bytes_path, bytes_path-below};
    ghost use Rattle.std.proofs.lemmas.Map.Lookups.{exact_unsigned};
    ghost use Rattle.std.specs.Int.{w16};

    ghost path_of = { bytes_path w16 };

    ghost exact = { exact_unsigned };

    ghost small = { bytes_path-below w16 };

    fn path(&self) -> Path {
        Path::fnv1a(&self.to_le_bytes())
    }
}

impl PathKey for u32 {
    ghost use Rattle.hash_path.specs.Integers.{bytes_path, bytes_path-below};
    ghost use Rattle.std.proofs.lemmas.Map.Lookups.{exact_unsigned};
    ghost use Rattle.std.specs.Int.{w32};

    ghost path_of = { bytes_path w32 };

    ghost exact = { exact_unsigned };

    ghost small = { bytes_path-below w32 };

    fn path(&self) -> Path {
        Path::fnv1a(&self.to_le_bytes())
    }
}

impl PathKey for u64 {
    ghost use Rattle.hash_path.specs.Integers.{bytes_path, bytes_path-below};
    ghost use Rattle.std.proofs.lemmas.Map.Lookups.{exact_unsigned};
    ghost use Rattle.std.specs.Int.{w64};

    ghost path_of = { bytes_path w64 };

    ghost exact = { exact_unsigned };

    ghost small = { bytes_path-below w64 };

    fn path(&self) -> Path {
        Path::fnv1a(&self.to_le_bytes())
    }
}

impl PathKey for u128 {
    ghost use Rattle.hash_path.specs.Integers.{bytes_path, bytes_path-below};
    ghost use Rattle.std.proofs.lemmas.Map.Lookups.{exact_unsigned};
    ghost use Rattle.std.specs.Int.{w128};

    ghost path_of = { bytes_path w128 };

    ghost exact = { exact_unsigned };

    ghost small = { bytes_path-below w128 };

    fn path(&self) -> Path {
        Path::fnv1a(&self.to_le_bytes())
    }
}

impl PathKey for usize {
    ghost use Rattle.hash_path.specs.Integers.{bytes_path, bytes_path-below};
    ghost use Rattle.std.proofs.lemmas.Map.Lookups.{exact_unsigned};
    ghost use Rattle.std.specs.Int.{w64};

    ghost path_of = { bytes_path w64 };

    ghost exact = { exact_unsigned };

    ghost small = { bytes_path-below w64 };

    fn path(&self) -> Path {
        Path::fnv1a(&self.to_le_bytes())
    }
}

impl PathKey for i8 {
    ghost use Rattle.hash_path.specs.Integers.{signed_bytes_path, signed_bytes_path-below};
    ghost use Rattle.std.proofs.lemmas.Map.Lookups.{exact_signed};
    ghost use Rattle.std.specs.Int.{w8};

    ghost path_of = { signed_bytes_path w8 };

    ghost exact = { exact_signed };

    ghost small = { signed_bytes_path-below w8 };

    fn path(&self) -> Path {
        Path::fnv1a(&self.to_le_bytes())
    }
}

impl PathKey for i16 {
    ghost use Rattle.hash_path.specs.Integers.{signed_bytes_path, signed_bytes_path-below};
    ghost use Rattle.std.proofs.lemmas.Map.Lookups.{exact_signed};
    ghost use Rattle.std.specs.Int.{w16};

    ghost path_of = { signed_bytes_path w16 };

    ghost exact = { exact_signed };

    ghost small = { signed_bytes_path-below w16 };

    fn path(&self) -> Path {
        Path::fnv1a(&self.to_le_bytes())
    }
}

impl PathKey for i32 {
    ghost use Rattle.hash_path.specs.Integers.{signed_bytes_path, signed_bytes_path-below};
    ghost use Rattle.std.proofs.lemmas.Map.Lookups.{exact_signed};
    ghost use Rattle.std.specs.Int.{w32};

    ghost path_of = { signed_bytes_path w32 };

    ghost exact = { exact_signed };

    ghost small = { signed_bytes_path-below w32 };

    fn path(&self) -> Path {
        Path::fnv1a(&self.to_le_bytes())
    }
}

impl PathKey for i64 {
    ghost use Rattle.hash_path.specs.Integers.{signed_bytes_path, signed_bytes_path-below};
    ghost use Rattle.std.proofs.lemmas.Map.Lookups.{exact_signed};
    ghost use Rattle.std.specs.Int.{w64};

    ghost path_of = { signed_bytes_path w64 };

    ghost exact = { exact_signed };

    ghost small = { signed_bytes_path-below w64 };

    fn path(&self) -> Path {
        Path::fnv1a(&self.to_le_bytes())
    }
}

impl PathKey for i128 {
    ghost use Rattle.hash_path.specs.Integers.{signed_bytes_path, signed_bytes_path-below};
    ghost use Rattle.std.proofs.lemmas.Map.Lookups.{exact_signed};
    ghost use Rattle.std.specs.Int.{w128};

    ghost path_of = { signed_bytes_path w128 };

    ghost exact = { exact_signed };

    ghost small = { signed_bytes_path-below w128 };

    fn path(&self) -> Path {
        Path::fnv1a(&self.to_le_bytes())
    }
}

impl PathKey for isize {
    ghost use Rattle.hash_path.specs.Integers.{signed_bytes_path, signed_bytes_path-below};
    ghost use Rattle.std.proofs.lemmas.Map.Lookups.{exact_signed};
    ghost use Rattle.std.specs.Int.{w64};

    ghost path_of = { signed_bytes_path w64 };

    ghost exact = { exact_signed };

    ghost small = { signed_bytes_path-below w64 };

    fn path(&self) -> Path {
        Path::fnv1a(&self.to_le_bytes())
    }
}
