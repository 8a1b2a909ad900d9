//! Keys that are made of others: arrays of bytes, and pairs and triples of keys.

use crate::{Path, PathKey};

/// The path word of an array of bytes is their FNV-1a hash; arrays are in the order of a dictionary.
impl<const N: usize> PathKey for [u8; N] {
    ghost use Rattle.hash_path.specs.Fnv.{fnv1a, fnv1a-below};
    ghost use Rattle.std.proofs.lemmas.Map.Lookups.{exact_bytes};

    ghost path_of = { fnv1a };

    ghost exact = { exact_bytes };

    ghost small = { fnv1a-below };

    fn path(&self) -> Path {
        Path::fnv1a(self)
    }
}

/// The path word of a pair is the FNV-1a hash of sixteen bytes: those of the first key's word and those of the second
/// key's, each little-endian. Pairs are in the order of their first keys, and then of their second ones.
impl<A: PathKey, B: PathKey> PathKey for (A, B) {
    ghost use Rattle.hash_path.specs.Compound.{pair_path, pair_path-below};
    ghost use Rattle.std.proofs.lemmas.Map.Lookups.{exact_pairs};

    ghost path_of = { λ pair. pair_path (A.path_of pair.0) (B.path_of pair.1) };

    ghost exact = { exact_pairs A.Ord.cmp B.Ord.cmp A.exact B.exact };

    ghost small = { λ pair. pair_path-below (A.path_of pair.0) (B.path_of pair.1) };

    fn path(&self) -> Path {
        let Path(first) = self.0.path();
        let Path(second) = self.1.path();
        Path::fnv1a([first.to_le_bytes(), second.to_le_bytes()].as_flattened())
    }
}

/// The path word of a triple is the FNV-1a hash of 24 bytes: those of the three keys' words, each little-endian. Triples
/// are in the order of their first keys, then of their second ones, and then of their third ones.
impl<A: PathKey, B: PathKey, C: PathKey> PathKey for (A, B, C) {
    ghost use Rattle.hash_path.specs.Compound.{exact_triples, triple_path, triple_path-below};

    ghost path_of = { λ triple. triple_path (A.path_of triple.0) (B.path_of triple.1) (C.path_of triple.2) };

    ghost exact = { exact_triples A.Ord.cmp B.Ord.cmp C.Ord.cmp A.exact B.exact C.exact };

    ghost small = { λ triple. triple_path-below (A.path_of triple.0) (B.path_of triple.1) (C.path_of triple.2) };

    fn path(&self) -> Path {
        let Path(first) = self.0.path();
        let Path(second) = self.1.path();
        let Path(third) = self.2.path();
        let words = [
            first.to_le_bytes(),
            second.to_le_bytes(),
            third.to_le_bytes(),
        ];
        Path::fnv1a(words.as_flattened())
    }
}
