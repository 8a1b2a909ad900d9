//! Laws of answers. Their functions do nothing: each contract is the law.
ghost use Rattle.std.specs.Prelude.{◌≡◌, List, IsPermutation};
ghost use Rattle.bulk_work.specs.Answers.{items_of};
ghost use Rattle.combiner.specs.Monoids.{folded};
ghost use Rattle.versions.specs.Map.{Map};

use combiner::Monoid;

/// A fold over any listing of a map, each pair once, is the fold over the map's own.
pub fn law_of_folds<K, V, M: Monoid>()
    ensures { (monoid : M) (item : K → V → M.Item) (m : Map K V) (listing : List (K × V)) → IsPermutation m listing → folded (M.combine monoid) (M.unit_of monoid) (items_of item listing) ≡ folded (M.combine monoid) (M.unit_of monoid) (items_of item m) }
{}
