//! Laws of intervals and of the parts of a map by intervals, for proofs about callers: each call does
//! nothing, and its contract is the law.

ghost use Rattle.std.specs.Prelude.{◌≡◌, ◌+◌, ◌<◌, ◌≤◌, ℕ, List, [], ◌∷◌, ◌++◌, cond, nat_lt, None};
ghost use Rattle.hash_path.specs.Digits.{position};
ghost use Rattle.trie_shape.specs.Map.{Map, IsMap, ShareNoKey, union, value_at};
ghost use Rattle.iter.specs.declared.interval.Interval.{Interval};
ghost use Rattle.iter.specs.Intervals.{whole, cover, AreApart, Tile, part, parts};

use hash_path::PathKey;
use hash_path::laws::position_is_bijection;
use trie_node::union_of_maps;

/// An interval is tiled by what lies below a position within it and what lies from there on; and
/// intervals of two lists cover a position as often as both lists do.
pub fn intervals_tile()
    ensures cut { (i : Interval) (mid : ℕ) → i.lo ≤ mid → mid ≤ i.hi → Tile (record { lo = i.lo; hi = mid } ∷ record { lo = mid; hi = i.hi } ∷ []) i }
    ensures added { (is js : List Interval) (p : ℕ) → cover (is ++ js) p ≡ cover is p + cover js p }
{}

/// The parts of a map by intervals: what each has at a key, that those of apart lists share no key,
/// that those of two lists together are the union, and that those of intervals that tile all
/// positions are the map.
pub fn parts_follow_intervals<K: PathKey, V>()
    ensures one { (m : Map K V) (i : Interval) → part K.path_of m i ≡ parts K.path_of m (i ∷ []) }
    ensures value { (m : Map K V) (is : List Interval) (k : K) → value_at K.cmp (parts K.path_of m is) k ≡ cond (nat_lt 0 (cover is (position (K.path_of k)))) (value_at K.cmp m k) None }
    ensures map { (m : Map K V) (is : List Interval) → IsMap K.cmp m → IsMap K.cmp (parts K.path_of m is) }
    ensures cover { (m : Map K V) (is js : List Interval) → ((p : ℕ) → cover is p ≡ cover js p) → parts K.path_of m is ≡ parts K.path_of m js }
    ensures apart { (m : Map K V) (is js : List Interval) → AreApart (is ++ js) → ShareNoKey K.cmp (parts K.path_of m is) (parts K.path_of m js) }
    ensures union { (m : Map K V) (is js : List Interval) → IsMap K.cmp m → parts K.path_of m (is ++ js) ≡ union K.cmp (parts K.path_of m is) (parts K.path_of m js) }
    ensures whole { (m : Map K V) (is : List Interval) → Tile is whole → parts K.path_of m is ≡ m }
{
    position_is_bijection();
    union_of_maps::<K, V>();
}
