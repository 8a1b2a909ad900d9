//! Questions about all pairs of a view.
ghost use Rattle.std.specs.Prelude.{◌≡◌, ◌≤◌, Bool, IfOk, IfSome, length, option_map, true};
ghost use Rattle.std.specs.List.{list_all, list_any};
ghost use Rattle.bulk_work.specs.Answers.{items_of, passes, passing};
ghost use Rattle.bulk_ops.specs.Meanings.{MayAnswer, Means};
ghost use Rattle.map_view.specs.Questions.{pair_of};
ghost use Rattle.combiner.specs.Monoids.{folded};
ghost use Rattle.map_view.specs.Questions.{IsFound};

use crate::view::View;
use bulk_ops::law_of_folds;
use bulk_work::Pair;
use closure_ops::answer_in;
use combiner::Monoid;
use hash_path::PathKey;
use stripes::Keeps;
use trie_node::{NoMemory, Slots};

/// Each question walks the view on the caller's thread, in the order of `pairs`, and takes no lock. A test is a closure
/// on a pair, as `|key, lease| lease.port == 443`. What is promised is exact where the closure means something: where
/// it has one answer for each pair, which it promises itself. No request is made for memory.
impl<K: PathKey, V, P: Keeps<K, V>, S: Slots<K, V>> View<K, V, P, S>
where
    S::Key: Drop,
    S::Value: Drop,
{
    /// How many pairs pass the test.
    ///
    /// Cost: O(n), no lock. Refused: never.
    pub fn count<F: Fn(&K, &V) -> bool>(&self, test: F) -> u64
        requires callable { F.IsAlwaysCallable test }
        ensures count { (p : K → V → Bool) → Means (MayAnswer F.Fn test) p → result ≡ length (passing p self.now) }
        ensures few { result ≤ length self.now }
    {
        self.len();
        let mut count = 0u64;
        for (key, value) in self.bunched() {
            count += u64::from(answer_in::<K, V, S, _, _>(&test, key, value));
        }
        count
    }

    /// Whether some pair passes the test. The walk ends at the first that does.
    ///
    /// Cost: O(n) at most, no lock. Refused: never.
    pub fn exists<F: Fn(&K, &V) -> bool>(&self, test: F) -> bool
        requires callable { F.IsAlwaysCallable test }
        ensures { (p : K → V → Bool) → Means (MayAnswer F.Fn test) p → result ≡ list_any (passes p) self.now }
    {
        for (key, value) in self.bunched() {
            if answer_in::<K, V, S, _, _>(&test, key, value) {
                return true;
            }
        }
        false
    }

    /// Whether every pair passes the test. The walk ends at the first that does not.
    ///
    /// Cost: O(n) at most, no lock. Refused: never.
    pub fn for_all<F: Fn(&K, &V) -> bool>(&self, test: F) -> bool
        requires callable { F.IsAlwaysCallable test }
        ensures { (p : K → V → Bool) → Means (MayAnswer F.Fn test) p → result ≡ list_all (passes p) self.now }
    {
        for (key, value) in self.bunched() {
            if !answer_in::<K, V, S, _, _>(&test, key, value) {
                return false;
            }
        }
        true
    }

    /// A pair that passes the test, if there is one: the first on a walk. It keeps the rule.
    ///
    /// Cost: O(n) at most, no lock. Refused: `NoMemory`, where a handle on the pair cannot be cloned.
    pub fn find<F: Fn(&K, &V) -> bool>(&self, test: F) -> Result<Option<Pair<K, V, S>>, NoMemory>
        requires callable { F.IsAlwaysCallable test }
        ensures found { IfOk result (λ found. (p : K → V → Bool) → Means (MayAnswer F.Fn test) p → IsFound p self.now (option_map (pair_of S.key_of S.value_of) found)) }
        ensures kept { IfOk result (λ found. IfSome found (λ pair. P.holds (S.key_of pair.0) (S.value_of pair.1))) }
    {
        for (key, value) in self.bunched() {
            if answer_in::<K, V, S, _, _>(&test, key, value) {
                return Ok(Some(shared_pair::<K, V, S>(key, value)?));
            }
        }
        Ok(None)
    }

    /// The items of all pairs combined by the monoid, as by `Sum`, `Least` or `Greatest`.
    ///
    /// Cost: O(n), no lock. Refused: never.
    pub fn fold<M: Monoid, G: Fn(&K, &V) -> M::Item>(&self, monoid: &M, item: G) -> M::Item
        requires callable { G.IsAlwaysCallable item }
        ensures { (i : K → V → M.Item) → Means (MayAnswer G.Fn item) i → result ≡ folded (M.combine monoid.now) (M.unit_of monoid.now) (items_of i self.now) }
    {
        law_of_folds::<K, V, M>();
        let mut all = monoid.unit();
        for (key, value) in self.bunched() {
            all = monoid.op(&answer_in::<K, V, S, _, _>(&item, key, value), &all);
        }
        all
    }
}

// Other handles on the key and the value.
fn shared_pair<K, V, S: Slots<K, V>>(
    key: &S::Key,
    value: &S::Value,
) -> Result<Pair<K, V, S>, NoMemory>
where
    S::Key: Drop,
    S::Value: Drop,
    ensures { IfOk result (λ pair. pair_of S.key_of S.value_of pair ≡ (S.key_of key.now, S.value_of value.now)) }
{
    Ok((S::another_key(key)?, S::another_value(value)?))
}
