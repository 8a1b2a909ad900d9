//! A pair that passes.
ghost use Rattle.std.specs.Prelude.{◌≡◌, ◌==◌, Bool, IfOk, None, Option, Some, cond, is_some, length, option_map};
ghost use Rattle.std.specs.List.{list_all, list_any};
ghost use Rattle.std.specs.Option.{option_or};
ghost use Rattle.bulk_work.specs.Answers.{passes, passing};
ghost use Rattle.map_view.specs.Questions.{pair_of};
ghost use Rattle.map_view.specs.Questions.{IsFound};
ghost use Rattle.versions.specs.Map.{Map};

use bulk_work::Pair;
use closure_ops::answer_in;
use combiner::BulkIn;
use hash_path::PathKey;
use std::alloc::Global;
use trie_node::{KeySlots, NoMemory, Node, Slots, ValueSlots};

/// A pair that passes a test, if there is one. It makes no request for memory, and is never settled before all pairs
/// are walked: a closure with no meaning would make that wrong. The test is not called any more by a worker that has
/// found a pair.
#[derive(Drop)]
pub struct Finds<F> {
    /// The test, a closure on a pair.
    pub test: F,
}

impl<
    K: PathKey,
    V,
    S: Slots<K, V> + KeySlots<K, Key = A> + ValueSlots<V, Value = B>,
    A: Drop,
    B: Drop,
    F: Fn(&K, &V) -> bool,
> BulkIn<K, V, S> for Finds<F> {
    type Part = Option<Pair<K, V, S>>;

    ghost use Rattle.std.specs.Prelude.{option_map};
    ghost use Rattle.map_view.specs.Questions.{pair_of};
    ghost use Rattle.bulk_ops.specs.Meanings.{MayAnswer};
    ghost use Rattle.map_view.specs.Questions.{IsFoundBy};

    ghost answers = { λ finds m found. IsFoundBy (MayAnswer F.Fn finds.test) m (option_map (pair_of S.key_of S.value_of) found) };

    ghost decides = { λ finds m. ⊥ };

    ghost ready = { λ finds. F.IsAlwaysCallable finds.test };

    fn unit(&self, _alloc: Global) -> Result<Option<Pair<K, V, S>>, NoMemory> {
        Ok(None)
    }

    fn one(&self, _alloc: Global, key: &A, value: &B) -> Result<Option<Pair<K, V, S>>, NoMemory> {
        let passes = answer_in::<K, V, S, _, _>(&self.test, key, value);
        let found = found_if::<K, V, S>(passes, key, value)?;
        Ok(found)
    }

    fn join(
        &self,
        _alloc: Global,
        a: &Option<Pair<K, V, S>>,
        b: &Option<Pair<K, V, S>>,
    ) -> Result<Option<Pair<K, V, S>>, NoMemory> {
        let found = first_of::<K, V, S>(a, b)?;
        Ok(found)
    }

    fn settled(&self, _part: &Option<Pair<K, V, S>>) -> bool {
        false
    }

    fn add(
        &self,
        _alloc: Global,
        part: &mut Option<Pair<K, V, S>>,
        key: &A,
        value: &B,
    ) -> Result<(), NoMemory> {
        match part {
            Some(_) => Ok(()),
            None => {
                let passes = answer_in::<K, V, S, _, _>(&self.test, key, value);
                *part = found_if::<K, V, S>(passes, key, value)?;
                Ok(())
            }
        }
    }

    fn of_root(
        &self,
        _alloc: Global,
        _root: &Node<K, V, S>,
    ) -> Result<Option<Option<Pair<K, V, S>>>, NoMemory> {
        Ok(None)
    }

    fn join_root(
        &self,
        _alloc: Global,
        part: Option<Pair<K, V, S>>,
        _root: &Node<K, V, S>,
    ) -> Result<Result<Option<Pair<K, V, S>>, Option<Pair<K, V, S>>>, NoMemory> {
        Ok(Err(part))
    }
}

// Other handles on the key and the value.
fn shared_pair<K, V, S: Slots<K, V>>(
    key: &S::Key,
    value: &S::Value,
) -> Result<Pair<K, V, S>, NoMemory>
where
    S::Key: Drop,
    S::Value: Drop,
    ensures { IfOk result (λ pair. pair_of S.key_of S.value_of pair ≡ (S.key_of key.now, S.value_of value.now)) }
{
    Ok((S::another_key(key)?, S::another_value(value)?))
}

// Other handles on the key and the value, if the pair passes.
fn found_if<K, V, S: Slots<K, V>>(
    passes: bool,
    key: &S::Key,
    value: &S::Value,
) -> Result<Option<Pair<K, V, S>>, NoMemory>
where
    S::Key: Drop,
    S::Value: Drop,
    ensures { IfOk result (λ found. option_map (pair_of S.key_of S.value_of) found ≡ cond passes (Some (S.key_of key.now, S.value_of value.now)) None) }
{
    if passes {
        Ok(Some(shared_pair::<K, V, S>(key, value)?))
    } else {
        Ok(None)
    }
}

// Other handles on the first pair, or where there is none on the second.
fn first_of<K, V, S: Slots<K, V>>(
    a: &Option<Pair<K, V, S>>,
    b: &Option<Pair<K, V, S>>,
) -> Result<Option<Pair<K, V, S>>, NoMemory>
where
    S::Key: Drop,
    S::Value: Drop,
    ensures { IfOk result (λ c. option_map (pair_of S.key_of S.value_of) c ≡ option_or (option_map (pair_of S.key_of S.value_of) a.now) (option_map (pair_of S.key_of S.value_of) b.now)) }
{
    match a {
        Some((key, value)) => Ok(Some(shared_pair::<K, V, S>(key, value)?)),
        None => match b {
            Some((key, value)) => Ok(Some(shared_pair::<K, V, S>(key, value)?)),
            None => Ok(None),
        },
    }
}

/// A pair is found exactly where some pair passes. It is a law, and does nothing.
pub(crate) fn pair_is_there<K, V>()
    ensures { (p : K → V → Bool) (m : Map K V) (found : Option (K × V)) → IsFound p m found → is_some found ≡ list_any (passes p) m }
{}

/// As many pairs pass as there are exactly where all do. It is a law, and does nothing.
pub(crate) fn pairs_are_all<K, V>()
    ensures { (p : K → V → Bool) (m : Map K V) → (length (passing p m) == length m) ≡ list_all (passes p) m }
{}
