//! Maps from groups to the items of their pairs combined.
ghost use Rattle.std.specs.Prelude.{◌≡◌, ◌+◌, ◌<◌, ◌≤◌, ◌∷◌, [], length, IfOk, OnErr, OnOk, Ok};
ghost use Rattle.std.specs.Option.{unwrap_or};
ghost use Rattle.bulk_ops.specs.Meanings.{MayAnswer};
ghost use Rattle.group_counts.specs.Sums.{IsCombined, with_item};
ghost use Rattle.versions.specs.Map.{value_at, with_pair};
ghost use Rattle.versions.specs.declared.version.TheConstants.{MOST_PAIRS};

use closure_ops::{answer_in, no_pairs};
use combiner::Monoid;
use hash_path::{Path, PathKey};
use iter::bunches_of_root;
use std::alloc::{AllocError, Global};
use std::sync::Arc;
use trie_node::{Always, NoMemory, Slots, walk_lists_map};
use versions::{Refusal, Version};

/// What the closure names as the group of a pair, or `NoMemory` where there is none for it.
pub(crate) fn group_at<K, V, S: Slots<K, V>, G: Drop, F: Fn(&K, &V) -> Result<G, AllocError>>(
    alloc: Global,
    call: &F,
    key: &S::Key,
    value: &S::Value,
) -> Result<Arc<G>, NoMemory>
    requires { F.IsAlwaysCallable call.now }
    ensures { IfOk result (λ group. MayAnswer F.Fn call.now (S.key_of key.now) (S.value_of value.now) (Ok group.value)) }
{
    let group = answer_in::<K, V, S, _, _>(call, key, value)?;
    let shared = Arc::new(alloc, group)?;
    Ok(shared)
}

/// Combines an item with those of its group. After `NoMemory` the map is as before.
pub(crate) fn add_item<G: PathKey + Drop, M: Monoid>(
    alloc: Global,
    monoid: &M,
    sums: &mut Version<G, M::Item>,
    group: Arc<G>,
    item: &M::Item,
) -> Result<(), NoMemory>
    requires { length sums.old.entries < sums.old.limit }
    ensures entries { OnOk result (sums.new.entries ≡ with_item (M.combine monoid.now) (M.unit_of monoid.now) G.cmp sums.old.entries group.value item.now) }
    ensures limit { sums.new.limit ≡ sums.old.limit }
    ensures err { OnErr result (sums.new ≡ sums.old) }
{
    let path = group.path();
    let next = next_item(monoid, sums, &group, path, item);
    let Ok(next) = Arc::new(alloc, next) else {
        drop(group);
        return Err(NoMemory);
    };
    put_sum(alloc, sums, group, path, next)
}

// Puts what a group's items come to, where the map has room for a group.
fn put_sum<G: PathKey + Drop, I: Drop>(
    alloc: Global,
    sums: &mut Version<G, I>,
    group: Arc<G>,
    path: Path,
    sum: Arc<I>,
) -> Result<(), NoMemory>
    requires room { length sums.old.entries < sums.old.limit }
    requires path { path.0 ≡ G.path_of group.value }
    ensures entries { OnOk result (sums.new.entries ≡ with_pair G.cmp sums.old.entries group.value sum.value) }
    ensures limit { sums.new.limit ≡ sums.old.limit }
    ensures err { OnErr result (sums.new ≡ sums.old) }
{
    match sums.put_where_along(alloc, group, path, sum, &Always) {
        Ok(_) => Ok(()),
        Err(Refusal::NoMemory) => Err(NoMemory),
        Err(_) => unreachable!(),
    }
}

// The item combined with those that its group has.
fn next_item<G: PathKey + Drop, M: Monoid>(
    monoid: &M,
    sums: &Version<G, M::Item>,
    group: &G,
    path: Path,
    item: &M::Item,
) -> M::Item
    requires { path.0 ≡ G.path_of group.now }
    ensures { result ≡ M.combine monoid.now item.now (unwrap_or (value_at G.cmp sums.now.entries group.now) (M.unit_of monoid.now)) }
{
    match sums.get_along(group, path) {
        Some(old) => monoid.op(item, old),
        None => monoid.op(item, &monoid.unit()),
    }
}

/// The map of one group, which has one item.
pub(crate) fn one_sum<G: PathKey + Drop, M: Monoid>(
    alloc: Global,
    monoid: &M,
    group: Arc<G>,
    item: &M::Item,
) -> Result<Version<G, M::Item>, NoMemory>
    ensures entries { IfOk result (λ sums. sums.entries ≡ (group.value, M.combine monoid.now item.now (M.unit_of monoid.now)) ∷ []) }
    ensures limit { IfOk result (λ sums. sums.limit ≡ MOST_PAIRS) }
{
    let mut sums = no_pairs(alloc)?;
    add_item(alloc, monoid, &mut sums, group, item)?;
    Ok(sums)
}

/// The items of both, combined where both have a group.
pub(crate) fn joined_sums<G: PathKey + Drop, M: Monoid>(
    alloc: Global,
    monoid: &M,
    first: &Version<G, M::Item>,
    second: &Version<G, M::Item>,
) -> Result<Version<G, M::Item>, NoMemory>
    requires limit { second.now.limit ≡ MOST_PAIRS }
    requires room { length first.now.entries + length second.now.entries ≤ MOST_PAIRS }
    ensures each { IfOk result (λ both. IsCombined (M.combine monoid.now) (M.unit_of monoid.now) G.cmp first.now.entries second.now.entries both.entries) }
    ensures limit { IfOk result (λ both. both.limit ≡ MOST_PAIRS) }
    ensures few { IfOk result (λ both. length both.entries ≤ length first.now.entries + length second.now.entries) }
{
    walk_lists_map::<G, M::Item>();
    // Called for its contract: its keys rise strictly.
    first.len();
    let mut both = another(second)?;
    for (group, item) in bunches_of_root(alloc, first.root()) {
        let Ok(()) = add_shared(alloc, monoid, &mut both, group, item) else {
            drop(both);
            return Err(NoMemory);
        };
    }
    Ok(both)
}

// Another handle on the same map.
fn another<G: PathKey + Drop, I: Drop>(map: &Version<G, I>) -> Result<Version<G, I>, NoMemory>
    ensures entries { IfOk result (λ same. same.entries ≡ map.now.entries) }
    ensures limit { IfOk result (λ same. same.limit ≡ map.now.limit) }
{
    map.len();
    let root = map.root().try_clone()?;
    Ok(Version::from_root(root, map.limit(), map.stamp()))
}

// Combines an item with those of its group, which it has another handle on.
fn add_shared<G: PathKey + Drop, M: Monoid>(
    alloc: Global,
    monoid: &M,
    sums: &mut Version<G, M::Item>,
    group: &Arc<G>,
    item: &Arc<M::Item>,
) -> Result<(), NoMemory>
    requires { length sums.old.entries < sums.old.limit }
    ensures entries { OnOk result (sums.new.entries ≡ with_item (M.combine monoid.now) (M.unit_of monoid.now) G.cmp sums.old.entries group.now.value item.now.value) }
    ensures limit { sums.new.limit ≡ sums.old.limit }
    ensures err { OnErr result (sums.new ≡ sums.old) }
{
    let group = Arc::try_clone(group)?;
    add_item(alloc, monoid, sums, group, item)
}
