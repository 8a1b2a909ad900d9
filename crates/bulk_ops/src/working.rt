//! How queries are worked: a query is an operation on whole maps.
ghost use Rattle.std.specs.Prelude.{◌≡◌, IfOk, OnErr, OnOk, option_map};
ghost use Rattle.std.specs.Option.{option_or};
ghost use Rattle.bulk_work.specs.Pairs.{pair_of};
ghost use Rattle.bulk_ops.specs.Parts.{HasImages};
ghost use Rattle.bulk_ops.specs.Queries.{IsReady, MakesMap, PartAnswers, is_settled};
ghost use Rattle.combiner.specs.Bulks.{CanAdd, CanJoin, IsAdded, IsJoined};
ghost use Rattle.versions.specs.Map.{Map};

use crate::closure::{ImageFn, PairFn};
use crate::imaging::{images_of, joined_images, more_images, no_images};
use crate::part::{Part, no_pairs, replace};
use crate::query::Query;
use crate::shaping::{changed, passed};
use bulk_work::Pair;
use combiner::{Bulk, Monoid, merge};
use hash_path::PathKey;
use std::alloc::Global;
use std::sync::Arc;
use trie_node::{NoMemory, Node};
use versions::Version;

impl<
    K: PathKey + Drop,
    V: Drop,
    T: PairFn<K, V, bool>,
    F: PairFn<K, V, V>,
    M: Monoid,
    G: PairFn<K, V, M::Item>,
    P: ImageFn<K, V>,
> Bulk<K, V> for Query<K, V, T, F, M, G, P> {
    type Part = Part<K, V, M::Item>;

    ghost use Rattle.bulk_ops.specs.Queries.{DecidesQuery, IsReady, PartAnswers};

    ghost answers = { λ q m part. PartAnswers M.combine M.unit_of K.cmp q m part };

    ghost decides = { λ q m. DecidesQuery M.combine M.unit_of q m };

    ghost ready = { λ q. IsReady q };

    fn unit(&self, alloc: Global) -> Result<Part<K, V, M::Item>, NoMemory> {
        Ok(match self {
            Query::Count(_) => Part::Number(0),
            Query::Exists(_) => Part::Truth(false),
            Query::ForAll(_) => Part::Truth(true),
            Query::Find(_) => Part::Found(None),
            Query::Filter(_, _) => Part::Made(no_pairs(alloc)?),
            Query::MapValues(_, _) => Part::Made(no_pairs(alloc)?),
            Query::MapPairs(_, _) => {
                let (map, view) = no_images(alloc)?;
                Part::Images(map, view)
            }
            Query::Fold(monoid, _) => Part::Item(monoid.unit()),
        })
    }

    fn one(
        &self,
        alloc: Global,
        key: &Arc<K>,
        value: &Arc<V>,
    ) -> Result<Part<K, V, M::Item>, NoMemory> {
        let mut part = self.unit(alloc)?;
        let Ok(()) = self.add(alloc, &mut part, key, value) else {
            drop(part);
            return Err(NoMemory);
        };
        Ok(part)
    }

    fn join(
        &self,
        alloc: Global,
        a: &Part<K, V, M::Item>,
        b: &Part<K, V, M::Item>,
    ) -> Result<Part<K, V, M::Item>, NoMemory> {
        match self {
            Query::Count(_) => {
                let (first, second) = (a.number(), b.number());
                Ok(Part::Number(first + second))
            }
            Query::Exists(_) => {
                let (first, second) = (a.truth(), b.truth());
                Ok(Part::Truth(first || second))
            }
            Query::ForAll(_) => {
                let (first, second) = (a.truth(), b.truth());
                Ok(Part::Truth(first && second))
            }
            Query::Find(_) => Ok(Part::Found(first_of(a.found(), b.found())?)),
            Query::Filter(_, _) => Ok(Part::Made(merge(alloc, a.map(), b.map())?)),
            Query::MapValues(_, _) => Ok(Part::Made(merge(alloc, a.map(), b.map())?)),
            Query::MapPairs(_, _) => {
                let (left, right) = (a.images(), b.images());
                let (map, view) = joined_images(alloc, left.0, right.0)?;
                Ok(Part::Images(map, view))
            }
            Query::Fold(monoid, _) => Ok(Part::Item(monoid.op(a.item(), b.item()))),
        }
    }

    fn settled(&self, part: &Part<K, V, M::Item>) -> bool {
        is_settled(self, part)
    }

    fn add(
        &self,
        alloc: Global,
        part: &mut Part<K, V, M::Item>,
        key: &Arc<K>,
        value: &Arc<V>,
    ) -> Result<(), NoMemory> {
        match self {
            Query::Count(test) => {
                let next = Part::Number(u64::from(test.at(key, value)) + part.number());
                replace(part, next);
                Ok(())
            }
            Query::Exists(test) => {
                let next = Part::Truth(test.at(key, value) | part.truth());
                replace(part, next);
                Ok(())
            }
            Query::ForAll(test) => {
                let next = Part::Truth(test.at(key, value) & part.truth());
                replace(part, next);
                Ok(())
            }
            Query::Find(test) => {
                if test.at(key, value) {
                    replace(part, Part::Found(Some(copy_of(key, value)?)));
                }
                Ok(())
            }
            Query::Fold(monoid, item) => {
                let one = item.at(key, value);
                let folded = monoid.op(&one, part.item());
                drop(one);
                replace(part, Part::Item(folded));
                Ok(())
            }
            _ => add_to_map(alloc, self, part, key, value),
        }
    }

    fn by_shape(&self) -> bool {
        matches!(
            self,
            Query::Filter(_, _) | Query::MapValues(_, _) | Query::MapPairs(_, _)
        )
    }

    fn of_root(
        &self,
        alloc: Global,
        root: &Node<K, V>,
    ) -> Result<Option<Part<K, V, M::Item>>, NoMemory> {
        match self {
            Query::Filter(test, _) => Ok(Some(Part::Made(passed(alloc, root, test)?))),
            Query::MapValues(change, _) => Ok(Some(Part::Made(changed(alloc, root, change)?))),
            // Not by its shape, but with one view behind all puts, where `add` takes one behind each.
            Query::MapPairs(change, _) => {
                let (map, view) = images_of(alloc, root, change)?;
                Ok(Some(Part::Images(map, view)))
            }
            _ => Ok(None),
        }
    }

    fn join_root(
        &self,
        alloc: Global,
        part: Part<K, V, M::Item>,
        root: &Node<K, V>,
    ) -> Result<Result<Part<K, V, M::Item>, Part<K, V, M::Item>>, NoMemory> {
        match self {
            Query::MapPairs(change, _) => {
                let (map, view) = more_images(alloc, lone_map(part), root, change)?;
                Ok(Ok(Part::Images(map, view)))
            }
            _ => match self.of_root(alloc, root) {
                Ok(Some(made)) => Ok(Ok(joined(alloc, self, part, made)?)),
                Ok(None) => Ok(Err(part)),
                Err(NoMemory) => {
                    drop(part);
                    Err(NoMemory)
                }
            },
        }
    }
}

// Adds a pair to the map that the query makes, which has none of its key. After `NoMemory` the part is as before.
fn add_to_map<
    K: PathKey + Drop,
    V: Drop,
    T: PairFn<K, V, bool>,
    F: PairFn<K, V, V>,
    M: Monoid,
    G: PairFn<K, V, M::Item>,
    P: ImageFn<K, V>,
>(
    alloc: Global,
    query: &Query<K, V, T, F, M, G, P>,
    part: &mut Part<K, V, M::Item>,
    key: &Arc<K>,
    value: &Arc<V>,
) -> Result<(), NoMemory>
    requires makes { MakesMap query.now }
    requires ready { IsReady query.now }
    requires apart { CanAdd K.cmp (PartAnswers M.combine M.unit_of K.cmp query.now) part.old key.now.value value.now.value }
    ensures added { OnOk result (IsAdded K.cmp (PartAnswers M.combine M.unit_of K.cmp query.now) part.old key.now.value value.now.value part.new) }
    ensures err { OnErr result (part.new ≡ part.old) }
{
    match query {
        Query::Filter(test, _) => {
            let passes = test.at(key, value);
            if passes {
                part.put_shared(alloc, key, value)?;
            }
            Ok(())
        }
        Query::MapValues(change, _) => {
            part.put_value(alloc, key, change.at(key, value))?;
            Ok(())
        }
        Query::MapPairs(change, _) => {
            let (image, made) = change.shared_at(alloc, key, value)?;
            part.put_image(alloc, image, made)?;
            Ok(())
        }
        _ => unreachable!(),
    }
}

// Whether the part has the query's answer, whatever other pairs there are.
fn is_settled<
    K: PathKey,
    V,
    T: PairFn<K, V, bool>,
    F: PairFn<K, V, V>,
    M: Monoid,
    G: PairFn<K, V, M::Item>,
    P: ImageFn<K, V>,
>(query: &Query<K, V, T, F, M, G, P>, part: &Part<K, V, M::Item>) -> bool
    ensures { result ≡ is_settled query.now part.now }
{
    match (query, part) {
        (Query::Exists(_), Part::Truth(truth)) => *truth,
        (Query::ForAll(_), Part::Truth(truth)) => !*truth,
        (Query::Find(_), Part::Found(found)) => found.is_some(),
        _ => false,
    }
}

/// Another handle on the pair.
pub(crate) fn copy_of<K: Drop, V: Drop>(
    key: &Arc<K>,
    value: &Arc<V>,
) -> Result<Pair<K, V>, NoMemory>
    ensures { IfOk result (λ pair. (pair.0.value ≡ key.now.value) × (pair.1.value ≡ value.now.value)) }
{
    Ok((Arc::try_clone(key)?, Arc::try_clone(value)?))
}

// The first of the pairs, if there is one, or else the second.
fn first_of<K: Drop, V: Drop>(
    a: &Option<Pair<K, V>>,
    b: &Option<Pair<K, V>>,
) -> Result<Option<Pair<K, V>>, NoMemory>
    ensures { IfOk result (λ pair. option_map pair_of pair ≡ option_or (option_map pair_of a.now) (option_map pair_of b.now)) }
{
    match (a, b) {
        (Some((key, value)), _) => Ok(Some(copy_of(key, value)?)),
        (None, Some((key, value))) => Ok(Some(copy_of(key, value)?)),
        (None, None) => Ok(None),
    }
}

// The map of a part of images. Without its view the map alone holds its nodes, so that puts change them where they stand.
fn lone_map<K: PathKey + Drop, V: Drop, I: Drop>(part: Part<K, V, I>) -> Version<K, V>
    requires { HasImages part }
    ensures { (view : Map K V) × (part ≡ Part.Images result view) }
{
    let (map, view) = part.into_images();
    drop(view);
    map
}

// What both parts are joined to.
fn joined<
    K: PathKey + Drop,
    V: Drop,
    T: PairFn<K, V, bool>,
    F: PairFn<K, V, V>,
    M: Monoid,
    G: PairFn<K, V, M::Item>,
    P: ImageFn<K, V>,
>(
    alloc: Global,
    query: &Query<K, V, T, F, M, G, P>,
    part: Part<K, V, M::Item>,
    made: Part<K, V, M::Item>,
) -> Result<Part<K, V, M::Item>, NoMemory>
    requires { CanJoin K.cmp (PartAnswers M.combine M.unit_of K.cmp query.now) part made }
    ensures { IfOk result (λ both. IsJoined K.cmp (PartAnswers M.combine M.unit_of K.cmp query.now) part made both) }
{
    let both = query.join(alloc, &part, &made);
    drop(part);
    drop(made);
    both
}
