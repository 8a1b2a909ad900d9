//! Puts of many pairs.
ghost use Rattle.std.specs.Prelude.{◌≡◌, ◌≤◌, ◌<◌, [], All, IfErr, IfOk, IfSome, OnOk, length, slice_index_or, vec_capacity};
ghost use Rattle.std.specs.List.{AllZip};
ghost use Rattle.many_writes.specs.Parts.{IsParted};
ghost use Rattle.many_writes.specs.Rooms.{HasRoom};
ghost use Rattle.many_writes.specs.Turns.{Goes, HasDigit, IsDone, IsSound, Stands};
ghost use Rattle.hash_path.specs.Digits.{digit};
ghost use Rattle.stripe.specs.Rules.{IsPutRefusal, first_digit as digit_of};

use crate::ahead::read_from;
use crate::order::Order;
use crate::refused::Unput;
use crate::room::Room;
use crate::turn::{Turn, answers_of, none_done, parted};
use hash_path::{Path, PathKey};
use std::alloc::Global;
use std::mem;
use std::sync::Wait;
use stripes::{Keeps, Stripe, Stripes};
use trie_node::{Always, KeySlots, Slots, ValueSlots};
use versions::Refusal;
use write_history::{Author, Naming};

/// Puts each of the pairs, and returns for each, in the order of the list, the value before, or none.
///
/// The pairs of one stripe are put under one lock, in the order of the list. Where one is refused, those that were put
/// stay, and the others are given back.
pub fn put_each<R: Wait, K: PathKey + Drop, V: Drop, P: Keeps<K, V>, J: Naming, S: Slots<K, V>>(
    rt: &R,
    alloc: Global,
    row: &Stripes<K, V, P, J, S>,
    pairs: Vec<(K, V)>,
    author: &mut Author<J>,
) -> Result<Vec<Option<S::Value>>, Unput<K, V, S>>
where
    S::Key: Drop,
    S::Value: Drop,
    requires rule { All (λ pair. P.holds pair.0 pair.1) pairs.items }
    ensures done { IfOk result (λ before. AllZip (λ pair found. IfSome found (λ value. P.holds pair.0 (S.value_of value))) pairs.items before.items) }
    ensures parted { IfErr result (λ refused. IsParted (λ pair found. IfSome found (λ value. P.holds pair.0 (S.value_of value))) 0 pairs.items refused.put.items refused.rest.items) }
    ensures refusal { IfErr result (λ refused. IsPutRefusal refused.refusal) }
{
    match Room::of(alloc, pairs.len(), pairs.len()) {
        Ok(room) => put_in(rt, alloc, row, pairs, room, author),
        Err(_) => Err(Unput {
            refusal: Refusal::NoMemory,
            put: none_done(alloc),
            rest: pairs,
        }),
    }
}

// Puts each of the pairs, for whose list there is room.
fn put_in<R: Wait, K: PathKey + Drop, V: Drop, P: Keeps<K, V>, J: Naming, S: Slots<K, V>>(
    rt: &R,
    alloc: Global,
    row: &Stripes<K, V, P, J, S>,
    pairs: Vec<(K, V)>,
    room: Room<(K, V), Option<S::Value>>,
    author: &mut Author<J>,
) -> Result<Vec<Option<S::Value>>, Unput<K, V, S>>
where
    S::Key: Drop,
    S::Value: Drop,
    requires rule { All (λ pair. P.holds pair.0 pair.1) pairs.items }
    requires room { HasRoom (length pairs.items) (length pairs.items) room }
    ensures done { IfOk result (λ before. AllZip (λ pair found. IfSome found (λ value. P.holds pair.0 (S.value_of value))) pairs.items before.items) }
    ensures parted { IfErr result (λ refused. IsParted (λ pair found. IfSome found (λ value. P.holds pair.0 (S.value_of value))) 0 pairs.items refused.put.items refused.rest.items) }
    ensures refusal { IfErr result (λ refused. IsPutRefusal refused.refusal) }
{
    let Room {
        mut turns,
        mut order,
        answers,
        done,
        rest,
    } = room;
    line_up(pairs, &mut turns, &mut order);
    match put_turns(rt, alloc, row, &mut turns, &order, author) {
        Ok(()) => Ok(answers_of(turns, answers)),
        Err(refusal) => {
            let (put, rest) = parted(turns, done, rest);
            Err(Unput { refusal, put, rest })
        }
    }
}

// Has the pairs wait, in their order, each with its key's path word.
fn line_up<K: PathKey + Drop, V: Drop, B: Drop>(
    pairs: Vec<(K, V)>,
    turns: &mut Vec<Turn<(K, V), Option<B>>>,
    order: &mut Order,
)
    requires empty { turns.old.items ≡ [] }
    requires room { length pairs.items ≤ vec_capacity turns.old }
    ensures turns { AllZip (Stands (λ pair. K.path_of pair.0)) pairs.items turns.new.items }
{
    for (key, value) in pairs {
        let path = key.path();
        order.add(path);
        turns.push_reserved(Turn::Waits(path, (key, value)));
    }
}

// Puts the pairs that wait, those of one stripe under one lock.
fn put_turns<R: Wait, K: PathKey + Drop, V: Drop, P: Keeps<K, V>, J: Naming, S: Slots<K, V>>(
    rt: &R,
    alloc: Global,
    row: &Stripes<K, V, P, J, S>,
    turns: &mut [Turn<(K, V), Option<S::Value>>],
    order: &Order,
    author: &mut Author<J>,
) -> Result<(), Refusal>
where
    S::Key: Drop,
    S::Value: Drop,
    requires sound { All (IsSound (λ pair. K.path_of pair.0) (λ pair. P.holds pair.0 pair.1)) turns.old }
    ensures goes { AllZip (Goes (λ pair found. IfSome found (λ value. P.holds pair.0 (S.value_of value)))) turns.old turns.new }
    ensures done { OnOk result (All IsDone turns.new) }
    ensures refusal { IfErr result IsPutRefusal }
{
    for place in 0..turns.len() {
        put_from(rt, alloc, row, turns, order, place, author)?;
    }
    Ok(())
}

// Puts the pair of the place, if it waits, and those behind it that are of its stripe.
fn put_from<R: Wait, K: PathKey + Drop, V: Drop, P: Keeps<K, V>, J: Naming, S: Slots<K, V>>(
    rt: &R,
    alloc: Global,
    row: &Stripes<K, V, P, J, S>,
    turns: &mut [Turn<(K, V), Option<S::Value>>],
    order: &Order,
    place: usize,
    author: &mut Author<J>,
) -> Result<(), Refusal>
where
    S::Key: Drop,
    S::Value: Drop,
    requires sound { All (IsSound (λ pair. K.path_of pair.0) (λ pair. P.holds pair.0 pair.1)) turns.old }
    requires place { place < length turns.old }
    ensures goes { AllZip (Goes (λ pair found. IfSome found (λ value. P.holds pair.0 (S.value_of value)))) turns.old turns.new }
    ensures done { OnOk result ((d : _) → IsDone (slice_index_or turns.new place d)) }
    ensures refusal { IfErr result IsPutRefusal }
{
    let Turn::Waits(path, _) = &turns[place] else {
        return Ok(());
    };
    let mut stripe = row.stripe_at(rt, *path);
    let read = read_from(&stripe, turns, order, place);
    put_turn(rt, alloc, &mut stripe, &mut turns[place], author)?;
    put_behind(rt, alloc, &mut stripe, turns, order, place, read, author)
}

// Puts the pairs behind the place that are of the stripe.
fn put_behind<R: Wait, K: PathKey + Drop, V: Drop, P: Keeps<K, V>, J: Naming, S: Slots<K, V>>(
    rt: &R,
    alloc: Global,
    stripe: &mut Stripe<K, V, P, J, S>,
    turns: &mut [Turn<(K, V), Option<S::Value>>],
    order: &Order,
    place: usize,
    mut read: usize,
    author: &mut Author<J>,
) -> Result<(), Refusal>
where
    S::Key: Drop,
    S::Value: Drop,
    requires sound { All (IsSound (λ pair. K.path_of pair.0) (λ pair. P.holds pair.0 pair.1)) turns.old }
    requires place { place < length turns.old }
    ensures goes { AllZip (Goes (λ pair found. IfSome found (λ value. P.holds pair.0 (S.value_of value)))) turns.old turns.new }
    ensures refusal { IfErr result IsPutRefusal }
    ensures digit { stripe.new.digit ≡ stripe.old.digit }
{
    let mut next = order.behind(place, turns.len());
    while next < turns.len() {
        if read <= next {
            read = read_from(stripe, turns, order, next);
        }
        put_turn(rt, alloc, stripe, &mut turns[next], author)?;
        next = order.behind(next, turns.len());
    }
    Ok(())
}

// Puts a pair that waits, if it is of the stripe. Where it is refused, it waits still.
fn put_turn<R: Wait, K: PathKey + Drop, V: Drop, P: Keeps<K, V>, J: Naming, S: Slots<K, V>>(
    rt: &R,
    alloc: Global,
    stripe: &mut Stripe<K, V, P, J, S>,
    turn: &mut Turn<(K, V), Option<S::Value>>,
    author: &mut Author<J>,
) -> Result<(), Refusal>
where
    S::Key: Drop,
    S::Value: Drop,
    requires sound { IsSound (λ pair. K.path_of pair.0) (λ pair. P.holds pair.0 pair.1) turn.old }
    ensures goes { Goes (λ pair found. IfSome found (λ value. P.holds pair.0 (S.value_of value))) turn.old turn.new }
    ensures done { OnOk result (HasDigit stripe.old.digit turn.old → IsDone turn.new) }
    ensures refusal { IfErr result IsPutRefusal }
    ensures digit { stripe.new.digit ≡ stripe.old.digit }
{
    match mem::replace(turn, Turn::Done(None)) {
        Turn::Waits(path, pair) => {
            let (after, done) = put_or_wait(rt, alloc, stripe, path, pair, author);
            drop(mem::replace(turn, after));
            done
        }
        Turn::Done(before) => {
            drop(mem::replace(turn, Turn::Done(before)));
            Ok(())
        }
    }
}

// Puts the pair, if it is of the stripe. Where it is refused, it waits still.
fn put_or_wait<R: Wait, K: PathKey + Drop, V: Drop, P: Keeps<K, V>, J: Naming, S: Slots<K, V>>(
    rt: &R,
    alloc: Global,
    stripe: &mut Stripe<K, V, P, J, S>,
    path: Path,
    pair: (K, V),
    author: &mut Author<J>,
) -> (Turn<(K, V), Option<S::Value>>, Result<(), Refusal>)
where
    S::Key: Drop,
    S::Value: Drop,
    requires rule { P.holds pair.0 pair.1 }
    requires path { path.0 ≡ K.path_of pair.0 }
    ensures goes { Goes (λ pair found. IfSome found (λ value. P.holds pair.0 (S.value_of value))) (Turn.Waits path pair) result.0 }
    ensures done { OnOk result.1 (digit path.0 0 ≡ stripe.old.digit → IsDone result.0) }
    ensures refusal { IfErr result.1 IsPutRefusal }
    ensures digit { stripe.new.digit ≡ stripe.old.digit }
{
    if path.digit(0) != stripe.first_digit() {
        return (Turn::Waits(path, pair), Ok(()));
    }
    match put_pair(rt, alloc, stripe, path, pair, author) {
        Ok(before) => (Turn::Done(before), Ok(())),
        Err((refusal, pair)) => (Turn::Waits(path, pair), Err(refusal)),
    }
}

// Puts the pair, and returns the value before, or none. Where it is refused, it is given back.
fn put_pair<R: Wait, K: PathKey + Drop, V: Drop, P: Keeps<K, V>, J: Naming, S: Slots<K, V>>(
    rt: &R,
    alloc: Global,
    stripe: &mut Stripe<K, V, P, J, S>,
    path: Path,
    pair: (K, V),
    author: &mut Author<J>,
) -> Result<Option<S::Value>, (Refusal, (K, V))>
where
    S::Key: Drop,
    S::Value: Drop,
    requires rule { P.holds pair.0 pair.1 }
    requires path { path.0 ≡ K.path_of pair.0 }
    requires place { digit_of K.path_of pair.0 ≡ stripe.old.digit }
    ensures kept { IfOk result (λ before. IfSome before (λ value. P.holds pair.0 (S.value_of value))) }
    ensures back { IfErr result (λ refused. (refused.1 ≡ pair) × IsPutRefusal refused.0) }
    ensures digit { stripe.new.digit ≡ stripe.old.digit }
{
    let (key, value) = pair;
    let key = match S::new_key(alloc, key) {
        Ok(key) => key,
        Err(failed) => return Err((Refusal::NoMemory, (failed.value, value))),
    };
    let value = match S::new_value(alloc, value) {
        Ok(value) => value,
        Err(failed) => return Err((
            Refusal::NoMemory,
            (key_back::<R, K, S>(rt, key), failed.value),
        )),
    };
    match put_twins(alloc, stripe, &key, path, &value, author) {
        Ok(before) => Ok(before),
        Err(refusal) => Err((
            refusal,
            (
                key_back::<R, K, S>(rt, key),
                value_back::<R, V, S>(rt, value),
            ),
        )),
    }
}

// Puts another of each, which the caller keeps, and returns the value before, or none.
fn put_twins<K: PathKey + Drop, V: Drop, P: Keeps<K, V>, J: Naming, S: Slots<K, V>>(
    alloc: Global,
    stripe: &mut Stripe<K, V, P, J, S>,
    key: &S::Key,
    path: Path,
    value: &S::Value,
    author: &mut Author<J>,
) -> Result<Option<S::Value>, Refusal>
where
    S::Key: Drop,
    S::Value: Drop,
    requires rule { P.holds (S.key_of key.now) (S.value_of value.now) }
    requires path { path.0 ≡ K.path_of (S.key_of key.now) }
    requires place { digit_of K.path_of (S.key_of key.now) ≡ stripe.old.digit }
    ensures kept { IfOk result (λ before. IfSome before (λ found. P.holds (S.key_of key.now) (S.value_of found))) }
    ensures refusal { IfErr result IsPutRefusal }
    ensures digit { stripe.new.digit ≡ stripe.old.digit }
{
    let key = S::another_key(key)?;
    let value = S::another_value(value)?;
    Ok(
        stripe
            .put_where(alloc, key, path, value, &Always, author)?
            .previous,
    )
}

// The key itself. No map has a handle on what it refused, so the first round takes it.
fn key_back<R: Wait, K, S: KeySlots<K>>(rt: &R, mut key: S::Key) -> K
    ensures { result ≡ S.key_of key }
{
    for _ in rt.forever() {
        match S::into_key(key) {
            Ok(own) => return own,
            Err(shared) => key = shared,
        }
    }
    unreachable!()
}

// The value itself, as `key_back` has the key.
fn value_back<R: Wait, V, S: ValueSlots<V>>(rt: &R, mut value: S::Value) -> V
    ensures { result ≡ S.value_of value }
{
    for _ in rt.forever() {
        match S::into_value(value) {
            Ok(own) => return own,
            Err(shared) => value = shared,
        }
    }
    unreachable!()
}
