//! Removals of many keys.
ghost use Rattle.std.specs.Prelude.{◌≡◌, ◌≤◌, ◌<◌, [], All, IfErr, IfOk, IfSome, List, OnOk, length, slice_index_or, vec_capacity, ⊤};
ghost use Rattle.std.specs.List.{AllZip};
ghost use Rattle.many_writes.specs.Parts.{IsParted};
ghost use Rattle.many_writes.specs.Rooms.{HasRoom};
ghost use Rattle.many_writes.specs.Turns.{Goes, HasDigit, IsDone, IsSound, Stands};

use crate::ahead::read_from;
use crate::order::Order;
use crate::room::Room;
use crate::turn::{Turn, answers_of, done_of, none_done};
use hash_path::{Path, PathKey, Sought};
use std::alloc::Global;
use std::mem;
use std::sync::Wait;
use stripes::{Keeps, Stripe, Stripes};
use trie_node::{NoMemory, Slots};
use write_history::{Author, Naming};

/// Removes each of the keys, and returns for each, in the order of the list, the value before, or none.
///
/// The keys of one stripe are removed under one lock, in the order of the list. Where memory runs out, it returns what
/// was removed by then: for each key whose turn had come its place in the list, and the value before, or none.
pub fn remove_each<
    R: Wait,
    K: PathKey + Drop,
    V: Drop,
    P: Keeps<K, V>,
    J: Naming,
    S: Slots<K, V>,
    Q: Sought<K>,
>(
    rt: &R,
    alloc: Global,
    row: &Stripes<K, V, P, J, S>,
    keys: &[Q],
    author: &mut Author<J>,
) -> Result<Vec<Option<S::Value>>, Vec<(usize, Option<S::Value>)>>
where
    S::Key: Drop,
    S::Value: Drop,
    ensures done { IfOk result (λ before. AllZip (λ key found. IfSome found (λ value. P.holds (Q.key_of key) (S.value_of value))) keys.now before.items) }
    ensures parted { IfErr result (λ removed. (left : List Q) × IsParted (λ key found. IfSome found (λ value. P.holds (Q.key_of key) (S.value_of value))) 0 keys.now removed.items left) }
{
    match Room::of(alloc, keys.len(), 0) {
        Ok(room) => remove_in(rt, alloc, row, keys, room, author),
        Err(_) => Err(none_done(alloc)),
    }
}

// Removes each of the keys, for whose list there is room.
fn remove_in<
    R: Wait,
    K: PathKey + Drop,
    V: Drop,
    P: Keeps<K, V>,
    J: Naming,
    S: Slots<K, V>,
    Q: Sought<K>,
>(
    rt: &R,
    alloc: Global,
    row: &Stripes<K, V, P, J, S>,
    keys: &[Q],
    room: Room<Q, Option<S::Value>>,
    author: &mut Author<J>,
) -> Result<Vec<Option<S::Value>>, Vec<(usize, Option<S::Value>)>>
where
    S::Key: Drop,
    S::Value: Drop,
    requires { HasRoom (length keys.now) 0 room }
    ensures done { IfOk result (λ before. AllZip (λ key found. IfSome found (λ value. P.holds (Q.key_of key) (S.value_of value))) keys.now before.items) }
    ensures parted { IfErr result (λ removed. (left : List Q) × IsParted (λ key found. IfSome found (λ value. P.holds (Q.key_of key) (S.value_of value))) 0 keys.now removed.items left) }
{
    let Room {
        mut turns,
        mut order,
        answers,
        done,
        rest: _,
    } = room;
    line_up(keys, &mut turns, &mut order);
    match remove_turns(rt, alloc, row, &mut turns, &order, author) {
        Ok(()) => Ok(answers_of(turns, answers)),
        Err(_) => Err(done_of(turns, done)),
    }
}

// Has the keys wait, in their order, each with its path word.
fn line_up<K: PathKey, B: Drop, Q: Sought<K>>(
    keys: &[Q],
    turns: &mut Vec<Turn<Q, Option<B>>>,
    order: &mut Order,
)
    requires empty { turns.old.items ≡ [] }
    requires room { length keys.now ≤ vec_capacity turns.old }
    ensures turns { AllZip (Stands (λ key. K.path_of (Q.key_of key))) keys.now turns.new.items }
{
    for key in keys {
        let path = key.path_sought();
        order.add(path);
        turns.push_reserved(Turn::Waits(path, *key));
    }
}

// Removes the keys that wait, those of one stripe under one lock.
fn remove_turns<
    R: Wait,
    K: PathKey + Drop,
    V: Drop,
    P: Keeps<K, V>,
    J: Naming,
    S: Slots<K, V>,
    Q: Sought<K>,
>(
    rt: &R,
    alloc: Global,
    row: &Stripes<K, V, P, J, S>,
    turns: &mut [Turn<Q, Option<S::Value>>],
    order: &Order,
    author: &mut Author<J>,
) -> Result<(), NoMemory>
where
    S::Key: Drop,
    S::Value: Drop,
    requires sound { All (IsSound (λ key. K.path_of (Q.key_of key)) (λ key. ⊤)) turns.old }
    ensures goes { AllZip (Goes (λ key found. IfSome found (λ value. P.holds (Q.key_of key) (S.value_of value)))) turns.old turns.new }
    ensures done { OnOk result (All IsDone turns.new) }
{
    for place in 0..turns.len() {
        remove_from(rt, alloc, row, turns, order, place, author)?;
    }
    Ok(())
}

// Removes the key of the place, if it waits, and those behind it that are of its stripe.
fn remove_from<
    R: Wait,
    K: PathKey + Drop,
    V: Drop,
    P: Keeps<K, V>,
    J: Naming,
    S: Slots<K, V>,
    Q: Sought<K>,
>(
    rt: &R,
    alloc: Global,
    row: &Stripes<K, V, P, J, S>,
    turns: &mut [Turn<Q, Option<S::Value>>],
    order: &Order,
    place: usize,
    author: &mut Author<J>,
) -> Result<(), NoMemory>
where
    S::Key: Drop,
    S::Value: Drop,
    requires sound { All (IsSound (λ key. K.path_of (Q.key_of key)) (λ key. ⊤)) turns.old }
    requires place { place < length turns.old }
    ensures goes { AllZip (Goes (λ key found. IfSome found (λ value. P.holds (Q.key_of key) (S.value_of value)))) turns.old turns.new }
    ensures done { OnOk result ((d : _) → IsDone (slice_index_or turns.new place d)) }
{
    let Turn::Waits(path, _) = &turns[place] else {
        return Ok(());
    };
    let mut stripe = row.stripe_at(rt, *path);
    let read = read_from(&stripe, turns, order, place);
    remove_turn(alloc, &mut stripe, &mut turns[place], author)?;
    remove_behind(alloc, &mut stripe, turns, order, place, read, author)
}

// Removes the keys behind the place that are of the stripe.
fn remove_behind<
    K: PathKey + Drop,
    V: Drop,
    P: Keeps<K, V>,
    J: Naming,
    S: Slots<K, V>,
    Q: Sought<K>,
>(
    alloc: Global,
    stripe: &mut Stripe<K, V, P, J, S>,
    turns: &mut [Turn<Q, Option<S::Value>>],
    order: &Order,
    place: usize,
    mut read: usize,
    author: &mut Author<J>,
) -> Result<(), NoMemory>
where
    S::Key: Drop,
    S::Value: Drop,
    requires sound { All (IsSound (λ key. K.path_of (Q.key_of key)) (λ key. ⊤)) turns.old }
    requires place { place < length turns.old }
    ensures goes { AllZip (Goes (λ key found. IfSome found (λ value. P.holds (Q.key_of key) (S.value_of value)))) turns.old turns.new }
    ensures digit { stripe.new.digit ≡ stripe.old.digit }
{
    let mut next = order.behind(place, turns.len());
    while next < turns.len() {
        if read <= next {
            read = read_from(stripe, turns, order, next);
        }
        remove_turn(alloc, stripe, &mut turns[next], author)?;
        next = order.behind(next, turns.len());
    }
    Ok(())
}

// Removes a key that waits, if it is of the stripe. Where that is refused, it waits still.
fn remove_turn<K: PathKey + Drop, V: Drop, P: Keeps<K, V>, J: Naming, S: Slots<K, V>, Q: Sought<K>>(
    alloc: Global,
    stripe: &mut Stripe<K, V, P, J, S>,
    turn: &mut Turn<Q, Option<S::Value>>,
    author: &mut Author<J>,
) -> Result<(), NoMemory>
where
    S::Key: Drop,
    S::Value: Drop,
    requires sound { IsSound (λ key. K.path_of (Q.key_of key)) (λ key. ⊤) turn.old }
    ensures goes { Goes (λ key found. IfSome found (λ value. P.holds (Q.key_of key) (S.value_of value))) turn.old turn.new }
    ensures done { OnOk result (HasDigit stripe.old.digit turn.old → IsDone turn.new) }
    ensures digit { stripe.new.digit ≡ stripe.old.digit }
{
    let Turn::Waits(path, key) = turn else {
        return Ok(());
    };
    let (path, key) = (*path, *key);
    if path.digit(0) == stripe.first_digit() {
        let before = stripe.remove(alloc, key, path, author)?;
        drop(mem::replace(turn, Turn::Done(before)));
    }
    Ok(())
}
