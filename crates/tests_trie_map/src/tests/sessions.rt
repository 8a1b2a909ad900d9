//! The calls of sessions on a map with a history: what they answer is what the map's own calls do.
use super::{assert_is, key, plain};
use std::marker::Brand;
use std::sync::{Arc, Wait};
use std::thread;
use std::thread::Threads;
use tambyulo::history::{Naming, Opened, Since};
use test_keys::ChosenKey;
use trie_map::{Anything, PutError, Session, TrieMap};

// A map with a history, of the tests.
type Told<J> = TrieMap<ChosenKey, u64, Anything, J>;

// The calls of one thread on it.
type Calls<'m, J> = Session<'m, ChosenKey, u64, Anything, J>;

// How often each of two threads counts.
const TIMES: u32 = 10_000;

// What a call answers that a session makes on a map of two pairs: of (1, 0) with 10, and of (2, 0) with 20.
fn of_two<
    R: AllocGlobal + Wait,
    J: Naming,
    T: Drop,
    F: FnOnce(&mut Calls<'_, J>) -> Result<T, PutError>,
>(rt: &R, opened: Opened<ChosenKey, u64>, call: F) -> Result<T, PutError> {
    let (map, front, mut authors) = Told::<J>::with_history(rt, opened)?;
    let mut session = map.session(front, authors.next());
    session.put(rt, key(1, 0), 10)?;
    session.put(rt, key(2, 0), 20)?;
    call(&mut session)
}

// A book for one author.
fn book() -> Opened<ChosenKey, u64> {
    Opened::new(1)
}

#[test]
fn one_key_is_read(rt: HostRuntime) {
    let seen = of_two::<_, Brand, _, _>(&rt, book(), |calls| {
        Ok([
            calls.read(&rt, &key(1, 0), |value| value.map(|n| n.wrapping_add(1))),
            calls.read(&rt, &key(1, 1), |value| value.map(|n| n.wrapping_add(1))),
            calls.get_copied(&rt, &key(2, 0)),
            calls.get_copied(&rt, &key(3, 0)),
        ])
    });
    assert_is(&rt, seen, Ok([Some(11), None, Some(20), None]));
}

#[test]
fn pairs_are_counted(rt: HostRuntime) {
    let seen = of_two::<_, Brand, _, _>(&rt, book(), |calls| {
        let before = (calls.len(&rt), calls.is_empty(&rt));
        calls.clear(&rt)?;
        Ok((before, (calls.len(&rt), calls.is_empty(&rt))))
    });
    assert_is(&rt, seen, Ok(((2, false), (0, true))));
}

// A pair of each stripe, and the two that there were.
#[test]
fn a_view_has_the_pairs_of_each_stripe(rt: HostRuntime) {
    let seen = of_two::<_, Brand, _, _>(&rt, book(), |calls| {
        for digit in 0..32u32 {
            calls.put(&rt, key(digit, 7), u64::from(digit))?;
        }
        let view = calls.view(&rt)?;
        let mut found = 0u64;
        for digit in 0..32u32 {
            if view.get(&key(digit, 7)).map(|value| **value) == Some(u64::from(digit)) {
                found = found.wrapping_add(1);
            }
        }
        Ok((view.len(), found))
    });
    assert_is(&rt, seen, Ok((34, 32)));
}

#[test]
fn several_keys_are_read_at_one_moment(rt: HostRuntime) {
    let seen = of_two::<_, Brand, _, _>(&rt, book(), |calls| {
        let mut sum = 0u64;
        for value in calls.get_many(&rt, &[&key(2, 0), &key(3, 0), &key(1, 0)])? {
            sum = sum
                .wrapping_mul(100)
                .wrapping_add(plain(value).unwrap_or(0));
        }
        Ok(sum)
    });
    assert_is(&rt, seen, Ok(200_010));
}

#[test]
fn one_key_is_written(rt: HostRuntime) {
    let seen = of_two::<_, Brand, _, _>(&rt, book(), |calls| {
        let shared = Arc::new(rt.alloc(), 30)?;
        Ok((
            plain(calls.put_shared(&rt, key(1, 0), shared)?),
            calls.replace_if(&rt, key(1, 0), &30, 40)?,
            calls.replace_if(&rt, key(1, 0), &30, 50)?,
            calls.replace_if(&rt, key(3, 0), &30, 50)?,
            calls.remove_if(&rt, &key(1, 0), &30)?,
            calls.remove_if(&rt, &key(1, 0), &40)?,
            calls.remove_if(&rt, &key(1, 0), &40)?,
            calls.len(&rt),
        ))
    });
    assert_is(
        &rt,
        seen,
        Ok((Some(10), true, false, false, false, true, false, 1)),
    );
}

#[test]
fn a_closure_decides(rt: HostRuntime) {
    let seen = of_two::<_, Brand, _, _>(&rt, book(), |calls| {
        let one = key(1, 0);
        Ok((
            plain(calls.update(&rt, one, |old| old.map(|n| n.wrapping_mul(2)))?),
            plain(calls.update(&rt, one, |_| None)?),
            plain(calls.update(&rt, one, |_| None)?),
            calls.update_with(&rt, one, |old| (Some(5), old.is_none()))?,
            calls
                .try_update(
                    &rt,
                    one,
                    |old| Err::<Option<u64>, u64>(old.map_or(0, |n| *n)),
                )?
                .map(plain),
            calls
                .try_update(&rt, one, |_| Ok::<Option<u64>, u64>(Some(6)))?
                .map(plain),
            calls.get_copied(&rt, &one),
        ))
    });
    let wanted = (Some(10), Some(20), None, true, Err(5), Ok(Some(5)), Some(6));
    assert_is(&rt, seen, Ok(wanted));
}

#[test]
fn a_test_decides(rt: HostRuntime) {
    let seen = of_two::<_, Brand, _, _>(&rt, book(), |calls| {
        Ok([
            plain(calls.remove_where(&rt, &key(1, 0), |n| *n > 10)?),
            plain(calls.remove_where(&rt, &key(1, 0), |n| *n == 10)?),
            plain(calls.remove_where(&rt, &key(1, 0), |_| true)?),
        ])
    });
    assert_is(&rt, seen, Ok([None, Some(10), None]));
}

#[test]
fn a_value_is_made_where_there_is_none(rt: HostRuntime) {
    let seen = of_two::<_, Brand, _, _>(&rt, book(), |calls| {
        Ok((
            *calls.get_or_else_update(&rt, key(1, 0), || 1)?,
            *calls.get_or_else_update(&rt, key(3, 0), || 3)?,
            calls
                .try_get_or_else_update(&rt, key(1, 0), || Err(9))?
                .map(|n| *n),
            calls
                .try_get_or_else_update(&rt, key(4, 0), || Err(9))?
                .map(|n| *n),
            calls
                .try_get_or_else_update(&rt, key(4, 0), || Ok::<u64, u64>(4))?
                .map(|n| *n),
            calls.len(&rt),
        ))
    });
    assert_is(&rt, seen, Ok((10, 3, Ok(10), Err(9), Ok(4), 4)));
}

#[test]
fn many_keys_are_written(rt: HostRuntime) {
    let seen = of_two::<_, Brand, _, _>(&rt, book(), |calls| {
        let pairs = vec![in rt.alloc(); (key(1, 0), 11), (key(3, 0), 30), (key(4, 0), 40)]?;
        calls.extend(&rt, pairs)?;
        let before = calls.len(&rt);
        Ok((
            before,
            calls.retain(&rt, |_, n| *n % 20 == 0)?,
            calls.len(&rt),
            calls.get_copied(&rt, &key(4, 0)),
        ))
    });
    assert_is(&rt, seen, Ok((4, 2, 2, Some(40))));
}

#[test]
fn many_values_are_given(rt: HostRuntime) {
    let seen = of_two::<_, Brand, _, _>(&rt, book(), |calls| {
        calls.extend_from(&rt, vec![in rt.alloc(); (key(1, 0), 11), (key(3, 0), 30)]?)?;
        let given = calls.replace_all(&rt, |_, n| n.wrapping_add(1))?;
        Ok((
            given,
            calls.get_copied(&rt, &key(1, 0)),
            calls.get_copied(&rt, &key(2, 0)),
            calls.get_copied(&rt, &key(3, 0)),
        ))
    });
    assert_is(&rt, seen, Ok((3, Some(12), Some(21), Some(31))));
}

// Counts a key `TIMES` times.
fn count<J: Naming, R: Wait>(rt: &R, mut calls: Calls<'_, J>) -> Result<(), PutError> {
    for _ in 0..TIMES {
        calls.update(
            rt,
            key(5, 0),
            |old| Some(old.map_or(1, |n| n.saturating_add(1))),
        )?;
    }
    Ok(())
}

// What two threads have counted of one key.
fn counted<J: Naming + Send + Sync, R: AllocGlobal + Threads + Wait + Sync>(
    rt: &R,
    opened: Opened<ChosenKey, u64>,
) -> Result<Option<u64>, PutError> {
    let (map, front, mut authors) = Told::<J>::with_history(rt, opened)?;
    let first = map.session(front, authors.next());
    let second = first.again(authors.next());
    let (one, two) = thread::join(rt, || count(rt, first), || count(rt, second));
    one?;
    two?;
    Ok(map.get_copied(rt, &key(5, 0)))
}

#[test]
fn no_update_of_two_sessions_is_lost(rt: HostRuntime) {
    let seen = counted::<Brand, _>(&rt, Opened::new(2));
    assert_is(&rt, seen, Ok(Some(20_000)));
}

// What a reader that begins with what a session has seen finds before a write of the session, and behind it.
fn read_by_reader<R: AllocGlobal + Wait, J: Naming, S: Since<ChosenKey, u64>>(
    rt: &R,
    opened: Opened<ChosenKey, u64>,
) -> Result<[Option<u64>; 2], PutError> {
    let (map, front, mut authors) = Told::<J>::with_history(rt, opened)?;
    let mut session = map.session(front, authors.next());
    session.put(rt, key(1, 0), 10)?;
    let readers = map.readers_since::<S>(&session.front());
    let mut reader = readers.reader();
    let before = reader.get_copied(rt, &key(1, 0));
    session.put(rt, key(1, 0), 11)?;
    Ok([before, reader.get_copied(rt, &key(1, 0))])
}

#[test]
fn readers_begin_with_what_a_session_has_seen(rt: HostRuntime) {
    let seen = read_by_reader::<_, Brand, Brand>(&rt, book());
    assert_is(&rt, seen, Ok([Some(10), Some(11)]));
}
