//! How often keys are hashed and compared.
use super::assert_is;
use super::tallied::{MANY, Tallies, Tally, filled};
use std::process::Abort;
use std::sync::{Arc, Wait};
use trie_map::{NoMemory, TrieMap};

// How many pairs two maps have that are made of the map: its even numbers, and all with new values; and a view and a
// snapshot of it.
fn made<R: Wait>(rt: &R, map: &Tallies) -> Result<[u64; 4], NoMemory> {
    Ok([
        map.filter(rt, |_, value| *value % 2 == 0)?.len(),
        map.map_values(rt, |_, value| *value == 7)?.len(),
        map.view(rt)?.count(|_, _| true),
        map.snapshot(rt)?.len(rt),
    ])
}

// What is made of a whole map is made by the shape of its trie.
#[test]
fn no_key_is_hashed_or_compared_for_a_map_that_is_made(rt: HostRuntime) {
    let tally = Tally::new(&rt);
    let map = filled(&rt, &tally);
    tally.take();
    assert_is(&rt, made(&rt, &map), Ok([500, MANY, MANY, MANY]));
    assert_is(&rt, tally.take(), (0, 0));
}

// Whether a view of the map is equal to one that has a pair less, and how often keys are hashed and compared for that.
fn equal_to_fewer<R: Wait + Abort>(
    rt: &R,
    map: &Tallies,
    tally: &Tally,
) -> Result<(bool, (u32, u32)), NoMemory> {
    let view = map.view(rt)?;
    map.remove(rt, &tally.key(rt, 7))?;
    let fewer = map.view(rt)?;
    tally.take();
    let equal = view == fewer;
    Ok((equal, tally.take()))
}

#[test]
fn views_of_different_lengths_are_told_apart_at_once(rt: HostRuntime) {
    let tally = Tally::new(&rt);
    let map = filled(&rt, &tally);
    let told = equal_to_fewer(&rt, &map, &tally);
    assert_is(&rt, told, Ok((false, (0, 0))));
}

// How often keys are hashed by each look-up of a number that is there, and of three at once.
fn hashed_by_reads<R: Wait + Abort>(rt: &R, map: &Tallies, tally: &Tally) -> [u32; 5] {
    let (key, second, third) = (tally.key(rt, 7), tally.key(rt, 8), tally.key(rt, 9));
    let mut counts = [0u32; 5];
    tally.take();
    map.get(rt, &key).expect(rt, "not read");
    counts[0] = tally.take().0;
    map.contains_key(rt, &key);
    counts[1] = tally.take().0;
    map.get_copied(rt, &key);
    counts[2] = tally.take().0;
    map.read(rt, &key, |_| ());
    counts[3] = tally.take().0;
    map.get_many(rt, &[&key, &second, &third])
        .expect(rt, "not read");
    counts[4] = tally.take().0;
    counts
}

// The same of each call that writes such a number, or does not.
fn hashed_by_writes<R: AllocGlobal + Wait + Abort>(
    rt: &R,
    map: &Tallies,
    tally: &Tally,
) -> [u32; 7] {
    let key = || tally.key(rt, 7);
    let mut counts = [0u32; 7];
    tally.take();
    map.put(rt, key(), 8).expect(rt, "not put");
    counts[0] = tally.take().0;
    map.put_if_absent(rt, key(), 9).expect(rt, "not put");
    counts[1] = tally.take().0;
    let value = Arc::new(rt.alloc(), 10).expect(rt, "no value");
    map.put_shared(rt, key(), value).expect(rt, "not put");
    counts[2] = tally.take().0;
    map.replace(rt, key(), 11).expect(rt, "not replaced");
    counts[3] = tally.take().0;
    map.replace_if(rt, key(), &11, 12)
        .expect(rt, "not replaced");
    counts[4] = tally.take().0;
    map.remove_if(rt, &key(), &11).expect(rt, "not removed");
    counts[5] = tally.take().0;
    map.remove(rt, &key()).expect(rt, "not removed");
    counts[6] = tally.take().0;
    counts
}

// The same of each call with a closure: on a number that is there, and the last two on one that is not, for which a row
// has room. (Where a new key meets the leaf of another, that one is hashed too, as MANY meets 121.)
fn hashed_by_closures<R: Wait + Abort>(rt: &R, map: &Tallies, tally: &Tally) -> [u32; 7] {
    let mut counts = [0u32; 7];
    tally.take();
    map.update(rt, tally.key(rt, 6), |_| Some(11))
        .expect(rt, "no update");
    counts[0] = tally.take().0;
    map.update_with(rt, tally.key(rt, 6), |_| (Some(12), ()))
        .expect(rt, "no update");
    counts[1] = tally.take().0;
    let tried = map.try_update(rt, tally.key(rt, 6), |_| Ok::<Option<u64>, ()>(Some(13)));
    drop(tried.expect(rt, "no update"));
    counts[2] = tally.take().0;
    map.remove_where(rt, &tally.key(rt, 6), |value| *value == 0)
        .expect(rt, "not removed");
    counts[3] = tally.take().0;
    map.get_or_else_update(rt, tally.key(rt, 6), || 14)
        .expect(rt, "no value");
    counts[4] = tally.take().0;
    map.get_or_else_update(rt, tally.key(rt, MANY + 1), || 15)
        .expect(rt, "no value");
    counts[5] = tally.take().0;
    let tried = map.try_get_or_else_update(rt, tally.key(rt, MANY + 2), || Ok::<u64, ()>(16));
    drop(tried.expect(rt, "no value"));
    counts[6] = tally.take().0;
    counts
}

// How often keys are hashed where three pairs are put by one list, and removed by another.
fn hashed_by_lists<R: AllocGlobal + Wait + Abort>(
    rt: &R,
    map: &Tallies,
    tally: &Tally,
) -> [u32; 2] {
    let keys = [tally.key(rt, 7), tally.key(rt, 8), tally.key(rt, 7)];
    let pairs = [7, 8, 7].map(|number: u64| (tally.key(rt, number), number));
    let pairs = Vec::from_array(rt.alloc(), pairs).expect(rt, "no list");
    tally.take();
    assert_is(rt, map.put_many(rt, pairs).is_ok(), true);
    let put = tally.take().0;
    let sought = [&keys[0], &keys[1], &keys[2]];
    assert_is(rt, map.remove_many(rt, &sought).is_ok(), true);
    [put, tally.take().0]
}

#[test]
fn a_list_hashes_each_key_once(rt: HostRuntime) {
    let tally = Tally::new(&rt);
    let map = filled(&rt, &tally);
    assert_is(&rt, hashed_by_lists(&rt, &map, &tally), [3; 2]);
}

#[test]
fn a_look_up_hashes_each_key_once(rt: HostRuntime) {
    let tally = Tally::new(&rt);
    let map = filled(&rt, &tally);
    assert_is(&rt, hashed_by_reads(&rt, &map, &tally), [1, 1, 1, 1, 3]);
}

#[test]
fn a_write_hashes_its_key_once(rt: HostRuntime) {
    let tally = Tally::new(&rt);
    let map = filled(&rt, &tally);
    assert_is(&rt, hashed_by_writes(&rt, &map, &tally), [1; 7]);
}

#[test]
fn a_call_with_a_closure_hashes_its_key_once(rt: HostRuntime) {
    let tally = Tally::new(&rt);
    let map = filled(&rt, &tally);
    assert_is(&rt, hashed_by_closures(&rt, &map, &tally), [1; 7]);
}

// How often keys are hashed where two pairs fail a test, where all values are given anew, and where a view becomes a
// map and a map's content.
fn hashed_by_all<R: AllocGlobal + Wait + Abort>(rt: &R, map: &Tallies, tally: &Tally) -> [u32; 4] {
    let mut counts = [0u32; 4];
    tally.take();
    map.retain(rt, |_, value| *value > 1)
        .expect(rt, "not retained");
    counts[0] = tally.take().0;
    map.replace_all(rt, |_, value| *value)
        .expect(rt, "not replaced");
    counts[1] = tally.take().0;
    let view = map.view(rt).expect(rt, "no view");
    let other: Tallies = TrieMap::from_view(rt, &view).expect(rt, "no map");
    counts[2] = tally.take().0;
    other.restore(rt, &view).expect(rt, "not restored");
    counts[3] = tally.take().0;
    counts
}

#[test]
fn a_call_on_all_pairs_hashes_those_that_it_writes(rt: HostRuntime) {
    let tally = Tally::new(&rt);
    let map = filled(&rt, &tally);
    assert_is(&rt, hashed_by_all(&rt, &map, &tally), [2, 998, 0, 0]);
}
