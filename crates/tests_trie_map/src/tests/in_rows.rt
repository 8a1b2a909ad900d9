//! Maps whose keys and values lie in the rows of their tries.
use super::assert_is;
use std::alloc::AllocError;
use std::collections::BTreeMap;
use std::marker::Brand;
use std::sync::{Arc, Wait};
use std::test::Fail;
use tambyulo::history::{Naming, Opened, Unnamed};
use test_keys::Random;
use trie_map::{
    Anything, ByteText, Crew, Half, InPlace, InPlaceMap, KeysInPlace, PutError, Sum, TrieMap,
};

// How many writes a long run has.
const LONG: u64 = 20_000;

// Hits of a page, counted in the row where they lie.
#[test]
fn hits_are_counted(rt: HostRuntime) -> Result<(), Fail> {
    let hits: InPlaceMap<u64, u64> = TrieMap::new(&rt)?;
    for visit in 0..3_000u64 {
        hits.update(
            &rt,
            visit % 1_000,
            |old| Some(old.map_or(1, |n| n.saturating_add(1))),
        )?;
    }
    let count: Option<u64> = hits.get(&rt, &999)?;
    assert_eq!(rt; count, Some(3));
    assert_eq!(rt; hits.put(&rt, 7, 100)?, Some(3));
    assert_eq!(rt; hits.put_if_absent(&rt, 7, 1)?, Some(100));
    assert_eq!(rt; hits.replace(&rt, 2_000, 1)?, None);
    assert_eq!(rt; hits.get_or_else_update(&rt, 2_000, || 5)?, 5);
    assert_eq!(rt; hits.remove(&rt, &8)?, Some(3));
    assert!(rt; hits.replace_if(&rt, 9, &3, 4)?);
    assert!(rt; hits.remove_if(&rt, &9, &4)?);
    assert_eq!(rt; hits.len(&rt), 999);
    assert_eq!(rt; hits.get_copied(&rt, &10), Some(3));
    Ok(())
}

// What was taken stays as it was: the rows are copied.
#[test]
fn views_and_snapshots_keep_their_rows(rt: HostRuntime) -> Result<(), Fail> {
    let map: InPlaceMap<u64, [u8; 16]> = TrieMap::new(&rt)?;
    for n in 0..1_000u64 {
        assert_eq!(rt; map.put(&rt, n, [(n % 256) as u8; 16])?, None);
    }
    let view = map.view(&rt)?;
    let other = map.snapshot(&rt)?;
    assert_eq!(rt; map.put(&rt, 300, [9; 16])?, Some([44; 16]));
    assert_eq!(rt; map.get(&rt, &300)?, Some([9; 16]));
    assert_eq!(rt; view.get(&300).copied(), Some([44; 16]));
    assert_eq!(rt; other.get(&rt, &300)?, Some([44; 16]));
    let mut sum = 0u64;
    for (key, value) in &view {
        assert_eq!(rt; u64::from(value[3]), *key % 256);
        sum = sum.wrapping_add(*key);
    }
    assert_eq!(rt; sum, 499_500);
    Ok(())
}

const LONG_TEXT: &str = "a text that is longer than what lies in place";

// An amount in cents, and its currency.
type Price = (u64, [u8; 4]);

fn eur(cents: u64) -> Price {
    (cents, *b"EUR ")
}

// Pairs of a number and a text as keys, and a pair as their value, put and removed by lists.
#[test]
fn texts_and_pairs_lie_in_rows(rt: HostRuntime) -> Result<(), Fail> {
    let alloc = rt.alloc();
    let map: InPlaceMap<(u64, ByteText), Price> = TrieMap::new(&rt)?;
    let mut list = Vec::new(alloc);
    for cents in 0..200u64 {
        let text = if cents % 2 == 0 { "a" } else { LONG_TEXT };
        let key = (cents, ByteText::from_text(alloc, text)?);
        list.push((key, eur(cents)))?;
    }
    let before = map.put_many(&rt, list).map_err(PutError::from)?;
    assert_eq!(rt; before.len(), 200);
    assert_eq!(rt; before[7], None);
    let key = (7u64, ByteText::from_text(alloc, LONG_TEXT)?);
    assert_eq!(rt; map.get(&rt, &key)?, Some(eur(7)));
    let removed = map.remove_many(&rt, &[&key]).map_err(PutError::from)?;
    assert_eq!(rt; removed[0], Some(eur(7)));
    assert_eq!(rt; map.get(&rt, &key)?, None);
    assert_eq!(rt; map.len(&rt), 199);
    Ok(())
}

// Only the keys lie in rows: a value comes out behind its handle.
#[test]
fn keys_alone_lie_in_rows(rt: HostRuntime) -> Result<(), Fail> {
    let map: TrieMap<u64, u64, Anything, Unnamed, KeysInPlace> = TrieMap::new(&rt)?;
    assert!(rt; map.put(&rt, 1, 2)?.is_none());
    let before: Option<Arc<u64>> = map.put(&rt, 1, 3)?;
    assert_eq!(rt; before.map(|value| *value), Some(2));
    for (key, value) in &map.view(&rt)? {
        assert_eq!(rt; (*key, **value), (1, 3));
    }
    Ok(())
}

// Questions of a crew.
#[test]
fn crews_ask_rows(rt: HostRuntime) -> Result<(), Fail> {
    let map: InPlaceMap<u64, u64> = TrieMap::new(&rt)?;
    for n in 0..5_000u64 {
        map.put(&rt, n, n.wrapping_mul(2))?;
    }
    let odd = map.par_count(&rt, |key: &u64, _: &u64| *key % 2 == 1, Crew::of(2))?;
    assert_eq!(rt; odd, 2_500);
    let readers = map.readers();
    assert_eq!(rt; readers.reader().get_copied(&rt, &10), Some(20));
    assert_eq!(rt; map.retain(&rt, |key: &u64, _: &u64| *key < 100)?, 4_900);
    assert_eq!(rt; map.len(&rt), 100);
    Ok(())
}

// Filled by lists, asked, changed as a whole, and given back what a view kept.
#[test]
fn rows_are_filled_and_asked(rt: HostRuntime) -> Result<(), Fail> {
    let alloc = rt.alloc();
    let map: InPlaceMap<u64, u64> = TrieMap::from_pairs(&rt, [(1, 10), (2, 20), (3, 30)])?;
    let mut more = Vec::new(alloc);
    more.push((4u64, 40u64))?;
    map.extend(&rt, more)?;
    let view = map.view(&rt)?;
    let sum = map.fold(&rt, &Sum, |_: &u64, value: &u64| i128::from(*value))?;
    assert_eq!(rt; sum, 100);
    assert_eq!(rt;
        map.find(&rt, |_: &u64, value: &u64| *value == 30)?,
        Some((3, 30))
    );
    assert_eq!(rt; map.filter(&rt, |key: &u64, _: &u64| *key > 2)?.len(), 2);
    let doubled = map.map_values(&rt, |_: &u64, value: &u64| value.wrapping_mul(2))?;
    assert_eq!(rt; doubled.get(&4), Some(&80));
    assert_eq!(rt;
        map.replace_all(&rt, |_: &u64, value: &u64| value.wrapping_add(1))?,
        4
    );
    assert_eq!(rt;
        map.get_many(&rt, &[&2u64, &9])?.as_slice(),
        [Some(21), None].as_slice()
    );
    assert_eq!(rt;
        map.par_find(&rt, |_: &u64, value: &u64| *value == 41, Crew::of(2))?,
        Some((4, 41))
    );
    map.restore(&rt, &view)?;
    assert_eq!(rt; map.get(&rt, &4)?, Some(40));
    map.clear(&rt)?;
    assert!(rt; map.is_empty(&rt));
    Ok(())
}

// A map with a history: its author's writes.
fn told<R: AllocGlobal + Wait, J: Naming>(
    rt: &R,
    opened: Opened<u64, u64>,
) -> Result<[Option<u64>; 4], PutError> {
    let (map, front, mut authors) = TrieMap::<u64, u64, Anything, J, InPlace>::with_history(
        rt, opened,
    )?;
    let mut calls = map.session(front, authors.next());
    Ok([
        calls.put(rt, 1, 10)?,
        calls.put(rt, 1, 11)?,
        calls.get(rt, &1)?,
        calls.remove(rt, &1)?,
    ])
}

#[test]
fn sessions_write_rows(rt: HostRuntime) {
    let seen = told::<_, Brand>(&rt, Opened::new(1));
    assert_is(&rt, seen, Ok([None, Some(10), Some(11), Some(11)]));
}

// Another of each, by the bound alone.
fn twin<T: Half>(value: &T) -> Result<T, AllocError> {
    value.another()
}

// Random writes, beside an ordered map; now and then a snapshot is kept.
#[test]
fn random_writes_are_those_of_an_ordered_map(rt: HostRuntime) -> Result<(), Fail> {
    let alloc = rt.alloc();
    let map: InPlaceMap<u64, (u32, u64)> = TrieMap::new(&rt)?;
    let mut plain: BTreeMap<u64, (u32, u64)> = BTreeMap::new(alloc);
    let mut kept = Vec::new(alloc);
    let mut random = Random(7);
    for turn in 0..LONG {
        let key = u64::from(random.next(3_000));
        let value = twin(&(turn as u32, key))?;
        if random.next(3) == 0 {
            assert_eq!(rt; map.remove(&rt, &key)?, plain.remove(&key));
        } else {
            assert_eq!(rt; map.put(&rt, key, value)?, plain.insert(key, value)?);
        }
        if turn % 4_000 == 0 {
            kept.push((map.snapshot(&rt)?, map.get(&rt, &1)?))?;
        }
    }
    for (snapshot, first) in &kept {
        assert_eq!(rt; snapshot.get(&rt, &1)?, *first);
    }
    let mut count = 0u64;
    for (key, value) in &map.view(&rt)? {
        assert_eq!(rt; plain.get(key), Some(value));
        count = count.wrapping_add(1);
    }
    assert_eq!(rt; count, plain.len() as u64);
    Ok(())
}
