//! Maps of the images of pairs: keys that several images share, no pairs, and closures that find no memory.
ghost use Rattle.std.specs.Prelude.{◌≡◌, ◌∷◌, [], take};

use super::pieces::joined;
use bulk_ops::{ImageFn, PairFn, Part, Query, StoredPairs};
use bulk_work::{Answer, Asks, ask};
use combiner::{Bulk, Sum};
use keys::ByteText;
use std::alloc::Global;
use std::panic::Expect;
use std::process::Abort;
use std::sync::Arc;
use trie_node::{NoMemory, Stamp};
use versions::{Version, View};

mod refused;

// What stands for the closures of other questions, which are not asked here.
#[derive(Drop)]
struct Unasked;

impl PairFn<ByteText, i64, bool> for Unasked {
    ghost use Rattle.std.specs.Prelude.{◌≡◌, false};

    ghost can = { λ none. Unit {0} };

    ghost gives = { λ none key value answer. answer ≡ false };

    fn answer(&self, _key: &ByteText, _value: &i64) -> bool {
        false
    }
}

impl PairFn<ByteText, i64, i64> for Unasked {
    ghost use Rattle.std.specs.Prelude.{◌≡◌};

    ghost can = { λ none. Unit {0} };

    ghost gives = { λ none key value answer. answer ≡ value };

    fn answer(&self, _key: &ByteText, value: &i64) -> i64 {
        *value
    }
}

impl PairFn<ByteText, i64, i128> for Unasked {
    ghost use Rattle.std.specs.Prelude.{◌≡◌};

    ghost can = { λ none. Unit {0} };

    ghost gives = { λ none key value answer. answer ≡ value };

    fn answer(&self, _key: &ByteText, value: &i64) -> i128 {
        i128::from(*value)
    }
}

type Imaged<P> = Query<ByteText, i64, Unasked, Unasked, Sum, Unasked, P>;

type Images = Part<ByteText, i64, i128>;

// The first byte of the key, as a key, with the value.
#[derive(Drop)]
struct Initial {
    alloc: Global,
}

impl ImageFn<ByteText, i64> for Initial {
    ghost use Rattle.std.specs.Prelude.{◌≡◌, IfOk, take};

    ghost can = { λ t. Unit {0} };

    ghost gives = { λ t key value answer. IfOk answer (λ image. image ≡ (take 1 key, value)) };

    fn image(&self, key: &ByteText, value: &i64) -> Result<(ByteText, i64), NoMemory> {
        Ok((ByteText::from_slice(self.alloc, first_byte(key))?, *value))
    }
}

// The first byte of the key, if it has one.
fn first_byte(key: &ByteText) -> &[u8]
    ensures { result.now ≡ take 1 key.now }
{
    let bytes = key.as_bytes();
    if bytes.is_empty() { bytes } else { &bytes[..1] }
}

// One key for all pairs, and a value that no pair has.
#[derive(Drop)]
struct OneKey {
    alloc: Global,
}

impl ImageFn<ByteText, i64> for OneKey {
    ghost use Rattle.std.specs.Prelude.{◌≡◌, ◌∷◌, [], IfOk, pos};

    ghost can = { λ t. Unit {0} };

    ghost gives = { λ t key value answer. IfOk answer (λ image. image ≡ (122 ∷ [], pos 7)) };

    fn image(&self, _key: &ByteText, _value: &i64) -> Result<(ByteText, i64), NoMemory> {
        Ok((ByteText::from_slice(self.alloc, b"z")?, 7))
    }
}

// It finds no memory for the image of the pair with this value, and no other pair is changed.
#[derive(Drop)]
struct RefusedAt {
    alloc: Global,
    value: i64,
}

impl ImageFn<ByteText, i64> for RefusedAt {
    ghost use Rattle.std.specs.Prelude.{◌≡◌, IfOk};

    ghost can = { λ t. Unit {0} };

    ghost gives = { λ t key value answer. IfOk answer (λ image. image ≡ (key, value)) };

    fn image(&self, key: &ByteText, value: &i64) -> Result<(ByteText, i64), NoMemory> {
        if *value == self.value {
            return Err(NoMemory);
        }
        Ok((ByteText::from_slice(self.alloc, key.as_bytes())?, *value))
    }
}

fn initials(alloc: Global) -> StoredPairs<ByteText, i64, Initial> {
    StoredPairs::new(Initial { alloc })
}

fn one_key(alloc: Global) -> StoredPairs<ByteText, i64, OneKey> {
    StoredPairs::new(OneKey { alloc })
}

fn refused_at(alloc: Global, value: i64) -> StoredPairs<ByteText, i64, RefusedAt> {
    StoredPairs::new(RefusedAt { alloc, value })
}

// A key and its value, shared.
fn shared(rt: &impl Abort, alloc: Global, text: &str, value: i64) -> (Arc<ByteText>, Arc<i64>)
    ensures key { result.0.value ≡ text.now }
    ensures value { result.1.value ≡ value }
{
    let key = ByteText::from_text(alloc, text).expect(rt, "no text");
    let key = Arc::new(alloc, key).expect(rt, "no key");
    (key, Arc::new(alloc, value).expect(rt, "no value"))
}

// Puts the value at the key.
fn put(rt: &impl Abort, alloc: Global, map: &mut Version<ByteText, i64>, text: &str, value: i64) {
    let (key, value) = shared(rt, alloc, text, value);
    map.put(alloc, key, value).expect(rt, "not put");
}

// The first pairs of a=1, ab=2, b=3.
fn first(rt: &impl Abort, alloc: Global, number: usize) -> View<ByteText, i64> {
    let mut map = Version::empty(alloc, 100, Stamp(1)).expect(rt, "no map");
    for (text, value) in [("a", 1), ("ab", 2), ("b", 3)].into_iter().take(number) {
        put(rt, alloc, &mut map, text, value);
    }
    map.view().expect(rt, "no view")
}

fn at(rt: &impl Abort, alloc: Global, map: &View<ByteText, i64>, text: &str) -> Option<i64> {
    let key = ByteText::from_text(alloc, text).expect(rt, "no key");
    match map.get(&key) {
        Some(value) => Some(**value),
        None => None,
    }
}

// The values of the map at a, ab, b and z, and how many pairs it has.
type Seen = (u64, [Option<i64>; 4]);

fn seen(rt: &impl Abort, alloc: Global, map: &View<ByteText, i64>) -> Seen {
    let values = [
        at(rt, alloc, map, "a"),
        at(rt, alloc, map, "ab"),
        at(rt, alloc, map, "b"),
        at(rt, alloc, map, "z"),
    ];
    (map.len(), values)
}

// What the map has that an answer shows.
fn seen_by(rt: &impl Abort, alloc: Global, answer: &Answer<ByteText, i64, i128>) -> Seen {
    match answer {
        Answer::Images(map) => seen(rt, alloc, map),
        _ => panic!(rt; "no images"),
    }
}

// What the map of a part of images has.
fn seen_of(rt: &impl Abort, alloc: Global, part: &Images) -> Seen {
    match part {
        Part::Images(_, view) => seen(rt, alloc, view),
        _ => panic!(rt; "no images"),
    }
}

// The same, if the part was made.
fn seen_if_made(rt: &impl Abort, alloc: Global, part: &Result<Images, NoMemory>) -> Option<Seen> {
    match part {
        Ok(part) => Some(seen_of(rt, alloc, part)),
        Err(NoMemory) => None,
    }
}

// What the map that is made has, if one is.
fn seen_in(rt: &impl Abort, alloc: Global, made: &Option<Version<ByteText, i64>>) -> Seen {
    match made {
        Some(map) => seen(rt, alloc, &map.view().expect(rt, "no view")),
        None => panic!(rt; "no map is made"),
    }
}

// What the answer shows of the images of the first `number` pairs, and what the map has that is made of them.
fn images_of<P: ImageFn<ByteText, i64>>(
    rt: &impl Abort,
    alloc: Global,
    number: usize,
    query: &Imaged<P>,
) -> [Seen; 2]
    requires { ⟦<Imaged<P> as Bulk<ByteText, i64>>⟧.ready query.now }
{
    let (answer, made) = ask(alloc, first(rt, alloc, number), query).expect(rt, "no answer");
    [seen_by(rt, alloc, &answer), seen_in(rt, alloc, &made)]
}

// What the images of the two pieces of a cut have, joined.
fn images_of_two<P: ImageFn<ByteText, i64>>(
    rt: &impl Abort,
    alloc: Global,
    query: &Imaged<P>,
) -> Seen
    requires { ⟦<Imaged<P> as Bulk<ByteText, i64>>⟧.ready query.now }
{
    seen_of(rt, alloc, &joined(rt, alloc, first(rt, alloc, 3), query))
}

// Key b has its value; key a has that of a or that of ab.
fn is_of_initials(seen: Seen) -> bool {
    seen == (2, [Some(1), None, Some(3), None]) || seen == (2, [Some(2), None, Some(3), None])
}

// Key z has the image's value, and not that of a pair.
fn is_of_one_key(seen: Seen) -> bool {
    seen == (1, [None, None, None, Some(7)])
}

// All three pairs at once, and the two pieces of a cut.
#[test]
fn images_may_share_keys(rt: HostRuntime) {
    let alloc = rt.alloc();
    let query = Imaged::MapPairs(initials(alloc), 2);
    assert_eq!(rt; query.target(), Some(2));
    for contents in images_of(&rt, alloc, 3, &query) {
        assert!(rt; is_of_initials(contents));
    }
    assert!(rt; is_of_initials(images_of_two(&rt, alloc, &query)));
}

#[test]
fn images_of_one_key_are_one_pair(rt: HostRuntime) {
    let alloc = rt.alloc();
    let query = Imaged::MapPairs(one_key(alloc), 3);
    for contents in images_of(&rt, alloc, 3, &query) {
        assert!(rt; is_of_one_key(contents));
    }
    assert!(rt; is_of_one_key(images_of_two(&rt, alloc, &query)));
}

#[test]
fn no_pairs_have_no_images(rt: HostRuntime) {
    let alloc = rt.alloc();
    let query = Imaged::MapPairs(initials(alloc), 2);
    let (answer, made) = ask(alloc, first(&rt, alloc, 0), &query).expect(&rt, "no answer");
    assert!(rt; matches!(&answer, Answer::Images(map) if map.is_empty()));
    assert!(rt; matches!(&made, Some(map) if map.is_empty()));
}

// Of the first two pairs all images are found; that of the third is not.
#[test]
fn a_closure_that_finds_no_memory_refuses(rt: HostRuntime) {
    let alloc = rt.alloc();
    let query = Imaged::MapPairs(refused_at(alloc, 3), 2);
    assert!(rt; ask(alloc, first(&rt, alloc, 3), &query).is_err());
    let two = (2, [Some(1), Some(2), None, None]);
    assert_eq!(rt; images_of(&rt, alloc, 2, &query), [two; 2]);
}
