//! Maps of images that find no memory.
ghost use Rattle.std.specs.Prelude.{◌∷◌, []};

use super::super::memory::{MOST_GIVEN, take_all_but};
use super::{
    Imaged, Images, Seen, first, initials, is_of_initials, is_of_one_key, one_key, seen_if_made,
    seen_of, shared,
};
use bulk_ops::ImageFn;
use bulk_work::work;
use combiner::Bulk;
use keys::ByteText;
use splitter::{Piece, whole};
use std::alloc::Global;
use std::panic::Expect;
use std::process::Abort;
use std::sync::Arc;
use test_keys::take_all;
use trie_node::NoMemory;

// The images of three pairs, where there is memory.
fn seen_of_piece(rt: &impl Abort, alloc: Global, piece: &Piece<ByteText, i64>) -> Option<Seen> {
    let query = Imaged::MapPairs(initials(alloc), 2);
    seen_if_made(rt, alloc, &work(alloc, piece, &query))
}

#[test]
fn a_map_that_finds_no_memory_refuses(rt: HostRuntime) {
    let alloc = rt.alloc();
    let piece = whole(alloc, first(&rt, alloc, 3));
    let taken = take_all(alloc).expect(&rt, "no list");
    let refused = seen_of_piece(&rt, alloc, &piece).is_none();
    drop(taken);
    assert!(rt; refused);
    let contents = seen_of_piece(&rt, alloc, &piece).expect(&rt, "no images");
    assert!(rt; is_of_initials(contents));
}

// The part of their images, with `given` blocks of memory.
fn made_with(
    rt: &impl Abort,
    alloc: Global,
    piece: &Piece<ByteText, i64>,
    given: usize,
) -> Result<Images, NoMemory> {
    let query = Imaged::MapPairs(initials(alloc), 2);
    let _taken = take_all_but(rt, alloc, given);
    work(alloc, piece, &query)
}

// What their images have with `given` blocks of memory, if they are made.
fn seen_with(
    rt: &impl Abort,
    alloc: Global,
    piece: &Piece<ByteText, i64>,
    given: usize,
) -> Option<Seen> {
    let made = made_with(rt, alloc, piece, given);
    let seen = seen_if_made(rt, alloc, &made);
    drop(made);
    seen
}

#[test]
fn images_are_refused_until_there_is_memory(rt: HostRuntime) {
    let alloc = rt.alloc();
    let piece = whole(alloc, first(&rt, alloc, 3));
    let mut made = None;
    for given in 0..MOST_GIVEN {
        if made.is_none() {
            made = seen_with(&rt, alloc, &piece, given);
            assert!(rt; given > 0 || made.is_none());
        }
    }
    drop(piece);
    assert!(rt; matches!(made, Some(contents) if is_of_initials(contents)));
}

// The part of one pair.
fn one_of<P: ImageFn<ByteText, i64>>(
    rt: &impl Abort,
    alloc: Global,
    query: &Imaged<P>,
    key: &Arc<ByteText>,
    value: &Arc<i64>,
) -> Images
    requires { ⟦<Imaged<P> as Bulk<ByteText, i64>>⟧.ready query.now }
    ensures { ⟦<Imaged<P> as Bulk<ByteText, i64>>⟧.answers query.now ((key.now.value, value.now.value) ∷ []) result }
{
    query.one(alloc, key, value).expect(rt, "no part")
}

// What a part of a=1 has after the image of b=3 was added to it, with `given` blocks of memory or with all of it.
fn added<P: ImageFn<ByteText, i64>>(
    rt: &impl Abort,
    alloc: Global,
    query: &Imaged<P>,
    given: Option<usize>,
) -> (bool, Seen)
    requires { ⟦<Imaged<P> as Bulk<ByteText, i64>>⟧.ready query.now }
{
    let (first, one) = shared(rt, alloc, "a", 1);
    let (second, three) = shared(rt, alloc, "b", 3);
    let mut part = one_of(rt, alloc, query, &first, &one);
    let taken = match given {
        Some(given) => Some(take_all_but(rt, alloc, given)),
        None => None,
    };
    let is_added = query.add(alloc, &mut part, &second, &three).is_ok();
    drop(taken);
    (is_added, seen_of(rt, alloc, &part))
}

#[test]
fn a_refused_image_leaves_the_part_as_it_was(rt: HostRuntime) {
    let alloc = rt.alloc();
    let query = Imaged::MapPairs(initials(alloc), 2);
    for given in 0..MOST_GIVEN {
        let (is_added, contents) = added(&rt, alloc, &query, Some(given));
        if is_added {
            assert!(rt; given > 0);
            return assert_eq!(rt; contents, (2, [Some(1), None, Some(3), None]));
        }
        assert_eq!(rt; contents, (1, [Some(1), None, None, None]));
    }
    assert!(rt; false, "an image is refused with memory to spare");
}

#[test]
fn an_added_image_has_the_value_of_its_closure(rt: HostRuntime) {
    let alloc = rt.alloc();
    let query = Imaged::MapPairs(one_key(alloc), 3);
    let (is_added, contents) = added(&rt, alloc, &query, None);
    assert!(rt; is_added && is_of_one_key(contents));
}

// The join of the images of a=1 and of b=3, with `given` blocks of memory.
fn joined_of_two(rt: &impl Abort, alloc: Global, given: usize) -> Option<Seen> {
    let query = Imaged::MapPairs(initials(alloc), 2);
    let (first, one) = shared(rt, alloc, "a", 1);
    let (second, three) = shared(rt, alloc, "b", 3);
    let left = one_of(rt, alloc, &query, &first, &one);
    let right = one_of(rt, alloc, &query, &second, &three);
    let taken = take_all_but(rt, alloc, given);
    let both = query.join(alloc, &left, &right);
    drop(taken);
    drop((left, right));
    drop((first, one));
    drop((second, three));
    let seen = seen_if_made(rt, alloc, &both);
    drop(both);
    seen
}

#[test]
fn a_join_of_images_is_refused_until_there_is_memory(rt: HostRuntime) {
    let alloc = rt.alloc();
    for given in 0..MOST_GIVEN {
        if let Some(contents) = joined_of_two(&rt, alloc, given) {
            assert!(rt; given > 0);
            return assert_eq!(rt; contents, (2, [Some(1), None, Some(3), None]));
        }
    }
    assert!(rt; false, "a join of images is refused with memory to spare");
}
