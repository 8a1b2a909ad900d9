use crate::{ChosenKey, Random, Shortage, spare_blocks, take_all};
use hash_path::{Path, PathKey};
use std::test::Fail;

fn position_of<K: PathKey>(key: &K) -> u64 {
    key.path().position()
}

#[test]
fn chosen_key_has_its_path(rt: HostRuntime) {
    let key = ChosenKey {
        path: 0xc000_0000_0000_0000,
        id: 7,
    };
    let other = ChosenKey {
        path: 0xc000_0000_0000_0000,
        id: 8,
    };
    assert_eq!(rt; key.path(), Path(0xc000_0000_0000_0000));
    assert_eq!(rt; position_of(&key), 12);
    assert!(rt; key < other);
    assert_ne!(rt; key, other);
}

/// With all memory taken a request is refused; with one spare block given back the next one of its size is met.
#[test]
fn taken_memory_is_refused_until_it_is_given_back(rt: HostRuntime) -> Result<(), Fail> {
    let alloc = rt.alloc();
    let mut spare = spare_blocks(alloc, 1, 64, 16)?;
    let taken = take_all(alloc)?;
    let refused = Vec::<u8>::with_capacity(alloc, 64).is_err();
    let _ = spare.pop();
    let met = Vec::<u8>::with_capacity(alloc, 64).is_ok();
    drop(taken);
    assert!(rt; refused);
    assert!(rt; met);
    assert_eq!(rt; spare.len(), 1);
    Ok(())
}

/// With a shortage a request is refused until as many bytes are given as it takes.
#[test]
fn a_shortage_gives_what_it_is_asked_for(rt: HostRuntime) -> Result<(), Fail> {
    let alloc = rt.alloc();
    let mut shortage = Shortage::new(alloc)?;
    let with_none = Vec::<u8>::with_capacity(alloc, 4096).is_err();
    shortage.give(alloc, 1024)?;
    let with_few = Vec::<u8>::with_capacity(alloc, 4096).is_err();
    shortage.give(alloc, 8192)?;
    let with_enough = Vec::<u8>::with_capacity(alloc, 4096).is_ok();
    drop(shortage);
    assert!(rt; with_none);
    assert!(rt; with_few);
    assert!(rt; with_enough);
    Ok(())
}

/// The first numbers below 1,000 from the state 1. They are those of Knuth's MMIX generator, shifted by 33.
#[test]
fn random_numbers_are_those_of_the_generator(rt: HostRuntime) {
    let mut random = Random(1);
    assert_eq!(rt; random.next(1000), 774);
    assert_eq!(rt; random.next(1000), 153);
    assert_eq!(rt; random.next(0), 0);
}
