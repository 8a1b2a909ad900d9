//! The calls on a map whose values are numbers, as C makes them.

ghost use Rattle.std.specs.Prelude.{◌≡◌, ◌==◌, [], length};
ghost use Rattle.std.specs.FinMap.Entries.{where_key};
ghost use Rattle.std.specs.List.{starts_with};
ghost use Rattle.c_map.specs.Limits.{limit_near};
ghost use Rattle.c_map.specs.Outcomes.{outcome, Forks};
ghost use Rattle.c_map.specs.Numbers.{Done, Does, IsPage};
ghost use Rattle.keys.specs.Order.{bytes_cmp};
ghost use Rattle.versions.specs.Commands as commands;
ghost use Rattle.versions.specs.declared.version.TheConstants.{MOST_PAIRS};

use crate::answer::{Answer, Page};
use crate::map::Map;
use crate::{commands, page, prefix};
use std::alloc::Global;

/// A map from byte texts to numbers.
pub type Numbers = Map<u64>;

/// A map with no pairs.
pub fn new() -> Numbers
    ensures { (result.entries ≡ []) × (result.limit ≡ MOST_PAIRS) }
{
    Map::new()
}

/// Lets the map go, with what it has.
pub fn finish(_map: Numbers) {}

/// How many pairs there are.
pub fn len(map: &mut Numbers) -> u64
    ensures { (result ≡ length map.old.entries) × (map.new ≡ map.old) }
{
    map.len()
}

/// Limits the map to so many pairs, or to the nearest number that it may be limited to, and returns that.
pub fn limit(map: &mut Numbers, most: u64) -> u64
    ensures { (result ≡ limit_near most (length map.old.entries)) × (map.new ≡ record { entries = map.old.entries; limit = result }) }
{
    map.limit_to(most)
}

/// The value of the key.
pub fn get(map: &mut Numbers, key: &[u8]) -> Answer
    ensures { Done map.old (commands.get key.now) (outcome result.status result.value) map.new }
{
    commands::get(map, key)
}

/// Maps the key to the value. The answer has the value before.
pub fn put(map: &mut Numbers, alloc: Global, key: &[u8], value: u64) -> Answer
    ensures { Does map.old (commands.put key.now value) (outcome result.status result.value) map.new }
{
    commands::put(map, alloc, key, value)
}

/// Maps the key to the value where the key is absent. The answer has the value before.
pub fn put_if_absent(map: &mut Numbers, alloc: Global, key: &[u8], value: u64) -> Answer
    ensures { Does map.old (commands.put_if_absent key.now value) (outcome result.status result.value) map.new }
{
    commands::put_if_absent(map, alloc, key, value)
}

/// Maps the key to the value where the key is present. The answer has the value before.
pub fn replace(map: &mut Numbers, alloc: Global, key: &[u8], value: u64) -> Answer
    ensures { Does map.old (commands.replace key.now value) (outcome result.status result.value) map.new }
{
    commands::replace(map, alloc, key, value)
}

/// Maps the key to the value where it is mapped to `old`. The answer says whether it was.
pub fn replace_if(map: &mut Numbers, alloc: Global, key: &[u8], old: u64, value: u64) -> Answer
    ensures { Does map.old (commands.replace_if key.now old value) (outcome result.status result.value) map.new }
{
    commands::replace_if(map, alloc, key, &old, value)
}

/// Removes the key. The answer has the value before.
pub fn remove(map: &mut Numbers, alloc: Global, key: &[u8]) -> Answer
    ensures { Does map.old (commands.remove key.now) (outcome result.status result.value) map.new }
{
    commands::remove(map, alloc, key)
}

/// Removes the key where it is mapped to the value. The answer says whether it was.
pub fn remove_if(map: &mut Numbers, alloc: Global, key: &[u8], value: u64) -> Answer
    ensures { Does map.old (commands.remove_if key.now value) (outcome result.status result.value) map.new }
{
    commands::remove_if(map, alloc, key, &value)
}

/// Removes all pairs. It requests no memory. How many there were is returned.
pub fn clear(map: &mut Numbers) -> u64
    ensures { (result ≡ length map.old.entries) × (map.new ≡ record { entries = []; limit = map.old.limit }) }
{
    let count = map.len();
    map.clear();
    count
}

/// Gives the target the pairs and the limit of the source, in place of its own. The two share every node, and a later
/// write to one leaves the other. 0: done. 3: out of memory, and the target is as before.
pub fn fork(source: &mut Numbers, target: &mut Numbers) -> u64
    ensures { Forks source.old target.old result source.new target.new }
{
    match source.fork() {
        Ok(fork) => {
            *target = fork;
            0
        }
        Err(_) => 3,
    }
}

/// Writes as many whole pairs, from one number on, as there is room for.
pub fn page_from(map: &mut Numbers, from: u64, buffer: &mut [u8]) -> Page
    ensures { (map.new ≡ map.old) × IsPage map.old from buffer.old result buffer.new }
{
    page::page(map, from, buffer)
}

/// How many keys begin with the prefix. It walks over all pairs.
pub fn count_prefix(map: &mut Numbers, alloc: Global, prefix: &[u8]) -> u64
    ensures { (result ≡ length (where_key bytes_cmp (λ key. starts_with ◌==◌ key prefix.now) map.old.entries)) × (map.new ≡ map.old) }
{
    prefix::count_prefix(map, alloc, prefix)
}
