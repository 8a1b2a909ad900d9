//! The exports on a map whose values are numbers.

ghost use Rattle.std.specs.Prelude.{◌≡◌, ◌==◌, ℕ, [], length};
ghost use Rattle.std.specs.Borrow.{full_share, sem};
ghost use Rattle.std.specs.FinMap.Entries.{where_key};
ghost use Rattle.std.specs.List.{starts_with};
ghost use Rattle.std.specs.Ptr.{lies_at, room_at};
ghost use Rattle.c_map.specs.Limits.{limit_near};
ghost use Rattle.c_map.specs.Numbers.{Does, Done, IsPage};
ghost use Rattle.c_map.specs.Outcomes.{Forks, outcome};
ghost use Rattle.c_map.specs.Stored.{Stored};
ghost use Rattle.keys.specs.Order.{bytes_cmp};
ghost use Rattle.tambyulo_c.specs.Rows.{numbers};
ghost use Rattle.versions.specs.Commands as commands;
ghost use Rattle.versions.specs.declared.version.TheConstants.{MOST_PAIRS};

use c_map::numbers::{self, Numbers};
use c_map::{Answer, Page};
use std::alloc::Global;

/// How many bytes a map takes.
#[unsafe(no_mangle)]
pub extern "C" fn tambyulo_size() -> usize {
    size_of::<Numbers>()
}

/// Makes a map with no pairs in the memory.
#[unsafe(no_mangle)]
pub unsafe extern "C" fn tambyulo_init(map: *mut u8)
    requires* { sem 𝓛 (room_at numbers map) }
    ensures* { ∃ₛ (λ (n : Stored ℕ). sem 𝓛 (lies_at numbers full_share map n) ∗ ⌜ (n.entries ≡ []) × (n.limit ≡ MOST_PAIRS) ⌝) }
{
    (map as *mut Numbers).write(numbers::new());
}

/// Ends the map, and frees what it has. The memory is the caller's again.
#[unsafe(no_mangle)]
pub unsafe extern "C" fn tambyulo_drop(map: *mut u8)
    ghost m: { Stored ℕ }
    requires* { sem 𝓛 (lies_at numbers full_share map m) }
    ensures* { sem 𝓛 (room_at numbers map) }
{
    numbers::finish((map as *mut Numbers).read());
}

/// How many pairs the map has.
#[unsafe(no_mangle)]
pub unsafe extern "C" fn tambyulo_len(map: *mut u8) -> u64
    ghost m: { Stored ℕ }
    requires* { sem 𝓛 (lies_at numbers full_share map m) }
    ensures* { ∃ₛ (λ (n : Stored ℕ). sem 𝓛 (lies_at numbers full_share map n) ∗ ⌜ (result ≡ length m.entries) × (n ≡ m) ⌝) }
{
    numbers::len(&mut *(map as *mut Numbers))
}

/// Limits the map to so many pairs, or to the nearest number that it may be limited to, and returns that.
#[unsafe(no_mangle)]
pub unsafe extern "C" fn tambyulo_limit(map: *mut u8, most: u64) -> u64
    ghost m: { Stored ℕ }
    requires* { sem 𝓛 (lies_at numbers full_share map m) }
    ensures* { ∃ₛ (λ (n : Stored ℕ). sem 𝓛 (lies_at numbers full_share map n) ∗ ⌜ (result ≡ limit_near most (length m.entries)) × (n ≡ record { entries = m.entries; limit = result }) ⌝) }
{
    numbers::limit(&mut *(map as *mut Numbers), most)
}

/// The value of the key.
#[unsafe(no_mangle)]
pub unsafe extern "C" fn tambyulo_get(map: *mut u8, key: &[u8]) -> Answer
    ghost m: { Stored ℕ }
    requires* { sem 𝓛 (lies_at numbers full_share map m) }
    ensures* { ∃ₛ (λ (n : Stored ℕ). sem 𝓛 (lies_at numbers full_share map n) ∗ ⌜ Done m (commands.get key.now) (outcome result.status result.value) n ⌝) }
{
    numbers::get(&mut *(map as *mut Numbers), key)
}

/// Maps the key to the value. The answer has the value before.
#[unsafe(no_mangle)]
pub unsafe extern "C" fn tambyulo_put(map: *mut u8, alloc: Global, key: &[u8], value: u64) -> Answer
    ghost m: { Stored ℕ }
    requires* { sem 𝓛 (lies_at numbers full_share map m) }
    ensures* { ∃ₛ (λ (n : Stored ℕ). sem 𝓛 (lies_at numbers full_share map n) ∗ ⌜ Does m (commands.put key.now value) (outcome result.status result.value) n ⌝) }
{
    numbers::put(&mut *(map as *mut Numbers), alloc, key, value)
}

/// Maps the key to the value where the key is absent. The answer has the value before.
#[unsafe(no_mangle)]
pub unsafe extern "C" fn tambyulo_put_if_absent(
    map: *mut u8,
    alloc: Global,
    key: &[u8],
    value: u64,
) -> Answer
    ghost m: { Stored ℕ }
    requires* { sem 𝓛 (lies_at numbers full_share map m) }
    ensures* { ∃ₛ (λ (n : Stored ℕ). sem 𝓛 (lies_at numbers full_share map n) ∗ ⌜ Does m (commands.put_if_absent key.now value) (outcome result.status result.value) n ⌝) }
{
    numbers::put_if_absent(&mut *(map as *mut Numbers), alloc, key, value)
}

/// Maps the key to the value where the key is present. The answer has the value before.
#[unsafe(no_mangle)]
pub unsafe extern "C" fn tambyulo_replace(
    map: *mut u8,
    alloc: Global,
    key: &[u8],
    value: u64,
) -> Answer
    ghost m: { Stored ℕ }
    requires* { sem 𝓛 (lies_at numbers full_share map m) }
    ensures* { ∃ₛ (λ (n : Stored ℕ). sem 𝓛 (lies_at numbers full_share map n) ∗ ⌜ Does m (commands.replace key.now value) (outcome result.status result.value) n ⌝) }
{
    numbers::replace(&mut *(map as *mut Numbers), alloc, key, value)
}

/// Maps the key to the value where it is mapped to `old`. The answer says whether it was.
#[unsafe(no_mangle)]
pub unsafe extern "C" fn tambyulo_replace_if(
    map: *mut u8,
    alloc: Global,
    key: &[u8],
    old: u64,
    value: u64,
) -> Answer
    ghost m: { Stored ℕ }
    requires* { sem 𝓛 (lies_at numbers full_share map m) }
    ensures* { ∃ₛ (λ (n : Stored ℕ). sem 𝓛 (lies_at numbers full_share map n) ∗ ⌜ Does m (commands.replace_if key.now old value) (outcome result.status result.value) n ⌝) }
{
    numbers::replace_if(&mut *(map as *mut Numbers), alloc, key, old, value)
}

/// Removes the key. The answer has the value before.
#[unsafe(no_mangle)]
pub unsafe extern "C" fn tambyulo_remove(map: *mut u8, alloc: Global, key: &[u8]) -> Answer
    ghost m: { Stored ℕ }
    requires* { sem 𝓛 (lies_at numbers full_share map m) }
    ensures* { ∃ₛ (λ (n : Stored ℕ). sem 𝓛 (lies_at numbers full_share map n) ∗ ⌜ Does m (commands.remove key.now) (outcome result.status result.value) n ⌝) }
{
    numbers::remove(&mut *(map as *mut Numbers), alloc, key)
}

/// Removes the key where it is mapped to the value. The answer says whether it was.
#[unsafe(no_mangle)]
pub unsafe extern "C" fn tambyulo_remove_if(
    map: *mut u8,
    alloc: Global,
    key: &[u8],
    value: u64,
) -> Answer
    ghost m: { Stored ℕ }
    requires* { sem 𝓛 (lies_at numbers full_share map m) }
    ensures* { ∃ₛ (λ (n : Stored ℕ). sem 𝓛 (lies_at numbers full_share map n) ∗ ⌜ Does m (commands.remove_if key.now value) (outcome result.status result.value) n ⌝) }
{
    numbers::remove_if(&mut *(map as *mut Numbers), alloc, key, value)
}

/// Removes all pairs, and returns how many there were.
#[unsafe(no_mangle)]
pub unsafe extern "C" fn tambyulo_clear(map: *mut u8) -> u64
    ghost m: { Stored ℕ }
    requires* { sem 𝓛 (lies_at numbers full_share map m) }
    ensures* { ∃ₛ (λ (n : Stored ℕ). sem 𝓛 (lies_at numbers full_share map n) ∗ ⌜ (result ≡ length m.entries) × (n ≡ record { entries = []; limit = m.limit }) ⌝) }
{
    numbers::clear(&mut *(map as *mut Numbers))
}

/// Gives the target the pairs and the limit of the source, in place of its own.
#[unsafe(no_mangle)]
pub unsafe extern "C" fn tambyulo_fork(source: *mut u8, target: *mut u8) -> u64
    ghost g: { Stored ℕ × Stored ℕ }
    requires* { sem 𝓛 (lies_at numbers full_share source g.0) ∗ sem 𝓛 (lies_at numbers full_share target g.1) }
    ensures* { ∃ₛ (λ (n : Stored ℕ × Stored ℕ). sem 𝓛 (lies_at numbers full_share source n.0) ∗ sem 𝓛 (lies_at numbers full_share target n.1) ∗ ⌜ Forks g.0 g.1 result n.0 n.1 ⌝) }
{
    numbers::fork(
        &mut *(source as *mut Numbers),
        &mut *(target as *mut Numbers),
    )
}

/// Writes as many whole pairs, from one number on, as there is room for.
#[unsafe(no_mangle)]
pub unsafe extern "C" fn tambyulo_page_from(map: *mut u8, from: u64, buffer: &mut [u8]) -> Page
    ghost m: { Stored ℕ }
    requires* { sem 𝓛 (lies_at numbers full_share map m) }
    ensures* { ∃ₛ (λ (n : Stored ℕ). sem 𝓛 (lies_at numbers full_share map n) ∗ ⌜ (n ≡ m) × IsPage m from buffer.old result buffer.new ⌝) }
{
    numbers::page_from(&mut *(map as *mut Numbers), from, buffer)
}

/// How many keys begin with the prefix.
#[unsafe(no_mangle)]
pub unsafe extern "C" fn tambyulo_count_prefix(map: *mut u8, alloc: Global, prefix: &[u8]) -> u64
    ghost m: { Stored ℕ }
    requires* { sem 𝓛 (lies_at numbers full_share map m) }
    ensures* { ∃ₛ (λ (n : Stored ℕ). sem 𝓛 (lies_at numbers full_share map n) ∗ ⌜ (result ≡ length (where_key bytes_cmp (λ key. starts_with ◌==◌ key prefix.now) m.entries)) × (n ≡ m) ⌝) }
{
    numbers::count_prefix(&mut *(map as *mut Numbers), alloc, prefix)
}
