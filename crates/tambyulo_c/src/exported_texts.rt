//! The exports on a map whose values are texts.

ghost use Rattle.std.specs.Prelude.{◌≡◌, ◌==◌, ℕ, List, [], length};
ghost use Rattle.std.specs.Borrow.{full_share, sem};
ghost use Rattle.std.specs.FinMap.Entries.{where_key};
ghost use Rattle.std.specs.List.{starts_with};
ghost use Rattle.std.specs.Ptr.{lies_at, room_at};
ghost use Rattle.c_map.specs.Limits.{limit_near};
ghost use Rattle.c_map.specs.Texts.{Does, Gets, IsPage};
ghost use Rattle.c_map.specs.Outcomes.{Forks, outcome};
ghost use Rattle.c_map.specs.Stored.{Stored};
ghost use Rattle.keys.specs.Order.{bytes_cmp};
ghost use Rattle.tambyulo_c.specs.Rows.{texts};
ghost use Rattle.versions.specs.Commands as commands;
ghost use Rattle.versions.specs.declared.version.TheConstants.{MOST_PAIRS};

use c_map::texts::{self, Texts};
use c_map::{Answer, Page};
use std::alloc::Global;

/// How many bytes a map takes.
#[unsafe(no_mangle)]
pub extern "C" fn tambyulo_texts_size() -> usize {
    size_of::<Texts>()
}

/// Makes a map with no pairs in the memory.
#[unsafe(no_mangle)]
pub unsafe extern "C" fn tambyulo_texts_init(map: *mut u8)
    requires* { sem 𝓛 (room_at texts map) }
    ensures* { ∃ₛ (λ (n : Stored (List ℕ)). sem 𝓛 (lies_at texts full_share map n) ∗ ⌜ (n.entries ≡ []) × (n.limit ≡ MOST_PAIRS) ⌝) }
{
    (map as *mut Texts).write(texts::new());
}

/// Ends the map, and frees what it has. The memory is the caller's again.
#[unsafe(no_mangle)]
pub unsafe extern "C" fn tambyulo_texts_drop(map: *mut u8)
    ghost m: { Stored (List ℕ) }
    requires* { sem 𝓛 (lies_at texts full_share map m) }
    ensures* { sem 𝓛 (room_at texts map) }
{
    texts::finish((map as *mut Texts).read());
}

/// How many pairs the map has.
#[unsafe(no_mangle)]
pub unsafe extern "C" fn tambyulo_texts_len(map: *mut u8) -> u64
    ghost m: { Stored (List ℕ) }
    requires* { sem 𝓛 (lies_at texts full_share map m) }
    ensures* { ∃ₛ (λ (n : Stored (List ℕ)). sem 𝓛 (lies_at texts full_share map n) ∗ ⌜ (result ≡ length m.entries) × (n ≡ m) ⌝) }
{
    texts::len(&mut *(map as *mut Texts))
}

/// Limits the map to so many pairs, or to the nearest number that it may be limited to, and returns that.
#[unsafe(no_mangle)]
pub unsafe extern "C" fn tambyulo_texts_limit(map: *mut u8, most: u64) -> u64
    ghost m: { Stored (List ℕ) }
    requires* { sem 𝓛 (lies_at texts full_share map m) }
    ensures* { ∃ₛ (λ (n : Stored (List ℕ)). sem 𝓛 (lies_at texts full_share map n) ∗ ⌜ (result ≡ limit_near most (length m.entries)) × (n ≡ record { entries = m.entries; limit = result }) ⌝) }
{
    texts::limit(&mut *(map as *mut Texts), most)
}

/// Whether the key has a value, and how many bytes that has. They are copied to the front of the buffer where they have
/// room there.
#[unsafe(no_mangle)]
pub unsafe extern "C" fn tambyulo_texts_get(map: *mut u8, key: &[u8], buffer: &mut [u8]) -> Answer
    ghost m: { Stored (List ℕ) }
    requires* { sem 𝓛 (lies_at texts full_share map m) }
    ensures* { ∃ₛ (λ (n : Stored (List ℕ)). sem 𝓛 (lies_at texts full_share map n) ∗ ⌜ Gets m key.now (outcome result.status result.value) buffer.old buffer.new n ⌝) }
{
    texts::get(&mut *(map as *mut Texts), key, buffer)
}

/// Maps the key to the value. The answer has the length of the value before.
#[unsafe(no_mangle)]
pub unsafe extern "C" fn tambyulo_texts_put(
    map: *mut u8,
    alloc: Global,
    key: &[u8],
    value: &[u8],
) -> Answer
    ghost m: { Stored (List ℕ) }
    requires* { sem 𝓛 (lies_at texts full_share map m) }
    ensures* { ∃ₛ (λ (n : Stored (List ℕ)). sem 𝓛 (lies_at texts full_share map n) ∗ ⌜ Does m (commands.put key.now value.now) (outcome result.status result.value) n ⌝) }
{
    texts::put(&mut *(map as *mut Texts), alloc, key, value)
}

/// Maps the key to the value where the key is absent. The answer has the length of the value before.
#[unsafe(no_mangle)]
pub unsafe extern "C" fn tambyulo_texts_put_if_absent(
    map: *mut u8,
    alloc: Global,
    key: &[u8],
    value: &[u8],
) -> Answer
    ghost m: { Stored (List ℕ) }
    requires* { sem 𝓛 (lies_at texts full_share map m) }
    ensures* { ∃ₛ (λ (n : Stored (List ℕ)). sem 𝓛 (lies_at texts full_share map n) ∗ ⌜ Does m (commands.put_if_absent key.now value.now) (outcome result.status result.value) n ⌝) }
{
    texts::put_if_absent(&mut *(map as *mut Texts), alloc, key, value)
}

/// Maps the key to the value where the key is present. The answer has the length of the value before.
#[unsafe(no_mangle)]
pub unsafe extern "C" fn tambyulo_texts_replace(
    map: *mut u8,
    alloc: Global,
    key: &[u8],
    value: &[u8],
) -> Answer
    ghost m: { Stored (List ℕ) }
    requires* { sem 𝓛 (lies_at texts full_share map m) }
    ensures* { ∃ₛ (λ (n : Stored (List ℕ)). sem 𝓛 (lies_at texts full_share map n) ∗ ⌜ Does m (commands.replace key.now value.now) (outcome result.status result.value) n ⌝) }
{
    texts::replace(&mut *(map as *mut Texts), alloc, key, value)
}

/// Maps the key to the value where it is mapped to `old`. The answer says whether it was.
#[unsafe(no_mangle)]
pub unsafe extern "C" fn tambyulo_texts_replace_if(
    map: *mut u8,
    alloc: Global,
    key: &[u8],
    old: &[u8],
    value: &[u8],
) -> Answer
    ghost m: { Stored (List ℕ) }
    requires* { sem 𝓛 (lies_at texts full_share map m) }
    ensures* { ∃ₛ (λ (n : Stored (List ℕ)). sem 𝓛 (lies_at texts full_share map n) ∗ ⌜ Does m (commands.replace_if key.now old.now value.now) (outcome result.status result.value) n ⌝) }
{
    texts::replace_if(&mut *(map as *mut Texts), alloc, key, old, value)
}

/// Removes the key. The answer has the length of the value before.
#[unsafe(no_mangle)]
pub unsafe extern "C" fn tambyulo_texts_remove(map: *mut u8, alloc: Global, key: &[u8]) -> Answer
    ghost m: { Stored (List ℕ) }
    requires* { sem 𝓛 (lies_at texts full_share map m) }
    ensures* { ∃ₛ (λ (n : Stored (List ℕ)). sem 𝓛 (lies_at texts full_share map n) ∗ ⌜ Does m (commands.remove key.now) (outcome result.status result.value) n ⌝) }
{
    texts::remove(&mut *(map as *mut Texts), alloc, key)
}

/// Removes the key where it is mapped to the value. The answer says whether it was.
#[unsafe(no_mangle)]
pub unsafe extern "C" fn tambyulo_texts_remove_if(
    map: *mut u8,
    alloc: Global,
    key: &[u8],
    value: &[u8],
) -> Answer
    ghost m: { Stored (List ℕ) }
    requires* { sem 𝓛 (lies_at texts full_share map m) }
    ensures* { ∃ₛ (λ (n : Stored (List ℕ)). sem 𝓛 (lies_at texts full_share map n) ∗ ⌜ Does m (commands.remove_if key.now value.now) (outcome result.status result.value) n ⌝) }
{
    texts::remove_if(&mut *(map as *mut Texts), alloc, key, value)
}

/// Removes all pairs, and returns how many there were.
#[unsafe(no_mangle)]
pub unsafe extern "C" fn tambyulo_texts_clear(map: *mut u8) -> u64
    ghost m: { Stored (List ℕ) }
    requires* { sem 𝓛 (lies_at texts full_share map m) }
    ensures* { ∃ₛ (λ (n : Stored (List ℕ)). sem 𝓛 (lies_at texts full_share map n) ∗ ⌜ (result ≡ length m.entries) × (n ≡ record { entries = []; limit = m.limit }) ⌝) }
{
    texts::clear(&mut *(map as *mut Texts))
}

/// Gives the target the pairs and the limit of the source, in place of its own.
#[unsafe(no_mangle)]
pub unsafe extern "C" fn tambyulo_texts_fork(source: *mut u8, target: *mut u8) -> u64
    ghost g: { Stored (List ℕ) × Stored (List ℕ) }
    requires* { sem 𝓛 (lies_at texts full_share source g.0) ∗ sem 𝓛 (lies_at texts full_share target g.1) }
    ensures* { ∃ₛ (λ (n : Stored (List ℕ) × Stored (List ℕ)). sem 𝓛 (lies_at texts full_share source n.0) ∗ sem 𝓛 (lies_at texts full_share target n.1) ∗ ⌜ Forks g.0 g.1 result n.0 n.1 ⌝) }
{
    texts::fork(&mut *(source as *mut Texts), &mut *(target as *mut Texts))
}

/// Writes as many whole pairs, from one number on, as there is room for.
#[unsafe(no_mangle)]
pub unsafe extern "C" fn tambyulo_texts_page_from(
    map: *mut u8,
    from: u64,
    buffer: &mut [u8],
) -> Page
    ghost m: { Stored (List ℕ) }
    requires* { sem 𝓛 (lies_at texts full_share map m) }
    ensures* { ∃ₛ (λ (n : Stored (List ℕ)). sem 𝓛 (lies_at texts full_share map n) ∗ ⌜ (n ≡ m) × IsPage m from buffer.old result buffer.new ⌝) }
{
    texts::page_from(&mut *(map as *mut Texts), from, buffer)
}

/// How many keys begin with the prefix.
#[unsafe(no_mangle)]
pub unsafe extern "C" fn tambyulo_texts_count_prefix(
    map: *mut u8,
    alloc: Global,
    prefix: &[u8],
) -> u64
    ghost m: { Stored (List ℕ) }
    requires* { sem 𝓛 (lies_at texts full_share map m) }
    ensures* { ∃ₛ (λ (n : Stored (List ℕ)). sem 𝓛 (lies_at texts full_share map n) ∗ ⌜ (result ≡ length (where_key bytes_cmp (λ key. starts_with ◌==◌ key prefix.now) m.entries)) × (n ≡ m) ⌝) }
{
    texts::count_prefix(&mut *(map as *mut Texts), alloc, prefix)
}
