//! The keys of the benchmarks.

use crate::fault::Fault;
use keys::ByteText;
use rand::seq::SliceRandom;
use rand_pcg::Pcg32;
use slots::KeySlots;
use std::alloc::Global;

/// The key of the number: `k0000000`, `k0000001` and so on.
pub fn text_key(alloc: Global, number: u32) -> Result<ByteText, Fault> {
    let text = format!(in alloc; "k{number:07}")?;
    Ok(ByteText::new(text.into_bytes()))
}

/// The keys of the numbers from 0 to `count` - 1, as they are.
pub fn plain_text_keys(alloc: Global, count: u32) -> Result<Vec<ByteText>, Fault> {
    let mut keys = Vec::with_capacity(alloc, count as usize)?;
    for number in 0..count {
        keys.push(text_key(alloc, number)?)?;
    }
    Ok(keys)
}

/// The keys of the numbers from 0 to `count` - 1, as they lie in the rows of a map.
pub fn text_keys<S: KeySlots<ByteText>>(alloc: Global, count: u32) -> Result<Vec<S::Key>, Fault>
where
    S::Key: Drop,
{
    let mut keys = Vec::with_capacity(alloc, count as usize)?;
    for number in 0..count {
        keys.push(S::new_key(alloc, text_key(alloc, number)?)?)?;
    }
    Ok(keys)
}

/// The numbers from 0 to `count` - 1, as they lie as keys in the rows of a map.
pub fn number_keys<S: KeySlots<u64>>(alloc: Global, count: u32) -> Result<Vec<S::Key>, Fault>
where
    S::Key: Drop,
{
    let mut keys = Vec::with_capacity(alloc, count as usize)?;
    for number in 0..count {
        keys.push(S::new_key(alloc, u64::from(number))?)?;
    }
    Ok(keys)
}

/// The keys as look-ups and removals take them.
pub fn sought<K, S: KeySlots<K>>(alloc: Global, keys: &[S::Key]) -> Result<Vec<&K>, Fault> {
    let mut sought = Vec::with_capacity(alloc, keys.len())?;
    for key in keys {
        sought.push(S::lend_key(key))?;
    }
    Ok(sought)
}

/// The keys in a random order, the same in each run.
pub fn shuffled<'a, K>(alloc: Global, keys: &[&'a K]) -> Result<Vec<&'a K>, Fault> {
    let mut shuffled = Vec::with_capacity(alloc, keys.len())?;
    for key in keys {
        shuffled.push(*key)?;
    }
    shuffled.as_mut_slice().shuffle(&mut Pcg32::new(1, 1));
    Ok(shuffled)
}

/// A key of its own with the same bytes, as a map takes it in.
pub fn copied(alloc: Global, key: &ByteText) -> Result<ByteText, Fault> {
    Ok(ByteText::from_slice(alloc, key.as_bytes())?)
}
