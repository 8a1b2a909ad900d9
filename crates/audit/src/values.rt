//! The values that a text gives for the keys of a map.

ghost use Rattle.std.specs.Prelude.{◌≡◌, ◌≤◌, IfOk, MatchOption, OnOk, length};
ghost use Rattle.keys.specs.Order.{bytes_cmp};
ghost use Rattle.versions.specs.Map.{with_pair};
ghost use Rattle.audit.specs.Images.{AreValuesInReply, HasNoValue, IsBehind, IsFromSpace, IsParted, IsReadInto, IsValueOf, LacksBehind};

use arguments::{MapKey, value_of};
use iter::pairs_of;
use keys::ByteText;
use std::alloc::{AllocError, Global};
use std::collections::BTreeMap;
use std::sync::Arc;
use trie_node::walk_lists_map;
use versions::{NoMemory, Version};

/// Values of keys, in the order of their bytes.
pub type Values = BTreeMap<MapKey, i64>;

/// The values that the text gives for the keys of the map, where it is that of a map that has these keys alone.
///
/// The keys are known, so a text is read in one way, even where keys have spaces or equals signs.
pub fn values_in_reply(
    alloc: Global,
    map: &Version<ByteText, i64>,
    reply: &[u8],
) -> Result<Values, NoMemory>
    ensures { IfOk result (λ values. AreValuesInReply map.now.entries reply.now values.entries) }
{
    let mut values = BTreeMap::new(alloc);
    let Some(mut left) = reply.strip_prefix(b"pairs") else {
        return Ok(values);
    };
    for (key, _) in sorted_of(alloc, map)? {
        let Some((spelled, behind)) = value_behind(key.as_slice(), left) else {
            return Ok(values);
        };
        put_spelled(&mut values, key, spelled)?;
        left = behind;
    }
    Ok(values)
}

/// The pairs of the map, in the order of their keys' bytes. The keys are shared with the map.
fn sorted_of(alloc: Global, map: &Version<ByteText, i64>) -> Result<Values, NoMemory>
    ensures { IfOk result (λ sorted. sorted.entries ≡ map.now.entries) }
{
    walk_lists_map::<ByteText, i64>();
    // Called for its contract: the keys of the map rise strictly.
    map.len();
    let mut sorted = BTreeMap::new(alloc);
    for (key, value) in pairs_of(alloc, map)? {
        put_pair(&mut sorted, MapKey::new(Arc::try_clone(key)?), **value)?;
    }
    Ok(sorted)
}

/// Puts the pair in its place.
#[tactic(auto, using(crate::proofs::KeyedMaps::insert_put))]
fn put_pair(values: &mut Values, key: MapKey, value: i64) -> Result<(), AllocError>
    ensures { OnOk result (values.new.entries ≡ with_pair bytes_cmp values.old.entries key value) }
{
    values.insert(key, value)?;
    Ok(())
}

/// Puts the value of the key that is spelled so, if it is in the range of i64.
fn put_spelled(values: &mut Values, key: MapKey, spelled: &[u8]) -> Result<(), AllocError>
    ensures { OnOk result (IsReadInto values.old.entries key spelled.now values.new.entries) }
{
    match value_of(spelled) {
        Some(value) => put_pair(values, key, value),
        None => Ok(()),
    }
}

/// The text of the value, and what stands behind it, where a pair of the key stands first.
#[tactic(auto, using(crate::proofs::ValueLemmas::value_parted, crate::proofs::ValueLemmas::value_lacks))]
fn value_behind<'a>(key: &[u8], bytes: &'a [u8]) -> Option<(&'a [u8], &'a [u8])>
    ensures { MatchOption result (HasNoValue key.now bytes.now) (λ parts. IsValueOf key.now bytes.now parts.0.now parts.1.now) }
{
    let Some(rest) = behind_key(key, bytes) else {
        return None;
    };
    Some(parted(rest))
}

/// What stands behind a space, the key and an equals sign, if they stand first.
fn behind_key<'a>(key: &[u8], bytes: &'a [u8]) -> Option<&'a [u8]>
    ensures { MatchOption result (LacksBehind key.now bytes.now) (λ rest. IsBehind key.now bytes.now rest.now) }
{
    let Some(pair) = bytes.strip_prefix(b" ") else {
        return None;
    };
    let Some(rest) = pair.strip_prefix(key) else {
        return None;
    };
    rest.strip_prefix(b"=")
}

/// What stands before the first space, and what stands from it on.
#[tactic(auto, using(crate::proofs::ValueLemmas::parted_so))]
fn parted(bytes: &[u8]) -> (&[u8], &[u8])
    ensures { IsParted bytes.now result.0.now result.1.now }
{
    let behind = from_space(bytes);
    bytes.split_at(bytes.len() - behind.len())
}

/// What stands from the first space on.
#[tactic(auto, using(crate::proofs::ValueLemmas::from_begun, crate::proofs::ValueLemmas::from_more))]
fn from_space(bytes: &[u8]) -> &[u8]
    ensures from { IsFromSpace bytes.now result.now }
    ensures within { length result.now ≤ length bytes.now }
{
    let mut left = bytes;
    'bytes: while let Some((first, rest)) = left.split_first() {
        if *first == b' ' {
            return left;
        }
        left = rest;
    }
    left
}
