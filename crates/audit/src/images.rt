//! The map of images that a text gives.

ghost use Rattle.std.specs.Prelude.{◌≡◌, ◌↔◌, ℕ, FitsSigned, IfOk, IsTrue, MatchOption, None, OnOk, Some};
ghost use Rattle.std.specs.Arc.{arc_value};
ghost use Rattle.std.specs.Int.{w64};
ghost use Rattle.keys.specs.Order.{bytes_cmp};
ghost use Rattle.arguments.specs.Questions.{image_of};
ghost use Rattle.versions.specs.Map.{IsMap, value_at};
ghost use Rattle.versions.specs.declared.version.TheConstants.{MOST_PAIRS};
ghost use Rattle.bulk_work.specs.Answers as plain;
ghost use Rattle.bulk_work.specs.Answers.{IsImage};
ghost use Rattle.bulk_ops.specs.Queries.{answer_of};
ghost use Rattle.handles.specs.Machine.{finished};
ghost use Rattle.questions.specs.Queries.{IsPartFor, paired};
ghost use Rattle.script.specs.Replies.{text_of};
ghost use Rattle.journal_text.specs.Calls.{outcome_text};
ghost use Rattle.audit.specs.Answers.{NoneInReply};
ghost use Rattle.audit.specs.Images.{HasAllRead, IsPutIfRead};

use crate::judging::is_shown_as;
use crate::reply_parts::part_of;
use crate::values::{Values, values_in_reply};
use arguments::{MapKey, PairMapping};
use bulk_ops::Part;
use bulk_work::Asks;
use iter::pairs;
use keys::ByteText;
use questions::{ScriptPart, ScriptQuery, listing_of};
use script::LineReply;
use std::alloc::Global;
use std::sync::Arc;
use trie_node::walk_lists_map;
use versions::{NoMemory, Refusal, Version, View};

/// A part of images that answers the query for the map and whose reply is this text, if there is one.
///
/// A map that answers has the keys of every other one, in the same order. So the values that the text gives for those
/// keys are read, and each image whose value was read is put into some map that answers: it is then the one that the
/// text gives, if it gives any, and its text is compared.
#[tactic(auto, using(crate::proofs::ReplyPartLemmas::images_for, crate::proofs::ReplyPartLemmas::images_none))]
pub fn images_in_reply(
    alloc: Global,
    mapping: &PairMapping,
    query: &ScriptQuery,
    view: &View<ByteText, i64>,
    reply: &[u8],
) -> Result<Option<ScriptPart>, NoMemory>
    requires { (to : ℕ) × (query.now ≡ paired mapping.now to) }
    ensures { IfOk result (λ found. MatchOption found (NoneInReply query.now view.now reply.now) (λ part. IsPartFor query.now view.now part × (reply.now ≡ outcome_text (finished (plain.summary (answer_of part)))))) }
{
    let some = some_images(alloc, mapping, query, view)?;
    let Ok(read) = values_in_reply(alloc, &some, reply) else {
        drop(some);
        return Err(NoMemory);
    };
    let made = with_read(alloc, mapping, view, some, &read);
    drop(read);
    let map = made?;
    let Ok(images) = map.view() else {
        drop(map);
        return Err(NoMemory);
    };
    match is_listed_as(alloc, &images, reply) {
        Ok(true) => Ok(Some(Part::Images(map, images))),
        Ok(false) => {
            drop(images);
            drop(map);
            Ok(None)
        }
        Err(wanting) => {
            drop(images);
            drop(map);
            Err(wanting)
        }
    }
}

/// Whether this is the text that lists all pairs of the map.
fn is_listed_as(alloc: Global, images: &View<ByteText, i64>, text: &[u8]) -> Result<bool, NoMemory>
    ensures { IfOk result (λ yes. IsTrue yes ↔ (text.now ≡ text_of (LineReply.Pairs images.now))) }
{
    let shown = Some(LineReply::Pairs(listing_of(alloc, images)?));
    let is_so = is_shown_as(alloc, &shown, text);
    drop(shown);
    is_so
}

/// Some map that answers the query for the map.
#[tactic(auto, using(crate::proofs::ReplyPartLemmas::made_of))]
fn some_images(
    alloc: Global,
    _mapping: &PairMapping,
    query: &ScriptQuery,
    view: &View<ByteText, i64>,
) -> Result<Version<ByteText, i64>, NoMemory>
    requires { (to : ℕ) × (query.now ≡ paired _mapping.now to) }
    ensures image { IfOk result (λ map. IsImage bytes_cmp (image_of _mapping.now) view.now map.entries) }
    ensures sorted { IfOk result (λ map. IsMap bytes_cmp map.entries) }
    ensures limit { IfOk result (λ map. map.limit ≡ MOST_PAIRS) }
    ensures stamp { IfOk result (λ map. map.stamp ≡ 0) }
{
    let part = part_of(alloc, query, view)?;
    let (_, made) = query.conclude(part);
    match made {
        Some(map) => {
            // Called for its contract: the keys of the map rise strictly.
            map.len();
            Ok(map)
        }
        None => unreachable!(),
    }
}

/// The map of images with each image that was read.
#[tactic(auto, using(crate::proofs::ImageLemmas::walk_begun, crate::proofs::ImageLemmas::walk_over))]
pub fn with_read(
    alloc: Global,
    mapping: &PairMapping,
    view: &View<ByteText, i64>,
    some: Version<ByteText, i64>,
    read: &Values,
) -> Result<Version<ByteText, i64>, NoMemory>
    requires { IsImage bytes_cmp (image_of mapping.now) view.now some.entries }
    ensures read { IfOk result (λ map. HasAllRead (image_of mapping.now) view.now read.now.entries map.entries) }
    ensures limit { IfOk result (λ map. map.limit ≡ some.limit) }
    ensures stamp { IfOk result (λ map. map.stamp ≡ some.stamp) }
{
    walk_lists_map::<ByteText, i64>();
    // What these tell of the maps: their keys rise strictly.
    view.len();
    some.len();
    let mut map = some;
    for (key, value) in pairs(alloc, view)? {
        let image = mapping.image(alloc, key.as_bytes(), **value)?;
        put_if_read(alloc, &mut map, image.0, image.1, read)?;
    }
    Ok(map)
}

/// Puts the pair into the map, which has its key, if it was read.
fn put_if_read(
    alloc: Global,
    map: &mut Version<ByteText, i64>,
    key: ByteText,
    value: i64,
    read: &Values,
) -> Result<(), NoMemory>
    requires { value_at bytes_cmp map.old.entries key ≡ None → ⊥ }
    ensures put { OnOk result (IsPutIfRead read.now.entries (key, value) map.old.entries map.new.entries) }
    ensures limit { map.new.limit ≡ map.old.limit }
    ensures stamp { map.new.stamp ≡ map.old.stamp }
    ensures range { FitsSigned w64 value }
{
    let key = Arc::new(alloc, key)?;
    if !was_read(read, &key, value)? {
        return Ok(());
    }
    match map.put(alloc, key, Arc::new(alloc, value)?) {
        Ok(_) => Ok(()),
        Err(Refusal::NoMemory) => Err(NoMemory),
        Err(_) => unreachable!(),
    }
}

/// Whether this value of the key was read.
#[tactic(auto, using(crate::proofs::KeyedMaps::found_at))]
fn was_read(read: &Values, key: &Arc<ByteText>, value: i64) -> Result<bool, NoMemory>
    ensures { IfOk result (λ yes. IsTrue yes ↔ (value_at bytes_cmp read.now.entries (arc_value key.now) ≡ Some value)) }
{
    let key = MapKey::new(Arc::try_clone(key)?);
    Ok(read.get(&key) == Some(&value))
}
