//! Whether a text is the reply of a job.

ghost use Rattle.std.specs.Prelude.{◌≡◌, IfOk, MatchOption, false};
ghost use Rattle.bulk_work.specs.Answers as plain;
ghost use Rattle.bulk_ops.specs.Queries.{answer_of};
ghost use Rattle.handles.specs.Machine.{finished};
ghost use Rattle.journal_text.specs.Calls.{outcome_text};
ghost use Rattle.questions.specs.Program.{asks_images};
ghost use Rattle.questions.specs.Queries.{IsPartFor, find};
ghost use Rattle.audit.specs.Answers.{NoneInReply};
ghost use Rattle.audit.specs.ReplyParts.{IsOnlyInReply};

use crate::images::images_in_reply;
use crate::judging::is_shown_as;
use crate::pairs::{key_in_reply, pair_at};
use arguments::Test;
use bulk_work::{Asks, work};
use iter::parts_follow_intervals;
use keys::ByteText;
use questions::{ScriptPart, ScriptQuery, reply_to_answer};
use splitter::whole;
use std::alloc::Global;
use versions::{NoMemory, View};

/// A part that answers the query for the map and whose reply is this text, if there is one.
pub fn part_in_reply(
    alloc: Global,
    query: &ScriptQuery,
    view: &View<ByteText, i64>,
    reply: &[u8],
) -> Result<Option<ScriptPart>, NoMemory>
    ensures { IfOk result (λ found. MatchOption found (NoneInReply query.now view.now reply.now) (λ part. IsPartFor query.now view.now part × (reply.now ≡ outcome_text (finished (plain.summary (answer_of part)))))) }
{
    match query.pair_mapping() {
        Some(mapping) => images_in_reply(alloc, mapping, query, view, reply),
        None => other_part_in_reply(alloc, query, view, reply),
    }
}

/// The same of a query for no images, whose answer a journal shows as a script's reply does.
#[tactic(auto, using(crate::proofs::ReplyPartLemmas::shown_otherwise, crate::proofs::ReplyPartLemmas::told_so))]
fn other_part_in_reply(
    alloc: Global,
    query: &ScriptQuery,
    view: &View<ByteText, i64>,
    reply: &[u8],
) -> Result<Option<ScriptPart>, NoMemory>
    requires { asks_images query.now ≡ false }
    ensures { IfOk result (λ found. MatchOption found (NoneInReply query.now view.now reply.now) (λ part. IsPartFor query.now view.now part × (reply.now ≡ outcome_text (finished (plain.summary (answer_of part)))))) }
{
    let Some(part) = only_part(alloc, query, view, reply)? else {
        return Ok(None);
    };
    let Ok(told) = query.tell(&part) else {
        drop(part);
        return Err(NoMemory);
    };
    let shown = Some(reply_to_answer(told));
    let is_so = is_shown_as(alloc, &shown, reply);
    drop(shown);
    match is_so {
        Ok(true) => Ok(Some(part)),
        Ok(false) => {
            drop(part);
            Ok(None)
        }
        Err(wanting) => {
            drop(part);
            Err(wanting)
        }
    }
}

/// A part that answers the query for the map, if this text may be its reply; no answer but the part's has this text.
#[tactic(auto, using(crate::proofs::ReplyPartLemmas::one_for))]
fn only_part(
    alloc: Global,
    query: &ScriptQuery,
    view: &View<ByteText, i64>,
    reply: &[u8],
) -> Result<Option<ScriptPart>, NoMemory>
    requires { asks_images query.now ≡ false }
    ensures { IfOk result (λ found. MatchOption found (NoneInReply query.now view.now reply.now) (λ part. IsPartFor query.now view.now part × IsOnlyInReply query.now view.now reply.now part)) }
{
    if let Some(test) = query.pair_test() {
        return pair_in_reply(alloc, test, query, view, reply);
    }
    let part = part_of(alloc, query, view)?;
    Ok(Some(part))
}

/// The same of a query for some pair.
#[tactic(auto, using(crate::proofs::ReplyPartLemmas::none_at, crate::proofs::ReplyPartLemmas::pair_for, crate::proofs::ReplyPartLemmas::other_for))]
fn pair_in_reply(
    alloc: Global,
    test: &Test,
    query: &ScriptQuery,
    view: &View<ByteText, i64>,
    reply: &[u8],
) -> Result<Option<ScriptPart>, NoMemory>
    requires { query.now ≡ find test.now }
    ensures { IfOk result (λ found. MatchOption found (NoneInReply query.now view.now reply.now) (λ part. IsPartFor query.now view.now part × IsOnlyInReply query.now view.now reply.now part)) }
{
    let Some(key) = key_in_reply(reply) else {
        let part = part_of(alloc, query, view)?;
        return Ok(Some(part));
    };
    pair_at(alloc, test, view, key)
}

/// The part of the whole map.
pub fn part_of(
    alloc: Global,
    query: &ScriptQuery,
    view: &View<ByteText, i64>,
) -> Result<ScriptPart, NoMemory>
    ensures { IfOk result (λ part. IsPartFor query.now view.now part) }
{
    parts_follow_intervals::<ByteText, i64>();
    let piece = whole(alloc, view.try_clone()?);
    work(alloc, &piece, query)
}
