//! The text of what is returned.

ghost use Rattle.std.specs.Prelude.{◌≡◌, ◌++◌, IfOk, OnOk};
ghost use Rattle.bulk_work.specs.Summaries.{summary_of};
ghost use Rattle.handles.specs.Machine.{finished};
ghost use Rattle.handles.specs.Views.{told_of};
ghost use Rattle.script.specs.Replies.{text_of};
ghost use Rattle.journal_text.specs.Calls.{outcome_text};

use arguments::MapKey;
use bulk_work::Answer;
use handles::Outcome;
use keys::ByteText;
use questions::{listing_of, reply_shown};
use script::{LineReply, push_reply};
use std::alloc::Global;
use std::io::Write;
use std::sync::Arc;
use versions::NoMemory;

/// What the table of a program returns.
pub type ScriptOutcome = Outcome<ByteText, i64, Option<i128>>;

/// Appends the text of what is returned.
pub fn push_outcome(
    alloc: Global,
    out: &mut Vec<u8>,
    outcome: &ScriptOutcome,
) -> Result<(), NoMemory>
    ensures { OnOk result (out.new.items ≡ out.old.items ++ outcome_text (told_of outcome.now)) }
{
    let done = match outcome {
        Outcome::Frozen(job, _) => write!(out, "job {job}"),
        Outcome::Reply(reply) => push_reply(out, &reply_shown(reply)),
        Outcome::View(view) => push_reply(out, &LineReply::Pairs(listing_of(alloc, view)?)),
        Outcome::Answer(answer) => push_reply(out, &answer_shown(alloc, answer)?),
        Outcome::Abandoned => push_reply(out, &LineReply::Done),
        Outcome::Refused(refusal) => push_reply(out, &LineReply::Refused(*refusal)),
    };
    match done {
        Ok(()) => Ok(()),
        Err(_) => Err(NoMemory),
    }
}

/// The reply that reports the answer, or lists the map that was made of images.
fn answer_shown(
    alloc: Global,
    answer: &Answer<ByteText, i64, Option<i128>>,
) -> Result<LineReply, NoMemory>
    ensures { IfOk result (λ reply. text_of reply ≡ outcome_text (finished (summary_of answer.now))) }
{
    Ok(match answer {
        Answer::Count(number) => LineReply::Count(*number),
        Answer::Truth(truth) => LineReply::Truth(*truth),
        Answer::Found(Some((key, value))) => {
            LineReply::Pair(MapKey::new(Arc::try_clone(key)?), **value)
        }
        Answer::Found(None) => LineReply::Absent,
        Answer::Made(pairs) => LineReply::Count(*pairs),
        Answer::Images(map) => LineReply::Pairs(listing_of(alloc, map)?),
        Answer::Item(Some(number)) => LineReply::Item(*number),
        Answer::Item(None) => LineReply::Absent,
    })
}
