//! The replies of command lines.

ghost use Rattle.std.specs.Prelude.{◌≡◌, ◌++◌, OnOk};
ghost use Rattle.script.specs.Replies.{line_text, refusal_name, text_of};

use crate::listing::Listing;
use arguments::MapKey;
use std::io;
use std::io::Write;
use versions::Refusal;

/// The reply to a command line.
#[derive(Debug, Drop)]
pub enum LineReply {
    /// It was done, and there is nothing to tell.
    Done,
    /// The key has no value, there is no such pair, or there is no value to fold.
    Absent,
    /// The value of the key.
    Found(i64),
    /// Whether it was done, or is so.
    Truth(bool),
    /// How many pairs there are.
    Count(u64),
    /// A pair.
    Pair(MapKey, i64),
    /// All pairs.
    Pairs(Listing),
    /// What a fold made.
    Item(i128),
    /// It was refused.
    Refused(Refusal),
}

/// Appends a line with the number and the reply.
///
/// # Errors
///
/// Memory was refused.
pub fn push_line(out: &mut Vec<u8>, number: u32, reply: &LineReply) -> io::Result<()>
    ensures { OnOk result (out.new.items ≡ out.old.items ++ line_text number reply.now) }
{
    write!(out, "{number} ")?;
    push_reply(out, reply)?;
    out.push(b'\n')?;
    Ok(())
}

/// Appends the text of the reply.
pub fn push_reply(out: &mut Vec<u8>, reply: &LineReply) -> io::Result<()>
    ensures { OnOk result (out.new.items ≡ out.old.items ++ text_of reply.now) }
{
    match reply {
        LineReply::Done => write!(out, "ok"),
        LineReply::Absent => write!(out, "none"),
        LineReply::Found(value) => write!(out, "some {value}"),
        LineReply::Truth(true) => write!(out, "true"),
        LineReply::Truth(false) => write!(out, "false"),
        LineReply::Count(number) => write!(out, "count {number}"),
        LineReply::Pair(key, value) => {
            write!(out, "pair ")?;
            out.extend_from_slice(key.as_slice())?;
            write!(out, " {value}")
        }
        LineReply::Pairs(pairs) => {
            write!(out, "pairs")?;
            pairs.push_to(out)
        }
        LineReply::Item(number) => write!(out, "item {number}"),
        LineReply::Refused(refusal) => write!(out, "refused {}", name_of(*refusal)),
    }
}

/// The name of the refusal.
pub fn name_of(refusal: Refusal) -> &'static str
    ensures { result.now ≡ refusal_name refusal }
{
    match refusal {
        Refusal::NoHandle => "NoHandle",
        Refusal::Taken => "Taken",
        Refusal::Full => "Full",
        Refusal::NoJob => "NoJob",
        Refusal::Unfinished => "Unfinished",
        Refusal::NoWorker => "NoWorker",
        Refusal::TooManyJobs => "TooManyJobs",
        Refusal::JournalFull => "JournalFull",
        Refusal::NoMemory => "NoMemory",
        Refusal::BadNumber => "BadNumber",
    }
}
