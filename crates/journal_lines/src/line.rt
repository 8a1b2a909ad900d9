//! The line of an entry, and the last one.

ghost use Rattle.std.specs.Prelude.{◌≡◌, ◌≢◌, ◌<◌, ◌^◌, IfOk, IsUtf8, List, MatchOption, ℕ, option_map, string_bytes};
ghost use Rattle.serde_json.specs.View.{view};
ghost use Rattle.journal_lines.specs.Lines.{HasMembers, IsNoLine, end_line, line_data, line_of};
ghost use Rattle.journal_lines.specs.Members.{number_at, text_at};

use serde_json::{Value, json};
use std::alloc::{AllocError, Global};

/// What the line of an entry says.
#[derive(Debug, Drop)]
pub struct Line {
    /// What was asked.
    pub call: String,
    /// What was returned.
    pub reply: String,
    /// The number of the seat.
    pub seat: u64,
}

/// The line of the entry of this number.
///
/// # Errors
///
/// Memory was refused.
pub fn line_text(
    alloc: Global,
    number: u64,
    call: &str,
    reply: &str,
    seat: u64,
) -> Result<String, AllocError>
    ensures { IfOk result (λ s. string_bytes s ≡ line_of number call.now reply.now seat) }
{
    let value = line_value(alloc, number, call, reply, seat)?;
    value.to_string(alloc)
}

/// The members of that line.
fn line_value(
    alloc: Global,
    number: u64,
    call: &str,
    reply: &str,
    seat: u64,
) -> Result<Value, AllocError>
    ensures { IfOk result (λ v. view v ≡ line_data number call.now reply.now seat) }
{
    json!(in alloc; {"call": call, "entry": number, "reply": reply, "seat": seat})
}

/// The line behind the last of `entries` entries.
///
/// # Errors
///
/// Memory was refused.
pub fn last_line(alloc: Global, entries: u64) -> Result<String, AllocError>
    ensures { IfOk result (λ s. string_bytes s ≡ end_line entries) }
{
    json!(in alloc; {"entries": entries})?.to_string(alloc)
}

/// What the line of the entry of this number says, if it is one byte for byte.
///
/// # Errors
///
/// Memory was refused.
pub fn line_in(alloc: Global, number: u64, line: &[u8]) -> Result<Option<Line>, AllocError>
    ensures { IfOk result (λ read. MatchOption read ((call reply : List ℕ) (seat : ℕ) → IsUtf8 call → IsUtf8 reply → seat < 2 ^ 64 → line.now ≢ line_of number call reply seat) (λ l. line.now ≡ line_of number (string_bytes l.call) (string_bytes l.reply) l.seat)) }
{
    let Ok(text) = str::from_utf8(line) else {
        return Ok(None);
    };
    let Some(found) = members_in(alloc, text)? else {
        return Ok(None);
    };
    let spelled = line_text(
        alloc,
        number,
        found.call.as_str(),
        found.reply.as_str(),
        found.seat,
    )?;
    if spelled.as_bytes() == line {
        Ok(Some(found))
    } else {
        Ok(None)
    }
}

/// What the text says, if it is a line at all.
fn members_in(alloc: Global, text: &str) -> Result<Option<Line>, AllocError>
    ensures { IfOk result (λ read. MatchOption read (IsNoLine text.now) (λ l. HasMembers text.now (string_bytes l.call) (string_bytes l.reply) l.seat)) }
{
    let value = match Value::from_str(alloc, text) {
        Ok(value) => value,
        Err(error) => {
            return if error.is_memory() {
                Err(AllocError)
            } else {
                Ok(None)
            };
        }
    };
    let Some(call) = text_at(&value, "call") else {
        return Ok(None);
    };
    let Some(reply) = text_at(&value, "reply") else {
        return Ok(None);
    };
    let Some(seat) = number_at(&value, "seat") else {
        return Ok(None);
    };
    Ok(Some(Line {
        call: String::from_str(alloc, call)?,
        reply: String::from_str(alloc, reply)?,
        seat,
    }))
}

/// The text at the name.
fn text_at<'v>(value: &'v Value, name: &str) -> Option<&'v str>
    ensures { option_map (λ s. s.now) result ≡ text_at name.now (view value.now) }
{
    value.get(name).and_then(Value::as_str)
}

/// The number at the name.
fn number_at(value: &Value, name: &str) -> Option<u64>
    ensures { result ≡ number_at name.now (view value.now) }
{
    value.get(name).and_then(Value::as_u64)
}
