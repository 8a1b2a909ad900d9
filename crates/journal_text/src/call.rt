//! The text of what is asked.

ghost use Rattle.std.specs.Prelude.{◌≡◌, ◌++◌, ◌∷◌, OnOk};
ghost use Rattle.std.specs.Fmt.{decimal, signed_decimal};
ghost use Rattle.versions.specs.Commands.{put_if_absent};
ghost use Rattle.handles.specs.Machine.{on};
ghost use Rattle.handles.specs.Views.{asked_of, command_of, request_of};
ghost use Rattle.journal_text.specs.Calls.{call_text};

use handles::{Call, Command, Request};
use keys::ByteText;
use questions::ScriptRequest;
use std::io;
use std::io::Write;

/// Appends the text of what is asked.
pub fn push_call(out: &mut Vec<u8>, asked: &ScriptRequest) -> io::Result<()>
    ensures { OnOk result (out.new.items ≡ out.old.items ++ call_text (asked_of asked.now)) }
{
    match asked {
        Request::Call(call) => push_table_call(out, call),
        Request::View(handle) => write!(out, "view {handle}"),
        Request::Freeze(handle, query) => {
            write!(out, "freeze ")?;
            query.push_to(out, *handle)
        }
        Request::Finish(job) => write!(out, "finish {job}"),
        Request::Abandon(job) => write!(out, "abandon {job}"),
    }
}

fn push_table_call(out: &mut Vec<u8>, call: &Call<ByteText, i64>) -> io::Result<()>
    ensures { OnOk result (out.new.items ≡ out.old.items ++ call_text (request_of call.now)) }
{
    match call {
        Call::Open(handle) => write!(out, "open {handle}"),
        Call::Snapshot(handle, to) => write!(out, "snap {handle} {to}"),
        Call::Drop(handle) => write!(out, "drop {handle}"),
        Call::On(handle, command) => push_command(out, *handle, command),
    }
}

fn push_command(out: &mut Vec<u8>, handle: u32, command: &Command<ByteText, i64>) -> io::Result<()>
    ensures { OnOk result (out.new.items ≡ out.old.items ++ call_text (on handle (command_of command.now))) }
{
    match command {
        Command::Get(key) => push_key(out, "get", handle, key),
        Command::Put(key, value) => push_pair(out, "put", handle, key, **value),
        Command::PutIfAbsent(key, value) => push_if_absent(out, handle, key, **value),
        Command::Replace(key, value) => push_pair(out, "replace", handle, key, **value),
        Command::ReplaceIf(key, old, value) => {
            push_pair(out, "replaceif", handle, key, **old)?;
            write!(out, " {}", **value)
        }
        Command::Remove(key) => push_key(out, "remove", handle, key),
        Command::RemoveIf(key, value) => push_pair(out, "removeif", handle, key, **value),
        Command::Size => write!(out, "size {handle}"),
        Command::Clear => write!(out, "clear {handle}"),
    }
}

fn push_if_absent(out: &mut Vec<u8>, handle: u32, key: &ByteText, value: i64) -> io::Result<()>
    ensures { OnOk result (out.new.items ≡ out.old.items ++ call_text (on handle (put_if_absent key.now value))) }
{
    push_pair(out, "putifabsent", handle, key, value)
}

fn push_key(out: &mut Vec<u8>, verb: &str, handle: u32, key: &ByteText) -> io::Result<()>
    ensures { OnOk result (out.new.items ≡ out.old.items ++ (verb.now ++ 32 ∷ decimal handle ++ 32 ∷ key.now)) }
{
    write!(out, "{verb} {handle} ")?;
    out.extend_from_slice(key.as_bytes())?;
    Ok(())
}

fn push_pair(
    out: &mut Vec<u8>,
    verb: &str,
    handle: u32,
    key: &ByteText,
    value: i64,
) -> io::Result<()>
    ensures { OnOk result (out.new.items ≡ out.old.items ++ (verb.now ++ 32 ∷ decimal handle ++ 32 ∷ key.now ++ 32 ∷ signed_decimal value)) }
{
    push_key(out, verb, handle, key)?;
    write!(out, " {value}")
}
