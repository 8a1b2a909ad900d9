//! The calls of a history.

use crate::answer::Contents;
use std::fmt;

/// How many keys there are.
pub const KEYS: usize = 4;

/// The keys, in the order of their stripes: those of the digits 0, 8, 21 and 31. A view takes the stripes in this order.
pub const ALL_KEYS: [u64; KEYS] = [5, 13, 16, LAST_KEY];

pub const LAST_KEY: u64 = 26;

/// A call.
#[derive(Clone, Copy)]
pub enum Call {
    /// A call on one key.
    Key(u64, KeyCall),
    /// A read of one key by the thread's reader.
    Reader(u64, ReaderCall),
    /// A call on the whole map.
    Map(MapCall),
}

/// A call on one key, with the values that it is given.
#[derive(Clone, Copy)]
pub enum KeyCall {
    Get,
    GetCopied,
    Read,
    Put(u64),
    PutIfAbsent(u64),
    Replace(u64),
    ReplaceIf(u64, u64),
    Remove,
    RemoveIf(u64),
    RemoveWhereOdd,
    Update(u64),
    UpdateWith(u64),
    GetOrElseUpdate(u64),
    TryGetOrElseUpdate(u64),
}

/// A read of one key by a reader.
#[derive(Clone, Copy)]
pub enum ReaderCall {
    GetCopied,
    Read,
}

/// A call on the whole map.
#[derive(Clone, Copy)]
pub enum MapCall {
    View,
    Snapshot,
    Len,
    Clear,
    /// All pairs are replaced by these.
    Restore(Contents),
}

impl fmt::Display for Call {
    fn fmt<W: fmt::Write>(&self, f: &mut fmt::Formatter<W>) -> fmt::Result {
        match self {
            Call::Key(key, call) => {
                write!(f, "{} {key}", call.name())?;
                call.write_values(f)
            }
            Call::Reader(key, call) => write!(f, "{} {key}", call.name()),
            Call::Map(MapCall::Restore(contents)) => write_restore(f, *contents),
            Call::Map(call) => f.write_str(call.name()),
        }
    }
}

impl KeyCall {
    // The name of the call.
    fn name(&self) -> &'static str {
        match self {
            KeyCall::Get => "get",
            KeyCall::GetCopied => "get_copied",
            KeyCall::Read => "read",
            KeyCall::Put(_) => "put",
            KeyCall::PutIfAbsent(_) => "put_if_absent",
            KeyCall::Replace(_) => "replace",
            KeyCall::ReplaceIf(_, _) => "replace_if",
            KeyCall::Remove => "remove",
            KeyCall::RemoveIf(_) => "remove_if",
            KeyCall::RemoveWhereOdd => "remove_where_odd",
            KeyCall::Update(_) => "update",
            KeyCall::UpdateWith(_) => "update_with",
            KeyCall::GetOrElseUpdate(_) => "get_or_else_update",
            KeyCall::TryGetOrElseUpdate(_) => "try_get_or_else_update",
        }
    }

    // Writes the values that the call is given, each behind a space.
    fn write_values<W: fmt::Write>(&self, f: &mut fmt::Formatter<W>) -> fmt::Result {
        match self {
            KeyCall::Get | KeyCall::GetCopied | KeyCall::Read => Ok(()),
            KeyCall::Remove | KeyCall::RemoveWhereOdd => Ok(()),
            KeyCall::ReplaceIf(old, value) => write!(f, " {old} {value}"),
            KeyCall::Put(value) | KeyCall::PutIfAbsent(value) => write!(f, " {value}"),
            KeyCall::Replace(value) | KeyCall::RemoveIf(value) => write!(f, " {value}"),
            KeyCall::Update(value) | KeyCall::UpdateWith(value) => write!(f, " {value}"),
            KeyCall::GetOrElseUpdate(value) | KeyCall::TryGetOrElseUpdate(value) => {
                write!(f, " {value}")
            }
        }
    }
}

impl ReaderCall {
    /// The name of the call.
    pub fn name(&self) -> &'static str {
        match self {
            ReaderCall::GetCopied => "reader_get_copied",
            ReaderCall::Read => "reader_read",
        }
    }
}

impl MapCall {
    // The name of the call.
    fn name(&self) -> &'static str {
        match self {
            MapCall::View => "view",
            MapCall::Snapshot => "snapshot",
            MapCall::Len => "len",
            MapCall::Clear => "clear",
            MapCall::Restore(_) => "restore",
        }
    }
}

// Writes the name and the value of each key, 0 for none: no call writes a 0.
fn write_restore<W: fmt::Write>(f: &mut fmt::Formatter<W>, contents: Contents) -> fmt::Result {
    f.write_str("restore")?;
    for value in contents.values {
        write!(f, " {}", value.unwrap_or(0))?;
    }
    Ok(())
}
