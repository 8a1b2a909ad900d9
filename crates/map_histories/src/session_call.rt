//! The calls of a session, and of the readers of a map with a history.

use crate::call::{Call, KeyCall, MapCall, ReaderCall};
use std::fmt;

/// A call of a session, or of a reader beside it.
#[derive(Clone, Copy)]
pub enum SessionCall {
    /// A call on one key.
    Key(u64, OnKey),
    /// A read of one key by the thread's reader.
    Reader(u64, ReaderCall),
    View,
    Clear,
}

/// A session's call on one key, with the value that it is given.
#[derive(Clone, Copy)]
pub enum OnKey {
    Get,
    ContainsKey,
    Put(u64),
    PutIfAbsent(u64),
    Replace(u64),
    Remove,
}

impl SessionCall {
    /// What a session calls in place of a call of the map.
    pub fn of(call: Call) -> SessionCall {
        match call {
            Call::Key(key, call) => SessionCall::Key(key, OnKey::of(call)),
            Call::Reader(key, call) => SessionCall::Reader(key, call),
            Call::Map(MapCall::Clear) => SessionCall::Clear,
            Call::Map(_) => SessionCall::View,
        }
    }
}

impl OnKey {
    // The session's call that is most like a call of the map.
    fn of(call: KeyCall) -> OnKey {
        match call {
            KeyCall::Get | KeyCall::GetCopied => OnKey::Get,
            KeyCall::Read => OnKey::ContainsKey,
            KeyCall::Put(value) | KeyCall::Update(value) | KeyCall::UpdateWith(value) => {
                OnKey::Put(value)
            }
            KeyCall::PutIfAbsent(value)
            | KeyCall::GetOrElseUpdate(value)
            | KeyCall::TryGetOrElseUpdate(value) => OnKey::PutIfAbsent(value),
            KeyCall::Replace(value) | KeyCall::ReplaceIf(_, value) => OnKey::Replace(value),
            KeyCall::Remove | KeyCall::RemoveIf(_) | KeyCall::RemoveWhereOdd => OnKey::Remove,
        }
    }
}

impl fmt::Display for SessionCall {
    fn fmt<W: fmt::Write>(&self, f: &mut fmt::Formatter<W>) -> fmt::Result {
        match self {
            SessionCall::Key(key, OnKey::Get) => write!(f, "session_get {key}"),
            SessionCall::Key(key, OnKey::ContainsKey) => write!(f, "session_contains_key {key}"),
            SessionCall::Key(key, OnKey::Put(value)) => write!(f, "session_put {key} {value}"),
            SessionCall::Key(key, OnKey::PutIfAbsent(value)) => {
                write!(f, "session_put_if_absent {key} {value}")
            }
            SessionCall::Key(key, OnKey::Replace(value)) => {
                write!(f, "session_replace {key} {value}")
            }
            SessionCall::Key(key, OnKey::Remove) => write!(f, "session_remove {key}"),
            SessionCall::Reader(key, call) => write!(f, "{} {key}", call.name()),
            SessionCall::View => f.write_str("session_view"),
            SessionCall::Clear => f.write_str("session_clear"),
        }
    }
}
