//! What clients ask, as plain values, and the commands among them as a table takes them.

use crate::questions::Question;
use handles::Command;
use std::alloc::{AllocError, Global};
use std::sync::Arc;
use test_keys::ChosenKey;

/// What is done on one map, at a key where there is one.
#[derive(Clone, Copy, Debug, PartialEq, Eq)]
pub enum Do {
    Get(ChosenKey),
    Put(ChosenKey, u64),
    PutIfAbsent(ChosenKey, u64),
    Replace(ChosenKey, u64),
    ReplaceIf(ChosenKey, u64, u64),
    Remove(ChosenKey),
    RemoveIf(ChosenKey, u64),
    Size,
    Clear,
}

/// What a client asks.
#[derive(Clone, Copy, Debug, PartialEq, Eq)]
pub enum Request {
    Open(u32),
    Snapshot(u32, u32),
    Drop(u32),
    On(u32, Do),
    View(u32),
    Freeze(u32, Question),
    Finish(u64),
    Abandon(u64),
}

impl Do {
    /// The key that it would put where that is absent.
    pub fn puts(self) -> Option<ChosenKey> {
        match self {
            Do::Put(key, _) | Do::PutIfAbsent(key, _) => Some(key),
            _ => None,
        }
    }
}

impl Request {
    /// The handle that is read, written, dropped, frozen or snapshotted.
    pub fn source(self) -> Option<u32> {
        match self {
            Request::Snapshot(handle, _) | Request::Drop(handle) => Some(handle),
            Request::On(handle, _) => Some(handle),
            Request::View(handle) | Request::Freeze(handle, _) => Some(handle),
            Request::Open(_) | Request::Finish(_) | Request::Abandon(_) => None,
        }
    }

    /// The number that is opened or reserved.
    pub fn wanted(self) -> Option<u32> {
        match self {
            Request::Open(handle) | Request::Snapshot(_, handle) => Some(handle),
            Request::Freeze(_, question) => question.target(),
            _ => None,
        }
    }

    /// The job that is closed.
    pub fn closed(self) -> Option<u64> {
        match self {
            Request::Finish(job) | Request::Abandon(job) => Some(job),
            _ => None,
        }
    }

    /// Whether it opens a job.
    pub fn is_freeze(self) -> bool {
        matches!(self, Request::Freeze(_, _))
    }
}

/// The key, as calls take it.
///
/// # Errors
///
/// There is no memory.
pub fn shared_key(alloc: Global, key: ChosenKey) -> Result<Arc<ChosenKey>, AllocError> {
    Ok(Arc::new(alloc, key)?)
}

fn shared_value(alloc: Global, value: u64) -> Result<Arc<u64>, AllocError> {
    Ok(Arc::new(alloc, value)?)
}

/// The command of what is done.
///
/// # Errors
///
/// There is no memory.
pub fn command_of(alloc: Global, what: Do) -> Result<Command<ChosenKey, u64>, AllocError> {
    Ok(match what {
        Do::Get(key) => Command::Get(shared_key(alloc, key)?),
        Do::Put(key, value) => Command::Put(shared_key(alloc, key)?, shared_value(alloc, value)?),
        Do::PutIfAbsent(key, value) => {
            Command::PutIfAbsent(shared_key(alloc, key)?, shared_value(alloc, value)?)
        }
        Do::Replace(key, value) => {
            Command::Replace(shared_key(alloc, key)?, shared_value(alloc, value)?)
        }
        Do::ReplaceIf(key, old, value) => {
            let (old, value) = (shared_value(alloc, old)?, shared_value(alloc, value)?);
            Command::ReplaceIf(shared_key(alloc, key)?, old, value)
        }
        Do::Remove(key) => Command::Remove(shared_key(alloc, key)?),
        Do::RemoveIf(key, value) => {
            Command::RemoveIf(shared_key(alloc, key)?, shared_value(alloc, value)?)
        }
        Do::Size => Command::Size,
        Do::Clear => Command::Clear,
    })
}
