//! What seats do, as plain values.
use crate::questions::{Query, question_of};
use handles::{Call, Command, Request as Filed};
use std::alloc::{AllocError, Global};
use std::sync::Arc;
use test_keys::ChosenKey;
use test_machine::{Do, Question, Request, command_of, query_of, shared_key};

/// What a seat does: one request, or what makes up to two.
#[derive(Clone, Copy)]
pub enum Deed {
    Ask(Request),
    /// Gets the value of the key on the handle, or stores this one.
    GetOrStore(u32, ChosenKey, u64),
    /// Has a crew answer the question about the handle's map.
    Bulk(u32, Question),
}

/// What a seat does, with all that it takes memory for. The part of a finish is made when it is asked.
#[derive(Drop)]
pub enum Prepared {
    Call(Call<ChosenKey, u64>),
    View(u32),
    Freeze(u32, Arc<Query>),
    Finish(u64),
    Abandon(u64),
    GetOrStore(u32, Arc<ChosenKey>, u64),
    Bulk(u32, Arc<Query>),
}

fn shared_query(alloc: Global, question: Question) -> Result<Arc<Query>, AllocError> {
    Ok(Arc::new(alloc, query_of(question))?)
}

fn prepare_request(alloc: Global, request: Request) -> Result<Prepared, AllocError> {
    Ok(match request {
        Request::Open(handle) => Prepared::Call(Call::Open(handle)),
        Request::Snapshot(handle, to) => Prepared::Call(Call::Snapshot(handle, to)),
        Request::Drop(handle) => Prepared::Call(Call::Drop(handle)),
        Request::On(handle, what) => Prepared::Call(Call::On(handle, command_of(alloc, what)?)),
        Request::View(handle) => Prepared::View(handle),
        Request::Freeze(handle, question) => {
            Prepared::Freeze(handle, shared_query(alloc, question)?)
        }
        Request::Finish(job) => Prepared::Finish(job),
        Request::Abandon(job) => Prepared::Abandon(job),
    })
}

/// Takes the memory for what a seat does.
pub fn prepare(alloc: Global, deed: Deed) -> Result<Prepared, AllocError> {
    match deed {
        Deed::Ask(request) => prepare_request(alloc, request),
        Deed::GetOrStore(handle, key, value) => {
            Ok(Prepared::GetOrStore(handle, shared_key(alloc, key)?, value))
        }
        Deed::Bulk(handle, question) => {
            Ok(Prepared::Bulk(handle, shared_query(alloc, question)?))
        }
    }
}

/// What was asked, as a plain value.
pub fn request_of(asked: &Filed<ChosenKey, u64, Query>) -> Request {
    match asked {
        Filed::Call(call) => plain_call(call),
        Filed::View(handle) => Request::View(*handle),
        Filed::Freeze(handle, query) => Request::Freeze(*handle, question_of(query)),
        Filed::Finish(job) => Request::Finish(*job),
        Filed::Abandon(job) => Request::Abandon(*job),
    }
}

fn plain_call(call: &Call<ChosenKey, u64>) -> Request {
    match call {
        Call::Open(handle) => Request::Open(*handle),
        Call::Snapshot(handle, to) => Request::Snapshot(*handle, *to),
        Call::Drop(handle) => Request::Drop(*handle),
        Call::On(handle, command) => Request::On(*handle, plain_command(command)),
    }
}

fn plain_command(command: &Command<ChosenKey, u64>) -> Do {
    match command {
        Command::Get(key) => Do::Get(**key),
        Command::Put(key, value) => Do::Put(**key, **value),
        Command::PutIfAbsent(key, value) => Do::PutIfAbsent(**key, **value),
        Command::Replace(key, value) => Do::Replace(**key, **value),
        Command::ReplaceIf(key, old, value) => Do::ReplaceIf(**key, **old, **value),
        Command::Remove(key) => Do::Remove(**key),
        Command::RemoveIf(key, value) => Do::RemoveIf(**key, **value),
        Command::Size => Do::Size,
        Command::Clear => Do::Clear,
    }
}
