//! The replies of all lines, from those of each client.

ghost use Rattle.std.specs.Prelude.{◌≡◌, ◌≢◌, ◌<◌, IfOk, Ok, [], map, slice_index_or, vec_len};
ghost use Rattle.reply_order.specs.ReplyOrder.{AreMerged, AreRepliesTo, IsNext};

use script::{CommandLine, LineReply, push_line};
use std::alloc::{AllocError, Global};
use versions::NoMemory;

/// What each client came to, if none wanted memory.
pub fn all_of(
    alloc: Global,
    outs: Vec<Result<Vec<LineReply>, NoMemory>>,
) -> Result<Vec<Vec<LineReply>>, NoMemory>
    ensures { IfOk result (λ all. map (λ replies. Ok replies) all.items ≡ outs.items) }
{
    let mut all = Vec::new(alloc);
    for out in outs {
        all.push(out?)?;
    }
    Ok(all)
}

/// Writes the replies of the lines in their order, each behind its line's number. The replies of each client stand in
/// the order of its lines.
///
/// # Errors
///
/// Memory was refused.
pub fn replies_in_order(
    alloc: Global,
    lines: &[CommandLine],
    clients: &[Vec<LineReply>],
) -> Result<Vec<u8>, NoMemory>
    requires { AreRepliesTo lines.now (map (λ replies. replies.items) clients.now) }
    ensures { IfOk result (λ text. AreMerged lines.now (map (λ replies. replies.items) clients.now) text.items) }
{
    merged(alloc, lines, starts_of(alloc, clients)?)
}

/// All replies of each client.
fn starts_of<'a>(
    alloc: Global,
    clients: &'a [Vec<LineReply>],
) -> Result<Vec<&'a [LineReply]>, AllocError>
    ensures { IfOk result (λ starts. map (λ replies. replies.now) starts.items ≡ map (λ replies. replies.items) clients.now) }
{
    let mut starts = Vec::with_capacity(alloc, clients.len())?;
    for replies in clients {
        starts.push(replies.as_slice())?;
    }
    Ok(starts)
}

/// Writes them, by what is left of each client's.
fn merged(
    alloc: Global,
    lines: &[CommandLine],
    starts: Vec<&[LineReply]>,
) -> Result<Vec<u8>, NoMemory>
    requires { AreRepliesTo lines.now (map (λ replies. replies.now) starts.items) }
    ensures { IfOk result (λ text. AreMerged lines.now (map (λ replies. replies.now) starts.entry.items) text.items) }
{
    let mut left = starts;
    let mut text = Vec::new(alloc);
    for line in lines {
        let reply = next_of(&mut left, line.client as usize);
        if push_line(&mut text, line.number, reply).is_err() {
            return Err(NoMemory);
        }
    }
    Ok(text)
}

/// The first reply of what is left of the client's, which is then left no more.
fn next_of<'a>(left: &mut Vec<&'a [LineReply]>, client: usize) -> &'a LineReply
    requires client { client < vec_len left.old }
    requires some { slice_index_or (map (λ replies. replies.now) left.old.items) client [] ≢ [] }
    ensures { IsNext (map (λ replies. replies.now) left.old.items) client result.now (map (λ replies. replies.now) left.new.items) }
{
    match left[client].split_first() {
        Some((reply, rest)) => {
            left[client] = rest;
            reply
        }
        None => unreachable!(),
    }
}
