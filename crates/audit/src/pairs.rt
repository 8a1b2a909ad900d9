//! The pair that a reply gives.

ghost use Rattle.std.specs.Prelude.{IfOk, MatchOption};
ghost use Rattle.audit.specs.ReplyParts.{HasNoFront, IsFront, IsKeyInReply, IsPairAt, NonePairAt, TellsNoPair};

use arguments::Test;
use bulk_ops::Part;
use keys::ByteText;
use questions::ScriptPart;
use std::alloc::Global;
use std::sync::Arc;
use versions::{NoMemory, View};

/// The key of the pair that the text gives, if it may give one.
#[tactic(auto, using(crate::proofs::ReplyPartLemmas::no_prefix, crate::proofs::ReplyPartLemmas::key_parted))]
pub fn key_in_reply(reply: &[u8]) -> Option<&[u8]>
    ensures { MatchOption result (TellsNoPair reply.now) (λ key. IsKeyInReply reply.now key.now) }
{
    let pair = reply.strip_prefix(b"pair ")?;
    front_of(pair)
}

/// What stands before the last space, if there is one.
#[tactic(auto, using(crate::proofs::SpaceLemmas::none_passed, crate::proofs::SpaceLemmas::one_passed, crate::proofs::SpaceLemmas::front_found, crate::proofs::SpaceLemmas::no_front))]
fn front_of(bytes: &[u8]) -> Option<&[u8]>
    ensures { MatchOption result (HasNoFront bytes.now) (λ front. IsFront bytes.now front.now) }
{
    let mut left = bytes;
    'bytes: while let Some((last, front)) = left.split_last() {
        if *last == b' ' {
            return Some(front);
        }
        left = front;
    }
    None
}

/// The part that is the pair of the key in the map, if it has one that passes the test.
pub fn pair_at(
    alloc: Global,
    test: &Test,
    view: &View<ByteText, i64>,
    key: &[u8],
) -> Result<Option<ScriptPart>, NoMemory>
    ensures { IfOk result (λ found. MatchOption found (NonePairAt test.now view.now key.now) (λ part. IsPairAt test.now view.now key.now part)) }
{
    // A map has a key but once, which is what is said beside the number.
    let _pairs = view.len();
    let key = ByteText::from_slice(alloc, key)?;
    let Some(value) = view.get(&key) else {
        return Ok(None);
    };
    if !test.passes(key.as_bytes(), **value) {
        return Ok(None);
    }
    let value = Arc::try_clone(value)?;
    let key = Arc::new(alloc, key)?;
    Ok(Some(Part::Found(Some((key, value)))))
}
