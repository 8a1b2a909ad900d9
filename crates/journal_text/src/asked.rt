//! What a text asks.

ghost use Rattle.std.specs.Prelude.{◌≡◌, ◌≢◌, ◌++◌, IfOk, List, MatchOption, codes, false, ℕ};
ghost use Rattle.handles.specs.Views.{asked_of};
ghost use Rattle.questions.specs.Program.{ProgramRequest};
ghost use Rattle.journal_text.specs.Calls.{IsLawfulRequest, call_text};
ghost use Rattle.journal_text.specs.Hearing.{IsHeard, IsNoCall, IsUnheard};

use crate::call::push_call;
use arguments::number_of;
use handles::Request;
use questions::{ScriptRequest, request_of};
use script::statement_in;
use std::alloc::Global;
use versions::NoMemory;

/// What the text asks, if it asks something: the text is the one spelling of that.
///
/// # Errors
///
/// Memory was refused.
#[tactic(auto, using(crate::proofs::HeardLemmas::is_spelled, crate::proofs::HeardLemmas::not_spelled))]
pub fn asked_in(alloc: Global, text: &[u8]) -> Result<Option<ScriptRequest>, NoMemory>
    ensures { IfOk result (λ read. MatchOption read ((r : ProgramRequest) → IsLawfulRequest r → text.now ≡ call_text r → ⊥) (λ asked. IsLawfulRequest (asked_of asked) × (text.now ≡ call_text (asked_of asked)))) }
{
    let Some(asked) = heard(alloc, text)? else {
        return Ok(None);
    };
    let mut spelled = Vec::new(alloc);
    if push_call(&mut spelled, &asked).is_err() {
        return Err(NoMemory);
    }
    if spelled.as_slice() == text {
        Ok(Some(asked))
    } else {
        Ok(None)
    }
}

/// What the text asks, however many spaces stand between its words. Where it is no text of a request, what is heard is
/// spelled otherwise.
#[tactic(auto, using(crate::proofs::HeardLemmas::read_of_any, crate::proofs::HeardLemmas::read_behind, crate::proofs::HeardLemmas::some_behind))]
fn heard(alloc: Global, text: &[u8]) -> Result<Option<ScriptRequest>, NoMemory>
    ensures { IfOk result (λ read. MatchOption read (IsUnheard text.now) (λ asked. IsHeard text.now (asked_of asked))) }
{
    if let Some(number) = behind(text, b"view ") {
        return Ok(view_heard(number));
    }
    if let Some(number) = behind(text, b"finish ") {
        return Ok(finish_heard(number));
    }
    if let Some(number) = behind(text, b"abandon ") {
        return Ok(abandon_heard(number));
    }
    if let Some(question) = behind(text, b"freeze ") {
        return freeze_heard(alloc, question);
    }
    call_heard(alloc, text)
}

/// What stands behind the front, if the text begins with it.
fn behind<'t>(text: &'t [u8], front: &[u8]) -> Option<&'t [u8]>
    ensures { MatchOption result ((rest : List ℕ) → text.now ≢ front.now ++ rest) (λ rest. text.now ≡ front.now ++ rest.now) }
{
    text.strip_prefix(front)
}

/// The view of the handle whose number is written behind `view`.
fn view_heard(number: &[u8]) -> Option<ScriptRequest>
    ensures { MatchOption result (IsUnheard (codes "view " ++ number.now)) (λ asked. IsHeard (codes "view " ++ number.now) (asked_of asked)) }
{
    match number_of(number) {
        Some(handle) => Some(Request::View(handle)),
        None => None,
    }
}

/// The finish of the job whose number is written behind `finish`.
fn finish_heard(number: &[u8]) -> Option<ScriptRequest>
    ensures { MatchOption result (IsUnheard (codes "finish " ++ number.now)) (λ asked. IsHeard (codes "finish " ++ number.now) (asked_of asked)) }
{
    match number_of(number) {
        Some(job) => Some(Request::Finish(u64::from(job))),
        None => None,
    }
}

/// The end of the job whose number is written behind `abandon`.
fn abandon_heard(number: &[u8]) -> Option<ScriptRequest>
    ensures { MatchOption result (IsUnheard (codes "abandon " ++ number.now)) (λ asked. IsHeard (codes "abandon " ++ number.now) (asked_of asked)) }
{
    match number_of(number) {
        Some(job) => Some(Request::Abandon(u64::from(job))),
        None => None,
    }
}

/// The request of the words behind `freeze`.
fn freeze_heard(alloc: Global, question: &[u8]) -> Result<Option<ScriptRequest>, NoMemory>
    ensures { IfOk result (λ read. MatchOption read (IsUnheard (codes "freeze " ++ question.now)) (λ asked. IsHeard (codes "freeze " ++ question.now) (asked_of asked))) }
{
    match statement_in(alloc, question)? {
        Some(statement) => Ok(Some(request_of(alloc, &statement)?)),
        None => Ok(None),
    }
}

/// The request of the words.
fn call_heard(alloc: Global, text: &[u8]) -> Result<Option<ScriptRequest>, NoMemory>
    ensures { IfOk result (λ read. MatchOption read (IsNoCall text.now) (λ asked. IsHeard text.now (asked_of asked))) }
{
    match statement_in(alloc, text)? {
        Some(statement) => Ok(Some(request_of(alloc, &statement)?)),
        None => Ok(None),
    }
}
