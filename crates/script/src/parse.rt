//! Scripts: the command lines of a text.

ghost use Rattle.std.specs.Prelude.{◌≡◌, ◌==◌, ◌≤◌, All, IfOk, IfErr, MatchOption, OnOk, slice_index};
ghost use Rattle.std.specs.List.{list_any, list_all};
ghost use Rattle.script.specs.Lines.{fields_of, is_skipped, is_bad_byte};
ghost use Rattle.script.specs.Statements.{IsLawful, IsLawfulLine, words_of};
ghost use Rattle.script.specs.declared.statement.Statement.{Statement};
ghost use Rattle.script.specs.Faults.{LineFault, StopsBy};
ghost use Rattle.script.specs.Scripts.{Spells, IsPlain, IsFaultOf, fields_on, words_read, IsLawfulIfAny};

use crate::fault::{Reason, ScriptFault};
use crate::fields::Fields;
use crate::limits::{MOST_LINE_BYTES, MOST_LINES};
use crate::line::{command_of, statement_at};
use crate::lines::ScriptLines;
use crate::parse_error::ParseError;
use crate::statement::{CommandLine, Statement};
use std::alloc::{AllocError, Global};
use std::marker::Model;

/// The command lines of a script, in the order of their numbers.
#[derive(Debug, Drop)]
pub struct Script {
    lines: Vec<CommandLine>,
}

impl Model for Script {
    ghost use Rattle.std.specs.Prelude.{List, All};
    ghost use Rattle.script.specs.declared.statement.CommandLine.{CommandLine};
    ghost use Rattle.script.specs.Statements.{IsLawfulLine};

    ghost Value = { List CommandLine };

    ghost view = { λ s. s.lines.items };

    ghost invariant = { λ s. All IsLawfulLine s.lines.items };
}

impl Script {
    /// The command lines.
    pub fn lines(&self) -> &[CommandLine]
        ensures lines { result.now ≡ self.now }
        ensures lawful { All IsLawfulLine self.now }
    {
        self.lines.as_slice()
    }
}

/// The script that the text spells. Lines end with 0x0a, and each says who does what in
/// fields between spaces; lines that begin with `#` and lines of spaces alone are skipped.
///
/// # Errors
///
/// The first fault of the first line that has one, or `Memory` if memory runs out.
pub fn parse_script(alloc: Global, text: &[u8]) -> Result<Script, ScriptFault>
    ensures ok { IfOk result (Spells text.now) }
    ensures fault { IfErr result (IsFaultOf text.now) }
{
    let mut lines = Vec::new(alloc);
    let mut number = 0;
    for line in ScriptLines(text) {
        number += 1;
        match line_of(alloc, number, line) {
            Ok(Some(line)) => {
                if lines.push(line).is_err() {
                    return Err(ScriptFault::Memory);
                }
            }
            Ok(None) => {}
            Err(ParseError::Memory) => return Err(ScriptFault::Memory),
            Err(ParseError::Fault(reason)) => return Err(ScriptFault::Line { number, reason }),
        }
    }
    Ok(Script { lines })
}

/// The statement whose words are the fields of the text, if there is one.
///
/// # Errors
///
/// Memory was refused.
pub fn statement_in(alloc: Global, text: &[u8]) -> Result<Option<Statement>, AllocError>
    ensures { IfOk result (λ read. MatchOption read ((s : Statement) → IsLawful s → fields_of text.now ≡ words_of s → ⊥) (λ s. IsLawful s × (fields_of text.now ≡ words_of s))) }
{
    match statement_at(alloc, Fields(text)) {
        Ok(statement) => Ok(Some(statement)),
        Err(ParseError::Memory) => Err(AllocError),
        Err(ParseError::Fault(_)) => Ok(None),
    }
}

/// The command line that stands on the line with this number, or none where it is skipped.
fn line_of(alloc: Global, number: u32, line: &[u8]) -> Result<Option<CommandLine>, ParseError>
    ensures ok { IfOk result (λ read. words_read read ≡ fields_on number line.now) }
    ensures few { OnOk result (number ≤ MOST_LINES) }
    ensures plain { OnOk result (IsPlain line.now) }
    ensures lawful { IfOk result IsLawfulIfAny }
    ensures err { IfErr result (StopsBy (LineFault number line.now)) }
{
    if number > MOST_LINES {
        return Err(ParseError::Fault(Reason::TooManyLines));
    }
    if line.len() > MOST_LINE_BYTES {
        return Err(ParseError::Fault(Reason::LineTooLong));
    }
    if has_bad_byte(line) {
        return Err(ParseError::Fault(Reason::BadByte));
    }
    if is_skipped(line) {
        return Ok(None);
    }
    let (client, statement) = command_of(alloc, line)?;
    Ok(Some(CommandLine {
        number,
        client,
        statement,
    }))
}

fn is_skipped(line: &[u8]) -> bool
    ensures { result ≡ is_skipped line.now }
{
    is_comment(line) || is_blank(line)
}

fn is_blank(line: &[u8]) -> bool
    ensures { result ≡ list_all (λ b. b == 32) line.now }
{
    line.iter().all(|b| *b == b' ')
}

fn is_comment(line: &[u8]) -> bool
    ensures { result ≡ (slice_index line.now 0 == 35) }
{
    match line {
        [first, ..] => *first == b'#',
        [] => false,
    }
}

fn has_bad_byte(line: &[u8]) -> bool
    ensures { result ≡ list_any is_bad_byte line.now }
{
    line.iter().any(|b| !(0x20..=0x7e).contains(b))
}
