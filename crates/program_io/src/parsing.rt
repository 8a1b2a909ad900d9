//! The options that the words of a command line give, by the grammar.

ghost use Rattle.std.specs.Prelude.{◌≡◌, ◌<◌, ◌^◌, ◌≤◌, [], ◌∷◌, IfErr, IfOk, List, None, OnOk, Some, codes, false, map, option_map, pos, string_bytes, true, ℕ};
ghost use Rattle.std.specs.Option.{option_map_or};
ghost use Rattle.std.specs.Str.{bytes_eq};
ghost use Rattle.clap.specs.Words.{FailsBy, IsSignedIn, found_of, kind_of, one_text, without_minus};
ghost use Rattle.program_io.specs.CommandLine.{AreInRange, IsArgFaultOf, IsGiven, Tells, faults_in, number_of};

use crate::arguments::{ArgFault, Options};
use crate::grammar::{DEFAULT_GRAIN, DEFAULT_WORKERS, grammar};
use clap::error::ErrorKind;
use clap::{ArgMatches, Error};
use std::alloc::{AllocError, Global};

/// The options that the words after the program's name give.
///
/// # Errors
///
/// Help or the version was asked for, the words were refused, or memory was; or they ask for an audit and for a journal.
pub fn options(alloc: Global, words: &[&str]) -> Result<Options, ArgFault>
    ensures given { IfOk result (IsGiven (map (λ word. word.now) words.now)) }
    ensures ranges { IfOk result (λ options. AreInRange options.workers options.grain) }
    ensures alone { IfOk result (λ options. options.audit ≡ true → options.journal ≡ None) }
    ensures lawful { OnOk result (faults_in (map (λ word. word.now) words.now) ≡ []) }
    ensures fault { IfErr result (IsArgFaultOf (map (λ word. word.now) words.now)) }
{
    match read(alloc, words) {
        Ok(options) => {
            if options.audit && options.journal.is_some() {
                Err(ArgFault::AuditJournal)
            } else {
                Ok(options)
            }
        }
        Err(error) => Err(fault_of(alloc, &error)),
    }
}

/// What the words give by the grammar.
fn read(alloc: Global, words: &[&str]) -> Result<Options, Error>
    ensures given { IfOk result (IsGiven (map (λ word. word.now) words.now)) }
    ensures ranges { IfOk result (λ options. AreInRange options.workers options.grain) }
    ensures fault { FailsBy (faults_in (map (λ word. word.now) words.now)) result }
{
    let all = behind_name(alloc, words)?;
    let command = grammar(alloc)?;
    let matches = command.try_get_matches_from(all.as_slice())?;
    let journal = text_of(alloc, matches.get_str("journal"))?;
    let file = text_of(alloc, matches.get_str("file"))?;
    Ok(Options {
        workers: number(&matches, "workers", DEFAULT_WORKERS),
        grain: u64::from(number(&matches, "grain", DEFAULT_GRAIN)),
        audit: flag(&matches, "audit"),
        journal,
        file,
    })
}

/// The number that the matches have for the option, or else the usual one.
fn number(matches: &ArgMatches<'_>, option: &str, usual: u32) -> u32
    ensures none { one_text (found_of matches.now) option.now ≡ None → result ≡ usual }
    ensures some { (text : List ℕ) (low high : ℕ) → one_text (found_of matches.now) option.now ≡ Some (without_minus text) → IsSignedIn (pos low) (pos high) text → high < 2 ^ 32 → (result ≡ number_of (without_minus text)) × (low ≤ result) × (result ≤ high) }
{
    matches.get_one::<u32>(option).unwrap_or(usual)
}

/// Whether the matches have the flag.
fn flag(matches: &ArgMatches<'_>, option: &str) -> bool
    ensures { result ≡ option_map_or (λ text. bytes_eq text (codes "true")) (one_text (found_of matches.now) option.now) false }
{
    matches.get_one::<bool>(option).unwrap_or(false)
}

/// The text as one that is kept.
fn text_of(alloc: Global, text: Option<&str>) -> Result<Option<String>, AllocError>
    ensures { IfOk result (λ kept. option_map string_bytes kept ≡ option_map (λ t. t.now) text.entry) }
{
    match text {
        Some(text) => Ok(Some(String::from_str(alloc, text)?)),
        None => Ok(None),
    }
}

/// The words behind the name of the program.
fn behind_name<'a>(alloc: Global, words: &[&'a str]) -> Result<Vec<&'a str>, AllocError>
    ensures { IfOk result (λ all. map (λ word. word.now) all.items ≡ codes "trierun" ∷ map (λ word. word.now) words.now) }
{
    let mut all = Vec::new(alloc);
    all.push("trierun")?;
    all.extend_from_slice(words)?;
    Ok(all)
}

/// The fault that reports the error.
fn fault_of(alloc: Global, error: &Error) -> ArgFault
    ensures { Tells (kind_of error.now) result }
{
    let Ok(text) = error.to_string(alloc) else {
        return ArgFault::Memory;
    };
    match error.kind() {
        ErrorKind::OutOfMemory => ArgFault::Memory,
        ErrorKind::DisplayHelp | ErrorKind::DisplayVersion => ArgFault::Help(text),
        _ => ArgFault::Parser(text),
    }
}
