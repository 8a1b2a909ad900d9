//! Each verb is a statement of its own.
use script::{Statement, statement_in};
use std::test::Fail;

// The verb of a statement of the handle 1, with the numbers 4 and 5 as its values and 2 as its other handle.
fn verb_of(statement: &Statement) -> &'static str {
    match statement {
        Statement::Open { handle: 1 } => "open",
        Statement::Snap { handle: 1, to: 2 } => "snap",
        Statement::Drop { handle: 1 } => "drop",
        Statement::Get { handle: 1, .. } => "get",
        Statement::Put {
            handle: 1,
            value: 4,
            ..
        } => "put",
        Statement::PutIfAbsent {
            handle: 1,
            value: 4,
            ..
        } => "putifabsent",
        Statement::Replace {
            handle: 1,
            value: 4,
            ..
        } => "replace",
        Statement::ReplaceIf {
            handle: 1,
            old: 4,
            new: 5,
            ..
        } => "replaceif",
        Statement::Remove { handle: 1, .. } => "remove",
        Statement::RemoveIf {
            handle: 1,
            value: 4,
            ..
        } => "removeif",
        Statement::GetOrElse {
            handle: 1,
            value: 4,
            ..
        } => "getorelse",
        other => question_of(other),
    }
}

// The verb of a question about the map of the handle 1.
fn question_of(statement: &Statement) -> &'static str {
    match statement {
        Statement::Size { handle: 1 } => "size",
        Statement::Clear { handle: 1 } => "clear",
        Statement::Pairs { handle: 1 } => "list",
        Statement::Count { handle: 1, .. } => "count",
        Statement::Exists { handle: 1, .. } => "exists",
        Statement::ForAll { handle: 1, .. } => "forall",
        Statement::Find { handle: 1, .. } => "find",
        Statement::Filter {
            handle: 1,
            to: 2,
            ..
        } => "filter",
        Statement::MapValues {
            handle: 1,
            to: 2,
            ..
        } => "mapvalues",
        Statement::MapPairs {
            handle: 1,
            to: 2,
            ..
        } => "mappairs",
        Statement::Fold { handle: 1, .. } => "fold",
        _ => "another",
    }
}

// Each statement, whose first word is its verb.
const TEXTS: [&str; 22] = [
    "open 1",
    "snap 1 2",
    "drop 1",
    "get 1 a",
    "put 1 a 4",
    "putifabsent 1 a 4",
    "replace 1 a 4",
    "replaceif 1 a 4 5",
    "remove 1 a",
    "removeif 1 a 4",
    "getorelse 1 a 4",
    "size 1",
    "clear 1",
    "list 1",
    "count 1 all",
    "exists 1 all",
    "forall 1 all",
    "find 1 all",
    "filter 1 all 2",
    "mapvalues 1 add:4 2",
    "mappairs 1 initial 2",
    "fold 1 sum",
];

#[test]
fn each_verb_has_its_statement(rt: HostRuntime) -> Result<(), Fail> {
    for text in TEXTS {
        let statement = statement_in(rt.alloc(), text.as_bytes())?.ok_or("a statement")?;
        let (verb, _) = text.split_once(" ").ok_or("a verb")?;
        assert_eq!(rt; verb_of(&statement), verb);
    }
    Ok(())
}
