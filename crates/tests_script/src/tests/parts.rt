//! Scripts, keys and laws, each called once.
use arguments::Key;
use script::{
    CommandLine, Statement, parse_script, spelled_text_has_no_fault, statement_in,
    text_has_one_fault, text_has_one_script,
};
use std::alloc::Global;
use std::sync::Arc;
use std::test::Fail;

#[test]
fn a_script_has_its_command_lines(rt: HostRuntime) -> Result<(), Fail> {
    let alloc = rt.alloc();
    let script = parse_script(alloc, b"# a put\n63 put 1 a -5\n0 snap 2 3")?;
    let mut shown = String::new(alloc);
    for line in script.lines() {
        let (number, client) = (line.number, line.client);
        match &line.statement {
            Statement::Put { handle, key, value } => {
                let key = str::from_utf8(key.as_slice())?;
                write!(
                    shown,
                    "{number}: {client} puts {value} at {key} in {handle}. "
                )?;
            }
            Statement::Snap { handle, to } => {
                write!(shown, "{number}: {client} copies {handle} to {to}. ")?;
            }
            _ => shown.push_str("another statement. ")?,
        }
    }
    assert_eq!(rt;
        shown.as_str(),
        "2: 63 puts -5 at a in 1. 3: 0 copies 2 to 3. "
    );
    Ok(())
}

#[test]
fn a_fault_has_its_line_and_its_text(rt: HostRuntime) -> Result<(), Fail> {
    let alloc = rt.alloc();
    match parse_script(alloc, b"# two faults\n64 open 01\n") {
        Ok(_) => assert!(rt; false, "a script that has a fault"),
        Err(fault) => {
            let shown = format!(in alloc; "{fault}")?;
            assert_eq!(rt; shown.as_str(), "line 2: bad client");
        }
    }
    Ok(())
}

#[test]
fn a_pair_map_is_a_key_or_one_of_two_words(rt: HostRuntime) -> Result<(), Fail> {
    let alloc = rt.alloc();
    for text in [
        b"0 mappairs 1 initial 2".as_slice(),
        b"0 mappairs 1 to:z 3",
        b"0 mappairs 4 byvalue 5",
    ] {
        let script = parse_script(alloc, text)?;
        assert!(rt;
            matches!(
                script.lines(),
                [CommandLine {
                    statement: Statement::MapPairs { .. },
                    ..
                }]
            )
        );
    }
    let mut longer = Vec::from_slice(alloc, b"0 mappairs 1 to:")?;
    longer.extend_from_slice(&[b'k'; 65])?;
    longer.extend_from_slice(b" 2")?;
    for (text, wanted) in [
        (b"0 mappairs 1 swap 2".as_slice(), "line 1: bad map"),
        (b"0 mappairs 1 to: 2", "line 1: bad map"),
        (longer.as_slice(), "line 1: bad map"),
        (b"0 mappairs 1 to:z", "line 1: missing field"),
    ] {
        match parse_script(alloc, text) {
            Ok(_) => assert!(rt; false, "a script that has a fault"),
            Err(fault) => {
                let shown = format!(in alloc; "{fault}")?;
                assert_eq!(rt; shown.as_str(), wanted);
            }
        }
    }
    Ok(())
}

#[test]
fn a_key_is_a_text_of_some_bytes(rt: HostRuntime) -> Result<(), Fail> {
    let alloc = rt.alloc();
    assert!(rt; Key::new(alloc, b"")?.is_none());
    assert!(rt; Key::new(alloc, b"a b")?.is_none());
    let key = Key::new(alloc, b"a!")?.ok_or("a key")?;
    assert_eq!(rt; key.as_slice(), b"a!".as_slice());
    let text = key.text()?;
    assert_eq!(rt; text.as_bytes(), b"a!".as_slice());
    assert_eq!(rt;
        Arc::strong_count(&text),
        2,
        "the key's own text, and no copy"
    );
    Ok(())
}

#[test]
fn laws_are_calls_that_do_nothing() {
    spelled_text_has_no_fault();
    text_has_one_script();
    text_has_one_fault();
}

// Appends the question of a statement in its one spelling.
fn push_question(shown: &mut Vec<u8>, alloc: Global, text: &[u8]) -> Result<(), Fail> {
    match statement_in(alloc, text)?.ok_or("a statement")? {
        Statement::Count { handle: 7, test } => test.push_to(shown)?,
        Statement::MapValues {
            handle: 7,
            map,
            to: 8,
        } => map.push_to(shown)?,
        Statement::MapPairs {
            handle: 7,
            map,
            to: 8,
        } => map.push_to(shown)?,
        Statement::Fold { handle: 7, folding } => folding.push_to(shown)?,
        _ => return Err("another statement".into()),
    }
    shown.push(b' ')?;
    Ok(())
}

#[test]
fn a_question_has_one_spelling(rt: HostRuntime) -> Result<(), Fail> {
    let alloc = rt.alloc();
    let mut shown = Vec::new(alloc);
    for text in [
        b"count 7 all".as_slice(),
        b"count 7 even",
        b"  count  7 odd ",
        b"count 7 lt:-9223372036854775808",
        b"count 7 ge:0",
        b"count 7 eq:9223372036854775807",
        b"count 7 prefix:prefix:~",
        b"mapvalues 7 set:-1 8",
        b"mapvalues 7 add:10 8",
        b"mapvalues 7 keylen 8",
        b"mappairs 7 to:to:~ 8",
        b"mappairs 7 initial 8",
        b"mappairs 7 byvalue 8",
        b"fold 7 sum",
        b"fold 7 least",
        b"fold 7 greatest",
    ] {
        push_question(&mut shown, alloc, text)?;
    }
    let wanted = b"all even odd lt:-9223372036854775808 ge:0 eq:9223372036854775807 \
        prefix:prefix:~ set:-1 add:10 keylen to:to:~ initial byvalue sum least greatest ";
    assert_eq!(rt; shown.as_slice(), wanted.as_slice());
    Ok(())
}

#[test]
fn a_text_with_a_fault_is_no_statement(rt: HostRuntime) -> Result<(), Fail> {
    let alloc = rt.alloc();
    for text in [
        b"".as_slice(),
        b"0 open 1",
        b"open 01",
        b"open 1 2",
        b"count 1 lt:x",
        b"put 1 a",
    ] {
        assert!(rt; statement_in(alloc, text)?.is_none());
    }
    Ok(())
}
