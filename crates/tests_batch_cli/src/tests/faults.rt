//! What is wrong in a line.

use line_faults::{bad_byte_at, bad_byte_in, bad_line_in};
use std::alloc::{AllocError, Global};
use std::test::Fail;

const ENTRY: &str = "{\"call\":\"open 1\",\"entry\":1,\"reply\":\"ok\",\"seat\":0}\n";

/// What is said of the line's first bad byte.
fn said_of(alloc: Global, line: &[u8]) -> Result<String, AllocError> {
    match bad_byte_in(line) {
        Some(bad) => bad.to_string(alloc),
        None => String::from_str(alloc, "none"),
    }
}

/// The first bad byte is named with its column, and with what it is part of.
#[test]
fn bad_bytes_have_their_columns(rt: HostRuntime) -> Result<(), Fail> {
    let cases: [(&[u8], &str); 6] = [
        (b"0 open 1", "none"),
        (
            b"0 open 1\r",
            "column 9, byte 0x0d: the line ends with CR LF, and has to end with LF alone",
        ),
        (b"0\ropen 1", "column 2, byte 0x0d: a control character"),
        (
            b"\xef\xbb\xbf0 open 1",
            "column 1, byte 0xef: the text begins with a byte order mark",
        ),
        (
            b"0 open\t1\r",
            "column 7, byte 0x09: a tab, where a space is wanted",
        ),
        (b"0 get 1 \xc3\xa4", "column 9, byte 0xc3: no byte of ASCII"),
    ];
    for (line, wanted) in cases {
        let said = said_of(rt.alloc(), line)?;
        assert_eq!(rt; said.as_str(), wanted);
    }
    let place = bad_byte_at(b"0 open 1\n0 size\t1\n", 2).map(|bad| bad.before);
    assert_eq!(rt; place, Some(6));
    assert_eq!(rt; bad_byte_at(b"0 open 1\n\n", 1).is_none(), true);
    assert_eq!(rt; bad_byte_at(b"\t", 2).is_none(), true);
    Ok(())
}

/// What is said of the line of this number behind the entry.
fn told(alloc: Global, rest: &str, number: u64) -> Result<String, Fail> {
    let text = format!(in alloc; "{ENTRY}{rest}")?;
    let bad = bad_line_in(alloc, text.as_bytes(), number)?;
    Ok(bad.to_string(alloc)?)
}

/// Each kind of bad line is named.
#[test]
fn bad_lines_are_named(rt: HostRuntime) -> Result<(), Fail> {
    let cases = [
        ("", 2, "the text ends before its last line, {\"entries\":N}"),
        ("{\"entries\":1}\n\n", 3, "it stands behind the last line"),
        ("{\"entries\":1}", 2, "it does not end with a newline"),
        (
            "{\"entries\":2}\n",
            2,
            "the number of entries before it is 1",
        ),
        (ENTRY, 2, "it is the line of entry 1"),
        ("{ }\n", 2, "it is not the one spelling of an entry"),
        (
            "{\"call\":\"open 1\",\"entry\":2,\"reply\":\"ok\",\"seat\":64}\n",
            2,
            "seat 64, and the greatest is 63",
        ),
        (
            "{\"call\":\"push 1\",\"entry\":2,\"reply\":\"ok\",\"seat\":0}\n",
            2,
            "no run has this call and reply after the lines before",
        ),
        (
            "{\"call\":\"open 1\",\"entry\":2,\"reply\":\"ok\",\"seat\":0}\n",
            2,
            "no run has this call and reply after the lines before",
        ),
    ];
    for (rest, number, wanted) in cases {
        let said = told(rt.alloc(), rest, number)?;
        assert_eq!(rt; said.as_str(), wanted);
    }
    Ok(())
}
