//! Lines of a journal as texts.

use journal_lines::{Lines, last_line, line_in, line_text};
use std::alloc::{AllocError, Global};
use std::test::Fail;

/// What the line at the place says, its members put between bars; "no line" where it is none.
fn said(alloc: Global, number: u64, line: &[u8]) -> Result<String, AllocError> {
    match line_in(alloc, number, line)? {
        Some(found) => {
            format!(in alloc;
                "{}|{}|{}",
                found.call.as_str(),
                found.reply.as_str(),
                found.seat
            )
        }
        None => String::from_str(alloc, "no line"),
    }
}

/// The line of the members, and what it says read back at its place and at the next.
fn written<R: AllocGlobal>(
    rt: &R,
    number: u64,
    call: &str,
    reply: &str,
    seat: u64,
) -> Result<(String, String, String), AllocError> {
    let alloc = rt.alloc();
    let line = line_text(alloc, number, call, reply, seat)?;
    let back = said(alloc, number, line.as_bytes())?;
    let next = said(alloc, number ^ 1, line.as_bytes())?;
    Ok((line, back, next))
}

/// Lines are compact JSON with the members in the order of their names, and are read back at their own place alone.
#[test]
fn lines_have_one_text(rt: HostRuntime) -> Result<(), Fail> {
    let cases = [
        (
            2,
            "put 1 a 5",
            "none",
            0,
            "{\"call\":\"put 1 a 5\",\"entry\":2,\"reply\":\"none\",\"seat\":0}",
            "put 1 a 5|none|0",
        ),
        (
            1_048_576,
            "get 1 \"\\=",
            "some -9223372036854775808",
            63,
            "{\"call\":\"get 1 \\\"\\\\=\",\"entry\":1048576,\"reply\":\"some -9223372036854775808\",\"seat\":63}",
            "get 1 \"\\=|some -9223372036854775808|63",
        ),
        (
            u64::MAX,
            "",
            "\u{e9}\u{0}\n",
            u64::MAX,
            "{\"call\":\"\",\"entry\":18446744073709551615,\"reply\":\"\u{e9}\\u0000\\n\",\"seat\":18446744073709551615}",
            "|\u{e9}\u{0}\n|18446744073709551615",
        ),
    ];
    for (number, call, reply, seat, text, members) in cases {
        let (line, back, next) = written(&rt, number, call, reply, seat)?;
        assert_eq!(rt; line.as_str(), text);
        assert_eq!(rt; back.as_str(), members);
        assert_eq!(rt; next.as_str(), "no line");
    }
    let last = last_line(rt.alloc(), 4)?;
    assert_eq!(rt; last.as_str(), "{\"entries\":4}");
    Ok(())
}

/// Each is JSON or nearly so, and none is the one spelling of the line of an entry 4.
#[test]
fn another_spelling_is_no_line(rt: HostRuntime) -> Result<(), Fail> {
    let others: [&[u8]; 24] = [
        b"",
        b"{}",
        b"[]",
        b"null",
        b"{\"entries\":4}",
        b" {\"call\":\"get 1 a\",\"entry\":4,\"reply\":\"some 7\",\"seat\":0}",
        b"{\"call\":\"get 1 a\",\"entry\":4,\"reply\":\"some 7\",\"seat\":0} ",
        b"{\"call\":\"get 1 a\",\"entry\":4,\"reply\":\"some 7\",\"seat\":0}\n",
        b"{\"call\": \"get 1 a\",\"entry\":4,\"reply\":\"some 7\",\"seat\":0}",
        b"{\"entry\":4,\"call\":\"get 1 a\",\"reply\":\"some 7\",\"seat\":0}",
        b"{\"call\":\"get 1 \\u0061\",\"entry\":4,\"reply\":\"some 7\",\"seat\":0}",
        b"{\"call\":\"get 1 a\",\"entry\":4.0,\"reply\":\"some 7\",\"seat\":0}",
        b"{\"call\":\"get 1 a\",\"entry\":04,\"reply\":\"some 7\",\"seat\":0}",
        b"{\"call\":\"get 1 a\",\"entry\":4,\"reply\":\"some 7\",\"seat\":-0}",
        b"{\"call\":\"get 1 a\",\"entry\":4,\"reply\":\"some 7\",\"seat\":\"0\"}",
        b"{\"call\":\"get 1 a\",\"entry\":4,\"reply\":\"some 7\",\"seat\":18446744073709551616}",
        b"{\"call\":\"get 1 a\",\"entry\":4,\"reply\":\"some 7\"}",
        b"{\"call\":\"get 1 a\",\"entry\":4,\"reply\":\"some 7\",\"seat\":0,\"seat\":0}",
        b"{\"call\":\"get 1 a\",\"entry\":4,\"reply\":\"some 7\",\"seat\":0,\"more\":1}",
        b"{\"call\":\"get 1 a\",\"entry\":4,\"reply\":\"some 7\",\"seat\":0",
        b"{\"call\":\"get 1 \xff\",\"entry\":4,\"reply\":\"some 7\",\"seat\":0}",
        b"{\"call\":\"get 1 \xed\xa0\x80\",\"entry\":4,\"reply\":\"some 7\",\"seat\":0}",
        b"[[[[[[[[[[[[[[[[[[[[[[[[[[[[[[[[",
        b"{\"call\":{\"call\":\"get 1 a\"},\"entry\":4,\"reply\":\"some 7\",\"seat\":0}",
    ];
    for line in others {
        let told = said(rt.alloc(), 4, line)?;
        assert_eq!(rt; told.as_str(), "no line", "of {line:?}");
    }
    Ok(())
}

/// Each line has its newline, but for the last where the text lacks it.
#[test]
fn lines_end_at_their_newlines(rt: HostRuntime) {
    let mut lines = Lines(b"a\n\nbc\nd");
    assert_eq!(rt; lines.next(), Some(b"a\n".as_slice()));
    assert_eq!(rt; lines.next(), Some(b"\n".as_slice()));
    assert_eq!(rt; lines.next(), Some(b"bc\n".as_slice()));
    assert_eq!(rt; lines.next(), Some(b"d".as_slice()));
    assert_eq!(rt; lines.next(), None);
    assert_eq!(rt; Lines(b"").next(), None);
}
