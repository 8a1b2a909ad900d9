//! Bytes that nobody wrote as a journal.
use crate::tests::assert_verdict;
use std::alloc::{AllocError, Global};
use std::panic::Expect;

/// The bytes `times` times, between two others.
fn repeated(
    alloc: Global,
    front: &[u8],
    bytes: &[u8],
    times: u32,
    back: &[u8],
) -> Result<Vec<u8>, AllocError> {
    let mut made = Vec::new(alloc);
    made.extend_from_slice(front)?;
    for _ in 0..times {
        made.extend_from_slice(bytes)?;
    }
    made.extend_from_slice(back)?;
    Ok(made)
}

/// What stands in front, bytes, how often they stand there, and what stands behind.
type Case = (&'static [u8], &'static [u8], u32, &'static [u8]);

const LINES: [Case; 10] = [
    (b"", b"[", 100_000, b"\n"),
    (b"", b"{\"call\":", 100_000, b"\n"),
    (b"{\"call\":", b"[", 100_000, b"\n"),
    (
        b"{\"call\":\"",
        b"a",
        10_000_000,
        b"\",\"entry\":1,\"reply\":\"ok\",\"seat\":0}\n",
    ),
    (
        b"{\"call\":\"open 1\",\"entry\":",
        b"1",
        1_000,
        b",\"reply\":\"ok\",\"seat\":0}\n",
    ),
    (
        b"{\"call\":\"open ",
        b"1",
        1_000,
        b"\",\"entry\":1,\"reply\":\"ok\",\"seat\":0}\n",
    ),
    (
        b"{\"call\":\"open 1\",\"entry\":1,\"reply\":\"ok",
        b"\\u0000",
        10,
        b"\",\"seat\":0}\n",
    ),
    (
        b"{\"call\":\"open 1\",\"entry\":1,\"reply\":\"ok",
        b"\xff",
        10,
        b"\",\"seat\":0}\n",
    ),
    (
        b"{\"call\":\"put 1 \\\"",
        b"\\\\",
        100,
        b" 1\",\"entry\":1,\"reply\":\"ok\",\"seat\":0}\n",
    ),
    (b"{\"entries\":", b"0", 1_000, b"}\n"),
];

#[test]
fn hostile_lines_are_bad(rt: HostRuntime) {
    for (front, bytes, times, back) in LINES {
        let text = repeated(rt.alloc(), front, bytes, times, back);
        assert_verdict(&rt, &text.expect(&rt, "no text"), "bad 1");
    }
}
