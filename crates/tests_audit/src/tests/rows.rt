//! Journals whose verdict is known from outside.
use crate::tests::assert_verdict;
use std::alloc::{AllocError, Global};
use std::panic::Expect;
use std::process::Abort;

/// A journal of four entries.
pub(super) const FIRST: &[u8] = b"{\"call\":\"open 1\",\"entry\":1,\"reply\":\"ok\",\"seat\":0}
{\"call\":\"put 1 a 5\",\"entry\":2,\"reply\":\"none\",\"seat\":0}
{\"call\":\"put 1 a 7\",\"entry\":3,\"reply\":\"some 5\",\"seat\":0}
{\"call\":\"get 1 a\",\"entry\":4,\"reply\":\"some 7\",\"seat\":0}
{\"entries\":4}
";

/// A journal of a bulk verb with a target, of each kind of event, and of a find that two pairs could answer.
const BULK: &[u8] = b"{\"call\":\"open 1\",\"entry\":1,\"reply\":\"ok\",\"seat\":0}
{\"call\":\"put 1 a\\\"\\\\=b 4\",\"entry\":2,\"reply\":\"none\",\"seat\":63}
{\"call\":\"put 1 c -9223372036854775808\",\"entry\":3,\"reply\":\"none\",\"seat\":0}
{\"call\":\"freeze filter 1 even 2\",\"entry\":4,\"reply\":\"job 0\",\"seat\":0}
{\"call\":\"freeze find 1 even\",\"entry\":5,\"reply\":\"job 1\",\"seat\":1}
{\"call\":\"remove 1 c\",\"entry\":6,\"reply\":\"some -9223372036854775808\",\"seat\":1}
{\"call\":\"finish 0\",\"entry\":7,\"reply\":\"count 2\",\"seat\":0}
{\"call\":\"finish 1\",\"entry\":8,\"reply\":\"pair c -9223372036854775808\",\"seat\":1}
{\"call\":\"view 2\",\"entry\":9,\"reply\":\"pairs a\\\"\\\\=b=4 c=-9223372036854775808\",\"seat\":1}
{\"call\":\"freeze fold 2 sum\",\"entry\":10,\"reply\":\"job 2\",\"seat\":1}
{\"call\":\"abandon 2\",\"entry\":11,\"reply\":\"ok\",\"seat\":1}
{\"call\":\"open 1\",\"entry\":12,\"reply\":\"refused Taken\",\"seat\":0}
{\"call\":\"get 3 a\",\"entry\":13,\"reply\":\"refused NoHandle\",\"seat\":0}
{\"call\":\"open 1024\",\"entry\":14,\"reply\":\"refused BadNumber\",\"seat\":0}
{\"call\":\"snap 1 5\",\"entry\":15,\"reply\":\"ok\",\"seat\":0}
{\"call\":\"drop 1\",\"entry\":16,\"reply\":\"ok\",\"seat\":0}
{\"entries\":16}
";

/// Bytes of a text, what replaces their first occurrence, and the verdict on the changed text.
type Case = (&'static [u8], &'static [u8], &'static str);

#[test]
fn legal_journals_are_legal(rt: HostRuntime) {
    assert_verdict(&rt, FIRST, "legal 4");
    assert_verdict(&rt, BULK, "legal 16");
    assert_verdict(&rt, b"{\"entries\":0}\n", "legal 0");
}

/// How many newlines there are.
fn newlines(text: &[u8]) -> u64 {
    let mut count = 0;
    for byte in text {
        if *byte == b'\n' && count < 1_000_000 {
            count += 1;
        }
    }
    count
}

/// The bad line is the one that is cut, or the first one that is missing.
fn assert_cut<R: AllocGlobal + Abort>(rt: &R, beginning: &[u8]) {
    let wanted = format!(in rt.alloc(); "bad {}", newlines(beginning).saturating_add(1));
    assert_verdict(rt, beginning, &wanted.expect(rt, "no room"));
}

/// Each beginning of the first journal, and every 37th of the second.
#[test]
fn beginnings_are_bad(rt: HostRuntime) {
    for end in 0..FIRST.len() {
        assert_cut(&rt, &FIRST[..end]);
    }
    for end in (0..BULK.len()).step_by(37) {
        assert_cut(&rt, &BULK[..end]);
    }
}

/// Each line in the place of another one of the journal of four entries, and the line that it spoils.
const LINES: [Case; 34] = [
    (
        b"\"call\":\"put 1 a 7\",\"entry\":3",
        b"\"entry\":3,\"call\":\"put 1 a 7\"",
        "bad 3",
    ),
    (b"\"entry\":3", b"\"entry\":3.0", "bad 3"),
    (b"\"entry\":3", b"\"entry\":3,\"more\":3", "bad 3"),
    (b"put 1 a 7", b"put 1 a -0", "bad 3"),
    (b"put 1 a 7", b"put 1 a 9223372036854775808", "bad 3"),
    // the same key, and only the one way to write it leads to a good line
    (b"put 1 a 5", b"put 1 \\u0022 5", "bad 2"),
    (b"put 1 a 5", b"put 1 \\\" 5", "bad 3"),
    (b"\"some 5\"", b"\"some 6\"", "bad 3"),
    (b"\"some 7\"", b"\"some 5\"", "bad 4"),
    (b"\"none\"", b"\"some 5\"", "bad 2"),
    (b"put 1 a 7", b"put 1 b 7", "bad 3"),
    (b"put 1 a 7", b"put 1  a 7", "bad 3"),
    (b"put 1 a 7", b" put 1 a 7", "bad 3"),
    (b"put 1 a 7", b"put 1 a 7 ", "bad 3"),
    (b"put 1 a 7", b"put 1 a 07", "bad 3"),
    (b"put 1 a 7", b"put 1 a +7", "bad 3"),
    (b"put 1 a 7", b"put 01 a 7", "bad 3"),
    (b"put 1 a 7", b"put 1 \\u0061 7", "bad 3"),
    (b"get 1 a", b"getorelse 1 a 3", "bad 4"),
    (b"get 1 a", b"finish 0", "bad 4"),
    (b"get 1 a", b"abandon 0", "bad 4"),
    (b"get 1 a", b"pairs 1", "bad 4"),
    (b"get 1 a", b"count 1 all", "bad 4"),
    (
        b"get 1 a",
        b"finish 999999999999999999999999999999",
        "bad 4",
    ),
    (
        b"\"seat\":0}\n{\"call\":\"get",
        b"\"seat\":64}\n{\"call\":\"get",
        "bad 3",
    ),
    (
        b"\"seat\":0}\n{\"call\":\"get",
        b"\"seat\":63}\n{\"call\":\"get",
        "legal 4",
    ),
    (
        b"\"seat\":0}\n{\"call\":\"get",
        b"\"seat\":0.0}\n{\"call\":\"get",
        "bad 3",
    ),
    (
        b"\"seat\":0}\n{\"call\":\"get",
        b"\"seat\":-0}\n{\"call\":\"get",
        "bad 3",
    ),
    (
        b"\"seat\":0}\n{\"call\":\"get",
        b"\"seat\":0,\"seat\":0}\n{\"call\":\"get",
        "bad 3",
    ),
    (b"\"entry\":2", b"\"entry\":3", "bad 2"),
    (b"{\"entries\":4}", b"{\"entries\":3}", "bad 5"),
    (b"{\"entries\":4}", b"{\"entries\":4} ", "bad 5"),
    (b"{\"entries\":4}\n", b"{\"entries\":4}\n\n", "bad 6"),
    (b"{\"entries\":4}\n", b"", "bad 5"),
];

#[test]
fn wrong_lines_are_bad(rt: HostRuntime) {
    play(&rt, FIRST, &LINES);
}

/// Replies of the second journal that are others, and where they spoil it. Another pair that passes is as good.
const REPLIES: [Case; 14] = [
    (
        b"pair c -9223372036854775808",
        b"pair a\\\"\\\\=b 4",
        "legal 16",
    ),
    (
        b"pair c -9223372036854775808",
        b"pair a\\\"\\\\=b 6",
        "bad 8",
    ),
    (b"pair c -9223372036854775808", b"pair d 4", "bad 8"),
    (b"pair c -9223372036854775808", b"none", "bad 8"),
    (b"pair c -9223372036854775808", b"count 1", "bad 8"),
    (b"pair c -9223372036854775808", b"pair ", "bad 8"),
    (b"pair c -9223372036854775808", b"pair c", "bad 8"),
    (b"\"count 2\"", b"\"count 1\"", "bad 7"),
    (b"\"job 0\"", b"\"job 1\"", "bad 4"),
    (b"=b=4 c=-9223372036854775808", b"=b=4", "bad 9"),
    (b"\"abandon 2\"", b"\"abandon 1\"", "bad 11"),
    (b"\"refused Taken\"", b"\"refused NoHandle\"", "bad 12"),
    (b"\"refused Taken\"", b"\"ok\"", "bad 12"),
    (b"\"finish 1\"", b"\"finish 0\"", "bad 8"),
];

#[test]
fn wrong_replies_are_bad(rt: HostRuntime) {
    play(&rt, BULK, &REPLIES);
}

/// A journal of a find, whose map is that of its freeze.
const FOUND: &[u8] = b"{\"call\":\"open 1\",\"entry\":1,\"reply\":\"ok\",\"seat\":0}
{\"call\":\"put 1 a 1\",\"entry\":2,\"reply\":\"none\",\"seat\":0}
{\"call\":\"put 1 b 2\",\"entry\":3,\"reply\":\"none\",\"seat\":0}
{\"call\":\"freeze find 1 even\",\"entry\":4,\"reply\":\"job 0\",\"seat\":0}
{\"call\":\"put 1 c 4\",\"entry\":5,\"reply\":\"none\",\"seat\":1}
{\"call\":\"open 2\",\"entry\":6,\"reply\":\"ok\",\"seat\":1}
{\"call\":\"put 2 d 6\",\"entry\":7,\"reply\":\"none\",\"seat\":1}
{\"call\":\"finish 0\",\"entry\":8,\"reply\":\"pair b 2\",\"seat\":0}
{\"entries\":8}
";

/// What a find may not return: a pair that does not pass, one that came later, one of another map, or no pair.
const PAIRS: [Case; 6] = [
    (b"pair b 2", b"pair b 2", "legal 8"),
    (b"pair b 2", b"pair a 1", "bad 8"),
    (b"pair b 2", b"pair c 4", "bad 8"),
    (b"pair b 2", b"pair d 6", "bad 8"),
    (b"pair b 2", b"pair b 4", "bad 8"),
    (b"pair b 2", b"none", "bad 8"),
];

#[test]
fn other_pairs_are_bad(rt: HostRuntime) {
    play(&rt, FOUND, &PAIRS);
}

/// Each changed text has the verdict of its row.
fn play<R: AllocGlobal + Abort>(rt: &R, text: &[u8], rows: &[Case]) {
    for row in rows {
        let (old, new, wanted) = *row;
        let (front, back) = parted(text, old).expect(rt, "no such bytes");
        let changed = joined(rt.alloc(), front, new, back).expect(rt, "no text");
        assert_verdict(rt, &changed, wanted);
    }
}

/// What stands before the first place of some bytes in the text, and what stands behind it.
fn parted<'t>(text: &'t [u8], bytes: &[u8]) -> Option<(&'t [u8], &'t [u8])> {
    for place in 0..text.len() {
        let (front, rest) = text.split_at(place);
        if let Some(back) = rest.strip_prefix(bytes) {
            return Some((front, back));
        }
    }
    None
}

/// The three one behind another.
fn joined(alloc: Global, front: &[u8], new: &[u8], back: &[u8]) -> Result<Vec<u8>, AllocError> {
    let mut made = Vec::from_slice(alloc, front)?;
    made.extend_from_slice(new)?;
    made.extend_from_slice(back)?;
    Ok(made)
}

/// A journal of a map of images of which two pairs have one key, and of what is read of it.
const IMAGES: &[u8] = b"{\"call\":\"open 1\",\"entry\":1,\"reply\":\"ok\",\"seat\":0}
{\"call\":\"put 1 a 1\",\"entry\":2,\"reply\":\"none\",\"seat\":0}
{\"call\":\"put 1 ab 2\",\"entry\":3,\"reply\":\"none\",\"seat\":0}
{\"call\":\"put 1 b 3\",\"entry\":4,\"reply\":\"none\",\"seat\":0}
{\"call\":\"freeze mappairs 1 initial 2\",\"entry\":5,\"reply\":\"job 0\",\"seat\":0}
{\"call\":\"finish 0\",\"entry\":6,\"reply\":\"pairs a=2 b=3\",\"seat\":0}
{\"call\":\"get 2 a\",\"entry\":7,\"reply\":\"some 2\",\"seat\":0}
{\"entries\":7}
";

/// Other images that the finish reports. Where it may report them, what is read has to agree with them.
const TOLD_IMAGES: [Case; 13] = [
    (b"pairs a=2 b=3", b"pairs a=2 b=3", "legal 7"),
    (b"pairs a=2 b=3", b"pairs a=1 b=3", "bad 7"),
    (
        b"pairs a=2 b=3\",\"seat\":0}\n{\"call\":\"get 2 a\",\"entry\":7,\"reply\":\"some 2",
        b"pairs a=1 b=3\",\"seat\":0}\n{\"call\":\"get 2 a\",\"entry\":7,\"reply\":\"some 1",
        "legal 7",
    ),
    (b"some 2", b"some 1", "bad 7"),
    (b"pairs a=2 b=3", b"pairs a=3 b=3", "bad 6"),
    (b"pairs a=2 b=3", b"pairs a=2 b=2", "bad 6"),
    (b"pairs a=2 b=3", b"pairs a=2", "bad 6"),
    (b"pairs a=2 b=3", b"pairs b=3 a=2", "bad 6"),
    (b"pairs a=2 b=3", b"pairs a=2  b=3", "bad 6"),
    (b"pairs a=2 b=3", b"pairs a=2 b=3 ", "bad 6"),
    (b"pairs a=2 b=3", b"pairs a=02 b=3", "bad 6"),
    (b"pairs a=2 b=3", b"pairs a=2 b=3 c=3", "bad 6"),
    (b"pairs a=2 b=3", b"count 2", "bad 6"),
];

/// The same with one key for all images: a good finish leaves no key that the last entry finds.
const TOLD_OF_ONE_KEY: [Case; 4] = [
    (
        b"initial 2\",\"entry\":5,\"reply\":\"job 0\",\"seat\":0}\n{\"call\":\"finish 0\",\"entry\":6,\"reply\":\"pairs a=2 b=3",
        b"to:z 2\",\"entry\":5,\"reply\":\"job 0\",\"seat\":0}\n{\"call\":\"finish 0\",\"entry\":6,\"reply\":\"pairs z=1",
        "bad 7",
    ),
    (
        b"initial 2\",\"entry\":5,\"reply\":\"job 0\",\"seat\":0}\n{\"call\":\"finish 0\",\"entry\":6,\"reply\":\"pairs a=2 b=3",
        b"to:z 2\",\"entry\":5,\"reply\":\"job 0\",\"seat\":0}\n{\"call\":\"finish 0\",\"entry\":6,\"reply\":\"pairs z=2",
        "bad 7",
    ),
    (
        b"initial 2\",\"entry\":5,\"reply\":\"job 0\",\"seat\":0}\n{\"call\":\"finish 0\",\"entry\":6,\"reply\":\"pairs a=2 b=3",
        b"to:z 2\",\"entry\":5,\"reply\":\"job 0\",\"seat\":0}\n{\"call\":\"finish 0\",\"entry\":6,\"reply\":\"pairs z=3",
        "bad 7",
    ),
    (
        b"initial 2\",\"entry\":5,\"reply\":\"job 0\",\"seat\":0}\n{\"call\":\"finish 0\",\"entry\":6,\"reply\":\"pairs a=2 b=3",
        b"to:z 2\",\"entry\":5,\"reply\":\"job 0\",\"seat\":0}\n{\"call\":\"finish 0\",\"entry\":6,\"reply\":\"pairs z=4",
        "bad 6",
    ),
];

/// A journal of images by their values, and of those of no pairs.
const BY_VALUE: &[u8] = b"{\"call\":\"open 1\",\"entry\":1,\"reply\":\"ok\",\"seat\":0}
{\"call\":\"put 1 x 7\",\"entry\":2,\"reply\":\"none\",\"seat\":0}
{\"call\":\"put 1 yy 7\",\"entry\":3,\"reply\":\"none\",\"seat\":0}
{\"call\":\"open 3\",\"entry\":4,\"reply\":\"ok\",\"seat\":0}
{\"call\":\"freeze mappairs 1 byvalue 2\",\"entry\":5,\"reply\":\"job 0\",\"seat\":0}
{\"call\":\"finish 0\",\"entry\":6,\"reply\":\"pairs 7=2\",\"seat\":0}
{\"call\":\"freeze mappairs 3 byvalue 4\",\"entry\":7,\"reply\":\"job 1\",\"seat\":0}
{\"call\":\"finish 1\",\"entry\":8,\"reply\":\"pairs\",\"seat\":0}
{\"entries\":8}
";

const TOLD_BY_VALUE: [Case; 7] = [
    (b"pairs 7=2", b"pairs 7=2", "legal 8"),
    (b"pairs 7=2", b"pairs 7=1", "legal 8"),
    (b"pairs 7=2", b"pairs 7=3", "bad 6"),
    (b"pairs 7=2", b"pairs x=7", "bad 6"),
    (b"pairs 7=2", b"pairs", "bad 6"),
    (b"\"pairs\"", b"\"count 0\"", "bad 8"),
    (b"\"pairs\"", b"\"pairs \"", "bad 8"),
];

#[test]
fn maps_of_images_are_those_in_the_replies(rt: HostRuntime) {
    play(&rt, IMAGES, &TOLD_IMAGES);
    play(&rt, IMAGES, &TOLD_OF_ONE_KEY);
    play(&rt, BY_VALUE, &TOLD_BY_VALUE);
}
