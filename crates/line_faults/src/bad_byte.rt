//! A byte that no line of a script may have.

ghost use Rattle.std.specs.Prelude.{◌≡◌, ◌<◌, ◌≤◌, ℕ, IfSome, None, false, length, slice_index, true};
ghost use Rattle.line_faults.specs.Bytes.{is_bad_byte};

use crate::bad_line::without_newline;
use journal_lines::Lines;
use std::fmt;
use std::fmt::{Display, Formatter};

/// The bytes of a byte order mark.
const BYTE_ORDER_MARK: &[u8] = b"\xef\xbb\xbf";

/// The first byte of a line that no line of a script may have. It shows as the text that is printed for it.
#[derive(Clone, Copy, Debug)]
pub struct BadByte {
    /// How many bytes of the line stand before it.
    pub before: usize,
    /// The byte.
    pub byte: u8,
    /// What it is part of, where that is known.
    pub part: BadPart,
}

/// What a byte is part of that no line of a script may have.
#[derive(Clone, Copy, Debug)]
pub enum BadPart {
    /// The end of a line as Windows has it.
    CrLf,
    /// The mark of a text in UTF-8, which some editors put before it.
    ByteOrderMark,
    /// A tab.
    Tab,
    /// A letter beyond ASCII.
    BeyondAscii,
    /// Another control character.
    Control,
}

/// The first byte of the line, which is given without its newline, that is none from 0x20 to 0x7e; or none where there
/// is no such byte.
///
/// It costs a step for each byte before it. It is never refused, and no lock is held.
pub fn bad_byte_in(line: &[u8]) -> Option<BadByte>
    ensures none { result ≡ None → (k : ℕ) → k < length line.now → is_bad_byte (slice_index line.now k) ≡ false }
    ensures good { IfSome result (λ bad. (k : ℕ) → k < bad.before → is_bad_byte (slice_index line.now k) ≡ false) }
    ensures bad { IfSome result (λ bad. (bad.byte ≡ slice_index line.now bad.before) × (is_bad_byte bad.byte ≡ true)) }
{
    let before = bytes_before_bad(line);
    if before >= line.len() {
        return None;
    }
    let byte = line[before];
    Some(BadByte {
        before,
        byte,
        part: part_of(line, before, byte),
    })
}

/// How many bytes stand before the first bad one, or in the line where it has none.
fn bytes_before_bad(line: &[u8]) -> usize
    ensures within { result ≤ length line.now }
    ensures good { (k : ℕ) → k < result → is_bad_byte (slice_index line.now k) ≡ false }
    ensures bad { result < length line.now → is_bad_byte (slice_index line.now result) ≡ true }
{
    line.iter()
        .position(|b| !(0x20..=0x7e).contains(b))
        .unwrap_or(line.len())
}

/// The first such byte on the line of this number, counted from 1, of a script's text.
///
/// It costs a step for each byte of the lines up to that one. It is never refused, and no lock is held.
pub fn bad_byte_at(text: &[u8], number: u32) -> Option<BadByte> {
    let mut place = 0u32;
    for line in Lines(text) {
        place = place.saturating_add(1);
        if place == number {
            return bad_byte_in(without_newline(line).unwrap_or(line));
        }
    }
    None
}

/// What the byte at the place is part of.
fn part_of(line: &[u8], before: usize, byte: u8) -> BadPart {
    match byte {
        b'\r' if before == line.len().saturating_sub(1) => BadPart::CrLf,
        b'\t' => BadPart::Tab,
        0x80.. if before == 0 && line.starts_with(BYTE_ORDER_MARK) => BadPart::ByteOrderMark,
        0x80.. => BadPart::BeyondAscii,
        _ => BadPart::Control,
    }
}

impl Display for BadByte {
    fn fmt<W: fmt::Write>(&self, f: &mut Formatter<W>) -> fmt::Result {
        let column = (self.before as u64).saturating_add(1);
        let byte = self.byte;
        let part = self.part;
        write!(f, "column {column}, byte 0x{byte:02x}: {part}")
    }
}

impl Display for BadPart {
    fn fmt<W: fmt::Write>(&self, f: &mut Formatter<W>) -> fmt::Result {
        f.write_str(match self {
            BadPart::CrLf => "the line ends with CR LF, and has to end with LF alone",
            BadPart::ByteOrderMark => "the text begins with a byte order mark",
            BadPart::Tab => "a tab, where a space is wanted",
            BadPart::BeyondAscii => "no byte of ASCII",
            BadPart::Control => "a control character",
        })
    }
}
