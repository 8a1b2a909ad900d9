//! Where keys stand in a walk, and where a walk is cut, as a plain program.

use std::alloc::{AllocError, Global};

/// Path words that part at each level, some of them at several.
pub const PARTING_WORDS: [u64; 16] = [
    0,
    0xc000_0000_0000_0000,
    0x4000_0000_0000_0000,
    0xffff_ffff_ffff_ffff,
    0x3fff_ffff_ffff_ffff,
    0x3eff_ffff_ffff_ffff,
    1,
    33,
    0x0010_0000_0000_0001,
    0x0110_0000_0000_0001,
    0x0000_8000_0000_0001,
    0x0000_8000_0000_0002,
    0x0000_0400_0000_0000,
    0xaf63_dc4c_8601_ec8c,
    0xaf63_df4c_8601_f1a5,
    0xaf63_de4c_8601_eff2,
];

/// How many positions share their digits up to each level, from the first level down.
pub const WIDTHS: [u128; 13] = [
    1 << 59,
    1 << 54,
    1 << 49,
    1 << 44,
    1 << 39,
    1 << 34,
    1 << 29,
    1 << 24,
    1 << 19,
    1 << 14,
    1 << 9,
    1 << 4,
    1,
];

/// The position of a path word: its digits of five bits, the lowest first, and its last four bits.
pub fn position_of(word: u64) -> u128 {
    let mut rest = word;
    let mut position = 0u128;
    for _ in 0..12 {
        position = position
            .wrapping_mul(32)
            .wrapping_add(u128::from(rest % 32));
        rest /= 32;
    }
    position.wrapping_mul(16).wrapping_add(u128::from(rest))
}

/// Where pairs are cut that stand at these positions, in rising order: nowhere if they are no more than `grain` or share
/// one position; else at the middle one of the first digits that differ, after the digits that all share and with zeros
/// behind.
///
/// # Errors
///
/// There is no memory for a list of positions.
pub fn cut_point(
    alloc: Global,
    positions: &[u128],
    grain: u64,
) -> Result<Option<u128>, AllocError> {
    if positions.len() as u64 <= grain {
        return Ok(None);
    }
    for width in WIDTHS {
        let middle = middle_of(&starts_of(alloc, positions, width)?);
        if middle.is_some() {
            return Ok(middle);
        }
    }
    Ok(None)
}

// The middle one of several, none of one.
fn middle_of(starts: &[u128]) -> Option<u128> {
    if starts.len() > 1 {
        return starts.get(starts.len() / 2).copied();
    }
    None
}

// The multiples of a width that have positions before the next multiple, each once, in rising order.
fn starts_of(alloc: Global, positions: &[u128], width: u128) -> Result<Vec<u128>, AllocError> {
    let mut starts = Vec::new(alloc);
    let mut last = None;
    for position in positions {
        let behind = position.checked_rem(width).unwrap_or(0);
        let start = position.saturating_sub(behind);
        if last != Some(start) {
            starts.push(start)?;
            last = Some(start);
        }
    }
    Ok(starts)
}
