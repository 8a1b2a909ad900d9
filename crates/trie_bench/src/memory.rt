//! How much memory the process holds.

use bench_kit::{Fault, show_figure};
use std::fs;
use std::rt::Runtime;

/// The bytes of a page of memory.
const PAGE: u64 = 4096;

/// The bytes that the process holds in memory now, as Linux reports them; none on another system.
pub fn resident_bytes<R: Runtime + AllocGlobal>(rt: &R) -> Option<u64> {
    let text = fs::read_to_string(rt, "/proc/self/statm").ok()?;
    let pages: u64 = text.as_str().split_whitespace().nth(1)?.parse().ok()?;
    pages.checked_mul(PAGE)
}

/// Prints the bytes for each of `pairs` pairs, from what the process held before them and after.
pub fn show_bytes<R: Runtime>(
    rt: &R,
    before: Option<u64>,
    after: Option<u64>,
    pairs: u64,
) -> Result<(), Fault> {
    if let (Some(before), Some(after)) = (before, after) {
        let each = after.saturating_sub(before) / pairs.max(1);
        show_figure(rt, "bytes_a_pair", 1, u128::from(each))?;
    }
    Ok(())
}
