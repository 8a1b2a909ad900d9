//! Rounds of look-ups of several keys by one call.

use crate::maps::SharedView;
use bench_kit::{Best, Fault};
use keys::ByteText;
use slots::Slots;
use std::rt::Runtime;
use std::time::Instant;

/// Gets each key once, at most `at_once` keys a call.
pub fn read_lists<S: Slots<ByteText, i64>, R: Runtime>(
    rt: &R,
    rounds: u32,
    name: &str,
    view: &SharedView<ByteText, S>,
    keys: &[&ByteText],
    at_once: usize,
) -> Result<(), Fault>
where
    S::Key: Drop,
    S::Value: Drop,
{
    let mut best = Best::new();
    let mut sum = 0;
    for _ in 0..rounds {
        let start = Instant::now(rt)?;
        sum = get_lists(view, keys, at_once)?;
        best.count(start.elapsed(rt)?);
    }
    best.show(rt, name, 1, i128::from(sum))
}

/// The sum of the values of the keys, of which each call looks up at most `at_once`.
fn get_lists<S: Slots<ByteText, i64>>(
    view: &SharedView<ByteText, S>,
    keys: &[&ByteText],
    at_once: usize,
) -> Result<i64, Fault>
where
    S::Key: Drop,
    S::Value: Drop,
{
    let mut sum = 0i64;
    for n in 0..=keys.len() / at_once.max(1) {
        let from = n.saturating_mul(at_once).min(keys.len());
        let to = from.saturating_add(at_once).min(keys.len());
        for found in view.get_many(&keys[from..to])? {
            if let Some(value) = found {
                sum = sum.wrapping_add(*S::lend_value(value));
            }
        }
    }
    Ok(sum)
}
