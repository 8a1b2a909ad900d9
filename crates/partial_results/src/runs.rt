//! Intervals that follow one another, kept as one.
ghost use Rattle.std.specs.Prelude.{◌≡◌, ◌+◌, ◌<◌, ◌≤◌, ◌++◌, ◌∷◌, [], ℕ, List, OnOk, length};
ghost use Rattle.std.specs.Bool.{OnTrue};
ghost use Rattle.iter.specs.declared.interval.Interval.{Interval};
ghost use Rattle.iter.specs.Intervals.{cover};
ghost use Rattle.partial_results.specs.Worked.{once};

use iter::Interval;
use std::alloc::AllocError;

/// Adds the positions of an interval. Where it begins at the end of the last one, that one grows.
pub(crate) fn add_run(runs: &mut Vec<Interval>, interval: Interval) -> Result<(), AllocError>
    ensures cover { OnOk result ((p : ℕ) → cover runs.new.items p ≡ cover runs.old.items p + once interval p) }
    ensures joined { OnOk result ((before : List Interval) (last : Interval) → runs.old.items ≡ before ++ last ∷ [] → last.lo ≤ last.hi → last.hi ≡ interval.lo → interval.lo ≤ interval.hi → length runs.new.items ≡ length runs.old.items) }
{
    runs.reserve(1)?;
    match runs.pop() {
        Some(last) => {
            let follows = last.hi == interval.lo
                && last.lo <= last.hi
                && interval.lo <= interval.hi;
            if follows {
                runs.push(Interval {
                    lo: last.lo,
                    hi: interval.hi,
                })?;
            } else {
                runs.push(last)?;
                runs.push(interval)?;
            }
        }
        None => runs.push(interval)?,
    }
    Ok(())
}

/// Whether an interval shares no position with the runs.
pub(crate) fn is_free(runs: &[Interval], interval: Interval) -> bool
    ensures { OnTrue result ((p : ℕ) → 0 < once interval p → cover runs.now p ≡ 0) }
{
    for run in runs {
        if run.lo < interval.hi && interval.lo < run.hi {
            return false;
        }
    }
    true
}
