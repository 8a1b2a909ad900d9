//! The times of many rounds.

use crate::fault::Fault;
use std::alloc::Global;
use std::time::Duration;

/// The times that were counted so far, in nanoseconds.
#[derive(Drop)]
pub struct Times {
    nanoseconds: Vec<u64>,
}

/// Of times in rising order: the middle one, and the one that 99 of 100 of them do not exceed, in nanoseconds. Each is 0
/// where there is none.
#[derive(Clone, Copy)]
pub struct Spread {
    pub median: u64,
    pub ninety_ninth: u64,
}

impl Times {
    /// No times yet.
    pub fn new(alloc: Global) -> Times {
        Times {
            nanoseconds: Vec::new(alloc),
        }
    }

    /// Counts the time of one more round.
    pub fn count(&mut self, time: Duration) -> Result<(), Fault> {
        let nanoseconds = u64::try_from(time.as_nanos()).unwrap_or(u64::MAX);
        self.nanoseconds.push(nanoseconds)?;
        Ok(())
    }

    /// How the times spread.
    pub fn spread(self) -> Result<Spread, Fault> {
        let mut rising = self.nanoseconds;
        rising.sort()?;
        let rising = rising.as_slice();
        Ok(Spread {
            median: at_hundredth(rising, 50),
            ninety_ninth: at_hundredth(rising, 99),
        })
    }
}

/// The time that stands `hundredths` hundredths of the way from the first to the last, 0 where there is none.
fn at_hundredth(rising: &[u64], hundredths: usize) -> u64 {
    let last = rising.len().saturating_sub(1);
    let place = last.saturating_mul(hundredths) / 100;
    rising.get(place).copied().unwrap_or(0)
}
