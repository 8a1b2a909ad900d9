//! Where threads meet before they begin.

use std::sync::atomic::{AtomicU64, Ordering};
use std::{hint, thread};

/// How often a thread looks whether all have come: without a pause first, and then after letting others run.
const LOOKS: u32 = 10_000;

const LOOKS_WITHOUT_PAUSE: u32 = 2_000;

/// A place where threads wait for one another.
#[derive(Drop)]
pub struct Start {
    come: AtomicU64,
    threads: u64,
}

impl Start {
    /// A place where `threads` threads are to meet.
    pub fn new(threads: u64) -> Start {
        Start {
            come: AtomicU64::new(0),
            threads,
        }
    }

    /// Waits until all threads have come, but not for ever: a thread that comes late finds the others at work.
    pub fn wait(&self) {
        self.come.fetch_add(1, Ordering::SeqCst);
        for look in 0..LOOKS {
            if self.come.load(Ordering::SeqCst) >= self.threads {
                break;
            }
            if look < LOOKS_WITHOUT_PAUSE {
                hint::spin_loop();
            } else {
                thread::yield_now();
            }
        }
    }
}
