//! A thread that waits for another one's sign.

use std::sync::atomic::{AtomicU32, Ordering};
use std::thread;

/// Waits until another thread sets the sign, and returns whether it did. It looks at most `most_turns` times, and lets
/// other threads run after each look.
pub fn wait_for(sign: &AtomicU32, most_turns: u32) -> bool {
    for _ in 0..most_turns {
        if sign.load(Ordering::SeqCst) != 0 {
            return true;
        }
        thread::yield_now();
    }
    false
}
