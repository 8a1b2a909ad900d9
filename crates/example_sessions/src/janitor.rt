//! The janitor, which removes the sessions that have ended.
use crate::service::Service;
use crate::workers::WORKERS;
use std::rt::Runtime;
use std::sync::Wait;
use std::sync::atomic::{AtomicU64, Ordering};
use std::thread;
use std::time::Duration;
use tambyulo::NoMemory;

/// The moment at which the janitor looks.
const MOMENT: u64 = 1_000;

/// Removes the sessions that have ended until all workers have finished, and those that are left then. Returns how many
/// it removed.
pub fn clean<R: Runtime + AllocGlobal + Wait>(
    rt: &R,
    service: &Service,
    finished: &AtomicU64,
) -> Result<u64, NoMemory> {
    let mut removed = 0u64;
    for _ in rt.forever() {
        let is_last = finished.load(Ordering::SeqCst) >= WORKERS as u64;
        removed = removed.saturating_add(service.sweep(rt, MOMENT)?);
        if is_last {
            break;
        }
        thread::sleep(rt, Duration::from_millis(1));
    }
    Ok(removed)
}
