//! What the workers of a call share.
ghost use Rattle.std.specs.Prelude.{◌≡◌, ◌≤◌};

use crate::crew::Crew;
use crate::gate::Gate;
use std::alloc::Global;
use std::sync::atomic::{AtomicBool, AtomicU64, Ordering};

/// The limits of a call, its gate, and two hints on which no answer rests: how many pieces are not yet worked, and
/// whether workers may stop.
#[derive(Drop)]
pub struct Shared<'g, G> {
    pub alloc: Global,
    pub grain: u64,
    pub patience: u32,
    /// How many workers are started.
    pub started: u32,
    pub gate: &'g G,
    pending: AtomicU64,
    stopped: AtomicBool,
}

impl<'g, G: Gate> Shared<'g, G> {
    /// What the workers of a call on `pairs` pairs share. No more workers are started than there are pieces of a grain's
    /// size.
    pub fn new(alloc: Global, crew: Crew, pairs: u64, gate: &'g G) -> Shared<'g, G>
        requires grain { 1 ≤ crew.grain }
        requires workers { 1 ≤ crew.workers }
        ensures grain { result.grain ≡ crew.grain }
        ensures gate { result.gate.now ≡ gate.now }
        ensures least { 1 ≤ result.started }
        ensures most { result.started ≤ crew.workers }
    {
        let pieces = (pairs.saturating_sub(1) / crew.grain).saturating_add(1);
        Shared {
            alloc,
            grain: crew.grain,
            patience: crew.patience,
            started: pieces.min(u64::from(crew.workers)) as u32,
            gate,
            pending: AtomicU64::new(1),
            stopped: AtomicBool::new(false),
        }
    }

    /// Counts one piece more: a piece is cut in two.
    pub fn note_split(&self) {
        self.pending.fetch_add(1, Ordering::SeqCst);
    }

    /// Counts one piece less: it is worked now, or left over. After the last piece there is nothing to wait for.
    pub fn note_worked(&self) {
        if self.pending.fetch_sub(1, Ordering::SeqCst) == 1 {
            self.stop();
        }
    }

    /// Lets workers stop: a part is settled, or no piece is pending.
    pub fn stop(&self) {
        self.stopped.store(true, Ordering::SeqCst);
    }

    /// Whether workers may stop.
    pub fn is_stopped(&self) -> bool {
        self.stopped.load(Ordering::SeqCst)
    }
}
