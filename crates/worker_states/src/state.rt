//! The state of one worker of a job.

ghost use Rattle.std.specs.Prelude.{◌≡◌, [], IfOk, None, Some, OnErr, is_none, length};
ghost use Rattle.worker_states.specs.Boards.{oldest, without_oldest};
ghost use Rattle.worker_states.specs.WorkerValues.{state_split, state_take};
ghost use Rattle.worker_states.specs.Views.{move_result};

use crate::progress::Progress;
use hash_path::PathKey;
use iter::Interval;
use splitter::{Cut, Piece, cut};
use std::alloc::Global;
use std::collections::VecDeque;
use std::marker::Model;
use trie_node::NoMemory;

/// The pieces that wait for a worker, oldest first; the piece that it holds, if any; the intervals that it has worked,
/// and the part of their pairs.
#[derive(Drop)]
pub struct WorkerState<K: PathKey, V, P> {
    pub queue: VecDeque<Piece<K, V>>,
    pub held: Option<Piece<K, V>>,
    pub part: P,
    pub worked: Vec<Interval>,
}

impl<K: PathKey, V, P> Model for WorkerState<K, V, P> {
    ghost use Rattle.worker_states.specs.WorkerValues.{WorkerValue};

    ghost Value = { WorkerValue K V P };

    ghost view = { λ d. record { queue = d.queue.items; held = d.held; part = d.part; worked = d.worked.items } };
}

impl<K: PathKey + Drop, V: Drop, P> WorkerState<K, V, P> {
    /// The state of a worker that has nothing yet, with the part of no pairs. It makes no request for memory.
    pub fn new(alloc: Global, part: P) -> WorkerState<K, V, P>
        ensures { result ≡ record { queue = []; held = None; part = part; worked = [] } }
    {
        WorkerState {
            queue: VecDeque::new(alloc),
            held: None,
            part,
            worked: Vec::new(alloc),
        }
    }

    /// Whether the worker holds no piece.
    pub fn is_free(&self) -> bool
        ensures { result ≡ is_none self.now.held }
    {
        self.held.is_none()
    }

    /// The part of what the worker has worked.
    pub fn part(&self) -> &P
        ensures { result.now ≡ self.now.part }
    {
        &self.part
    }

    /// How many pieces wait.
    pub fn waiting(&self) -> usize
        ensures { result ≡ length self.now.queue }
    {
        self.queue.len()
    }

    /// A worker that holds no piece gets the newest one of its queue.
    pub fn take(&mut self) -> Progress
        ensures { (move_result result, self.new) ≡ state_take self.old }
    {
        if self.held.is_some() {
            return Progress::Idle;
        }
        match self.queue.pop_back() {
            Some(piece) => self.hold(piece),
            None => Progress::Idle,
        }
    }

    /// The piece that came first into the queue leaves it, if there is one.
    pub fn oldest(&mut self) -> Option<Piece<K, V>>
        ensures piece { result ≡ oldest self.old.queue }
        ensures left { self.new ≡ record self.old { queue = without_oldest self.old.queue } }
    {
        self.queue.pop_front()
    }

    /// The worker holds the piece now.
    pub fn hold(&mut self, piece: Piece<K, V>) -> Progress
        ensures told { result ≡ Progress.Took piece.interval.lo piece.interval.hi }
        ensures held { self.new ≡ record self.old { held = Some piece } }
    {
        let progress = Progress::Took(piece.lo(), piece.hi());
        drop(std::mem::replace(&mut self.held, Some(piece)));
        progress
    }

    /// Cuts the held piece at its cut point, where it has one: the upper piece is put last in the queue. The place in
    /// the queue is made first, and after `NoMemory` all is as before.
    pub fn split(&mut self, grain: u64) -> Result<Progress, NoMemory>
        ensures ok { IfOk result (λ progress. (move_result progress, self.new) ≡ state_split K.path_of grain self.old) }
        ensures err { OnErr result (self.new ≡ self.old) }
    {
        self.queue.reserve(1)?;
        let piece = match self.held.take() {
            Some(piece) => piece,
            None => return Ok(Progress::Idle),
        };
        match cut(piece, grain) {
            Ok(Cut::Two(lower, upper)) => {
                let progress = Progress::Cut(lower.lo(), lower.hi(), upper.hi());
                self.queue.push_back_reserved(upper);
                self.hold(lower);
                Ok(progress)
            }
            Ok(Cut::One(piece)) => {
                self.hold(piece);
                Ok(Progress::Whole)
            }
            Err(piece) => {
                self.hold(piece);
                Err(NoMemory)
            }
        }
    }
}
