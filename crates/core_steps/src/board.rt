//! The board of one job: its workers' states.

ghost use Rattle.std.specs.Prelude.{All, ◌≡◌, ◌<◌, ◌≤◌, [], IfOk, OnErr, length, option_map, slice_get, slice_index_or, slice_set};
ghost use Rattle.worker_states.specs.Boards.{first_board, working};
ghost use Rattle.versions.specs.Map.{Map};
ghost use Rattle.splitter.specs.Cuts.{cut_point};
ghost use Rattle.std.specs.VecDeque.{deque_capacity, deque_len};
ghost use Rattle.worker_states.specs.WorkerValues.{HasPieces, IsJobOn, IsVacant, Leaves, WorkerValue, Works, board, splitting_move, state_parts, stealing_move, taking_move};
ghost use Rattle.core_steps.specs.Parts.{PartsMove};
ghost use Rattle.worker_states.specs.Views.{move_result};

use combiner::Bulk;
use hash_path::PathKey;
use splitter::{Piece, whole};
use std::alloc::Global;
use std::collections::VecDeque;
use std::marker::Model;
use std::sync::Arc;
use trie_node::NoMemory;
use versions::View;
use worker_states::{Progress, WorkerState, work_held};

/// The states of a job's workers, in order of the workers' numbers.
#[derive(Drop)]
pub struct Board<K: PathKey, V, P> {
    worker_states: Vec<WorkerState<K, V, P>>,
}

impl<K: PathKey, V, P> Model for Board<K, V, P> {
    ghost use Rattle.std.specs.Prelude.{List};
    ghost use Rattle.worker_states.specs.WorkerValues.{WorkerValue};

    ghost Value = { List (WorkerValue K V P) };

    ghost view = { λ b. b.worker_states.items };
}

impl<K: PathKey + Drop, V: Drop, P> Board<K, V, P> {
    /// The workers' states, in order of the workers' numbers.
    pub(crate) fn worker_states(&self) -> &[WorkerState<K, V, P>]
        ensures { result.now ≡ self.now }
    {
        &self.worker_states
    }

    /// These pieces wait for worker 0 now. It takes no memory.
    pub(crate) fn begin(&mut self, queue: VecDeque<Piece<K, V>>)
        requires { 0 < length self.old }
        ensures { (d : WorkerValue K V P) → self.new ≡ slice_set self.old 0 (record (slice_index_or self.old 0 d) { queue = queue.items }) }
    {
        drop(std::mem::replace(&mut self.worker_states[0].queue, queue));
    }

    /// How many workers there are.
    pub fn workers(&self) -> usize
        ensures { result ≡ length self.now }
    {
        self.worker_states.len()
    }

    /// The part of what the worker has worked, if there is such a worker.
    pub fn part(&self, worker: u32) -> Option<&P>
        ensures { option_map (λ part. part.now) result ≡ option_map (λ worker_state. worker_state.part) (slice_get self.now worker) }
    {
        match self.worker_states.get(worker as usize) {
            Some(worker_state) => Some(&worker_state.part),
            None => None,
        }
    }

    /// A worker that holds no piece takes the newest one of its queue.
    pub fn take(&mut self, worker: u32) -> Progress
        requires { worker < length self.old }
        ensures { Leaves self.old self.new (move_result result) (taking_move self.old worker) }
    {
        self.worker_states[worker as usize].take()
    }

    /// A worker that holds no piece takes the oldest one of another's queue.
    pub fn steal(&mut self, worker: u32, from: u32) -> Progress
        requires thief { worker < length self.old }
        requires owner { from < length self.old }
        ensures { Leaves self.old self.new (move_result result) (stealing_move self.old worker from) }
    {
        if !self.worker_states[worker as usize].is_free() {
            return Progress::Idle;
        }
        match self.worker_states[from as usize].oldest() {
            Some(piece) => self.worker_states[worker as usize].hold(piece),
            None => Progress::Idle,
        }
    }

    /// A worker cuts the piece that it holds, which keeps its lower side; the upper one is the newest of its queue
    /// then. After `NoMemory` all is as before.
    pub fn split(&mut self, worker: u32, grain: u64) -> Result<Progress, NoMemory>
        requires { worker < length self.old }
        ensures ok { IfOk result (λ progress. (m : Map K V) → All (HasPieces m) self.old → Leaves self.old self.new (move_result progress) (splitting_move (λ i. cut_point K.path_of m i grain) self.old worker)) }
        ensures err { OnErr result (self.new ≡ self.old) }
    {
        self.worker_states[worker as usize].split(grain)
    }
}

/// The board of a job of `workers` workers on a view: the piece of the whole view waits for worker 0, and each worker
/// has the part of no pairs.
pub fn first_board<K: PathKey + Drop, V: Drop, B: Bulk<K, V>>(
    alloc: Global,
    bulk: &B,
    workers: u32,
    view: View<K, V>,
) -> Result<Board<K, V, B::Part>, NoMemory>
    requires { 1 ≤ workers }
    ensures first { IfOk result (λ worker_states. board worker_states ≡ first_board workers) }
    ensures job { IfOk result (λ worker_states. IsJobOn K.cmp K.path_of (B.answers bulk.now) view worker_states) }
{
    let Ok(mut board) = vacant(alloc, bulk, workers) else {
        drop(view);
        return Err(NoMemory);
    };
    let Ok(queue) = VecDeque::with_capacity(alloc, 1) else {
        drop(view);
        drop(board);
        return Err(NoMemory);
    };
    begin_whole(alloc, bulk, &mut board, queue, view);
    Ok(board)
}

/// The piece of the whole view waits for worker 0 of a vacant board, in a queue with a place for it. It takes no
/// memory.
pub(crate) fn begin_whole<K: PathKey + Drop, V: Drop, B: Bulk<K, V>>(
    alloc: Global,
    bulk: &B,
    vacant: &mut Board<K, V, B::Part>,
    mut queue: VecDeque<Piece<K, V>>,
    view: View<K, V>,
)
    requires workers { 1 ≤ length vacant.old }
    requires worker_states { All (IsVacant (B.answers bulk.now)) vacant.old }
    requires empty { queue.items ≡ [] }
    requires place { deque_len queue < deque_capacity queue }
    ensures first { board vacant.new ≡ first_board (length vacant.old) }
    ensures job { IsJobOn K.cmp K.path_of (B.answers bulk.now) view vacant.new }
{
    let _ = bulk;
    view.len();
    queue.push_back_reserved(whole(alloc, view));
    vacant.begin(queue);
}

/// A board for whose workers nothing waits yet. Each has the part of no pairs.
pub(crate) fn vacant<K: PathKey + Drop, V: Drop, B: Bulk<K, V>>(
    alloc: Global,
    bulk: &B,
    workers: u32,
) -> Result<Board<K, V, B::Part>, NoMemory>
    ensures count { IfOk result (λ worker_states. length worker_states ≡ workers) }
    ensures vacant { IfOk result (λ worker_states. All (IsVacant (B.answers bulk.now)) worker_states) }
{
    let mut worker_states = Vec::with_capacity(alloc, workers as usize)?;
    'worker_states: while worker_states.len() < workers as usize {
        worker_states.push(WorkerState::new(alloc, bulk.unit(alloc)?))?;
    }
    Ok(Board { worker_states })
}

/// A worker works the piece that it holds: it joins the piece's part to its own, and lets the piece go. After
/// `NoMemory` all is as before.
pub fn work_on<K: PathKey + Drop, V: Drop, B: Bulk<K, V>>(
    alloc: Global,
    bulk: &B,
    board: &mut Board<K, V, B::Part>,
    worker: u32,
) -> Result<Progress, NoMemory>
    requires ready { B.ready bulk.now }
    requires worker { worker < length board.old }
    requires job { (m : Map K V) × IsJobOn K.cmp K.path_of (B.answers bulk.now) m board.old }
    ensures ok { IfOk result (λ progress. (m : Map K V) → IsJobOn K.cmp K.path_of (B.answers bulk.now) m board.old → Works K.cmp K.path_of (B.answers bulk.now) m (B.decides bulk.now) board.old worker (move_result progress) board.new) }
    ensures parts { IfOk result (λ progress. PartsMove (state_parts board.old) (working worker) (move_result progress) (state_parts board.new)) }
    ensures err { OnErr result (board.new ≡ board.old) }
{
    work_held(alloc, bulk, &mut board.worker_states[worker as usize])
}

/// What a job is given before it is opened: its query, a vacant board, and a queue with a place.
pub(crate) type Places<K, V, Q, P> = (Arc<Q>, Board<K, V, P>, VecDeque<Piece<K, V>>);

/// What a job of the query is given.
pub(crate) fn places_for<K: PathKey + Drop, V: Drop, Q: Bulk<K, V> + Drop>(
    alloc: Global,
    query: &Arc<Q>,
    workers: u32,
) -> Result<Places<K, V, Q, Q::Part>, NoMemory>
    ensures query { IfOk result (λ made. made.0.value ≡ query.now.value) }
    ensures count { IfOk result (λ made. length made.1 ≡ workers) }
    ensures vacant { IfOk result (λ made. All (IsVacant (Q.answers query.now.value)) made.1) }
    ensures empty { IfOk result (λ made. made.2.items ≡ []) }
    ensures place { IfOk result (λ made. deque_len made.2 < deque_capacity made.2) }
{
    let kept = Arc::try_clone(query)?;
    let Ok(board) = vacant(alloc, &*kept, workers) else {
        drop(kept);
        return Err(NoMemory);
    };
    let Ok(queue) = VecDeque::with_capacity(alloc, 1) else {
        drop(kept);
        drop(board);
        return Err(NoMemory);
    };
    Ok((kept, board, queue))
}
