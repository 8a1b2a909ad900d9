//! The core: a table of handles, with a board for each open job.
ghost use Rattle.std.specs.Prelude.{◌≡◌, ◌≤◌, ◌<◌, ◌&&◌, ◌++◌, ◌∷◌, [], All, IfErr, IfOk, IfSome, OnErr, OnOk, None, Some, is_none, is_some, not, nat_lt, map, option_map, take, length, false, true};
ghost use Rattle.handles.specs.Machine.{Job, abandon, finish, freeze, job_at, refusal, view};
ghost use Rattle.handles.specs.Views.{request_of};
ghost use Rattle.core_steps.specs.Cores.{of_client, of_worker, worked_part};
ghost use Rattle.core_steps.specs.Invariants.{IsCore};
ghost use Rattle.core_steps.specs.Moves.{move_of, moves_without_memory};
ghost use Rattle.core_steps.specs.Parts.{new_value, part_at};
ghost use Rattle.core_steps.specs.Queries.{asked, divided};
ghost use Rattle.core_steps.specs.Steps.{CanAsk, IsAnswered, MayFinish, Ran, StepsTo, asked_by, refusal_due, takes_no_memory};
ghost use Rattle.core_steps.specs.declared.outcome.Outcome.{Outcome};

use crate::board::{begin_whole, places_for};
use crate::collecting::collected;
use crate::job_state::{JobState, close, place_of};
use crate::laws::law_of_coverings;
use crate::moves::{Move, make_move};
use crate::outcome::{Outcome, Trace, call_outcome, refused, view_outcome};
use crate::step::Step;
use bulk_work::Asks;
use handles::{Call, Limits, MOST_ENTRIES, Table, law_of_freezes, law_of_open_jobs};
use hash_path::PathKey;
use iter::parts_follow_intervals;
use splitter::{MOST_GRAIN, MOST_WORKERS, law_of_cuts};
use std::alloc::Global;
use std::marker::Model;
use std::sync::Arc;
use trie_node::NoMemory;
use versions::{MOST_PAIRS, Refusal};

/// Clients and workers over one table of handles, stepped by the caller.
///
/// Each open job has a board: what waits for each worker, what it holds, and what it has worked. A client's step is one
/// step of the machine of handles; a worker's step is one move on the board of a job, and leaves the machine as it is.
/// After any refusal, and after `NoMemory`, all handles, jobs and parts are as before.
#[derive(Drop)]
pub struct Core<K: PathKey, V, Q: Asks<K, V>> {
    table: Table<K, V, Q>,
    job_states: Vec<JobState<K, V, Q, Q::Part>>,
    workers: u32,
    grain: u64,
}

impl<K: PathKey, V, Q: Asks<K, V>> Model for Core<K, V, Q> {
    ghost use Rattle.core_steps.specs.Parts.{CoreValue};
    ghost use Rattle.core_steps.specs.JobStates.{IsWhole, job_states_of, value_of};

    ghost Value = { CoreValue K V Q Q.Part };

    ghost view = { λ c. value_of c.table (job_states_of c.job_states.items) c.workers c.grain };

    ghost invariant = { λ c. IsWhole K.cmp K.path_of Q.answers Q.ready c.table (job_states_of c.job_states.items) c.workers c.grain };
}

impl<K: PathKey + Drop, V: Eq + Drop, Q: Asks<K, V> + Drop> Core<K, V, Q> {
    /// A core with no handles and no jobs, with `workers` workers for each job. A piece of at most `grain` pairs is
    /// not cut.
    pub fn new(
        alloc: Global,
        limits: Limits,
        workers: u32,
        grain: u64,
    ) -> Result<Core<K, V, Q>, NoMemory>
        requires least_pairs { 1 ≤ limits.pairs }
        requires most_pairs { limits.pairs ≤ MOST_PAIRS }
        requires least_entries { 2 ≤ limits.entries }
        requires most_entries { limits.entries ≤ MOST_ENTRIES }
        requires least_workers { 1 ≤ workers }
        requires most_workers { workers ≤ MOST_WORKERS }
        requires least_grain { 1 ≤ grain }
        requires most_grain { grain ≤ MOST_GRAIN }
        ensures { IfOk result (λ core. core ≡ new_value limits workers grain) }
    {
        let table = Table::new(alloc, limits)?;
        Ok(Core {
            table,
            job_states: Vec::new(alloc),
            workers,
            grain,
        })
    }

    /// The part of what a worker of an open job has worked: none where the job is not open or the worker not there.
    pub fn part(&self, job: u64, worker: u32) -> Option<&Q::Part>
        ensures none { is_none result ≡ not (is_some (job_at self.now.state.machine job) && nat_lt worker self.now.state.workers) }
        ensures shown { option_map (λ part. part.now) result ≡ part_at self.now.parts job worker }
        ensures some { IfSome result (λ part. (asking : Job K V Q) → job_at self.now.state.machine job ≡ Some asking → Q.answers asking.query (worked_part (divided K.path_of Q.decides) self.now.state job worker) part.now) }
    {
        law_of_cuts::<K, V>();
        match place_of(&self.job_states, job) {
            Some(place) => self.job_states[place].board.part(worker),
            None => None,
        }
    }

    /// Makes one step of a client or of a worker.
    ///
    /// A query that is frozen may be called on every pair. A refusal that is due is returned even if memory runs out,
    /// and so is `Unfinished`. After `NoMemory` all is as before, and each step leaves all parts as they were, but for
    /// that of a worker that works a piece, and those of a job that it opens or closes. A drop of a handle, an abandon,
    /// a size, a take and a steal never return `NoMemory`.
    pub fn step(
        &mut self,
        alloc: Global,
        step: Step<K, V, Q>,
    ) -> Result<Outcome<K, V, Q::Item>, NoMemory>
        requires { CanAsk Q.ready (asked_by step) }
        ensures step { IsAnswered (asked K.cmp V.eq Q.target_of Q.answered) (divided K.path_of Q.decides) self.old (asked_by step) result self.new }
        ensures due { OnErr result (refusal_due (asked K.cmp V.eq Q.target_of Q.answered) self.old.state (asked_by step) ≡ None) }
        ensures unfinished { OnErr result (MayFinish (divided K.path_of Q.decides) self.old.state (asked_by step)) }
        ensures memory { OnErr result (takes_no_memory (asked_by step) ≡ false) }
        ensures core { IsCore self.new.state }
    {
        let answer = self.made(alloc, step);
        // called for its contract alone, which says that this is a core
        self.workers();
        answer
    }

    /// Makes the steps in order, and gives their outcomes. What clients see of them is a run of the machine of handles,
    /// and no position of a job is worked twice. Each step leaves the parts that `step` leaves.
    ///
    /// If memory runs out, the outcomes are those of the steps before, and the core is as after those.
    pub fn run(
        &mut self,
        alloc: Global,
        steps: &[Step<K, V, Q>],
    ) -> Result<Trace<K, V, Q::Item>, (Trace<K, V, Q::Item>, NoMemory)>
        requires { All (λ step. CanAsk Q.ready (asked_by step)) steps.now }
        ensures run { IfOk result (λ trace. Ran (asked K.cmp V.eq Q.target_of Q.answered) (divided K.path_of Q.decides) self.old (map asked_by steps.now) trace.outcomes.items self.new) }
        ensures short { IfErr result (λ e. length e.0.outcomes.items < length steps.now) }
        ensures err { IfErr result (λ e. Ran (asked K.cmp V.eq Q.target_of Q.answered) (divided K.path_of Q.decides) self.old (map asked_by (take (length e.0.outcomes.items) steps.now)) e.0.outcomes.items self.new) }
        ensures core { IsCore self.new.state }
    {
        law_of_coverings::<K, V, Q>();
        // called for its contract alone, which says that this is a core
        self.workers();
        let mut outcomes = Vec::new(alloc);
        for step in steps {
            if self.one_more(alloc, step, &mut outcomes).is_err() {
                self.workers();
                return Err((Trace { outcomes }, NoMemory));
            }
        }
        self.workers();
        Ok(Trace { outcomes })
    }

    // One step more, whose outcome comes last.
    fn one_more(
        &mut self,
        alloc: Global,
        step: &Step<K, V, Q>,
        outcomes: &mut Vec<Outcome<K, V, Q::Item>>,
    ) -> Result<(), NoMemory>
        requires { CanAsk Q.ready (asked_by step.now) }
        ensures ok { OnOk result ((o : Outcome K V Q.Item) × (outcomes.new.items ≡ outcomes.old.items ++ o ∷ []) × StepsTo (asked K.cmp V.eq Q.target_of Q.answered) (divided K.path_of Q.decides) self.old (asked_by step.now) o self.new) }
        ensures outcomes { OnErr result (outcomes.new.items ≡ outcomes.old.items) }
        ensures err { OnErr result (self.new ≡ self.old) }
    {
        outcomes.reserve(1)?;
        let outcome = self.made(alloc, step.try_clone()?)?;
        outcomes.push_reserved(outcome);
        Ok(())
    }

    /// How many workers each job has.
    pub fn workers(&self) -> u32
        ensures count { result ≡ self.now.state.workers }
        ensures core { IsCore self.now.state }
    {
        self.workers
    }

    // One step, of whatever kind.
    fn made(
        &mut self,
        alloc: Global,
        step: Step<K, V, Q>,
    ) -> Result<Outcome<K, V, Q::Item>, NoMemory>
        requires { CanAsk Q.ready (asked_by step) }
        ensures step { IsAnswered (asked K.cmp V.eq Q.target_of Q.answered) (divided K.path_of Q.decides) self.old (asked_by step) result self.new }
        ensures due { OnErr result (refusal_due (asked K.cmp V.eq Q.target_of Q.answered) self.old.state (asked_by step) ≡ None) }
        ensures unfinished { OnErr result (MayFinish (divided K.path_of Q.decides) self.old.state (asked_by step)) }
        ensures memory { OnErr result (takes_no_memory (asked_by step) ≡ false) }
    {
        match step {
            Step::Call(call) => self.call(alloc, call),
            Step::View(handle) => self.view(handle),
            Step::Freeze(handle, query) => self.freeze(alloc, handle, query),
            Step::Finish(job) => self.finish(alloc, job),
            Step::Abandon(job) => self.abandon(job),
            Step::Take(job, worker) => self.make_move(alloc, job, Move::Take(worker)),
            Step::Steal(job, worker, from) => self.make_move(alloc, job, Move::Steal(worker, from)),
            Step::Split(job, worker) => self.make_move(alloc, job, Move::Split(worker)),
            Step::Work(job, worker) => self.make_move(alloc, job, Move::Work(worker)),
        }
    }

    // A client makes a call.
    fn call(&mut self, alloc: Global, call: Call<K, V>) -> Result<Outcome<K, V, Q::Item>, NoMemory>
        ensures step { IsAnswered (asked K.cmp V.eq Q.target_of Q.answered) (divided K.path_of Q.decides) self.old (of_client (request_of call)) result self.new }
        ensures due { OnErr result (refusal_due (asked K.cmp V.eq Q.target_of Q.answered) self.old.state (of_client (request_of call)) ≡ None) }
        ensures unfinished { OnErr result (MayFinish (divided K.path_of Q.decides) self.old.state (of_client (request_of call))) }
        ensures memory { OnErr result (takes_no_memory {Q = Q} (of_client (request_of call)) ≡ false) }
    {
        law_of_cuts::<K, V>();
        law_of_open_jobs::<K, V, Q>();
        call_outcome(self.table.serve(alloc, call))
    }

    // A client views a map.
    fn view(&mut self, handle: u32) -> Result<Outcome<K, V, Q::Item>, NoMemory>
        ensures step { IsAnswered (asked K.cmp V.eq Q.target_of Q.answered) (divided K.path_of Q.decides) self.old (of_client (view handle)) result self.new }
        ensures due { OnErr result (refusal_due (asked K.cmp V.eq Q.target_of Q.answered) self.old.state (of_client (view handle)) ≡ None) }
    {
        law_of_cuts::<K, V>();
        law_of_open_jobs::<K, V, Q>();
        view_outcome(self.table.view(handle))
    }

    // A client freezes a map. A refusal that is due comes before any place is made; and all places are made before the
    // table is called, so that nothing is refused after it.
    fn freeze(
        &mut self,
        alloc: Global,
        handle: u32,
        query: Arc<Q>,
    ) -> Result<Outcome<K, V, Q::Item>, NoMemory>
        requires { Q.ready query.value }
        ensures step { IsAnswered (asked K.cmp V.eq Q.target_of Q.answered) (divided K.path_of Q.decides) self.old (of_client (freeze handle query.value)) result self.new }
        ensures due { OnErr result (refusal_due (asked K.cmp V.eq Q.target_of Q.answered) self.old.state (of_client (freeze handle query.value)) ≡ None) }
    {
        law_of_cuts::<K, V>();
        law_of_freezes::<K, V, Q>();
        if refuses_freeze(&self.table, handle, &query) {
            return self.refused_freeze(handle, query);
        }
        let Ok((kept, mut board, queue)) = places_for(alloc, &query, self.workers) else {
            drop(query);
            return Err(NoMemory);
        };
        let Ok(()) = self.job_states.reserve(1) else {
            drop(query);
            drop(kept);
            drop(board);
            drop(queue);
            return Err(NoMemory);
        };
        let opened = match self.table.freeze(handle, query) {
            Ok(opened) => opened,
            Err(refusal) => {
                drop(kept);
                drop(board);
                drop(queue);
                return refused(refusal);
            }
        };
        let (number, view) = opened;
        begin_whole(alloc, &*kept, &mut board, queue, view);
        self.job_states.push_reserved(JobState {
            number,
            query: kept,
            board,
        });
        Ok(Outcome::Frozen(number))
    }

    // A client's freeze that the table refuses.
    fn refused_freeze(
        &mut self,
        handle: u32,
        query: Arc<Q>,
    ) -> Result<Outcome<K, V, Q::Item>, NoMemory>
        requires { is_some (refusal_due (asked K.cmp V.eq Q.target_of Q.answered) self.old.state (of_client (freeze handle query.value))) ≡ true }
        ensures step { IsAnswered (asked K.cmp V.eq Q.target_of Q.answered) (divided K.path_of Q.decides) self.old (of_client (freeze handle query.value)) result self.new }
        ensures due { OnErr result (refusal_due (asked K.cmp V.eq Q.target_of Q.answered) self.old.state (of_client (freeze handle query.value)) ≡ None) }
    {
        law_of_cuts::<K, V>();
        match self.table.freeze(handle, query) {
            Ok(_) => unreachable!(),
            Err(refusal) => refused(refusal),
        }
    }

    // A client collects the answer of a job.
    fn finish(&mut self, alloc: Global, job: u64) -> Result<Outcome<K, V, Q::Item>, NoMemory>
        ensures step { IsAnswered (asked K.cmp V.eq Q.target_of Q.answered) (divided K.path_of Q.decides) self.old (of_client (finish job)) result self.new }
        ensures due { OnErr result (refusal_due (asked K.cmp V.eq Q.target_of Q.answered) self.old.state (of_client (finish job)) ≡ None) }
        ensures unfinished { OnErr result (MayFinish (divided K.path_of Q.decides) self.old.state (of_client (finish job))) }
    {
        law_of_cuts::<K, V>();
        parts_follow_intervals::<K, V>();
        let Some(place) = place_of(&self.job_states, job) else {
            return Ok(Outcome::Refused(Refusal::NoJob));
        };
        let job_state = &self.job_states[place];
        let Some(part) = collected(alloc, &*job_state.query, &job_state.board)? else {
            return Ok(Outcome::Unfinished);
        };
        let answer = match self.table.finish(job, part) {
            Ok(answer) => answer,
            Err(refusal) => return refused(refusal),
        };
        close(&mut self.job_states, job);
        Ok(Outcome::Answer(answer))
    }

    // A client closes a job without an answer.
    fn abandon(&mut self, job: u64) -> Result<Outcome<K, V, Q::Item>, NoMemory>
        ensures step { IsAnswered (asked K.cmp V.eq Q.target_of Q.answered) (divided K.path_of Q.decides) self.old (of_client (abandon job)) result self.new }
        ensures due { OnErr result (refusal_due (asked K.cmp V.eq Q.target_of Q.answered) self.old.state (of_client (abandon job)) ≡ None) }
        ensures memory { OnErr result (takes_no_memory {K = K} {V = V} {Q = Q} (of_client (abandon job)) ≡ false) }
    {
        law_of_cuts::<K, V>();
        match self.table.abandon(job) {
            Ok(()) => (),
            Err(refusal) => return refused(refusal),
        }
        close(&mut self.job_states, job);
        Ok(Outcome::Abandoned)
    }

    // A worker moves.
    fn make_move(
        &mut self,
        alloc: Global,
        job: u64,
        chosen: Move,
    ) -> Result<Outcome<K, V, Q::Item>, NoMemory>
        ensures step { IsAnswered (asked K.cmp V.eq Q.target_of Q.answered) (divided K.path_of Q.decides) self.old (of_worker job (move_of chosen)) result self.new }
        ensures due { OnErr result (refusal_due (asked K.cmp V.eq Q.target_of Q.answered) self.old.state (of_worker job (move_of chosen)) ≡ None) }
        ensures memory { OnErr result (moves_without_memory (move_of chosen) ≡ false) }
    {
        law_of_cuts::<K, V>();
        let Some(place) = place_of(&self.job_states, job) else {
            return Ok(Outcome::Refused(Refusal::NoJob));
        };
        if chosen.names_other(self.workers) {
            return Ok(Outcome::Refused(Refusal::NoWorker));
        }
        let job_state = &mut self.job_states[place];
        let progress = make_move(
            alloc,
            &*job_state.query,
            &mut job_state.board,
            self.grain,
            chosen,
        )?;
        Ok(Outcome::Moved(progress))
    }
}

// Whether a refusal of a freeze is due.
fn refuses_freeze<K: PathKey + Drop, V: Eq + Drop, Q: Asks<K, V> + Drop>(
    table: &Table<K, V, Q>,
    handle: u32,
    query: &Q,
) -> bool
    ensures { result ≡ is_some (refusal (asked K.cmp V.eq Q.target_of Q.answered) table.now (freeze handle query.now)) }
{
    match table.foresee_freeze(handle, query) {
        Ok(_) => false,
        Err(refusal) => !matches!(refusal, Refusal::NoMemory),
    }
}
