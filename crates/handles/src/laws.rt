//! Laws of the machine. Their functions do nothing: each contract is the law.
ghost use Rattle.handles.specs.Laws.{AnswersAreSteps, CommandsKeepOtherHandles, ForeseenIsStep, FreezesOpenJobs, OthersKeepJobs, RefusalsKeepAll};
ghost use Rattle.handles.specs.Views.{machine};

use bulk_work::Asks;
use hash_path::PathKey;

/// A command on one handle leaves the maps of all other handles, so a snapshot keeps its pairs.
pub fn law_of_other_handles<K: PathKey, V: Eq, Q: Asks<K, V>>()
    ensures { CommandsKeepOtherHandles (machine K.cmp V.eq Q.target_of Q.answered) }
{}

/// A refusal leaves all handles and all jobs.
pub fn law_of_refusals<K: PathKey, V: Eq, Q: Asks<K, V>>()
    ensures { RefusalsKeepAll (machine K.cmp V.eq Q.target_of Q.answered) }
{}

/// What a call of a table returns is the outcome of a step, unless it ran out of memory.
pub fn law_of_answers<K: PathKey, V: Eq, Q: Asks<K, V>>()
    ensures { AnswersAreSteps (machine K.cmp V.eq Q.target_of Q.answered) }
{}

/// The job that a freeze opens is open afterwards, with its query and the map that the freeze showed.
pub fn law_of_freezes<K: PathKey, V: Eq, Q: Asks<K, V>>()
    ensures { FreezesOpenJobs (machine K.cmp V.eq Q.target_of Q.answered) }
{}

/// What neither opens nor closes a job leaves all open jobs.
pub fn law_of_open_jobs<K: PathKey, V: Eq, Q: Asks<K, V>>()
    ensures { OthersKeepJobs (machine K.cmp V.eq Q.target_of Q.answered) }
{}

/// What was foreseen of a request is an outcome of the step that is then made, unless it is a finish: where a step with
/// the one outcome could be made, and a step with some outcome was, that step is one with the first outcome too.
pub fn law_of_foresight<K: PathKey, V: Eq, Q: Asks<K, V>>()
    ensures { ForeseenIsStep (machine K.cmp V.eq Q.target_of Q.answered) }
{}
