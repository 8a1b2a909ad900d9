//! Steps of the core.
ghost use Rattle.core_steps.specs.Queries.{asked, divided};
ghost use Rattle.core_steps.specs.Steps.{CanAsk, IsAnswered, asked_by};

use bulk_work::Asks;
use core_steps::{Core, Outcome, Step};
use hash_path::PathKey;
use std::alloc::Global;
use versions::NoMemory;

/// Makes one step of a client or of a worker.
pub fn stepped<K: PathKey + Drop, V: Eq + Drop, Q: Asks<K, V> + Drop>(
    core: &mut Core<K, V, Q>,
    alloc: Global,
    step: Step<K, V, Q>,
) -> Result<Outcome<K, V, Q::Item>, NoMemory>
    requires { CanAsk Q.ready (asked_by step) }
    ensures { IsAnswered (asked K.cmp V.eq Q.target_of Q.answered) (divided K.path_of Q.decides) core.old (asked_by step) result core.new }
{
    core.step(alloc, step)
}
