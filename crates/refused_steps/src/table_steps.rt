//! Steps of a table of handles.
ghost use Rattle.std.specs.Prelude.{◌≡◌, Some};
ghost use Rattle.handles.specs.Machine.{Job, finish, freeze, job_at, on};
ghost use Rattle.handles.specs.Views.{IsStep, command_of, finished_outcome, frozen_outcome, machine, reply_outcome};

use bulk_work::{Answer, Asks};
use handles::{Command, Reply, Table};
use hash_path::PathKey;
use std::alloc::Global;
use std::sync::Arc;
use versions::{Refusal, View};

/// Makes the command on the handle.
pub fn on_handle<K: PathKey + Drop, V: Eq + Drop, Q: Asks<K, V> + Drop>(
    table: &mut Table<K, V, Q>,
    alloc: Global,
    handle: u32,
    command: Command<K, V>,
) -> Result<Reply<V>, Refusal>
    ensures { IsStep (machine K.cmp V.eq Q.target_of Q.answered) table.old (on handle (command_of command)) reply_outcome result table.new }
{
    table.call(alloc, handle, command)
}

/// Opens a job with the query on the handle's map.
pub fn frozen<K: PathKey + Drop, V: Eq + Drop, Q: Asks<K, V> + Drop>(
    table: &mut Table<K, V, Q>,
    handle: u32,
    query: Arc<Q>,
) -> Result<(u64, View<K, V>), Refusal>
    ensures { IsStep (machine K.cmp V.eq Q.target_of Q.answered) table.old (freeze handle query.value) frozen_outcome result table.new }
{
    table.freeze(handle, query)
}

/// Closes the job by the part's answer.
pub fn finished<K: PathKey + Drop, V: Eq + Drop, Q: Asks<K, V> + Drop>(
    table: &mut Table<K, V, Q>,
    job: u64,
    part: Q::Part,
) -> Result<Answer<K, V, Q::Item>, Refusal>
    requires { (j : Job K V Q) → job_at table.old job ≡ Some j → Q.answers j.query j.frozen part }
    ensures { IsStep (machine K.cmp V.eq Q.target_of Q.answered) table.old (finish job) finished_outcome result table.new }
{
    table.finish(job, part)
}
