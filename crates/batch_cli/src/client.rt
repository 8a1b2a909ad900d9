//! A client of a script: what it does with the map, on a thread of its own.

use crate::events::{ProgramMap, ProgramSeat, answer};
use crate::gate::LineGate;
use keys::ByteText;
use locked_map::{Client, JournalName};
use questions::ScriptQuery;
use script::{CommandLine, LineReply};
use std::alloc::Global;
use std::sync::Wait;
use std::thread::Threads;
use task_pool::Crew;
use versions::NoMemory;

/// The client of a number. It makes the events of its own lines among these, in their order.
#[derive(Drop)]
pub struct ScriptClient<'a, G> {
    pub number: u32,
    pub lines: &'a [CommandLine],
    pub crew: Crew,
    pub gate: &'a G,
}

impl<'a, G: LineGate> Client<ByteText, i64, ScriptQuery> for ScriptClient<'a, G> {
    ghost use Rattle.std.specs.Prelude.{IfOk};
    ghost use Rattle.locked_map.specs.Seats.{pairs};
    ghost use Rattle.batch_cli.specs.CommandLine.{AreInRange};
    ghost use Rattle.script_runs.specs.Runs.{LinesMake, events_in, lines_by};

    /// The replies of its lines, in their order.
    type Out = Result<Vec<LineReply>, NoMemory>;

    ghost needs = { λ c. AreInRange c.crew.workers c.crew.grain };

    ghost gives = { λ c seat out. IfOk out (λ replies. LinesMake (lines_by c.number c.lines.now) (events_in (pairs seat.list)) replies.items) };

    fn run<J: JournalName, R: Threads + Wait + Sync>(
        self,
        rt: &R,
        alloc: Global,
        map: &ProgramMap<J>,
        seat: &mut ProgramSeat<J>,
    ) -> Result<Vec<LineReply>, NoMemory> {
        let mut replies = Vec::new(alloc);
        for line in self.lines {
            if line.client == self.number {
                self.gate.before(line.client, line.number);
                replies.push(answer(rt, alloc, map, seat, self.crew, &line.statement)?)?;
            }
        }
        Ok(replies)
    }
}
