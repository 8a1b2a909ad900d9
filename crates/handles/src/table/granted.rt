//! Calls of a table that are not refused: what is left to do once that was decided.
ghost use Rattle.std.specs.Prelude.{◌≡◌, None, false};
ghost use Rattle.handles.specs.Machine.{drop_handle, on, open_handle, refusal, snapshot};
ghost use Rattle.handles.specs.Views.{AnswersWithoutMemory, IsDue, IsFullAlone, IsPathFor, IsPathOf, IsStep, call_outcome, command_of, lacks_memory, machine, reply_outcome, request_of, unit_outcome};

use super::{Table, counted};
use crate::call::Call;
use crate::call_reply::CallReply;
use bulk_work::Asks;
use hash_path::{Path, PathKey};
use held_maps::{Command, Reply};
use std::alloc::Global;
use versions::Refusal;

impl<K: PathKey + Drop, V: Eq + Drop, Q: Asks<K, V> + Drop> Table<K, V, Q> {
    // Opens the handle.
    pub(super) fn open_granted(&mut self, alloc: Global, handle: u32) -> Result<(), Refusal>
        requires granted { refusal (machine K.cmp V.eq Q.target_of Q.answered) self.old (open_handle handle) ≡ None }
        ensures { IsStep (machine K.cmp V.eq Q.target_of Q.answered) self.old (open_handle handle) unit_outcome result self.new }
    {
        let answer = self.places.open(alloc, handle);
        counted(&mut self.entries, answer)
    }

    // Opens the handle `to`, with the pairs of the other handle.
    pub(super) fn snapshot_granted(&mut self, handle: u32, to: u32) -> Result<(), Refusal>
        requires granted { refusal (machine K.cmp V.eq Q.target_of Q.answered) self.old (snapshot handle to) ≡ None }
        ensures { IsStep (machine K.cmp V.eq Q.target_of Q.answered) self.old (snapshot handle to) unit_outcome result self.new }
    {
        let answer = self.places.fork(handle, to);
        counted(&mut self.entries, answer)
    }

    // Makes the command, whose key has this path word, on the handle, where it is refused as `Full` alone, if at all.
    #[tactic(auto, using(crate::proofs::Refusals::full_alone_has_room))]
    pub(super) fn call_live(
        &mut self,
        alloc: Global,
        handle: u32,
        command: Command<K, V>,
        path: Path,
    ) -> Result<Reply<V>, Refusal>
        requires path { IsPathFor K.path_of (command_of command) path.0 }
        requires live { IsFullAlone (machine K.cmp V.eq Q.target_of Q.answered) self.old handle (command_of command) }
        ensures step { IsStep (machine K.cmp V.eq Q.target_of Q.answered) self.old (on handle (command_of command)) reply_outcome result self.new }
        ensures memory { AnswersWithoutMemory (machine K.cmp V.eq Q.target_of Q.answered) (on handle (command_of command)) result }
        ensures due { IsDue (machine K.cmp V.eq Q.target_of Q.answered) self.old (on handle (command_of command)) result }
    {
        let answer = self.places.run(alloc, handle, command, path);
        counted(&mut self.entries, answer)
    }

    // Closes the handle.
    pub(super) fn drop_granted(&mut self, handle: u32) -> Result<(), Refusal>
        requires granted { refusal (machine K.cmp V.eq Q.target_of Q.answered) self.old (drop_handle handle) ≡ None }
        ensures step { IsStep (machine K.cmp V.eq Q.target_of Q.answered) self.old (drop_handle handle) unit_outcome result self.new }
        ensures memory { lacks_memory result ≡ false }
    {
        self.places.close(handle);
        counted(&mut self.entries, Ok(()))
    }

    // Makes the call, whose key has this path word.
    #[tactic(auto, using(crate::proofs::Refusals::full_alone))]
    pub(super) fn serve_granted(
        &mut self,
        alloc: Global,
        call: Call<K, V>,
        path: Path,
    ) -> Result<CallReply<V>, Refusal>
        requires path { IsPathOf K.path_of call path.0 }
        requires granted { refusal (machine K.cmp V.eq Q.target_of Q.answered) self.old (request_of call) ≡ None }
        ensures step { IsStep (machine K.cmp V.eq Q.target_of Q.answered) self.old (request_of call) call_outcome result self.new }
        ensures memory { AnswersWithoutMemory (machine K.cmp V.eq Q.target_of Q.answered) (request_of call) result }
    {
        match call {
            Call::Open(handle) => match self.open_granted(alloc, handle) {
                Ok(()) => Ok(CallReply::Unit),
                Err(refusal) => Err(refusal),
            },
            Call::Snapshot(handle, to) => match self.snapshot_granted(handle, to) {
                Ok(()) => Ok(CallReply::Unit),
                Err(refusal) => Err(refusal),
            },
            Call::Drop(handle) => match self.drop_granted(handle) {
                Ok(()) => Ok(CallReply::Unit),
                Err(refusal) => Err(refusal),
            },
            Call::On(handle, command) => match self.call_live(alloc, handle, command, path) {
                Ok(reply) => Ok(CallReply::Reply(reply)),
                Err(refusal) => Err(refusal),
            },
        }
    }
}
