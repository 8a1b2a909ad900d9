//! Calls that are made once what they return was foreseen.
ghost use Rattle.std.specs.Prelude.{◌≡◌, OnErr, OnOk, false, true};
ghost use Rattle.handles.specs.Machine.{Step, takes_no_memory};
ghost use Rattle.handles.specs.Views.{Foresees, IsPathOf, call_outcome, is_counted, leaves_maps, machine, outcome_of, request_of};

use super::{Table, lacks_memory};
use crate::call::Call;
use crate::call_reply::CallReply;
use bulk_work::Asks;
use hash_path::{Path, PathKey};
use std::alloc::Global;
use versions::{NoMemory, Refusal};

impl<K: PathKey + Drop, V: Eq + Drop, Q: Asks<K, V> + Drop> Table<K, V, Q> {
    /// Makes the call, whose key has this path word, as `serve` does, where this answer was foreseen: it is the outcome
    /// of the step. That the call is not refused was decided when it was foreseen, and is not looked at again. A call
    /// that was foreseen so and leaves all maps is counted alone, with no second look at a map.
    ///
    /// Cost: O(log n), no lock; O(1) where the call leaves all maps. Refused: `NoMemory`, if memory runs out, but never
    /// where the call leaves all maps, nor of a drop.
    pub fn serve_foreseen(
        &mut self,
        alloc: Global,
        call: Call<K, V>,
        path: Path,
        answer: &Result<CallReply<V>, Refusal>,
    ) -> Result<(), NoMemory>
        requires path { IsPathOf K.path_of call path.0 }
        requires foreseen { Foresees (machine K.cmp V.eq Q.target_of Q.answered) self.old (request_of call) call_outcome answer.now }
        requires counted { is_counted answer.now ≡ true }
        ensures step { OnOk result (Step (machine K.cmp V.eq Q.target_of Q.answered) self.old (request_of call) (outcome_of answer.now) self.new) }
        ensures memory { OnErr result (leaves_maps call answer.now ≡ false) }
        ensures without { OnErr result (takes_no_memory (request_of {Q = Q} call) ≡ false) }
        ensures err { OnErr result (self.new ≡ self.old) }
    {
        if leaves_maps(&call, answer) {
            self.count(&call, answer);
            drop(call);
            return Ok(());
        }
        let made = self.serve_granted(alloc, call, path);
        let lacks = lacks_memory(&made);
        drop(made);
        if lacks { Err(NoMemory) } else { Ok(()) }
    }

    // Counts the entry of a call that leaves all maps.
    #[tactic(auto, using(crate::proofs::Leaves::leaves_same))]
    fn count(&mut self, call: &Call<K, V>, answer: &Result<CallReply<V>, Refusal>)
        requires foreseen { Foresees (machine K.cmp V.eq Q.target_of Q.answered) self.old (request_of call.now) call_outcome answer.now }
        requires counted { is_counted answer.now ≡ true }
        requires leaves { leaves_maps call.now answer.now ≡ true }
        ensures { Step (machine K.cmp V.eq Q.target_of Q.answered) self.old (request_of call.now) (outcome_of answer.now) self.new }
    {
        if let Call::On(handle, _) = call {
            self.places.law_of_same_map(*handle);
        }
        self.entries += 1;
    }
}

// Whether a call that returns this leaves all maps as they were.
fn leaves_maps<K: PathKey + Drop, V: Eq + Drop>(
    call: &Call<K, V>,
    answer: &Result<CallReply<V>, Refusal>,
) -> bool
    ensures { result ≡ leaves_maps call.now answer.now }
{
    match answer {
        Err(_) => true,
        Ok(CallReply::Unit) => false,
        Ok(CallReply::Reply(reply)) => match call {
            Call::On(_, command) => command.leaves_map(reply),
            _ => false,
        },
    }
}
