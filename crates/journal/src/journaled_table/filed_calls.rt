//! How calls are made and filed, where what they return was foreseen.
ghost use Rattle.std.specs.Prelude.{◌≡◌, ◌<◌, ◌+◌, ◌^◌, IfOk, IsTrue, OnErr, OnOk, true};
ghost use Rattle.boxcar.specs.Table.{Shows};
ghost use Rattle.handles.specs.Machine.{freeze, view};
ghost use Rattle.handles.specs.Views.{Foresees, IsPathOf, call_outcome, frozen_outcome, is_counted, machine, request_of, view_outcome};
ghost use Rattle.journal.specs.Answers.{answered};
ghost use Rattle.journal.specs.Kept.{Files};

use super::{JournaledTable, set_beside};
use crate::caller::Caller;
use crate::filing::{Event, Opened, entered_call, entered_freeze, entered_view};
use crate::journal_name::{Entries, JournalName};
use bulk_work::Asks;
use handles::{Call, CallReply, lacks_memory, law_of_foresight, law_of_freezes, law_of_open_jobs};
use hash_path::{Path, PathKey};
use std::alloc::Global;
use std::sync::{Arc, Wait};
use versions::{NoMemory, Refusal, View};

impl<K: PathKey + Drop, V: Eq + Drop, Q: Asks<K, V> + Drop, J: JournalName> JournaledTable<
    K,
    V,
    Q,
    J,
> {
    /// Makes the call, whose key has this path word and which is foreseen to return this, and files it.
    pub(super) fn file_call<R: Wait>(
        &mut self,
        rt: &R,
        alloc: Global,
        entries: &Entries<K, V, Q, Q::Item>,
        caller: Caller,
        call: Call<K, V>,
        path: Path,
        answer: Result<CallReply<V>, Refusal>,
    ) -> Result<Event<K, V, Q, Q::Item, Result<CallReply<V>, Refusal>>, NoMemory>
        requires table { entries.now ≡ J.table }
        requires path { IsPathOf K.path_of call path.0 }
        requires foreseen { Foresees (machine K.cmp V.eq Q.target_of Q.answered) self.old.state (request_of call) call_outcome answer }
        requires counted { is_counted answer ≡ true }
        ensures filed { IfOk result (λ e. Files (machine K.cmp V.eq Q.target_of Q.answered) J.table self.old caller.seat (request_of call) (answered call_outcome e.answer) e.token e.place self.new) }
        ensures shown { IfOk result (λ e. Shows J.table e.token) }
        ensures fits { IfOk result (λ e. e.place + 1 < 2 ^ 64) }
        ensures room { OnOk result (IsTrue caller.has_room) }
        ensures err { OnErr result (self.new ≡ self.old) }
    {
        let place = self.journal.len() as u64;
        let entered = entered_call(rt, entries, &mut self.journal, caller, &call, &answer);
        let Ok((token, mine)) = entered else {
            drop(call);
            drop(answer);
            return Err(NoMemory);
        };
        let served = self.table.serve_foreseen(alloc, call, path, &answer);
        let Ok(()) = served else {
            drop(token);
            drop(mine);
            drop(answer);
            return Err(NoMemory);
        };
        law_of_open_jobs::<K, V, Q>();
        self.journal.push_reserved(mine);
        Ok(Event {
            token,
            place,
            answer,
        })
    }

    /// Shows the map of the handle, which is foreseen to be returned, and files that.
    pub(super) fn file_view<R: Wait>(
        &mut self,
        rt: &R,
        entries: &Entries<K, V, Q, Q::Item>,
        caller: Caller,
        handle: u32,
        answer: Result<View<K, V>, Refusal>,
    ) -> Result<Event<K, V, Q, Q::Item, Result<View<K, V>, Refusal>>, NoMemory>
        requires table { entries.now ≡ J.table }
        requires foreseen { Foresees (machine K.cmp V.eq Q.target_of Q.answered) self.old.state (view handle) view_outcome answer }
        requires counted { is_counted answer ≡ true }
        ensures filed { IfOk result (λ e. Files (machine K.cmp V.eq Q.target_of Q.answered) J.table self.old caller.seat (view handle) (answered view_outcome e.answer) e.token e.place self.new) }
        ensures shown { IfOk result (λ e. Shows J.table e.token) }
        ensures fits { IfOk result (λ e. e.place + 1 < 2 ^ 64) }
        ensures room { OnOk result (IsTrue caller.has_room) }
        ensures err { OnErr result (self.new ≡ self.old) }
    {
        let place = self.journal.len() as u64;
        let entered = entered_view(rt, entries, &mut self.journal, caller, handle, &answer);
        let Ok((token, mine)) = entered else {
            drop(answer);
            return Err(NoMemory);
        };
        let shown = self.table.view(handle);
        let lacks = lacks_memory(&shown);
        drop(shown);
        if lacks {
            drop(token);
            drop(mine);
            drop(answer);
            return Err(NoMemory);
        }
        law_of_foresight::<K, V, Q>();
        law_of_open_jobs::<K, V, Q>();
        self.journal.push_reserved(mine);
        Ok(Event {
            token,
            place,
            answer,
        })
    }

    /// Opens a job with the query on the handle's map, which is foreseen to return this, and files that.
    pub(super) fn file_freeze<R: Wait>(
        &mut self,
        rt: &R,
        entries: &Entries<K, V, Q, Q::Item>,
        caller: Caller,
        handle: u32,
        query: Arc<Q>,
        answer: Result<(u64, View<K, V>), Refusal>,
    ) -> Result<Opened<K, V, Q, Q::Item>, NoMemory>
        requires table { entries.now ≡ J.table }
        requires foreseen { Foresees (machine K.cmp V.eq Q.target_of Q.answered) self.old.state (freeze handle query.value) frozen_outcome answer }
        requires counted { is_counted answer ≡ true }
        ensures filed { IfOk result (λ r. Files (machine K.cmp V.eq Q.target_of Q.answered) J.table self.old caller.seat (freeze handle query.value) (answered frozen_outcome r.0.answer) r.0.token r.0.place self.new) }
        ensures shown { IfOk result (λ r. Shows J.table r.0.token × (r.1 ≡ r.0.token)) }
        ensures fits { IfOk result (λ r. r.0.place + 1 < 2 ^ 64) }
        ensures room { OnOk result (IsTrue caller.has_room) }
        ensures err { OnErr result (self.new ≡ self.old) }
    {
        let place = self.journal.len() as u64;
        let entered = entered_freeze(
            rt,
            entries,
            &mut self.journal,
            &mut self.freezes,
            caller,
            handle,
            &query,
            &answer,
        );
        let Ok((token, mine)) = entered else {
            drop(query);
            drop(answer);
            return Err(NoMemory);
        };
        let frozen = self.table.freeze(handle, query);
        let lacks = lacks_memory(&frozen);
        drop(frozen);
        if lacks {
            drop(token);
            drop(mine);
            drop(answer);
            return Err(NoMemory);
        }
        law_of_foresight::<K, V, Q>();
        law_of_freezes::<K, V, Q>();
        set_beside(&mut self.freezes, &answer, token.again());
        self.journal.push_reserved(mine);
        let opener = token.again();
        let event = Event {
            token,
            place,
            answer,
        };
        Ok((event, opener))
    }
}
