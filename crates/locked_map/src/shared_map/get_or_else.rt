//! A value that is made where there is none.
ghost use Rattle.std.specs.Prelude.{Option, option_map};
ghost use Rattle.std.specs.Arc.{arc_value};
ghost use Rattle.locked_map.specs.Getting.{GetsOrElse, PutsOrFinds, TellsValue};

use super::SharedMap;
use crate::seat::Seat;
use bulk_work::Asks;
use handles::{Call, CallReply, Command, Reply};
use hash_path::PathKey;
use journal::JournalName;
use std::sync::{Arc, Wait};
use versions::Refusal;

impl<K: PathKey + Drop, V: Eq + Drop, Q: Asks<K, V> + Drop, J: JournalName> SharedMap<K, V, Q, J> {
    /// The value of the key on the handle. Where it has none, `make` makes one, which is put, unless another seat has
    /// put one meanwhile: that seat's value is returned then.
    ///
    /// It is a get and, where that finds nothing, a put if absent, each an entry of its own. `make` is called between
    /// the two, with no lock held, and for a key that has a value it is not called.
    ///
    /// Cost: O(log n), under the lock of the table, once or twice. Refused: as either call; where the second is
    /// refused, the first stands in the journal.
    pub fn get_or_else_update<R: Wait, F: FnOnce() -> V>(
        &self,
        rt: &R,
        seat: &mut Seat<K, V, Q, J>,
        handle: u32,
        key: Arc<K>,
        make: F,
    ) -> Result<Arc<V>, Refusal>
        requires { F.pre make }
        ensures { GetsOrElse (F.post make) handle key.value seat.old result seat.new }
    {
        let asked = Arc::try_clone(&key)?;
        let reply = self.call(rt, seat, Call::On(handle, Command::Get(asked)))?;
        match value_in(reply) {
            Some(found) => Ok(found),
            None => self.put_or_find(rt, seat, handle, key, make()),
        }
    }

    // Puts the value, unless the key has one by now. Returns the value that the key has then.
    fn put_or_find<R: Wait>(
        &self,
        rt: &R,
        seat: &mut Seat<K, V, Q, J>,
        handle: u32,
        key: Arc<K>,
        value: V,
    ) -> Result<Arc<V>, Refusal>
        ensures { PutsOrFinds handle key.value value seat.old result seat.new }
    {
        let value = Arc::new(self.alloc, value)?;
        let mine = Arc::try_clone(&value)?;
        let reply = self.call(rt, seat, Call::On(handle, Command::PutIfAbsent(key, value)))?;
        match value_in(reply) {
            Some(winner) => Ok(winner),
            None => Ok(mine),
        }
    }
}

// The value in the reply of a get or of a put if absent.
fn value_in<V: Drop>(reply: CallReply<V>) -> Option<Arc<V>>
    requires { (o : Option V) × TellsValue reply o }
    ensures { TellsValue reply (option_map arc_value result) }
{
    match reply {
        CallReply::Reply(Reply::Old(value)) => value,
        _ => unreachable!(),
    }
}
