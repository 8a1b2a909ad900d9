//! A value that is made where there is none.
ghost use Rattle.locked_map.specs.Getting.{GetsOrElse};

use bulk_work::Asks;
use handles::{Call, CallReply, Command, Reply};
use hash_path::PathKey;
use journal::JournalName;
use locked_map::{Seat, SharedMap};
use std::alloc::Global;
use std::sync::{Arc, Wait};
use versions::Refusal;

/// The value of the key on the handle, which `make` makes where there is none.
pub fn get_or_else<K, V, Q, J, R, F>(
    rt: &R,
    alloc: Global,
    map: &SharedMap<K, V, Q, J>,
    seat: &mut Seat<K, V, Q, J>,
    handle: u32,
    key: Arc<K>,
    make: F,
) -> Result<Arc<V>, Refusal>
where
    K: PathKey + Drop,
    V: Eq + Drop,
    Q: Asks<K, V> + Drop,
    J: JournalName,
    R: Wait,
    F: FnOnce() -> V,
    requires { F.pre make }
    ensures { GetsOrElse (F.post make) handle key.value seat.old result seat.new }
{
    let _ = alloc;
    map.get_or_else_update(rt, seat, handle, key, make)
}
