//! Copies of calls, which share their keys and values.
ghost use Rattle.std.specs.Prelude.{◌≡◌, IfOk};
ghost use Rattle.handles.specs.Views.{request_of};

use crate::call::Call;
use versions::NoMemory;

impl<K: Drop, V: Drop> Call<K, V> {
    /// The same call, with the same key and values. It is the same of a table with any type of queries, `Q`.
    ///
    /// Cost: O(1), no lock. Refused: `NoMemory`, where a handle cannot be cloned.
    pub fn try_clone<Q>(&self) -> Result<Call<K, V>, NoMemory>
        ensures { IfOk result (λ copy. request_of {Q = Q} copy ≡ request_of self.now) }
    {
        Ok(match self {
            Call::Open(handle) => Call::Open(*handle),
            Call::Snapshot(handle, to) => Call::Snapshot(*handle, *to),
            Call::Drop(handle) => Call::Drop(*handle),
            Call::On(handle, command) => Call::On(*handle, command.try_clone()?),
        })
    }
}
