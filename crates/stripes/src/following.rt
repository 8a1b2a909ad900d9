//! All stripes of a map, whose writes are marked from the moment on when all are held.
ghost use Rattle.std.specs.Prelude.{◌≡◌, ◌<◌, IfOk, map};
ghost use Rattle.std.specs.Sync.Mutex.{mutex_guard_value};
ghost use Rattle.hash_path.specs.Digits.{fan_out};
ghost use Rattle.stripes.specs.Stripes.{digits_of, up_to};

use crate::stripes::{Guards, Stripes, pushed};
use hash_path::PathKey;
use std::alloc::Global;
use std::sync::{Arc, MutexGuard, Wait};
use stripe::{Keeps, Marks, STRIPES, Stripe};
use trie_node::{NoMemory, Slots};
use write_history::Naming;

/// New marks, with room for the marks that stripes had before: what `Stripes::all_marked` needs.
///
/// It has to be dropped when no stripe is held, since the marks before may be dropped with it.
#[derive(Drop)]
pub struct Marking {
    handles: Vec<Arc<Marks>>,
    before: Vec<Arc<Marks>>,
}

impl Marking {
    /// A handle on the marks for each stripe, and the room.
    pub fn new(alloc: Global, marks: &Arc<Marks>) -> Result<Marking, NoMemory> {
        let mut handles = Vec::with_capacity(alloc, STRIPES as usize)?;
        for _ in 0..STRIPES {
            handles.push(Arc::try_clone(marks)?)?;
        }
        Ok(Marking {
            handles,
            before: Vec::with_capacity(alloc, STRIPES as usize)?,
        })
    }

    // Has the stripe's writes marked by the new marks, and ends those before.
    fn apply<K: PathKey + Drop, V: Drop, P: Keeps<K, V>, J: Naming, S: Slots<K, V>>(
        &mut self,
        stripe: &mut Stripe<K, V, P, J, S>,
    ) -> Result<(), NoMemory>
    where
        S::Key: Drop,
        S::Value: Drop,
        ensures { stripe.new ≡ stripe.old }
    {
        let marks = self.handles.pop().ok_or(NoMemory)?;
        if let Some(before) = stripe.follow(marks) {
            before.end();
            self.before.push(before)?;
        }
        Ok(())
    }
}

impl<K: PathKey + Drop, V: Drop, P: Keeps<K, V>, J: Naming, S: Slots<K, V>> Stripes<K, V, P, J, S>
where
    S::Key: Drop,
    S::Value: Drop,
{
    /// All stripes, as by `all`. Each is marked by the new marks from then on. The marks that it had before have ended
    /// once it is held: they tell of no later write.
    ///
    /// Where it fails, some stripes have new marks already, and the marks of all others have ended.
    pub fn all_marked<R: Wait>(
        &self,
        rt: &R,
        alloc: Global,
        marking: &mut Marking,
    ) -> Result<Guards<'_, K, V, P, J, S>, NoMemory>
        ensures { IfOk result (λ held. digits_of (map mutex_guard_value held.items) ≡ up_to fan_out) }
    {
        let mut held = Vec::with_capacity(alloc, STRIPES as usize)?;
        for digit in 0..STRIPES {
            held = pushed(held, self.marked(rt, digit, marking)?)?;
        }
        Ok(held)
    }

    // The stripe of the digit, with new marks.
    fn marked<R: Wait>(
        &self,
        rt: &R,
        digit: u32,
        marking: &mut Marking,
    ) -> Result<MutexGuard<'_, Stripe<K, V, P, J, S>>, NoMemory>
        requires { digit < fan_out }
        ensures { IfOk result (λ guard. (mutex_guard_value guard).digit ≡ digit) }
    {
        let mut guard = self.locked(rt, digit);
        marking.apply(&mut guard)?;
        Ok(guard)
    }
}
