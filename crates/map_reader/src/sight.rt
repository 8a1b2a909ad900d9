//! What readers have seen of a history, if the map has one.
ghost use Rattle.std.specs.Prelude.{◌≡◌, [], IfOk, Some, map};
ghost use Rattle.std.specs.Sync.Mutex.{mutex_guard_value};
ghost use mathlib.Core.List.{IsPrefix};
ghost use Rattle.hash_path.specs.Digits.{fan_out};
ghost use Rattle.map_reader.specs.Sights.{AllTold};
ghost use Rattle.stripe.specs.Rules.{AllKeep};
ghost use Rattle.stripes.specs.Stripes.{digits_of, up_to};
ghost use Rattle.stripe.specs.Told.{Tells};
ghost use Rattle.write_history.specs.Rules.{HasHistory};

use crate::since::Since;
use hash_path::PathKey;
use std::alloc::Global;
use std::marker::{Model, PhantomData};
use std::sync::Wait;
use stripes::{Guards, Keeps, Stripe, Stripes, joined};
use trie_node::{NoMemory, Slots};
use united_roots::RootRow;
use versions::Version;
use write_history::{Front, Naming, Unnamed};

/// A beginning of the history that was seen, if the map has one. It goes on from where the readers began.
///
/// But for the bit that says whether there is one, it has no bytes, and to see more takes no instruction.
#[derive(Drop)]
pub struct Sight<K: PathKey, V, J: Naming, W: Since<K, V>> {
    front: Option<Front<K, V, J>>,
    from: PhantomData<W>,
}

impl<K: PathKey, V, J: Naming, W: Since<K, V>> Model for Sight<K, V, J, W> {
    ghost use Rattle.std.specs.Prelude.{List, [], unwrap_or};
    ghost use Rattle.map_reader.specs.Sights.{HasSeen};
    ghost use Rattle.write_history.specs.declared.entry.Entry.{Entry};
    ghost use Rattle.write_history.specs.Rules.{HasHistory};

    ghost Value = { List (Entry K V) };

    ghost view = { λ sight. unwrap_or sight.front [] };

    ghost invariant = { λ sight. HasHistory J.book → HasSeen W.since sight.front };
}

impl<K: PathKey, V, W: Since<K, V>> Sight<K, V, Unnamed, W> {
    /// Nothing, of a map with no history.
    pub fn none() -> Sight<K, V, Unnamed, W> {
        Sight {
            front: None,
            from: PhantomData,
        }
    }
}

impl<K: PathKey, V, J: Naming, W: Since<K, V>> Sight<K, V, J, W> {
    /// What the front has seen.
    pub fn of(front: &Front<K, V, J>) -> Sight<K, V, J, W>
        requires { W.since ≡ front.now }
        ensures { result ≡ front.now }
    {
        Sight {
            front: Some(front.again()),
            from: PhantomData,
        }
    }

    /// The same, for another holder.
    pub fn again(&self) -> Sight<K, V, J, W>
        ensures { result ≡ self.now }
    {
        Sight {
            front: copy_of(&self.front),
            from: PhantomData,
        }
    }

    /// What was seen, as a front, if the map has a history.
    pub fn front(&self) -> Option<Front<K, V, J>>
        ensures { HasHistory J.book → result ≡ Some self.now }
    {
        copy_of(&self.front)
    }

    /// Afterwards it has seen what the other has, and no more.
    pub fn follow(&mut self, other: &Sight<K, V, J, W>)
        ensures same { HasHistory J.book → self.new ≡ other.now }
        ensures since { HasHistory J.book → IsPrefix W.since self.new }
    {
        if let Some(front) = &mut self.front {
            if let Some(other) = &other.front {
                *front = other.again();
            }
        }
    }
}

impl<K: PathKey + Drop, V: Drop, J: Naming, W: Since<K, V>> Sight<K, V, J, W> {
    /// Sees the history as it is now: each key of the stripe has the value that it leaves.
    pub fn see<P: Keeps<K, V>, S: Slots<K, V>>(&mut self, stripe: &mut Stripe<K, V, P, J, S>)
    where
        S::Key: Drop,
        S::Value: Drop,
        ensures tells { HasHistory J.book → Tells K.cmp K.path_of stripe.new.digit stripe.new.entries self.new }
        ensures since { HasHistory J.book → IsPrefix W.since self.new }
        ensures entries { stripe.new.entries ≡ stripe.old.entries }
        ensures digit { stripe.new.digit ≡ stripe.old.digit }
    {
        if let Some(front) = &mut self.front {
            stripe.see(front);
        }
    }

    /// The map of all pairs, at the moment when all stripes are held or, where there is a history to be seen, at a later
    /// one: each key has the value that the history leaves, as it is seen then. Each pair keeps the rule.
    pub fn whole<R: Wait, P: Keeps<K, V>, S: Slots<K, V>>(
        &mut self,
        rt: &R,
        alloc: Global,
        row: &Stripes<K, V, P, J, S>,
        held: Guards<'_, K, V, P, J, S>,
        room: RootRow<K, V, S>,
    ) -> Result<Version<K, V, S>, NoMemory>
    where
        S::Key: Drop,
        S::Value: Drop,
        requires room { room.entries ≡ [] }
        requires held { digits_of (map mutex_guard_value held.items) ≡ up_to fan_out }
        ensures told { HasHistory J.book → IfOk result (λ map. AllTold K.cmp K.path_of map.entries self.new) }
        ensures kept { IfOk result (λ map. AllKeep K.cmp P.holds map.entries) }
    {
        match &mut self.front {
            Some(front) => {
                drop(held);
                row.moment(rt, alloc, room, front)
            }
            None => joined(alloc, room, held),
        }
    }
}

// A copy of what was seen, if there is something.
fn copy_of<K: PathKey, V, J: Naming>(front: &Option<Front<K, V, J>>) -> Option<Front<K, V, J>>
    ensures { result ≡ front.now }
{
    match front {
        Some(front) => Some(front.again()),
        None => None,
    }
}
