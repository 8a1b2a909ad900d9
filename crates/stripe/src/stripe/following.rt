//! What a stripe and a thread know of the history.
ghost use Rattle.std.specs.Prelude.{◌≡◌, []};
ghost use mathlib.Core.List.{IsPrefix};
ghost use Rattle.stripe.specs.Told.{Tells};
ghost use Rattle.write_history.specs.Rules.{HasHistory};

use super::Stripe;
use crate::keeps::Keeps;
use hash_path::PathKey;
use trie_node::Slots;
use write_history::{Front, Gathered, Naming};

impl<K: PathKey + Drop, V: Drop, P: Keeps<K, V>, J: Naming, S: Slots<K, V>> Stripe<K, V, P, J, S>
where
    S::Key: Drop,
    S::Value: Drop,
{
    /// Sees the history as it is now, which goes on from what the front has seen.
    pub fn meet(&mut self, front: &Front<K, V, J>)
        ensures seen { IsPrefix front.now self.new.log }
        ensures entries { self.new.entries ≡ self.old.entries }
        ensures digit { self.new.digit ≡ self.old.digit }
    {
        self.part.meet(front);
    }

    /// Has the front see what the stripe has seen, and no more.
    pub fn tell(&self, front: &mut Front<K, V, J>)
        ensures { front.new ≡ self.now.log }
    {
        front.follow(&self.part);
    }

    /// In a history that goes on from what the stripe has seen, each key of the stripe has the value that it has here.
    pub fn stands(&mut self, front: &Front<K, V, J>)
        requires { IsPrefix self.old.log front.now }
        ensures tells { HasHistory J.book → Tells K.cmp K.path_of self.old.digit self.old.entries front.now }
        ensures same { self.new ≡ self.old }
    {
        self.part.stands(front);
    }

    /// No right of a stripe, where what the stripe knows of the history was seen: what `clear_all` begins with.
    pub fn gathered(&self) -> Gathered<K, V, J>
        ensures digits { result.digits ≡ [] }
        ensures log { result.log ≡ self.now.log }
    {
        Gathered::beside(&self.part)
    }
}
