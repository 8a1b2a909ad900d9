//! The calls of one thread on a map that has a history.
ghost use Rattle.std.specs.Prelude.{◌≡◌};
ghost use mathlib.Core.List.{IsPrefix};

mod deciding;
mod making;
mod many;
mod moments;
mod reading;
mod replacing;
mod writing;

use hash_path::PathKey;
use std::alloc::Global;
use std::marker::Model;
use stripes::{Keeps, Stripes};
use trie_node::{Shared, Slots};
use write_history::{Author, Front, Naming};

/// What one thread calls on a map that has a history, and what it has seen of that history. A clause sees a beginning of
/// the history, and as whom the thread signs its writes.
///
/// <!-- quoted from crates/example_ledger/src/main.rt -->
/// ```rust
/// let (ledger, front, mut authors) = Ledger::<J>::with_history(rt, opened)?;
/// let first = ledger.session(front, authors.next());
/// let second = first.again(authors.next());
/// ```
///
/// The calls are those of the map. Each goes on from what was seen, and answers by the history that is seen after it.
/// A question about all pairs is one to a [`view`](Session::view). The types of histories are of the crate
/// `write_history`.
#[derive(Drop)]
pub struct Session<'m, K: PathKey, V, P: Keeps<K, V>, J: Naming, S: Slots<K, V> = Shared> {
    alloc: Global,
    row: &'m Stripes<K, V, P, J, S>,
    front: Front<K, V, J>,
    author: Author<J>,
}

impl<'m, K: PathKey, V, P: Keeps<K, V>, J: Naming, S: Slots<K, V>> Model
    for Session<'m, K, V, P, J, S> {
    ghost use Rattle.map_session.specs.Sessions.{Seen};

    ghost Value = { Seen K V };

    ghost view = { λ s. record { log = s.front; signer = s.author } };
}

impl<'m, K: PathKey + Drop, V: Drop, P: Keeps<K, V>, J: Naming, S: Slots<K, V>> Session<
    'm,
    K,
    V,
    P,
    J,
    S,
>
where
    S::Key: Drop,
    S::Value: Drop,
{
    /// The calls of a thread on the map that has these stripes. It has seen what the front has, and signs its writes so.
    ///
    /// Cost: O(1), no lock. Refused: never.
    pub fn of(
        alloc: Global,
        row: &'m Stripes<K, V, P, J, S>,
        front: Front<K, V, J>,
        author: Author<J>,
    ) -> Session<'m, K, V, P, J, S>
        ensures log { result.log ≡ front }
        ensures signer { result.signer ≡ author }
    {
        Session {
            alloc,
            row,
            front,
            author,
        }
    }

    /// What was seen of the history until now, as readers of the map begin with it.
    ///
    /// Cost: O(1), no lock. Refused: never.
    pub fn front(&self) -> Front<K, V, J>
        ensures { result ≡ self.now.log }
    {
        self.front.again()
    }

    /// What another thread begins with, which signs so: it has seen what this one has.
    ///
    /// Cost: O(1), no lock. Refused: never.
    pub fn again(&self, author: Author<J>) -> Session<'m, K, V, P, J, S>
        ensures log { result.log ≡ self.now.log }
        ensures signer { result.signer ≡ author }
    {
        Session {
            alloc: self.alloc,
            row: self.row,
            front: self.front.again(),
            author,
        }
    }

    /// Sees what the other session has seen too. It is for where threads meet, as at a join.
    ///
    /// Cost: O(1), no lock. Refused: never.
    pub fn learn(&mut self, other: &Session<'_, K, V, P, J, S>)
        ensures mine { IsPrefix self.old.log self.new.log }
        ensures other { IsPrefix other.now.log self.new.log }
        ensures signer { self.new.signer ≡ self.old.signer }
    {
        self.front.learn(&other.front);
    }
}
