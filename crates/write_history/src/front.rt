//! What a thread has seen of a history.
ghost use Rattle.std.specs.Prelude.{◌≡◌, [], Some};
ghost use mathlib.Core.List.{IsPrefix};
ghost use Rattle.write_history.specs.Rules.{HasHistory};

use crate::book::{Law, Naming, Opened};
use crate::entry::Entry;
use crate::part::Part;
use hash_path::PathKey;
use logbook::Seen;
use std::marker::{Model, PhantomData};

/// A beginning of the history of a map that has a name. Contracts see it as its entries.
#[derive(Drop)]
pub struct Front<K: PathKey, V, J: Naming> {
    pub(crate) seen: Seen<Entry<K, V>, u64, Law>,
    of: PhantomData<J>,
}

impl<K: PathKey, V, J: Naming> Model for Front<K, V, J> {
    ghost use Rattle.std.specs.Prelude.{◌≡◌, List, Some};
    ghost use Rattle.write_history.specs.declared.entry.Entry.{Entry};

    ghost Value = { List (Entry K V) };

    ghost view = { λ front. front.seen.log };

    ghost invariant = { λ front. J.book ≡ Some front.seen.book };
}

impl<K: PathKey, V, J: Naming> Front<K, V, J> {
    /// What has seen nothing, where the book has this name.
    pub fn of(opened: &Opened<K, V>) -> Front<K, V, J>
        requires { J.book ≡ Some opened.now.book }
        ensures { result ≡ [] }
    {
        Front {
            seen: opened.seen.again(),
            of: PhantomData,
        }
    }

    /// The map has a history. It does nothing.
    pub fn law(&self)
        ensures { HasHistory J.book }
    {
        let _ = &self.seen;
    }

    /// Another one, for another thread.
    pub fn again(&self) -> Front<K, V, J>
        ensures { result ≡ self.now }
    {
        Front {
            seen: self.seen.again(),
            of: PhantomData,
        }
    }

    /// Afterwards it has seen what the other has.
    pub fn learn(&mut self, other: &Front<K, V, J>)
        ensures mine { IsPrefix self.old self.new }
        ensures other { IsPrefix other.now self.new }
    {
        self.seen.learn(&other.seen);
    }

    /// Afterwards it has seen what the part has, and no more.
    pub fn follow(&mut self, part: &Part<K, V, J>)
        ensures { self.new ≡ part.now.log }
    {
        self.seen = part.seen.again();
    }
}
