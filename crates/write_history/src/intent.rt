//! Writes that are to be added to a history.

use crate::author::Author;
use crate::book::{Law, Naming, Nothing};
use crate::entry::Entry;
use ghost_log::Turns;
use hash_path::{PathKey, Sought};
use logbook::{Offer, Plain};
use std::marker::Model;

/// A write that is to be added to a history, from before its key and its value are moved. A clause sees the entry.
#[derive(Drop)]
pub struct Intent<K: PathKey, V> {
    pub(crate) offer: Offer<Entry<K, V>, u64, Law, Nothing>,
}

impl<K: PathKey, V> Model for Intent<K, V> {
    ghost use Rattle.write_history.specs.declared.entry.Entry.{Entry};

    ghost Value = { Entry K V };

    ghost view = { λ intent. intent.offer.ask };
}

/// A turn that adds the entry.
impl<K: PathKey, V> Turns<Intent<K, V>, Entry<K, V>> for Nothing {
    ghost use Rattle.std.specs.Prelude.{[], ◌∷◌};

    ghost adds = { λ intent. intent ∷ [] };
}

/// What a key is looked up by, and the value that it gets.
#[derive(Drop)]
pub struct Pair<'a, Q, V> {
    pub key: Q,
    pub value: &'a V,
}

/// Who signs, and what is written.
#[derive(Drop)]
pub struct Signed<'a, T, J: Naming> {
    pub author: &'a Author<J>,
    pub about: &'a T,
}

/// The put of a pair.
pub struct Putting;

impl<'a, 'b, K: PathKey, V, Q: Sought<K>, J: Naming> Plain<
    Signed<'a, Pair<'b, Q, V>, J>,
    Entry<K, V>,
    u64,
> for Putting {
    ghost use Rattle.std.specs.Prelude.{None};
    ghost use Rattle.write_history.specs.declared.entry.Write.TheVariants.{Put};

    ghost ask = { λ s. record { by = s.author.now.by; write = Put (Q.key_of s.about.now.key) s.about.now.value.now } };

    ghost state = { λ _. None };
}

/// The removal of a key.
pub struct Removing;

impl<'a, K: PathKey, V, Q: Sought<K>, J: Naming> Plain<Signed<'a, Q, J>, Entry<K, V>, u64>
    for Removing {
    ghost use Rattle.std.specs.Prelude.{None};
    ghost use Rattle.write_history.specs.declared.entry.Write.TheVariants.{Remove};

    ghost ask = { λ s. record { by = s.author.now.by; write = Remove (Q.key_of s.about.now) } };

    ghost state = { λ _. None };
}

/// The removal of all keys.
pub struct Clearing;

impl<K, V, J: Naming> Plain<Author<J>, Entry<K, V>, u64> for Clearing {
    ghost use Rattle.std.specs.Prelude.{None};
    ghost use Rattle.write_history.specs.declared.entry.Write.TheVariants.{Clear};

    ghost ask = { λ author. record { by = author.by; write = Clear } };

    ghost state = { λ _. None };
}
