//! The removal of all keys, as one entry that all parts count.
ghost use Rattle.std.specs.Prelude.{◌≡◌, ◌++◌, ◌∷◌, [], List, None, Some, drop, slice_get};
ghost use mathlib.Core.List.{IsPrefix};
ghost use Rattle.hash_path.specs.Digits.{fan_out};
ghost use Rattle.write_history.specs.declared.entry.Entry.{Entry};
ghost use Rattle.write_history.specs.declared.entry.Write.TheVariants.{Clear};
ghost use Rattle.write_history.specs.Rules.{HasHistory, listed, up_to};
ghost use Rattle.write_history.specs.Signers.{Made, signed_once};

use crate::author::{Author, Lending};
use crate::book::{Law, Naming, Nothing};
use crate::entry::Entry;
use crate::front::Front;
use crate::intent::{Clearing, Intent};
use crate::part::Part;
use ghost_log::{Deals, Rights, law_of_cells, turn};
use hash_path::PathKey;
use logbook::Seen;
use std::marker::{Model, PhantomData};

/// The rights of parts that are held together, lent for one entry, and a history that was seen. A clause sees the digits
/// of the parts: none, where the map has no history.
#[derive(Drop)]
pub struct Gathered<K: PathKey, V, J: Naming> {
    rights: Rights,
    seen: Seen<Entry<K, V>, u64, Law>,
    of: PhantomData<J>,
}

impl<K: PathKey, V, J: Naming> Model for Gathered<K, V, J> {
    ghost use Rattle.write_history.specs.Rules.{AreLent, Lent, keys_of};

    ghost Value = { Lent K V };

    ghost view = { λ all. record { digits = keys_of all.rights.cells; log = all.seen.log } };

    ghost invariant = { λ all. AreLent J.book all.rights.book all.rights.cells all.seen.book };
}

impl<K: PathKey, V, J: Naming> Gathered<K, V, J> {
    /// No right, where what the part knows was seen.
    pub fn beside(part: &Part<K, V, J>) -> Gathered<K, V, J>
        ensures digits { result.digits ≡ [] }
        ensures log { result.log ≡ part.now.log }
    {
        Gathered {
            rights: Rights::none_of(&part.seen),
            seen: part.seen.again(),
            of: PhantomData,
        }
    }

    /// No right, where what the front has seen was seen.
    pub fn after(front: &Front<K, V, J>) -> Gathered<K, V, J>
        ensures digits { result.digits ≡ [] }
        ensures log { result.log ≡ front.now }
    {
        Gathered {
            rights: Rights::none_of(&front.seen),
            seen: front.seen.again(),
            of: PhantomData,
        }
    }

    /// Adds the removal of all keys, which the author signs, to the history as it is now. All digits have to be there,
    /// if the map has a history.
    pub fn clear(self, author: &mut Author<J>) -> Cleared<K, V, J>
        requires { HasHistory J.book → self.digits ≡ up_to fan_out }
        ensures wrote { HasHistory J.book → (h : List (Entry K V)) × IsPrefix self.log h × Made K.path_of author.old h × (result.log ≡ h ++ record { by = author.old.by; write = Clear } ∷ []) }
        ensures digits { result.digits ≡ self.digits }
        ensures author { author.new ≡ signed_once author.old }
    {
        law_of_cells();
        let Gathered {
            mut rights,
            mut seen,
            of,
        } = self;
        let intent = Intent {
            offer: seen.plain::<Nothing, Author<J>, Clearing>(author),
        };
        author.rights.deal::<Lending>(&mut rights);
        turn::<Entry<K, V>, u64, Law, Intent<K, V>, Nothing>(&mut seen, &mut rights, &intent);
        author.rights.deal::<TakingRest>(&mut rights);
        Cleared { rights, seen, of }
    }
}

/// The author takes back what it lent: all but the rights of the digits.
pub struct TakingRest;

impl Deals for TakingRest {
    ghost use Rattle.std.specs.Prelude.{drop, take};
    ghost use Rattle.hash_path.specs.Digits.{fan_out};

    ghost mine = { λ mine other. drop fan_out other };

    ghost other = { λ mine other. take fan_out other };
}

/// Rights that were lent, once all keys are removed, and the history that ends with that.
#[derive(Drop)]
pub struct Cleared<K: PathKey, V, J: Naming> {
    rights: Rights,
    seen: Seen<Entry<K, V>, u64, Law>,
    of: PhantomData<J>,
}

impl<K: PathKey, V, J: Naming> Model for Cleared<K, V, J> {
    ghost use Rattle.write_history.specs.Rules.{AllCounted, AreLent, Lent, keys_of};

    ghost Value = { Lent K V };

    ghost view = { λ all. record { digits = keys_of all.rights.cells; log = all.seen.log } };

    ghost invariant = { λ all. AreLent J.book all.rights.book all.rights.cells all.seen.book × AllCounted K.path_of all.seen.log all.rights.cells };
}

impl<K: PathKey, V, J: Naming> Cleared<K, V, J> {
    /// Has the front see the history that ends with the removal, and no more.
    pub fn tell(&self, front: &mut Front<K, V, J>)
        ensures { front.new ≡ self.now.log }
    {
        front.seen = self.seen.again();
    }
}

impl<K: PathKey, V, J: Naming> Part<K, V, J> {
    /// Lends its right, before those that are lent already.
    pub fn lend(&mut self, all: &mut Gathered<K, V, J>)
        ensures digits { all.new.digits ≡ listed self.old.digit ++ all.old.digits }
        ensures log { all.new.log ≡ all.old.log }
        ensures none { self.new.digit ≡ None }
        ensures part { self.new.log ≡ self.old.log }
    {
        all.rights.deal::<Collecting>(&mut self.rights);
    }

    /// Takes back the first of the rights, and sees the history that ends with the removal of all keys.
    pub fn take_back(&mut self, all: &mut Cleared<K, V, J>)
        requires { self.old.digit ≡ None }
        ensures digit { self.new.digit ≡ slice_get all.old.digits 0 }
        ensures log { self.new.log ≡ all.old.log }
        ensures digits { all.new.digits ≡ drop 1 all.old.digits }
        ensures all { all.new.log ≡ all.old.log }
    {
        self.rights.deal::<TakingFirst>(&mut all.rights);
        self.seen = all.seen.again();
    }
}

/// A part's right is collected, before the others.
pub struct Collecting;

impl Deals for Collecting {
    ghost use Rattle.std.specs.Prelude.{[], ◌++◌};

    ghost mine = { λ mine other. other ++ mine };

    ghost other = { λ mine other. [] };
}

/// A part takes back the first right.
pub struct TakingFirst;

impl Deals for TakingFirst {
    ghost use Rattle.std.specs.Prelude.{drop, take};

    ghost mine = { λ mine other. take 1 other };

    ghost other = { λ mine other. drop 1 other };
}
