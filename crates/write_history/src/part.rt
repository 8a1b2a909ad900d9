//! What a lock keeps of a history.
ghost use Rattle.std.specs.Prelude.{◌≡◌, ◌+◌, ◌<◌, ◌++◌, ◌∷◌, ℕ, [], List, None, Some};
ghost use mathlib.Core.List.{IsPrefix};
ghost use Rattle.hash_path.specs.Digits.{fan_out};
ghost use Rattle.write_history.specs.declared.entry.Entry.{Entry};
ghost use Rattle.write_history.specs.declared.entry.Write.TheVariants.{Put, Remove};
ghost use Rattle.write_history.specs.Rules.{HasHistory};
ghost use Rattle.write_history.specs.Signers.{Made, signed_once};
ghost use Rattle.write_history.specs.Histories.{IsOf, IsSame};

use crate::author::{Author, Authors, Lending};
use crate::book::{Law, Naming, Nothing, Opened, Unnamed};
use crate::entry::Entry;
use crate::front::Front;
use crate::intent::{Intent, Pair, Putting, Removing, Signed};
use ghost_log::{Deals, Rights, law_of_cells, turn};
use hash_path::{PathKey, Sought};
use logbook::{Pens, Seen};
use std::marker::{Model, PhantomData};

/// The right to add the writes of one first digit, and a history that has all of them. It lies under the digit's lock.
///
/// It has no digit where the map has no history, and while its right is lent.
#[derive(Drop)]
pub struct Part<K: PathKey, V, J: Naming> {
    pub(crate) rights: Rights,
    pub(crate) seen: Seen<Entry<K, V>, u64, Law>,
    of: PhantomData<J>,
}

impl<K: PathKey, V, J: Naming> Model for Part<K, V, J> {
    ghost use Rattle.write_history.specs.Rules.{IsPart, Known, first_key};

    ghost Value = { Known K V };

    ghost view = { λ part. record { digit = first_key part.rights.cells; log = part.seen.log } };

    ghost invariant = { λ part. IsPart K.path_of J.book part.rights.book part.rights.cells part.seen.book part.seen.log };
}

impl<K: PathKey, V, J: Naming> Part<K, V, J> {
    /// Sees the history as it is now, which goes on from what the front has seen. The keys of the digit have the values
    /// that they had.
    pub fn meet(&mut self, front: &Front<K, V, J>)
        ensures mine { IsPrefix self.old.log self.new.log }
        ensures other { IsPrefix front.now self.new.log }
        ensures same { IsSame K.cmp K.path_of self.old.digit self.old.log self.new.log }
        ensures digit { self.new.digit ≡ self.old.digit }
    {
        law_of_cells();
        self.seen.learn(&front.seen);
        turn::<Entry<K, V>, u64, Law, (), Nothing>(&mut self.seen, &mut self.rights, &());
    }

    /// In a history that has all that the part knows, the keys of the digit have the values that the part knows: no
    /// other thread has added a write of theirs.
    pub fn stands(&mut self, front: &Front<K, V, J>)
        requires { IsPrefix self.old.log front.now }
        ensures same { IsSame K.cmp K.path_of self.old.digit self.old.log front.now }
        ensures part { self.new ≡ self.old }
    {
        law_of_cells();
        let mut later = front.seen.again();
        turn::<Entry<K, V>, u64, Law, (), Nothing>(&mut later, &mut self.rights, &());
    }

    /// Adds a write of the digit, which the author signs, to the history as it is now. Of the author's writes it has
    /// before that as many as the author had signed.
    pub fn write(&mut self, intent: &Intent<K, V>, author: &mut Author<J>)
        requires signed { intent.now.by ≡ author.old.by }
        requires digit { HasHistory J.book → (d : ℕ) × (self.old.digit ≡ Some d) × IsOf K.path_of d intent.now.write }
        ensures wrote { HasHistory J.book → (h : List (Entry K V)) × IsPrefix self.old.log h × IsSame K.cmp K.path_of self.old.digit self.old.log h × Made K.path_of author.old h × (self.new.log ≡ h ++ intent.now ∷ []) }
        ensures digit { self.new.digit ≡ self.old.digit }
        ensures author { author.new ≡ signed_once author.old }
    {
        law_of_cells();
        author.rights.deal::<Lending>(&mut self.rights);
        turn::<Entry<K, V>, u64, Law, Intent<K, V>, Nothing>(
            &mut self.seen,
            &mut self.rights,
            intent,
        );
        author.rights.deal::<TakingBack>(&mut self.rights);
    }

    /// A part of a map with no history has no digit. It does nothing.
    pub fn law(&self)
        ensures { J.book ≡ None → self.now.digit ≡ None }
    {
        let _ = &self.seen;
    }

    /// The put of a value at a key, which is to be added.
    pub fn putting<Q: Sought<K>>(&self, author: &Author<J>, key: Q, value: &V) -> Intent<K, V>
        ensures { result ≡ record { by = author.now.by; write = Put (Q.key_of key) value.now } }
    {
        let pair = Pair { key, value };
        let signed = Signed {
            author,
            about: &pair,
        };
        Intent {
            offer: self
                .seen
                .plain::<Nothing, Signed<'_, Pair<'_, Q, V>, J>, Putting>(&signed),
        }
    }

    /// The removal of a key, which is to be added.
    pub fn removing<Q: Sought<K>>(&self, author: &Author<J>, key: &Q) -> Intent<K, V>
        ensures { result ≡ record { by = author.now.by; write = Remove (Q.key_of key.now) } }
    {
        let signed = Signed { author, about: key };
        Intent {
            offer: self
                .seen
                .plain::<Nothing, Signed<'_, Q, J>, Removing>(&signed),
        }
    }
}

impl<K: PathKey, V> Part<K, V, Unnamed> {
    /// The part of a map with no history.
    pub fn idle() -> Part<K, V, Unnamed>
        ensures { result.digit ≡ None }
    {
        let opened = Opened::<K, V>::new(0);
        Part {
            rights: Rights::none(),
            seen: opened.seen.again(),
            of: PhantomData,
        }
    }
}

/// The author takes back what was lent: all but the digit's right.
pub struct TakingBack;

impl Deals for TakingBack {
    ghost use Rattle.std.specs.Prelude.{drop, take};

    ghost mine = { λ mine other. drop 1 other };

    ghost other = { λ mine other. take 1 other };
}

/// The parts that are left of a book with a name, in the order of their digits. A clause sees the next digit, and how
/// many authors there are.
#[derive(Drop)]
pub struct Parts<K: PathKey, V, J: Naming> {
    pens: Pens,
    seen: Seen<Entry<K, V>, u64, Law>,
    of: PhantomData<J>,
}

impl<K: PathKey, V, J: Naming> Model for Parts<K, V, J> {
    ghost use Rattle.std.specs.Prelude.{◌≡◌, ◌+◌, ◌-◌, ◌≤◌, [], Some};
    ghost use Rattle.hash_path.specs.Digits.{fan_out};
    ghost use Rattle.write_history.specs.Rules.{Left};

    ghost Value = { Left };

    ghost view = { λ parts. record { next = parts.pens.next; authors = (parts.pens.next + parts.pens.left) - fan_out } };

    ghost invariant = { λ parts. (parts.pens.book ≡ parts.seen.book) × (J.book ≡ Some parts.seen.book) × (parts.seen.log ≡ []) × (fan_out ≤ parts.pens.next + parts.pens.left) };
}

impl<K: PathKey, V, J: Naming> Parts<K, V, J> {
    /// All parts of a book that has this name.
    pub fn of(opened: Opened<K, V>) -> Parts<K, V, J>
        requires { J.book ≡ Some opened.book }
        ensures next { result.next ≡ 0 }
        ensures authors { result.authors ≡ opened.authors }
    {
        let Opened { seen, pens } = opened;
        Parts {
            pens,
            seen,
            of: PhantomData,
        }
    }

    /// The part of the next digit.
    pub fn take(&mut self) -> Part<K, V, J>
        requires { self.old.next < fan_out }
        ensures next { self.new.next ≡ self.old.next + 1 }
        ensures authors { self.new.authors ≡ self.old.authors }
        ensures digit { result.digit ≡ Some self.old.next }
        ensures empty { result.log ≡ [] }
    {
        Part {
            rights: Rights::take(&mut self.pens),
            seen: self.seen.again(),
            of: PhantomData,
        }
    }

    /// The authors, once all parts are taken.
    pub fn into_authors(self) -> Authors<J>
        requires { self.next ≡ fan_out }
        ensures { result ≡ self.authors }
    {
        let Parts { pens, seen, of } = self;
        drop(seen);
        Authors { pens, of }
    }
}
