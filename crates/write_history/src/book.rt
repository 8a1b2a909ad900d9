//! The book of a map's history, its rule, and its name.
ghost use Rattle.std.specs.Prelude.{◌≡◌};

use crate::entry::Entry;
use ghost_log::Turns;
use hash_path::{FAN_OUT, PathKey};
use logbook::{Gain, Opening, Pens, Rule, Seen, Start};
use std::marker::{Brand, Model};

/// The rule of the book: the cell of each first digit has the number of its writes, and that of each author the number
/// of those that it signed.
pub struct Law;

impl<K: PathKey, V> Rule<Entry<K, V>, u64> for Law {
    ghost use Rattle.std.specs.Prelude.{[]};
    ghost use base.Fml.{ftrue};
    ghost use Rattle.write_history.specs.Rules.{IsKept};

    ghost holds = { λ cells log. IsKept K.path_of cells log };

    ghost first = { [] };

    ghost hinted = { λ n log. Unit {0} };

    ghost shows = { λ log. [] };

    ghost keeps = { λ names log. ftrue };

    ghost moves = { λ ask before after answer. Unit {0} };
}

/// A history begins with no write.
pub struct Beginning;

impl<K, V> Opening<(), Entry<K, V>> for Beginning {
    ghost use Rattle.std.specs.Prelude.{[]};

    ghost log = { λ _ _. [] };
}

/// Who writes gains nothing else.
pub struct Nothing;

impl<K, V> Gain<Entry<K, V>, u64> for Nothing {
    ghost use base.Fml.{ftrue};

    ghost after = { λ names about answer. ftrue };
}

/// A turn that adds no write.
impl<K, V> Turns<(), Entry<K, V>> for Nothing {
    ghost use Rattle.std.specs.Prelude.{[]};

    ghost adds = { λ _. [] };
}

/// Which book the history of a map is, if the map has one. Each call of a program picks it.
pub trait Naming {
    ghost use Rattle.std.specs.Prelude.{Option};
    ghost use Rattle.logbook.specs.Pages.{Book};

    ghost book: { Option Book };
}

impl Naming for Brand {
    ghost use Rattle.std.specs.Prelude.{None};

    ghost book = { None };
}

/// No name: the map has no history.
pub struct Unnamed;

impl Naming for Unnamed {
    ghost use Rattle.std.specs.Prelude.{None};

    ghost book = { None };
}

/// A book with an empty history, which has no name yet. A clause sees which book it is, and how many authors it has.
#[derive(Drop)]
pub struct Opened<K: PathKey, V> {
    pub(crate) seen: Seen<Entry<K, V>, u64, Law>,
    pub(crate) pens: Pens,
}

impl<K: PathKey, V> Model for Opened<K, V> {
    ghost use Rattle.std.specs.Prelude.{◌≡◌, ◌≤◌, ◌-◌, []};
    ghost use Rattle.hash_path.specs.Digits.{fan_out};
    ghost use Rattle.write_history.specs.Rules.{NewBook};

    ghost Value = { NewBook };

    ghost view = { λ opened. record { book = opened.seen.book; authors = opened.pens.left - fan_out } };

    ghost invariant = { λ opened. (opened.seen.log ≡ []) × (opened.pens.book ≡ opened.seen.book) × (opened.pens.next ≡ 0) × (fan_out ≤ opened.pens.left) };
}

impl<K: PathKey, V> Opened<K, V> {
    /// A book with an empty history, for so many authors.
    pub fn new(authors: u32) -> Opened<K, V>
        ensures { result.authors ≡ authors }
    {
        let cells = FAN_OUT as usize + authors as usize;
        let (seen, pens) = Seen::open_row::<(), Beginning>(&(), Start::alone(), cells);
        Opened { seen, pens }
    }
}
