//! From where in a history readers go on.

use std::marker::Brand;
use write_history::Unnamed;

/// Which beginning of a map's history its readers go on from: what they find is no older. Each call of a program picks
/// it.
pub trait Since<K, V> {
    ghost use Rattle.std.specs.Prelude.{List};
    ghost use Rattle.write_history.specs.declared.entry.Entry.{Entry};

    ghost since: { List (Entry K V) };
}

impl<K, V> Since<K, V> for Brand {
    ghost use Rattle.std.specs.Prelude.{[]};

    ghost since = { [] };
}

/// No name: the history with no write, from which each one goes on.
impl<K, V> Since<K, V> for Unnamed {
    ghost use Rattle.std.specs.Prelude.{[]};

    ghost since = { [] };
}
