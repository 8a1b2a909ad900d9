//! Where stamps come from.

ghost use Rattle.std.specs.Prelude.{◌≡◌, ◌+◌, ◌<◌, ◌^◌};

use std::marker::Model;
use trie_node::Stamp;

/// A source of stamps, seen as the number of stamps that it issued. It issues 1, 2, 3 and so on,
/// each once.
#[derive(Drop)]
pub struct Source {
    issued: u64,
}

impl Model for Source {
    ghost use Rattle.std.specs.Prelude.{ℕ};

    ghost Value = { ℕ };

    ghost view = { λ s. s.issued };
}

impl Source {
    /// A source that issued no stamp.
    pub fn new() -> Source
        ensures { result ≡ 0 }
    {
        Source { issued: 0 }
    }

    /// A source that goes on after the stamp: it is taken to have issued that stamp and all before it.
    pub fn after(stamp: Stamp) -> Source
        ensures { result ≡ stamp.0 }
    {
        Source { issued: stamp.0 }
    }

    /// The next stamp.
    pub fn next(&mut self) -> Stamp
        requires { self.old < 2 ^ 63 }
        ensures stamp { result.0 ≡ self.old + 1 }
        ensures issued { self.new ≡ self.old + 1 }
    {
        self.issued += 1;
        Stamp(self.issued)
    }

    /// How many stamps were issued, which is also the last one.
    pub fn issued(&self) -> u64
        ensures { result ≡ self.now }
    {
        self.issued
    }
}
