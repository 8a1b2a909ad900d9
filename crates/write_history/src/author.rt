//! Who signs writes.
ghost use Rattle.std.specs.Prelude.{◌≡◌, ◌-◌, ◌<◌, IfSome, None, ⊤};

use crate::book::Naming;
use ghost_log::{Deals, Rights};
use logbook::Pens;
use std::marker::{Model, PhantomData};

/// The right to sign writes as one author, or as nobody. A clause sees who that is, and how many writes it has signed.
#[derive(Drop)]
pub struct Author<J: Naming> {
    pub(crate) rights: Rights,
    of: PhantomData<J>,
}

impl<J: Naming> Model for Author<J> {
    ghost use Rattle.write_history.specs.Signers.{IsAuthor, Signer, signer_of};

    ghost Value = { Signer };

    ghost view = { λ author. signer_of author.rights.cells };

    ghost invariant = { λ author. IsAuthor J.book author.rights.book author.rights.cells };
}

impl<J: Naming> Author<J> {
    /// Who signs as nobody.
    pub fn nobody() -> Author<J>
        ensures { result.by ≡ None }
    {
        Author {
            rights: Rights::none(),
            of: PhantomData,
        }
    }
}

/// The authors that are left of a book. A clause sees how many.
#[derive(Drop)]
pub struct Authors<J: Naming> {
    pub(crate) pens: Pens,
    pub(crate) of: PhantomData<J>,
}

impl<J: Naming> Model for Authors<J> {
    ghost use Rattle.std.specs.Prelude.{◌≡◌, ◌≤◌, ℕ, Some};
    ghost use Rattle.hash_path.specs.Digits.{fan_out};

    ghost Value = { ℕ };

    ghost view = { λ authors. authors.pens.left };

    ghost invariant = { λ authors. (J.book ≡ Some authors.pens.book) × (fan_out ≤ authors.pens.next) };
}

impl<J: Naming> Authors<J> {
    /// The next author, who has signed nothing.
    pub fn next(&mut self) -> Author<J>
        requires { 0 < self.old }
        ensures rest { self.new ≡ self.old - 1 }
        ensures new { result.made ≡ 0 }
        ensures someone { IfSome result.by (λ _. ⊤) }
    {
        Author {
            rights: Rights::take(&mut self.pens),
            of: PhantomData,
        }
    }
}

/// The author's right is lent for a write, behind those of the digits.
pub struct Lending;

impl Deals for Lending {
    ghost use Rattle.std.specs.Prelude.{[], ◌++◌};

    ghost mine = { λ mine other. [] };

    ghost other = { λ mine other. other ++ mine };
}
