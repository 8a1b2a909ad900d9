//! All pairs of a map.

ghost use Rattle.std.specs.Prelude.{◌≡◌, ◌++◌, [], flat_map, OnOk};
ghost use Rattle.keys.specs.Order.{bytes_cmp};
ghost use Rattle.script.specs.Replies.{pair_text};
ghost use Rattle.versions.specs.Map.{with_pair};

use arguments::MapKey;
use std::alloc::{AllocError, Global};
use std::collections::BTreeMap;
use std::io;
use std::io::Write;
use std::marker::Model;

/// The pairs of a map, in the order of their keys' bytes.
#[derive(Debug, Drop)]
pub struct Listing {
    pairs: BTreeMap<MapKey, i64>,
}

impl Model for Listing {
    ghost use Rattle.std.specs.Prelude.{List, ℕ, ℤ};

    ghost Value = { List (List ℕ × ℤ) };

    ghost view = { λ l. l.pairs.entries };
}

impl Listing {
    /// The listing of no pairs.
    pub fn new(alloc: Global) -> Listing
        ensures { result ≡ [] }
    {
        Listing {
            pairs: BTreeMap::new(alloc),
        }
    }

    /// Puts the pair in its place; it replaces one of the same key.
    ///
    /// # Errors
    ///
    /// Memory was refused.
    #[tactic(auto, using(crate::proofs::ListingLemmas::inserted))]
    pub fn insert(&mut self, key: MapKey, value: i64) -> Result<(), AllocError>
        ensures { OnOk result (self.new ≡ with_pair bytes_cmp self.old key value) }
    {
        self.pairs.insert(key, value)?;
        Ok(())
    }

    /// Appends each pair: a space, its key, `=` and its value.
    ///
    /// # Errors
    ///
    /// Memory was refused.
    pub fn push_to(&self, out: &mut Vec<u8>) -> io::Result<()>
        ensures { OnOk result (out.new.items ≡ out.old.items ++ flat_map pair_text self.now) }
    {
        for (key, value) in &self.pairs {
            push_pair(out, key, *value)?;
        }
        Ok(())
    }
}

/// Appends a space, the key, `=` and the value.
fn push_pair(out: &mut Vec<u8>, key: &MapKey, value: i64) -> io::Result<()>
    ensures { OnOk result (out.new.items ≡ out.old.items ++ pair_text (key.now, value)) }
{
    out.push(b' ')?;
    out.extend_from_slice(key.as_slice())?;
    write!(out, "={value}")
}
