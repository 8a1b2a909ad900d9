//! Names counted by their first byte: an operation on whole registries whose part is a map.

use crate::initials::Initials;
use crate::lease::Lease;
use combiner::Bulk;
use keys::ByteText;
use std::alloc::Global;
use std::sync::Arc;
use trie_node::NoMemory;

/// How many names begin with each byte.
#[derive(Clone, Copy, Debug)]
pub struct ByInitial;

impl Bulk<ByteText, Lease> for ByInitial {
    type Part = Initials;

    ghost use Rattle.example_expiry.specs.Initials.{AreInitials};

    ghost answers = { λ asked m initials. AreInitials m initials };

    // No map decides: each name that is still to come counts.
    ghost decides = { λ asked m. ⊥ };

    ghost ready = { λ asked. Unit {0} };

    fn unit(&self, alloc: Global) -> Result<Initials, NoMemory> {
        Ok(Initials::new(alloc))
    }

    fn one(
        &self,
        alloc: Global,
        name: &Arc<ByteText>,
        _lease: &Arc<Lease>,
    ) -> Result<Initials, NoMemory> {
        let mut initials = Initials::new(alloc);
        initials.add_name(name)?;
        Ok(initials)
    }

    fn join(&self, _alloc: Global, a: &Initials, b: &Initials) -> Result<Initials, NoMemory> {
        a.joined(b)
    }

    fn settled(&self, _part: &Initials) -> bool {
        false
    }

    // The counts grow where they stand: `join` with `one` would copy them for each name.
    fn add(
        &self,
        _alloc: Global,
        part: &mut Initials,
        name: &Arc<ByteText>,
        _lease: &Arc<Lease>,
    ) -> Result<(), NoMemory> {
        part.add_name(name)
    }
}
