//! The key of a flag: whose it is, and its name.

use std::alloc::{AllocError, Global};
use std::cmp::Ordering;
use tambyulo::{ByteText, Path, PathKey, Sought};

/// Whose flag it is, and its name. Flags are in the order of the tenant, and then of the name.
#[derive(Drop, PartialEq, Eq, PartialOrd, Ord)]
pub struct Flag {
    pub tenant: ByteText,
    pub name: ByteText,
}

impl PathKey for Flag {
    ghost use Rattle.tambyulo.specs.Fnv.{fnv1a, fnv1a-below};
    ghost use Rattle.example_flags.specs.Flags.{bytes_of, flag-exact};

    ghost path_of = { λ flag. fnv1a (bytes_of flag) };

    ghost exact = { flag-exact };

    ghost small = { λ flag. fnv1a-below (bytes_of flag) };

    fn path(&self) -> Path {
        let Path(tenant) = self.tenant.path();
        let Path(name) = self.name.path();
        Path::fnv1a([tenant.to_le_bytes(), name.to_le_bytes()].as_flattened())
    }
}

impl Flag {
    /// The key of the flag of this name.
    pub fn new(alloc: Global, tenant: &str, name: &str) -> Result<Flag, AllocError> {
        Ok(Flag {
            tenant: ByteText::from_text(alloc, tenant)?,
            name: ByteText::from_text(alloc, name)?,
        })
    }
}

/// What a flag is looked up by, with no key made: both texts.
#[derive(Clone, Copy)]
pub struct FlagName<'a> {
    pub tenant: &'a str,
    pub name: &'a str,
}

impl<'a> Sought<Flag> for FlagName<'a> {
    ghost use Rattle.example_flags.specs.declared.flag.Flag.{Flag};

    ghost key_of = { λ sought. record { tenant = sought.tenant.now; name = sought.name.now } };

    fn path_sought(self) -> Path {
        let Path(tenant) = Path::fnv1a(self.tenant.as_bytes());
        let Path(name) = Path::fnv1a(self.name.as_bytes());
        Path::fnv1a([tenant.to_le_bytes(), name.to_le_bytes()].as_flattened())
    }

    fn compare_with(self, key: &Flag) -> Ordering {
        match self.tenant.compare_with(&key.tenant) {
            Ordering::Equal => self.name.compare_with(&key.name),
            order => order,
        }
    }
}
