//! Maps of values to new ones.

ghost use Rattle.std.specs.Prelude.{◌≡◌, ◌≢◌, ◌++◌, MatchOption, OnOk};
ghost use Rattle.arguments.specs.Questions.{IsMapping, mapping_text, new_value};
ghost use Rattle.arguments.specs.declared.mapping.Mapping.{Mapping};

use crate::behind::value_behind;
use std::io;
use std::io::Write;

/// What a pair's new value is.
#[derive(Clone, Copy, Debug)]
pub enum Mapping {
    /// This value.
    Set(i64),
    /// The sum of the value and this one, wrapped to 64 bits.
    Add(i64),
    /// The number of bytes in the key.
    KeyLength,
}

impl Mapping {
    /// Appends the text of the map.
    ///
    /// # Errors
    ///
    /// Memory was refused.
    pub fn push_to(&self, out: &mut Vec<u8>) -> io::Result<()>
        ensures { OnOk result (out.new.items ≡ out.old.items ++ mapping_text self.now) }
    {
        match self {
            Mapping::Set(new) => write!(out, "set:{new}"),
            Mapping::Add(more) => write!(out, "add:{more}"),
            Mapping::KeyLength => write!(out, "keylen"),
        }
    }

    /// The new value of the pair of a key's bytes and a value.
    pub fn new_value(self, key: &[u8], value: i64) -> i64
        ensures { result ≡ new_value self key.now value }
    {
        match self {
            Mapping::Set(new) => new,
            Mapping::Add(more) => value.wrapping_add(more),
            Mapping::KeyLength => key.len() as i64,
        }
    }
}

/// The map that the field spells, if it spells one.
pub fn mapping_of(field: &[u8]) -> Option<Mapping>
    ensures { MatchOption result ((m : Mapping) → IsMapping m → field.now ≢ mapping_text m) (λ m. IsMapping m × (field.now ≡ mapping_text m)) }
{
    if let Some(value) = value_behind(b"set:", field) {
        return Some(Mapping::Set(value));
    }
    if let Some(value) = value_behind(b"add:", field) {
        return Some(Mapping::Add(value));
    }
    match field {
        b"keylen" => Some(Mapping::KeyLength),
        _ => None,
    }
}
