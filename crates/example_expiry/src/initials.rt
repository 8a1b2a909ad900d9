//! How many names begin with each byte: a map of counts, which grow where they stand.
ghost use Rattle.std.specs.Prelude.{◌≡◌, ◌+◌, ◌<◌, ◌^◌, ◌==◌, ℕ, IfOk, OnErr, OnOk, if◌then◌else◌};
ghost use Rattle.example_expiry.specs.Initials.{begins_with, count_at};

use keys::ByteText;
use std::alloc::Global;
use std::collections::BTreeMap;
use std::fmt;
use std::marker::Model;
use trie_node::NoMemory;

/// How many names begin with each byte. A byte with which none begins has no count.
///
/// Contracts see the list of its bytes, each with its count.
#[derive(Drop)]
pub struct Initials {
    counts: BTreeMap<u8, u64>,
}

impl Model for Initials {
    ghost use Rattle.std.specs.Prelude.{List, ℕ};

    ghost Value = { List (ℕ × ℕ) };

    ghost view = { λ initials. initials.counts.entries };
}

impl fmt::Display for Initials {
    fn fmt<W: fmt::Write>(&self, f: &mut fmt::Formatter<W>) -> fmt::Result {
        let mut between = "";
        for (byte, count) in &self.counts {
            write!(f, "{between}{} {count}", char::from(*byte))?;
            between = ", ";
        }
        Ok(())
    }
}

impl Initials {
    /// Those of no names.
    pub fn new(alloc: Global) -> Initials
        ensures { (byte : ℕ) → count_at result byte ≡ 0 }
    {
        Initials {
            counts: BTreeMap::new(alloc),
        }
    }

    /// Counts a name. One with no bytes begins with none. After `NoMemory` the counts are as before.
    pub fn add_name(&mut self, name: &ByteText) -> Result<(), NoMemory>
        requires { (byte : ℕ) → count_at self.old byte + 1 < 2 ^ 64 }
        ensures added { OnOk result ((byte : ℕ) → count_at self.new byte ≡ (if begins_with byte name.now then 1 else 0) + count_at self.old byte) }
        ensures err { OnErr result (self.new ≡ self.old) }
    {
        match name.as_bytes().first() {
            Some(first) => self.add(*first, 1),
            None => Ok(()),
        }
    }

    // Adds to the count of one byte.
    fn add(&mut self, byte: u8, more: u64) -> Result<(), NoMemory>
        requires { count_at self.old byte + more < 2 ^ 64 }
        ensures added { OnOk result ((other : ℕ) → count_at self.new other ≡ (if other == byte then more else 0) + count_at self.old other) }
        ensures err { OnErr result (self.new ≡ self.old) }
    {
        let count = self.counts.entry(byte)?.or_insert(0);
        *count += more;
        Ok(())
    }

    /// Those of both, by a walk over the ones with fewer bytes.
    pub fn joined(&self, other: &Initials) -> Result<Initials, NoMemory>
        requires { (byte : ℕ) → count_at self.now byte + count_at other.now byte < 2 ^ 64 }
        ensures { IfOk result (λ both. (byte : ℕ) → count_at both byte ≡ count_at self.now byte + count_at other.now byte) }
    {
        if self.counts.len() < other.counts.len() {
            sum_of(other, self)
        } else {
            sum_of(self, other)
        }
    }
}

// The counts of both: a copy of the first, and to it those of the second, one by one.
fn sum_of(more: &Initials, fewer: &Initials) -> Result<Initials, NoMemory>
    requires { (byte : ℕ) → count_at more.now byte + count_at fewer.now byte < 2 ^ 64 }
    ensures { IfOk result (λ both. (byte : ℕ) → count_at both byte ≡ count_at more.now byte + count_at fewer.now byte) }
{
    let mut sum = Initials {
        counts: more.counts.clone()?,
    };
    for (byte, count) in &fewer.counts {
        sum.add(*byte, *count)?;
    }
    Ok(sum)
}
