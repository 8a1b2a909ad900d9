//! Maps of pairs to their images.

ghost use Rattle.std.specs.Prelude.{◌≡◌, ◌≢◌, ◌++◌, codes, IfOk, MatchOption, OnOk, take};
ghost use Rattle.arguments.specs.Questions.{IsPairMapping, image_of, pair_mapping_text};
ghost use Rattle.arguments.specs.declared.pair_mapping.PairMapping.{PairMapping};

use crate::behind::key_behind;
use crate::key::Key;
use keys::ByteText;
use std::alloc::{AllocError, Global};
use std::io::Write;
use std::{io, slice};

/// What a pair's image is.
#[derive(Debug, Drop)]
pub enum PairMapping {
    /// This key with the pair's value.
    To(Key),
    /// The first byte of the key, as a key, with the pair's value.
    Initial,
    /// The value in its one spelling, as a key, with the number of bytes in the key.
    ByValue,
}

impl PairMapping {
    /// The same map. The bytes of a key are shared.
    ///
    /// # Errors
    ///
    /// The key's text has as many owners as it may.
    pub fn try_clone(&self) -> Result<PairMapping, AllocError>
        ensures { IfOk result (λ m. m ≡ self.now) }
    {
        Ok(match self {
            PairMapping::To(target) => PairMapping::To(target.try_clone()?),
            PairMapping::Initial => PairMapping::Initial,
            PairMapping::ByValue => PairMapping::ByValue,
        })
    }

    /// Appends the text of the map.
    ///
    /// # Errors
    ///
    /// Memory was refused.
    pub fn push_to(&self, out: &mut Vec<u8>) -> io::Result<()>
        ensures { OnOk result (out.new.items ≡ out.old.items ++ pair_mapping_text self.now) }
    {
        match self {
            PairMapping::To(target) => {
                write!(out, "to:")?;
                out.extend_from_slice(target.as_slice())?;
                Ok(())
            }
            PairMapping::Initial => write!(out, "initial"),
            PairMapping::ByValue => write!(out, "byvalue"),
        }
    }

    /// The image of the pair of a key's bytes and a value. Only an empty key, which no script has, has an empty image
    /// by its first byte.
    ///
    /// # Errors
    ///
    /// Memory for the new key was refused.
    pub fn image(
        &self,
        alloc: Global,
        key: &[u8],
        value: i64,
    ) -> Result<(ByteText, i64), AllocError>
        ensures { IfOk result (λ image. image ≡ image_of self.now key.now value) }
    {
        match self {
            PairMapping::To(target) => Ok((ByteText::from_slice(alloc, target.as_slice())?, value)),
            PairMapping::Initial => Ok((ByteText::from_slice(alloc, first_of(key))?, value)),
            PairMapping::ByValue => {
                let text = format!(in alloc; "{value}")?;
                Ok((ByteText::new(text.into_bytes()), key.len() as i64))
            }
        }
    }
}

/// The map of pairs that the field spells, if it spells one.
///
/// # Errors
///
/// Memory for its key was refused.
pub fn pair_mapping_of(alloc: Global, field: &[u8]) -> Result<Option<PairMapping>, AllocError>
    ensures { IfOk result (λ mapping. MatchOption mapping ((m : PairMapping) → IsPairMapping m → field.now ≢ pair_mapping_text m) (λ m. IsPairMapping m × (field.now ≡ pair_mapping_text m))) }
{
    if let Some(mapping) = word_of(field) {
        return Ok(Some(mapping));
    }
    match key_behind(alloc, b"to:", field)? {
        Some(target) => Ok(Some(PairMapping::To(target))),
        None => Ok(None),
    }
}

/// The map of one word that the field spells, if it spells one.
fn word_of(field: &[u8]) -> Option<PairMapping>
    ensures { MatchOption result ((field.now ≢ codes "initial") × (field.now ≢ codes "byvalue")) (λ m. IsPairMapping m × (field.now ≡ pair_mapping_text m)) }
{
    match field {
        b"initial" => Some(PairMapping::Initial),
        b"byvalue" => Some(PairMapping::ByValue),
        _ => None,
    }
}

/// The first byte alone, where there is one.
fn first_of(bytes: &[u8]) -> &[u8]
    ensures { result.now ≡ take 1 bytes.now }
{
    match bytes {
        [first, ..] => slice::from_ref(first),
        [] => bytes,
    }
}
