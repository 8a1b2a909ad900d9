//! The keys of a script.

ghost use Rattle.std.specs.Prelude.{◌≡◌, ◌↔◌, IfOk, IsTrue, SomeIff};
ghost use Rattle.std.specs.Arc.{arc_value};
ghost use Rattle.arguments.specs.Keys.{IsKey};

use keys::ByteText;
use std::alloc::{AllocError, Global};
use std::marker::Model;
use std::sync::Arc;

/// The most bytes of a key.
pub const MOST_KEY_BYTES: usize = 64;

/// A key: 1 to 64 bytes, each from 0x21 to 0x7e. Its text is shared with the maps that get it.
#[derive(Debug, Drop)]
pub struct Key {
    text: Arc<ByteText>,
}

impl Model for Key {
    ghost use Rattle.std.specs.Prelude.{List, ℕ};
    ghost use Rattle.std.specs.Arc.{arc_value};
    ghost use Rattle.arguments.specs.Keys.{IsKey};

    ghost Value = { List ℕ };

    ghost view = { λ k. arc_value k.text };

    ghost invariant = { λ k. IsKey (arc_value k.text) };
}

impl Key {
    /// The key that has these bytes, or none where no key has them.
    ///
    /// # Errors
    ///
    /// Memory for the bytes was refused.
    pub fn new(alloc: Global, bytes: &[u8]) -> Result<Option<Key>, AllocError>
        ensures { IfOk result (λ key. SomeIff key (IsKey bytes.now) bytes.now) }
    {
        if !is_key(bytes) {
            return Ok(None);
        }
        let text = Arc::new(alloc, ByteText::from_slice(alloc, bytes)?)?;
        Ok(Some(Key { text }))
    }

    /// The bytes of the key.
    pub fn as_slice(&self) -> &[u8]
        ensures bytes { result.now ≡ self.now }
        ensures lawful { IsKey self.now }
    {
        self.text.as_bytes()
    }

    /// The same key. No byte is copied.
    ///
    /// # Errors
    ///
    /// The text has as many owners as it may.
    pub fn try_clone(&self) -> Result<Key, AllocError>
        ensures { IfOk result (λ key. key ≡ self.now) }
    {
        Ok(Key {
            text: self.lawful_text()?,
        })
    }

    /// The key's own text, to be a key of a map. No byte is copied.
    ///
    /// # Errors
    ///
    /// The text has as many owners as it may.
    pub fn text(&self) -> Result<Arc<ByteText>, AllocError>
        ensures { IfOk result (λ text. arc_value text ≡ self.now) }
    {
        Arc::try_clone(&self.text)
    }

    /// The same text, which is a key's.
    fn lawful_text(&self) -> Result<Arc<ByteText>, AllocError>
        ensures text { IfOk result (λ text. arc_value text ≡ self.now) }
        ensures lawful { IfOk result (λ text. IsKey (arc_value text)) }
    {
        Arc::try_clone(&self.text)
    }
}

/// Whether some key has these bytes.
fn is_key(bytes: &[u8]) -> bool
    ensures { IsTrue result ↔ IsKey bytes.now }
{
    (1..=MOST_KEY_BYTES).contains(&bytes.len()) && bytes.iter().all(|b| (0x21..=0x7e).contains(b))
}
