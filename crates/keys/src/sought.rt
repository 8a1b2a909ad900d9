//! What a byte text is looked up by: its bytes, or its text, with no key made of them.

use crate::text::ByteText;
use hash_path::{Path, Sought};
use std::cmp::Ordering;

/// Bytes stand for the key that has them.
impl<'a> Sought<ByteText> for &'a [u8] {
    ghost key_of = { λ bytes. bytes.now };

    fn path_sought(self) -> Path {
        Path::fnv1a(self)
    }

    fn compare_with(self, key: &ByteText) -> Ordering {
        self.cmp(key.as_bytes())
    }
}

/// A text stands for the key that has its bytes.
impl<'a> Sought<ByteText> for &'a str {
    ghost key_of = { λ text. text.now };

    fn path_sought(self) -> Path {
        Path::fnv1a(self.as_bytes())
    }

    fn compare_with(self, key: &ByteText) -> Ordering {
        self.as_bytes().cmp(key.as_bytes())
    }
}
