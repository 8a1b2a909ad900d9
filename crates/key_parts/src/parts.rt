//! What stands for a pair or a triple of keys.

use hash_path::{Path, PathKey, Sought};
use std::cmp::Ordering;

/// What stands for a pair of keys: what stands for the first, and what stands for the second.
///
/// <!-- quoted from crates/tests_keys/src/tests/parts.rt -->
/// ```rust
/// let flag = Parts("acme", "dark-mode");
/// ```
///
/// A part is a `&K`, or what a key type lets stand for one, as a `&str` for a `ByteText`.
#[derive(Clone, Copy, Debug)]
pub struct Parts<P, Q>(pub P, pub Q);

impl<A: PathKey, B: PathKey, P: Sought<A>, Q: Sought<B>> Sought<(A, B)> for Parts<P, Q> {
    ghost key_of = { λ parts. (P.key_of parts.0, Q.key_of parts.1) };

    fn path_sought(self) -> Path {
        let Path(first) = self.0.path_sought();
        let Path(second) = self.1.path_sought();
        Path::fnv1a([first.to_le_bytes(), second.to_le_bytes()].as_flattened())
    }

    fn compare_with(self, key: &(A, B)) -> Ordering {
        match self.0.compare_with(&key.0) {
            Ordering::Equal => self.1.compare_with(&key.1),
            order => order,
        }
    }
}

/// What stands for a triple of keys: what stands for each of the three.
///
/// <!-- quoted from crates/tests_keys/src/tests/parts.rt -->
/// ```rust
/// let sought = ThreeParts("acme", &7u32, "eu");
/// ```
#[derive(Clone, Copy, Debug)]
pub struct ThreeParts<P, Q, S>(pub P, pub Q, pub S);

impl<A, B, C, P, Q, S> Sought<(A, B, C)> for ThreeParts<P, Q, S>
where
    A: PathKey,
    B: PathKey,
    C: PathKey,
    P: Sought<A>,
    Q: Sought<B>,
    S: Sought<C>,
{
    ghost key_of = { λ parts. (P.key_of parts.0, Q.key_of parts.1, S.key_of parts.2) };

    fn path_sought(self) -> Path {
        let Path(first) = self.0.path_sought();
        let Path(second) = self.1.path_sought();
        let Path(third) = self.2.path_sought();
        let words = [
            first.to_le_bytes(),
            second.to_le_bytes(),
            third.to_le_bytes(),
        ];
        Path::fnv1a(words.as_flattened())
    }

    fn compare_with(self, key: &(A, B, C)) -> Ordering {
        match self.0.compare_with(&key.0) {
            Ordering::Equal => {}
            order => return order,
        }
        match self.1.compare_with(&key.1) {
            Ordering::Equal => self.2.compare_with(&key.2),
            order => order,
        }
    }
}
