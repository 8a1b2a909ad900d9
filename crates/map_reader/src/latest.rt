//! The lock of the latest base, in a type of its own.
ghost use Rattle.std.specs.Borrow.{ftrue};

use crate::base::Base;
use crate::since::Since;
use hash_path::PathKey;
use std::marker::Model;
use std::sync::{Arc, Mutex};
use stripes::Keeps;
use trie_node::{KeySlots, Shared, Slots, ValueSlots};
use write_history::Naming;

/// A lock that keeps a base, or none.
pub type Lock<K, V, P, J, W, S = Shared> = Mutex<Option<Arc<Base<K, V, P, J, W, S>>>>;

/// The lock that keeps the latest base, or none. No clause sees anything of it.
///
/// That threads may share it, where they may share keys and values, is proved here once, for this type. So the check of
/// a program whose threads share a struct with the readers of a map does not look into the trie of their base.
#[derive(Drop)]
pub struct LatestBase<
    K: PathKey,
    V,
    P: Keeps<K, V>,
    J: Naming,
    W: Since<K, V>,
    S: Slots<K, V> + KeySlots<K, Key = A> + ValueSlots<V, Value = B>,
    A,
    B,
> {
    lock: Lock<K, V, P, J, W, S>,
}

impl<
    K: PathKey,
    V,
    P: Keeps<K, V>,
    J: Naming,
    W: Since<K, V>,
    S: Slots<K, V> + KeySlots<K, Key = A> + ValueSlots<V, Value = B>,
    A,
    B,
> Model for LatestBase<K, V, P, J, W, S, A, B> {
    ghost Value = { Unit };

    ghost view = { λ _. tt };

    ghost also_owns = { λ _. ftrue };

    ghost also_shares = { λ _ _ _. ftrue };
}

// A struct with `also_owns` has neither by itself. This one owns nothing beside its lock.
unsafe impl<
    K: PathKey,
    V,
    P: Keeps<K, V>,
    J: Naming,
    W: Since<K, V>,
    S: Slots<K, V> + KeySlots<K, Key = A> + ValueSlots<V, Value = B>,
    A: Send + Sync,
    B: Send + Sync,
> Send for LatestBase<K, V, P, J, W, S, A, B> {}

unsafe impl<
    K: PathKey,
    V,
    P: Keeps<K, V>,
    J: Naming,
    W: Since<K, V>,
    S: Slots<K, V> + KeySlots<K, Key = A> + ValueSlots<V, Value = B>,
    A: Send + Sync,
    B: Send + Sync,
> Sync for LatestBase<K, V, P, J, W, S, A, B> {}

impl<
    K: PathKey,
    V,
    P: Keeps<K, V>,
    J: Naming,
    W: Since<K, V>,
    S: Slots<K, V> + KeySlots<K, Key = A> + ValueSlots<V, Value = B>,
    A,
    B,
> LatestBase<K, V, P, J, W, S, A, B> {
    /// The lock, in a type of its own.
    pub fn new(lock: Lock<K, V, P, J, W, S>) -> LatestBase<K, V, P, J, W, S, A, B> {
        LatestBase { lock }
    }

    /// The lock.
    pub fn as_lock(&self) -> &Lock<K, V, P, J, W, S> {
        &self.lock
    }
}
