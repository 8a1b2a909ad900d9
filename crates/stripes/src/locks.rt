//! The locks of a map as a list, in a type of their own.
ghost use Rattle.std.specs.Prelude.{◌≡◌, ℕ, length};
ghost use Rattle.std.specs.Borrow.{ftrue};

use crossbeam_utils::CachePadded;
use hash_path::PathKey;
use std::marker::Model;
use std::sync::Mutex;
use stripe::{Keeps, Stripe};
use trie_node::{KeySlots, Shared, Slots, ValueSlots};
use write_history::Naming;

/// A lock of a map, on a cache line of its own.
pub type Lock<K, V, P, J, S = Shared> = CachePadded<Mutex<Stripe<K, V, P, J, S>>>;

/// The locks of a map. A clause sees how many there are.
///
/// That threads may share them, where they may share keys and values, is proved here once, for this type. So the check
/// of a program that shares a struct of maps does not look into the trie of each.
#[derive(Drop)]
pub struct Locks<
    K: PathKey,
    V,
    P: Keeps<K, V>,
    J: Naming,
    S: Slots<K, V> + KeySlots<K, Key = A> + ValueSlots<V, Value = B>,
    A,
    B,
> {
    list: Vec<Lock<K, V, P, J, S>>,
}

impl<
    K: PathKey,
    V,
    P: Keeps<K, V>,
    J: Naming,
    S: Slots<K, V> + KeySlots<K, Key = A> + ValueSlots<V, Value = B>,
    A,
    B,
> Model for Locks<K, V, P, J, S, A, B> {
    ghost Value = { ℕ };

    ghost view = { λ locks. length locks.list.items };

    ghost also_owns = { λ _. ftrue };

    ghost also_shares = { λ _ _ _. ftrue };
}

// A struct with `also_owns` has neither by itself. This one owns nothing beside its list.
unsafe impl<
    K: PathKey,
    V,
    P: Keeps<K, V>,
    J: Naming,
    S: Slots<K, V> + KeySlots<K, Key = A> + ValueSlots<V, Value = B>,
    A: Send + Sync,
    B: Send + Sync,
> Send for Locks<K, V, P, J, S, A, B> {}

unsafe impl<
    K: PathKey,
    V,
    P: Keeps<K, V>,
    J: Naming,
    S: Slots<K, V> + KeySlots<K, Key = A> + ValueSlots<V, Value = B>,
    A: Send + Sync,
    B: Send + Sync,
> Sync for Locks<K, V, P, J, S, A, B> {}

impl<
    K: PathKey,
    V,
    P: Keeps<K, V>,
    J: Naming,
    S: Slots<K, V> + KeySlots<K, Key = A> + ValueSlots<V, Value = B>,
    A,
    B,
> Locks<K, V, P, J, S, A, B> {
    /// The locks of the list.
    pub fn new(list: Vec<Lock<K, V, P, J, S>>) -> Locks<K, V, P, J, S, A, B>
        ensures { result ≡ length list.items }
    {
        Locks { list }
    }

    /// The locks in their order.
    pub fn as_slice(&self) -> &[Lock<K, V, P, J, S>]
        ensures { length result.now ≡ self.now }
    {
        self.list.as_slice()
    }
}
