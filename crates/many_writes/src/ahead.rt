//! Reads that go ahead of the writes of a stripe.
ghost use Rattle.std.specs.Prelude.{◌<◌};

use crate::order::Order;
use crate::turn::Turn;
use hash_path::PathKey;
use stripes::{Keeps, Stripe};
use trie_ahead::{Way, Ways, read_ahead};
use trie_node::Slots;
use write_history::Naming;

/// Below so many pairs the processor's caches have most of a stripe, and reads ahead gain nothing.
const FEW: u64 = 2_048;

/// Reads what lies on the ways of the next items of the stripe, from the place on, and returns the place of the first
/// item behind them.
pub(crate) fn read_from<
    K: PathKey + Drop,
    V: Drop,
    P: Keeps<K, V>,
    J: Naming,
    S: Slots<K, V>,
    T,
    B,
>(stripe: &Stripe<K, V, P, J, S>, turns: &[Turn<T, B>], order: &Order, place: usize) -> usize
where
    S::Key: Drop,
    S::Value: Drop,
{
    if stripe.len() < FEW {
        return turns.len();
    }
    let root = stripe.whole().root();
    let mut ways: Ways<'_, K, V, S> = Ways::new();
    let mut next = place;
    while next < turns.len() && !ways.is_full() {
        if let Turn::Waits(path, _) = &turns[next] {
            ways.push(Some(Way::from_root(root, *path)));
        }
        next = order.behind(next, turns.len());
    }
    read_ahead(&mut ways);
    next
}
