//! The stripe of a key.
ghost use Rattle.std.specs.Prelude.{◌≡◌};
ghost use Rattle.std.specs.Sync.Mutex.{mutex_guard_value};
ghost use Rattle.hash_path.specs.Digits.{digit};

use hash_path::{Path, PathKey};
use std::sync::{MutexGuard, Wait};
use stripes::{Keeps, Stripe, Stripes};
use trie_node::Slots;
use write_history::Naming;

/// The stripe of the keys that have this path word.
pub fn stripe_at<'m, R: Wait, K, V, P, J, S>(
    rt: &R,
    row: &'m Stripes<K, V, P, J, S>,
    path: Path,
) -> MutexGuard<'m, Stripe<K, V, P, J, S>>
where
    K: PathKey + Drop,
    V: Drop,
    P: Keeps<K, V>,
    J: Naming,
    S: Slots<K, V>,
    S::Key: Drop,
    S::Value: Drop,
    ensures { (mutex_guard_value result).digit ≡ digit path.0 0 }
{
    row.stripe_at(rt, path)
}
