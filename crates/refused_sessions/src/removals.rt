//! The removal of a key by a session.
ghost use Rattle.std.specs.Prelude.{IfOk, is_some, option_map};
ghost use Rattle.write_history.specs.declared.entry.Write.TheVariants.{Remove};
ghost use Rattle.write_history.specs.Signers.{WroteIf};

use hash_path::{PathKey, Sought};
use map_session::Session;
use std::sync::Wait;
use stripes::Keeps;
use trie_node::{NoMemory, Slots};
use write_history::Naming;

/// Removes the key: an entry of the history, where the key had a value.
pub fn removed<R: Wait, K, V, P, J, S, Q>(
    rt: &R,
    session: &mut Session<'_, K, V, P, J, S>,
    key: Q,
) -> Result<Option<S::Value>, NoMemory>
where
    K: PathKey + Drop,
    V: Drop,
    P: Keeps<K, V>,
    J: Naming,
    S: Slots<K, V>,
    S::Key: Drop,
    S::Value: Drop,
    Q: Sought<K>,
    ensures { IfOk result (λ before. WroteIf K.cmp K.path_of (is_some before) (Remove (Q.key_of key)) (Q.key_of key) (option_map S.value_of before) session.old.signer session.old.log session.new.log) }
{
    session.remove(rt, key)
}
