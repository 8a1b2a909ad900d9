//! The value of a key, which is made where there is none.
ghost use Rattle.std.specs.Prelude.{◌≡◌, IfOk, MatchOption, OnErr, None, Some};
ghost use Rattle.map_ops.specs.Writes.{writes};
ghost use Rattle.trie_shape.specs.Roots.{word_of};
ghost use Rattle.versions.specs.Changes.{RestampsIf};
ghost use Rattle.versions.specs.Commands as commands;
ghost use Rattle.versions.specs.Map.{value_at};
ghost use Rattle.versions.specs.Puts.{FullExactly};

use crate::puts::put_if_absent;
use hash_path::PathKey;
use std::alloc::{AllocError, Global};
use std::sync::Arc;
use versions::{Refusal, Version, law_of_put};

/// The value that the key has then: the one that it had, else the one that `make` made, to which it is now mapped.
/// `make` is called exactly where the key is absent.
///
/// The error is `Full` where the key is new and there are as many pairs as there may be, and `NoMemory` if memory runs
/// out. The map is then as before.
pub fn get_or_else_update<K: PathKey + Drop, V: Eq + Drop, F: FnOnce() -> V>(
    version: &mut Version<K, V>,
    alloc: Global,
    key: Arc<K>,
    make: F,
) -> Result<Arc<V>, Refusal>
    requires { value_at K.cmp version.old.entries key.value ≡ None → F.pre make }
    ensures answer { IfOk result (λ answer. MatchOption (value_at K.cmp version.old.entries key.value) (F.post make answer.value) (λ found. answer.value ≡ found)) }
    ensures there { IfOk result (λ answer. value_at K.cmp version.new.entries key.value ≡ Some answer.value) }
    ensures map { IfOk result (λ answer. version.new.entries ≡ commands.after K.cmp V.eq version.old.entries (commands.put_if_absent key.value answer.value)) }
    ensures nodes { IfOk result (λ answer. RestampsIf (writes K.cmp V.eq version.old.entries (commands.put_if_absent key.value answer.value)) version.old.stamp (word_of K.path_of key.value) version.old.nodes version.new.nodes) }
    ensures limit { version.new.limit ≡ version.old.limit }
    ensures stamp { version.new.stamp ≡ version.old.stamp }
    ensures full { FullExactly result (commands.is_full_for K.cmp version.old.limit version.old.entries key.value) }
    ensures err { OnErr result (version.new ≡ version.old) }
{
    law_of_put::<K, V>();
    if let Some(found) = version.get(&key) {
        return Ok(Arc::try_clone(found)?);
    }
    let made = make();
    if version.len() == version.limit() {
        return Err(Refusal::Full);
    }
    let made = Arc::new(alloc, made).map_err(AllocError::from)?;
    let answer = Arc::try_clone(&made)?;
    put_if_absent(version, alloc, key, made)?;
    Ok(answer)
}
