//! Closures on pairs.
ghost use Rattle.bulk_ops.specs.Meanings.{MayAnswer};

use trie_node::Slots;

/// What the closure returns at a pair.
pub fn answer_at<K, V, R, F: Fn(&K, &V) -> R>(call: &F, key: &K, value: &V) -> R
    requires { F.IsAlwaysCallable call.now }
    ensures { MayAnswer F.Fn call.now key.now value.now result }
{
    call(key, value)
}

/// What the closure returns at a pair, as it lies in a row.
pub fn answer_in<K, V, S: Slots<K, V>, R, F: Fn(&K, &V) -> R>(
    call: &F,
    key: &S::Key,
    value: &S::Value,
) -> R
    requires { F.IsAlwaysCallable call.now }
    ensures { MayAnswer F.Fn call.now (S.key_of key.now) (S.value_of value.now) result }
{
    answer_at(call, S::lend_key(key), S::lend_value(value))
}
