//! A write's condition, asked of what a key has.

ghost use Rattle.std.specs.Prelude.{◌≡◌, Some, None};

use trie_shape::Condition;

/// Whether a condition holds of a key that is absent.
pub fn holds_of_absent<'a, V: 'a, C: Condition<V>>(condition: &'a C) -> bool
    ensures { result ≡ C.holds condition.now None }
{
    let absent: Option<&'a V> = None;
    condition.holds(absent)
}

/// Whether a condition holds of a value.
pub fn holds_of<V, C: Condition<V>>(condition: &C, value: &V) -> bool
    ensures { result ≡ C.holds condition.now (Some value.now) }
{
    condition.holds(Some(value))
}
