//! When a write takes place.

ghost use Rattle.std.specs.Prelude.{◌≡◌, Bool, true, Option, is_some, is_none, option_map};
ghost use Rattle.trie_shape.specs.Conditions.{some_and};

/// A test of what a key is mapped to, made before a write of that key.
pub trait Condition<V> {
    ghost holds: { Self → Option V → Bool };

    /// Whether the write is to take place, from the value that the key has.
    fn holds(&self, found: Option<&V>) -> bool
        ensures { result ≡ holds self.now (option_map (λ v. v.now) found.entry) };
}

/// The write always takes place.
pub struct Always;

impl<V> Condition<V> for Always {
    ghost holds = { λ c found. true };

    fn holds(&self, _found: Option<&V>) -> bool {
        true
    }
}

/// The write takes place where the key is absent.
pub struct IfAbsent;

impl<V> Condition<V> for IfAbsent {
    ghost holds = { λ c found. is_none found };

    fn holds(&self, found: Option<&V>) -> bool {
        found.is_none()
    }
}

/// The write takes place where the key is present.
pub struct IfPresent;

impl<V> Condition<V> for IfPresent {
    ghost holds = { λ c found. is_some found };

    fn holds(&self, found: Option<&V>) -> bool {
        found.is_some()
    }
}

/// The write takes place where the key is mapped to an equal value.
#[derive(Drop)]
pub struct IfEqual<'v, V>(pub &'v V);

impl<'v, V: Eq> Condition<V> for IfEqual<'v, V> {
    ghost holds = { λ c found. some_and (λ v. V.eq v c.0.now) found };

    fn holds(&self, found: Option<&V>) -> bool {
        match found {
            Some(value) => *value == *self.0,
            None => false,
        }
    }
}
