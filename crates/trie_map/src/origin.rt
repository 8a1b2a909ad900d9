//! A value that was found, or that is made where none was.
ghost use Rattle.std.specs.Prelude.{◌≡◌, Err, IfErr, IfNone, IfOk, IfSome, None, Ok};

use trie_node::{Shared, ValueSlots};

/// Where a value comes from.
#[derive(Drop)]
pub enum Origin<V, S: ValueSlots<V> = Shared> {
    /// It was found.
    Found(S::Value),
    /// It was made.
    Made(V),
}

/// The value that was found, else the one that `make` makes. `make` is called exactly where none was found.
pub fn found_or_made<V: Drop, S: ValueSlots<V>, F: FnOnce() -> V>(
    found: Option<S::Value>,
    make: F,
) -> Origin<V, S>
    requires { found ≡ None → F.pre make }
    ensures found { IfSome found (λ value. result ≡ Origin.Found value) }
    ensures made { IfNone found ((value : V) × F.post make value × (result ≡ Origin.Made value)) }
{
    match found {
        Some(found) => Origin::Found(found),
        None => Origin::Made(make()),
    }
}

/// The same where `make` may fail: then its error.
pub fn found_or_tried<V: Drop, S: ValueSlots<V>, E, F: FnOnce() -> Result<V, E>>(
    found: Option<S::Value>,
    make: F,
) -> Result<Origin<V, S>, E>
    requires { found ≡ None → F.pre make }
    ensures found { IfSome found (λ value. result ≡ Ok (Origin.Found value)) }
    ensures made { IfNone found (IfOk result (λ origin. (value : V) × F.post make (Ok value) × (origin ≡ Origin.Made value))) }
    ensures failed { IfErr result (λ error. F.post make (Err error)) }
{
    match found {
        Some(found) => Ok(Origin::Found(found)),
        None => Ok(Origin::Made(make()?)),
    }
}
