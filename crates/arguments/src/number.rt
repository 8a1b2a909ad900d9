//! Numbers and values, each with one spelling.

ghost use Rattle.std.specs.Prelude.{◌≡◌, ◌≢◌, ◌↔◌, ℕ, ℤ, ◌<◌, ◌^◌, IsTrue, FitsSigned, MatchOption};
ghost use Rattle.std.specs.Fmt.{decimal, signed_decimal};
ghost use Rattle.std.specs.Int.{w64};
ghost use Rattle.arguments.specs.Numbers.{StartsNumber, StartsNegative};

/// The number that the field spells, if it is below 2^32.
pub fn number_of(field: &[u8]) -> Option<u32>
    ensures { MatchOption result ((n : ℕ) → n < 2 ^ 32 → field.now ≢ decimal n) (λ n. field.now ≡ decimal n) }
{
    if !starts_number(field) {
        return None;
    }
    match str::from_utf8(field) {
        Ok(text) => text.parse().ok(),
        Err(_) => None,
    }
}

/// The value that the field spells, if it is in the range of i64.
pub fn value_of(field: &[u8]) -> Option<i64>
    ensures { MatchOption result ((z : ℤ) → FitsSigned w64 z → field.now ≢ signed_decimal z) (λ z. field.now ≡ signed_decimal z) }
{
    if !starts_number(field) && !starts_negative(field) {
        return None;
    }
    match str::from_utf8(field) {
        Ok(text) => text.parse().ok(),
        Err(_) => None,
    }
}

// A digit stands first, and 0 only alone.
fn starts_number(field: &[u8]) -> bool
    ensures { IsTrue result ↔ StartsNumber field.now }
{
    match field {
        [b'0'] => true,
        [first, ..] => (b'1'..=b'9').contains(first),
        [] => false,
    }
}

// A minus, and a number that is not 0.
fn starts_negative(field: &[u8]) -> bool
    ensures { IsTrue result ↔ StartsNegative field.now }
{
    match field {
        [b'-', b'0', ..] => false,
        [b'-', digits @ ..] => starts_number(digits),
        _ => false,
    }
}
