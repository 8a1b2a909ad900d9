//! The tokens beside open jobs.
ghost use Rattle.std.specs.Prelude.{◌≡◌, ◌≤◌, Contains, IfSome, filter, option_map, vec_capacity, vec_len};
ghost use Rattle.std.specs.Ordering.{nat_cmp};
ghost use Rattle.journal.specs.Kept.{is_other, openers_of};
ghost use Rattle.versions.specs.Map.{value_at};

use crate::journal_name::Token;
use hash_path::PathKey;

/// The number of an open job, and the token of the entry that opened it.
#[derive(Drop)]
pub struct Frozen<K: PathKey, V, Q, I> {
    pub(crate) number: u64,
    pub(crate) token: Token<K, V, Q, I>,
}

/// The token beside the open job of the number, if there is one.
pub(crate) fn beside<K: PathKey, V, Q, I>(
    freezes: &[Frozen<K, V, Q, I>],
    number: u64,
) -> Option<&Frozen<K, V, Q, I>>
    ensures number { IfSome result (λ frozen. frozen.now.number ≡ number) }
    ensures there { IfSome result (λ frozen. Contains freezes.now frozen.now) }
    ensures index { option_map (λ frozen. frozen.now.token.index) result ≡ value_at nat_cmp (openers_of freezes.now) number }
{
    for frozen in freezes {
        if frozen.number == number {
            return Some(frozen);
        }
    }
    None
}

/// Takes the token beside the job of the number away.
pub(crate) fn close<K: PathKey + Drop, V: Drop, Q: Drop, I: Drop>(
    freezes: &mut Vec<Frozen<K, V, Q, I>>,
    number: u64,
)
    ensures others { freezes.new.items ≡ filter (is_other number) freezes.old.items }
    ensures bound { vec_len freezes.new ≤ vec_len freezes.old }
    ensures capacity { vec_capacity freezes.new ≡ vec_capacity freezes.old }
{
    freezes.retain(|frozen| frozen.number != number);
}
