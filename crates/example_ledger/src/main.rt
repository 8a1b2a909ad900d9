//! A ledger of balances that two threads write, and what the history of its writes says of what they read.
//!
//! What it prints is stored beside it. It fails, with status 1, where memory or the output does.
#![tactic(auto)]

ghost use Rattle.std.specs.Prelude.{◌≡◌, ◌++◌, ◌∷◌, [], IfOk, List, Some, option_map};
ghost use Rattle.std.specs.Arc.{arc_value};
ghost use mathlib.Core.List.{IsPrefix};
ghost use Rattle.tambyulo.specs.Sessions.{Untouched};
ghost use Rattle.tambyulo.specs.Entry.{Entry};
ghost use Rattle.tambyulo.specs.Write.TheVariants.{Put};
ghost use Rattle.tambyulo.specs.Histories.{value_in};

use std::marker::Brand;
use std::process::ExitCode;
use std::rt::Runtime;
use std::sync::{Arc, Wait};
use std::thread::{Threads, join};
use tambyulo::history::{Naming, Opened, law_of_last_put};
use tambyulo::{Anything, PathKey, PutError, Session, TrieMap};

/// Balances by account.
type Ledger<J> = TrieMap<u64, u64, Anything, J>;

/// The calls of one thread on the ledger.
type Clerk<'m, J> = Session<'m, u64, u64, Anything, J>;

/// Puts a pair and looks its key up: what is found is what the history leaves the key. The put stands in it behind all
/// that had been seen, and perhaps other writes behind that. Where none of these is of the key, the value is found.
fn put_and_get<K: PathKey + Copy + Drop, V: Drop, J: Naming, R: Wait>(
    rt: &R,
    session: &mut Session<'_, K, V, Anything, J>,
    key: K,
    value: V,
) -> Result<Option<Arc<V>>, PutError>
    ensures { IfOk result (λ found. (h : List (Entry K V)) × (rest : List (Entry K V)) × IsPrefix session.old.log h × (session.new.log ≡ (h ++ record { by = session.old.signer.by; write = Put key value } ∷ []) ++ rest) × (option_map arc_value found ≡ value_in K.cmp K.path_of session.new.log key) × (Untouched K.cmp key rest → option_map arc_value found ≡ Some value)) }
{
    law_of_last_put::<K, V>();
    session.put(rt, key, value)?;
    let found = session.get(rt, &key)?;
    Ok(found)
}

/// The value of the key, which is put where the key has none: the one that the history leaves the key which is then seen.
fn found_or_put<K: PathKey + Drop, V: Drop, J: Naming, R: Wait>(
    rt: &R,
    session: &mut Session<'_, K, V, Anything, J>,
    key: K,
    value: V,
) -> Result<Arc<V>, PutError>
    ensures { IfOk result (λ found. value_in K.cmp K.path_of session.new.log key ≡ Some found.value) }
{
    session.get_or_else_update(rt, key, || value)
}

// Books 1,000 balances from an account on, and counts the accounts that were found afterwards.
fn book<'m, J: Naming, R: Wait>(
    rt: &R,
    mut clerk: Clerk<'m, J>,
    first: u64,
) -> Result<(u64, Clerk<'m, J>), PutError> {
    let mut found = 0u64;
    for step in 0..1_000u64 {
        if put_and_get(rt, &mut clerk, first.wrapping_add(step), step)?.is_some() {
            found = found.wrapping_add(1);
        }
    }
    Ok((found, clerk))
}

// Opens account 1 unless it is there, changes account 2, and closes account 3. Returns the balances before, 0 for none,
// and whether account 3 is there.
fn change<J: Naming, R: Wait>(
    rt: &R,
    clerk: &mut Clerk<'_, J>,
) -> Result<(u64, u64, u64, bool), PutError> {
    let first = *found_or_put(rt, clerk, 1, 0)?;
    let second = clerk.replace(rt, 2, 0)?.map_or(0, |balance| *balance);
    let third = clerk.remove(rt, &3)?.map_or(0, |balance| *balance);
    Ok((first, second, third, clerk.contains_key(rt, &3)))
}

// What the calls above returned, and how many accounts there are before all are closed and after.
type Figures = (u64, (u64, u64, u64, bool), u64, u64);

// Two threads book balances; one of them then changes some, and closes all accounts.
fn tour<J: Naming + Send + Sync, R: AllocGlobal + Threads + Wait + Sync>(
    rt: &R,
    opened: Opened<u64, u64>,
) -> Result<Figures, PutError>
    requires name { J.book ≡ Some opened.book }
    requires authors { opened.authors ≡ 2 }
{
    let (ledger, front, mut authors) = Ledger::<J>::with_history(rt, opened)?;
    let first = ledger.session(front, authors.next());
    let second = first.again(authors.next());
    let (first, second) = join(rt, || book(rt, first, 0), || book(rt, second, 500));
    let (one, mut first) = first?;
    let (two, second) = second?;
    first.learn(&second);
    let changed = change(rt, &mut first)?;
    let accounts = first.len(rt);
    first.clear(rt)?;
    Ok((one.wrapping_add(two), changed, accounts, first.len(rt)))
}

fn main(rt: HostRuntime) -> ExitCode {
    let shown = match tour::<Brand, _>(&rt, Opened::new(2)) {
        Ok((found, (first, second, third, there), accounts, left)) => rt.println(format_args!(
            "found: {found}\nbalances: {first} {second} {third}\nopen: {there}\naccounts: {accounts}, then {left}"
        )),
        Err(error) => rt.println(format_args!("ledger: {error}")),
    };
    if shown.is_ok() {
        ExitCode::SUCCESS
    } else {
        ExitCode::FAILURE
    }
}
