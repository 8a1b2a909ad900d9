//! What lies in a trie's rows: numbers, arrays of bytes, tuples and options; and how a key or a value is taken out.

use super::{half, quarter, twin};
use slots::{InPlace, KeySlots, KeysInPlace, Shared, ValueSlots};
use std::sync::Arc;
use std::test::Fail;

#[test]
fn numbers_lie_in_rows(rt: HostRuntime) -> Result<(), Fail> {
    assert_eq!(rt; quarter(&200u8)?, 200);
    assert_eq!(rt; quarter(&60_000u16)?, 60_000);
    assert_eq!(rt; quarter(&4_000_000_000u32)?, 4_000_000_000);
    assert_eq!(rt; quarter(&u64::MAX)?, u64::MAX);
    assert_eq!(rt; quarter(&u128::MAX)?, u128::MAX);
    assert_eq!(rt; quarter(&7usize)?, 7);
    assert_eq!(rt; quarter(&-100i8)?, -100);
    assert_eq!(rt; quarter(&-30_000i16)?, -30_000);
    assert_eq!(rt; quarter(&-2_000_000_000i32)?, -2_000_000_000);
    assert_eq!(rt; quarter(&i64::MIN)?, i64::MIN);
    assert_eq!(rt; quarter(&i128::MIN)?, i128::MIN);
    assert_eq!(rt; quarter(&-7isize)?, -7);
    assert_eq!(rt; quarter(&0.5f32)?, 0.5);
    assert_eq!(rt; quarter(&-0.25f64)?, -0.25);
    Ok(())
}

#[test]
fn other_plain_values_lie_in_rows(rt: HostRuntime) -> Result<(), Fail> {
    assert!(rt; quarter(&true)?);
    assert_eq!(rt; quarter(&'\u{e9}')?, '\u{e9}');
    assert_eq!(rt; quarter(&())?, ());
    Ok(())
}

#[test]
fn arrays_of_bytes_lie_in_rows(rt: HostRuntime) -> Result<(), Fail> {
    assert_eq!(rt; quarter(&[1u8; 4])?, [1; 4]);
    assert_eq!(rt; quarter(&[2u8; 8])?, [2; 8]);
    assert_eq!(rt; quarter(&[3u8; 12])?, [3; 12]);
    assert_eq!(rt; quarter(&[4u8; 16])?, [4; 16]);
    assert_eq!(rt; half(&[5u8; 20])?, [5; 20]);
    assert_eq!(rt; half(&[6u8; 32])?, [6; 32]);
    assert_eq!(rt; twin(&[7u8; 64])?, [7; 64]);
    Ok(())
}

#[test]
fn tuples_and_options_lie_in_rows(rt: HostRuntime) -> Result<(), Fail> {
    assert_eq!(rt; half(&(1u8, 2u64))?, (1, 2));
    assert_eq!(rt; twin(&([2u8; 32], [1u8; 32]))?, ([2; 32], [1; 32]));
    assert_eq!(rt; twin(&(1u8, 2u64, 'x'))?, (1, 2, 'x'));
    assert_eq!(rt; twin(&(1u8, 2u64, 'x', -4i128))?, (1, 2, 'x', -4));
    assert_eq!(rt; half(&Some(5u64))?, Some(5));
    assert_eq!(rt; half(&None::<u128>)?, None);
    assert_eq!(rt; twin(&(Some(5u64), None::<char>))?, (Some(5), None));
    Ok(())
}

/// What is said to take so much room does.
#[test]
fn sizes_are_kept(rt: HostRuntime) {
    assert_eq!(rt; size_of::<(u128, u128, u128, u128)>(), 64usize);
    assert_eq!(rt; size_of::<([u8; 32], [u8; 32])>(), 64usize);
    assert!(rt; size_of::<Option<[u8; 32]>>() <= 48);
}

/// The key itself, by the bound alone.
fn own_key<K, S: KeySlots<K>>(key: S::Key) -> Result<K, S::Key> {
    S::into_key(key)
}

/// The value itself, by the bound alone.
fn own_value<V, S: ValueSlots<V>>(value: S::Value) -> Result<V, S::Value> {
    S::into_value(value)
}

/// The sole handle gives what is behind it, and any other comes back. In a row lies the key itself.
#[test]
fn keys_and_values_are_taken_out(rt: HostRuntime) -> Result<(), Fail> {
    let alloc = rt.alloc();
    let key = Shared::new_key(alloc, 5u64)?;
    let other = Shared::another_key(&key)?;
    let key = own_key::<u64, Shared>(key).err();
    assert!(rt; key.is_some());
    drop(key);
    assert_eq!(rt; own_key::<u64, Shared>(other).ok(), Some(5));
    let value = Arc::new(alloc, 6u64)?;
    assert_eq!(rt; own_value::<u64, Shared>(value).ok(), Some(6));
    assert_eq!(rt; own_key::<u64, InPlace>(7).ok(), Some(7));
    assert_eq!(rt; own_value::<u64, InPlace>(8).ok(), Some(8));
    assert_eq!(rt; own_key::<u64, KeysInPlace>(9).ok(), Some(9));
    let value = KeysInPlace::new_value(alloc, 10u64)?;
    assert_eq!(rt; own_value::<u64, KeysInPlace>(value).ok(), Some(10));
    Ok(())
}
