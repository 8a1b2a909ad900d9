//! A pair of a map as a line of JSON: an array of the key and the value.
use crate::fault::SaveFault;
use crate::service::Account;
use serde_json::{Error, from_slice, to_string};
use std::alloc::Global;
use tambyulo::{ByteText, PathKey};

/// A key of a map with values `V` that is saved.
pub trait SavedKey<V>: PathKey + Drop + Sized {
    /// The line of the pair, with no newline.
    fn line(&self, alloc: Global, value: &V) -> Result<String, SaveFault>;

    /// The pair of a line that has no newline.
    fn pair(alloc: Global, line: &[u8]) -> Result<(Self, V), Error>;
}

/// Lines as `["alice",{"owner":"Alice","visits":3}]`.
impl SavedKey<Account> for ByteText {
    fn line(&self, alloc: Global, account: &Account) -> Result<String, SaveFault> {
        let Some(name) = self.as_str() else {
            return Err(SaveFault::NoText);
        };
        Ok(to_string(alloc, &(name, account))?)
    }

    fn pair(alloc: Global, line: &[u8]) -> Result<(ByteText, Account), Error> {
        let (name, account): (String, Account) = from_slice(alloc, line)?;
        Ok((ByteText::new(name.into_bytes()), account))
    }
}

/// Lines as `[7,100]`.
impl SavedKey<u64> for u64 {
    fn line(&self, alloc: Global, value: &u64) -> Result<String, SaveFault> {
        Ok(to_string(alloc, &(*self, *value))?)
    }

    fn pair(alloc: Global, line: &[u8]) -> Result<(u64, u64), Error> {
        from_slice(alloc, line)
    }
}

/// Lines as `[-1,100]`.
impl SavedKey<u64> for i64 {
    fn line(&self, alloc: Global, value: &u64) -> Result<String, SaveFault> {
        Ok(to_string(alloc, &(*self, *value))?)
    }

    fn pair(alloc: Global, line: &[u8]) -> Result<(i64, u64), Error> {
        from_slice(alloc, line)
    }
}
