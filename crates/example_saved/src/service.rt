//! The maps of the service, what its threads write, and its views.
use serde::{Deserialize, Serialize};
use std::alloc::Global;
use std::sync::Wait;
use tambyulo::{ByteText, NoMemory, PutError, TrieMap, View};

/// What is known of an account.
#[derive(Debug, Drop, PartialEq, Serialize, Deserialize)]
pub struct Account {
    pub owner: String,
    pub visits: u64,
}

/// The maps that the threads share.
#[derive(Drop)]
pub struct Service {
    /// Accounts by name.
    pub accounts: TrieMap<ByteText, Account>,
    /// How many requests each user may make.
    pub limits: TrieMap<u64, u64>,
    /// How many requests were answered with each status.
    pub statuses: TrieMap<i64, u64>,
}

/// Views of the three maps.
#[derive(Drop)]
pub struct Snapshot {
    pub accounts: View<ByteText, Account>,
    pub limits: View<u64, u64>,
    pub statuses: View<i64, u64>,
}

impl Service {
    /// A service with no accounts.
    pub fn new<R: AllocGlobal>(rt: &R) -> Result<Service, NoMemory> {
        Ok(Service {
            accounts: TrieMap::new(rt)?,
            limits: TrieMap::new(rt)?,
            statuses: TrieMap::new(rt)?,
        })
    }

    /// A view of each map. Each is of one moment, and the three moments may differ.
    pub fn snapshot<R: Wait>(&self, rt: &R) -> Result<Snapshot, NoMemory> {
        Ok(Snapshot {
            accounts: self.accounts.view(rt)?,
            limits: self.limits.view(rt)?,
            statuses: self.statuses.view(rt)?,
        })
    }

    /// Opens the account of this user.
    fn open<R: Wait>(&self, rt: &R, alloc: Global, user: u64) -> Result<(), PutError> {
        let text = format!(in alloc; "user {user}")?;
        let name = ByteText::from_text(alloc, text.as_str())?;
        let owner = format!(in alloc; "Owner \"{user}\"")?;
        self.accounts.put(
            rt,
            name,
            Account {
                owner,
                visits: user,
            },
        )?;
        Ok(())
    }

    /// Answers the first request of this user with the status.
    fn answer<R: Wait>(&self, rt: &R, user: u64, status: i64) -> Result<(), PutError> {
        self.limits.put(rt, user, 100)?;
        self.statuses.update(rt, status, |count| {
            Some(count.map_or(1, |n| n.saturating_add(1)))
        })?;
        Ok(())
    }

    /// Opens the accounts of these users, and answers a request of each.
    pub fn serve<R: Wait>(
        &self,
        rt: &R,
        alloc: Global,
        from: u64,
        to: u64,
    ) -> Result<(), PutError> {
        for user in from..to {
            self.open(rt, alloc, user)?;
            self.answer(rt, user, if user % 4 == 0 { 404 } else { 200 })?;
        }
        Ok(())
    }
}
