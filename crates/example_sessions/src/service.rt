//! The maps of the service, and what one request does to them.
use crate::session_key::SessionKey;
use std::alloc::Global;
use std::sync::Wait;
use tambyulo::{ByteText, NoMemory, PutError, TrieMap};

/// How many requests of one user are allowed.
pub const BUDGET: u64 = 8;

/// The status of a request that is allowed, and of one above its user's budget, as in HTTP.
pub const OK: i64 = 200;

pub const TOO_MANY_REQUESTS: i64 = 429;

/// A session, which ends at a moment that is set when it begins.
#[derive(Drop)]
pub struct Session {
    pub ends_at: u64,
}

/// Everything that the threads share.
#[derive(Drop)]
pub struct Service {
    /// The sessions of all users.
    pub sessions: TrieMap<SessionKey, Session>,
    /// How many requests each user has made.
    pub requests: TrieMap<u64, u64>,
    /// The number of the session that a user's token was made for.
    pub tokens: TrieMap<ByteText, u64>,
    /// How many requests were answered with each status.
    pub statuses: TrieMap<i64, u64>,
}

impl Service {
    /// A service with no sessions.
    pub fn new<R: AllocGlobal>(rt: &R) -> Result<Service, NoMemory> {
        Ok(Service {
            sessions: TrieMap::new(rt)?,
            requests: TrieMap::new(rt)?,
            tokens: TrieMap::new(rt)?,
            statuses: TrieMap::new(rt)?,
        })
    }

    /// Counts a request of the user, and returns how many there were before.
    fn count_request<R: Wait>(&self, rt: &R, user: u64) -> Result<u64, PutError> {
        let before = self.requests.update(rt, user, one_more)?;
        Ok(before.map_or(0, |count| *count))
    }

    /// Counts a request that was answered with this status.
    fn count_status<R: Wait>(&self, rt: &R, status: i64) -> Result<(), PutError> {
        self.statuses.update(rt, status, one_more)?;
        Ok(())
    }

    /// Makes the user's token for the session with this number, where the user has none yet.
    fn make_token<R: Wait>(
        &self,
        rt: &R,
        alloc: Global,
        user: u64,
        number: u64,
    ) -> Result<(), PutError> {
        let text = format!(in alloc; "token of user {user}")?;
        let token = ByteText::from_text(alloc, text.as_str())?;
        self.tokens.put_if_absent(rt, token, number)?;
        Ok(())
    }

    /// Begins a session of the user where the user's budget allows it, and returns the status.
    ///
    /// Every second session of a user ends before moment 1,000, the others at moment 10,000.
    pub fn log_in<R: Wait>(&self, rt: &R, alloc: Global, user: u64) -> Result<i64, PutError> {
        let number = self.count_request(rt, user)?;
        if number >= BUDGET {
            self.count_status(rt, TOO_MANY_REQUESTS)?;
            return Ok(TOO_MANY_REQUESTS);
        }
        let ends_at = if number % 2 == 0 { 500 } else { 10_000 };
        self.sessions
            .put(rt, SessionKey { user, number }, Session { ends_at })?;
        self.make_token(rt, alloc, user, number)?;
        self.count_status(rt, OK)?;
        Ok(OK)
    }

    /// Removes the sessions that have ended by this moment, and returns how many it removed.
    pub fn sweep<R: AllocGlobal + Wait>(&self, rt: &R, moment: u64) -> Result<u64, NoMemory> {
        self.sessions
            .retain(rt, |_, session| session.ends_at > moment)
    }
}

/// A count with one more.
fn one_more(count: Option<&u64>) -> Option<u64> {
    Some(count.map_or(1, |count| count.saturating_add(1)))
}
