//! What the maps have once the workers and the janitor have finished.
use crate::service::{OK, Service, Session, TOO_MANY_REQUESTS};
use crate::session_key::SessionKey;
use std::sync::Wait;
use std::thread;
use std::thread::Threads;
use tambyulo::{Crew, NoMemory, View};

/// What is printed.
#[derive(Drop)]
pub struct Report {
    /// How many requests were allowed, and how many were not.
    pub allowed: u64,
    pub refused: u64,
    /// How many sessions there are, how many of them begin with number 1, and how many tokens there are.
    pub sessions: u64,
    pub users: u64,
    pub tokens: u64,
}

/// How many requests were answered with the status.
fn answered<R: Wait>(rt: &R, service: &Service, status: i64) -> Result<u64, NoMemory> {
    Ok(service.statuses.get(rt, &status)?.map_or(0, |count| *count))
}

/// How many sessions last for another 1,000 moments, as a crew of two threads counts them.
fn long_sessions<R: Threads + Wait + Sync>(
    rt: &R,
    sessions: &View<SessionKey, Session>,
) -> Result<u64, NoMemory> {
    sessions.par_count(rt, |_, session| session.ends_at > 2_000, Crew::of(2))
}

/// How many users have a session: each of them has one with number 1.
fn users_of(sessions: &View<SessionKey, Session>) -> u64 {
    let mut users = 0u64;
    for (key, _) in sessions.iter() {
        if key.number == 1 {
            users = users.saturating_add(1);
        }
    }
    users
}

/// Reads the maps: the sessions by two threads at once, off one view.
pub fn make_report<R: AllocGlobal + Threads + Wait + Sync>(
    rt: &R,
    service: &Service,
) -> Result<Report, NoMemory> {
    let view = service.sessions.view(rt)?;
    let sessions = &view;
    let (long, users) = thread::join(rt, || long_sessions(rt, sessions), || users_of(sessions));
    Ok(Report {
        allowed: answered(rt, service, OK)?,
        refused: answered(rt, service, TOO_MANY_REQUESTS)?,
        sessions: long?,
        users,
        tokens: service.tokens.len(rt),
    })
}
