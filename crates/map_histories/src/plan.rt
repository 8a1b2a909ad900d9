//! What a thread calls next.

use crate::answer::{Answer, Contents};
use crate::call::{ALL_KEYS, Call, KeyCall, LAST_KEY, MapCall, ReaderCall};
use crate::draws::Draws;

/// What kind of calls a thread makes.
#[derive(Clone, Copy)]
pub enum Role {
    /// All kinds, on all keys.
    Mixed,
    /// Writes of one of the first two keys and then of one of the last two, again and again.
    InOrder,
    /// A pair is put at one of the first two keys and then removed at one of the last two, and back again.
    Moving,
    /// Mostly calls on the whole map.
    Whole,
    /// Mostly reads by the thread's reader.
    Reading,
}

/// A pair.
#[derive(Clone, Copy)]
struct Seen {
    key: u64,
    value: u64,
}

/// A thread's plan: which calls it makes.
#[derive(Drop)]
pub struct Plan {
    draws: Draws,
    role: Role,
    calls: u64,
    // A number that no other thread of the history has as its own.
    own: u64,
    // Between which keys the thread moves a pair.
    near: u64,
    far: u64,
    // The pair that the thread saw or wrote last.
    seen: Seen,
}

// How far the values of two threads lie from one another, and those of two calls of one thread.
const OF_A_THREAD: u64 = 1_000;

// The calls on one key, and those of them that write.
const KEY_CALLS: u64 = 14;

const WRITES: u64 = 5;

impl Plan {
    /// The plan of a thread of a history.
    pub fn new(seed: u64, history: u64, thread: u64) -> Plan {
        Plan {
            draws: Draws::new(seed, history, thread),
            role: role_of(history, thread),
            calls: 0,
            own: thread.wrapping_add(1).wrapping_mul(OF_A_THREAD),
            near: key_at(thread / 2 % 2),
            far: key_at((thread / 2 % 2).wrapping_add(2)),
            seen: Seen {
                key: LAST_KEY,
                value: 0,
            },
        }
    }

    /// The next call. A `restore` puts back what was kept.
    pub fn next(&mut self, kept: Contents) -> Call {
        self.calls = self.calls.wrapping_add(1);
        match self.role {
            Role::Mixed if self.draws.one_in(4) => self.on_map(kept),
            Role::Whole if !self.draws.one_in(5) => self.on_map(kept),
            Role::Reading if !self.draws.one_in(5) => self.by_reader(),
            Role::Mixed | Role::Whole | Role::Reading => self.on_key(),
            Role::InOrder => self.in_order(),
            Role::Moving => self.moving(),
        }
    }

    /// Takes in what the call returned.
    pub fn heard(&mut self, call: Call, answer: Answer) {
        let Call::Key(key, call) = call else {
            return;
        };
        let value = match (call, answer) {
            (KeyCall::Put(value), _) => value,
            (KeyCall::ReplaceIf(_, value), Answer::Done(true)) => value,
            (_, Answer::Value(Some(value))) => value,
            _ => return,
        };
        self.seen = Seen { key, value };
    }

    /// How long the thread pauses before its next call, in steps of the processor, and whether it lets others run.
    pub fn pause(&mut self) -> (u64, bool) {
        if self.draws.one_in(3) {
            (self.draws.below(200), false)
        } else {
            (0, self.draws.one_in(10))
        }
    }

    /// How often the thread's reader reads all keys in the pause before the next call: now and then so often that it
    /// makes a new base where they were written.
    pub fn reads_of_a_pause(&mut self) -> u64 {
        if self.draws.one_in(4) {
            self.draws.below(100)
        } else {
            0
        }
    }

    /// Whether a `restore` from now on puts back what the map has in the pause before the next call.
    pub fn keeps(&mut self) -> bool {
        self.draws.one_in(3)
    }

    // A call on the whole map.
    fn on_map(&mut self, kept: Contents) -> Call {
        match self.draws.below(12) {
            0 => Call::Map(MapCall::Clear),
            1 => Call::Map(MapCall::Restore(kept)),
            2..=3 => Call::Map(MapCall::Len),
            4..=6 => Call::Map(MapCall::Snapshot),
            _ => Call::Map(MapCall::View),
        }
    }

    // A call on any key.
    fn on_key(&mut self) -> Call {
        let key = key_at(self.draws.below(4));
        let number = self.draws.below(KEY_CALLS);
        self.call_of(number, key)
    }

    // A write of one of the first two keys, and of one of the last two the next time.
    fn in_order(&mut self) -> Call {
        let half = if self.calls % 2 == 1 { 0 } else { 2 };
        let key = key_at(self.draws.below(2).wrapping_add(half));
        let number = self.draws.below(WRITES);
        self.call_of(number, key)
    }

    // A step of moving a pair: it is put at the other key, and then removed at the one where it was.
    fn moving(&mut self) -> Call {
        let value = self.own.wrapping_add(self.calls);
        match self.calls % 4 {
            1 => Call::Key(self.near, KeyCall::Put(value)),
            2 => Call::Key(self.far, KeyCall::Remove),
            3 => Call::Key(self.far, KeyCall::Put(value)),
            _ => Call::Key(self.near, KeyCall::Remove),
        }
    }

    // The call on the key that has the number; those below `WRITES` mostly write.
    fn call_of(&mut self, number: u64, key: u64) -> Call {
        let value = self.own.wrapping_add(self.calls);
        let seen = self.seen;
        match number {
            0 | 1 => Call::Key(key, KeyCall::Put(value)),
            2 => Call::Key(key, KeyCall::Update(value)),
            3 => Call::Key(key, KeyCall::Remove),
            4 => Call::Key(key, KeyCall::PutIfAbsent(value)),
            5 => Call::Key(key, KeyCall::Replace(value)),
            6 => Call::Key(seen.key, KeyCall::ReplaceIf(seen.value, value)),
            7 => Call::Key(seen.key, KeyCall::RemoveIf(seen.value)),
            8 => Call::Key(key, KeyCall::GetOrElseUpdate(value)),
            9 => Call::Key(key, KeyCall::RemoveWhereOdd),
            10 => Call::Key(key, KeyCall::UpdateWith(value)),
            11 => Call::Key(key, KeyCall::TryGetOrElseUpdate(value)),
            _ => self.reads(key),
        }
    }

    // A read of the key.
    fn reads(&mut self, key: u64) -> Call {
        match self.draws.below(4) {
            0 => Call::Key(key, KeyCall::Get),
            1 => Call::Key(key, KeyCall::GetCopied),
            2 => Call::Key(key, KeyCall::Read),
            _ => self.by_reader(),
        }
    }

    // A read of any key by the thread's reader.
    fn by_reader(&mut self) -> Call {
        let key = key_at(self.draws.below(4));
        if self.draws.one_in(2) {
            Call::Reader(key, ReaderCall::GetCopied)
        } else {
            Call::Reader(key, ReaderCall::Read)
        }
    }
}

// The role of a thread: in one history of five all threads make all kinds of calls. In the others every second thread
// writes in order, or moves a pair. Those between look at the whole map, or read by their readers.
fn role_of(history: u64, thread: u64) -> Role {
    match (history % 5, thread % 2) {
        (0, _) => Role::Mixed,
        (4, 1) => Role::Reading,
        (_, 1) => Role::Whole,
        (1, _) => Role::Moving,
        _ => Role::InOrder,
    }
}

// The key at the place, or the last one.
fn key_at(place: u64) -> u64 {
    match ALL_KEYS.get(place as usize) {
        Some(key) => *key,
        None => LAST_KEY,
    }
}
