//! Gates: what is asked before lines.
use batch_cli::LineGate;
use std::alloc::{AllocError, Global};
use std::sync::atomic::{AtomicBool, AtomicU32, AtomicUsize, Ordering};
use std::thread;

// How many turns a line waits for another at most.
const MOST_TURNS: u32 = 10_000_000;

// Something that comes once. Whoever waits for it has an end of turns.
#[derive(Drop)]
struct Sign {
    given: AtomicBool,
    missed: AtomicBool,
}

impl Sign {
    fn new() -> Sign {
        Sign {
            given: AtomicBool::new(false),
            missed: AtomicBool::new(false),
        }
    }

    fn give(&self) {
        self.given.store(true, Ordering::SeqCst);
    }

    // Waits until it is given. Where the turns run out, it is missed, and nobody waits for it any more.
    fn wait(&self) {
        for _ in 0..MOST_TURNS {
            if self.given.load(Ordering::SeqCst) || self.is_missed() {
                return;
            }
            thread::yield_now();
        }
        self.missed.store(true, Ordering::SeqCst);
    }

    fn is_missed(&self) -> bool {
        self.missed.load(Ordering::SeqCst)
    }
}

/// Holds the first line of each of the clients 0 and 1 until the other one's has begun.
#[derive(Drop)]
pub struct Meeting {
    first: Sign,
    second: Sign,
}

impl Meeting {
    /// Neither has begun.
    pub fn new() -> Meeting {
        Meeting {
            first: Sign::new(),
            second: Sign::new(),
        }
    }

    /// Whether the turns of a line ran out.
    pub fn is_missed(&self) -> bool {
        self.first.is_missed() || self.second.is_missed()
    }
}

impl LineGate for Meeting {
    fn before(&self, client: u32, _line: u32) {
        if client == 0 {
            self.first.give();
            self.second.wait();
        } else {
            self.second.give();
            self.first.wait();
        }
    }
}

/// Holds the lines of client 0 until another client's line of this number has begun.
#[derive(Drop)]
pub struct Holding {
    until: u32,
    begun: Sign,
}

impl Holding {
    /// The line has not begun.
    pub fn new(until: u32) -> Holding {
        Holding {
            until,
            begun: Sign::new(),
        }
    }

    /// Whether the turns of a line ran out.
    pub fn is_missed(&self) -> bool {
        self.begun.is_missed()
    }
}

impl LineGate for Holding {
    fn before(&self, client: u32, line: u32) {
        if line == self.until {
            self.begun.give();
        }
        if client == 0 {
            self.begun.wait();
        }
    }
}

/// Holds line 1 until line 4 has begun, and line 2 until line 1 has.
#[derive(Drop)]
pub struct Ahead {
    first: Sign,
    fourth: Sign,
}

impl Ahead {
    /// No line has begun.
    pub fn new() -> Ahead {
        Ahead {
            first: Sign::new(),
            fourth: Sign::new(),
        }
    }

    /// Whether the turns of a line ran out.
    pub fn is_missed(&self) -> bool {
        self.first.is_missed() || self.fourth.is_missed()
    }
}

impl LineGate for Ahead {
    fn before(&self, _client: u32, line: u32) {
        match line {
            1 => {
                self.first.give();
                self.fourth.wait();
            }
            2 => self.first.wait(),
            4 => self.fourth.give(),
            _ => {}
        }
    }
}

// What the gate was asked.
#[derive(Drop)]
struct Asking {
    client: AtomicU32,
    line: AtomicU32,
}

/// Keeps what it is asked, in order.
#[derive(Drop)]
pub struct Recorder {
    count: AtomicUsize,
    room: Vec<Asking>,
}

impl Recorder {
    /// It was asked nothing yet, and may be asked `most` times.
    pub fn new(alloc: Global, most: u32) -> Result<Recorder, AllocError> {
        let mut room = Vec::new(alloc);
        for _ in 0..most {
            room.push(Asking {
                client: AtomicU32::new(0),
                line: AtomicU32::new(0),
            })?;
        }
        Ok(Recorder {
            count: AtomicUsize::new(0),
            room,
        })
    }

    /// How often it was asked.
    pub fn count(&self) -> usize {
        self.count.load(Ordering::SeqCst)
    }

    /// The lines of which the client asked, in order.
    pub fn lines_of(&self, alloc: Global, client: u32) -> Result<Vec<u32>, AllocError> {
        let mut lines = Vec::new(alloc);
        for asking in self.room.iter().take(self.count()) {
            if asking.client.load(Ordering::SeqCst) == client {
                lines.push(asking.line.load(Ordering::SeqCst))?;
            }
        }
        Ok(lines)
    }
}

impl LineGate for Recorder {
    fn before(&self, client: u32, line: u32) {
        let place = self.count.fetch_add(1, Ordering::SeqCst);
        if let Some(asking) = self.room.get(place) {
            asking.client.store(client, Ordering::SeqCst);
            asking.line.store(line, Ordering::SeqCst);
        }
    }
}
