//! Random steps, most of which have something to do.

use crate::machine::Machine;
use crate::worker_states::Job;
use core_steps::Move;
use handles::Limits;
use std::alloc::Global;
use test_cores::Plan;
use test_keys::{ChosenKey, PARTING_WORDS, Random};
use test_machine::{ALL, Do, Passing, Question};

/// How many keys have one word.
const KEYS: u32 = 3;

/// Values are below this.
const VALUES: u32 = 6;

/// The weights of commands, views, calls on handles, freezes, finishes, abandonments, any moves of workers, and moves
/// of workers that have something to do.
type Mix = [u32; 8];

/// Mixes of all; of workers above all; of freezes; of commands; and of clients.
const MIXES: [Mix; 5] = [
    [25, 5, 10, 10, 10, 3, 17, 20],
    [5, 1, 2, 3, 5, 1, 13, 70],
    [4, 2, 1, 86, 1, 1, 2, 3],
    [70, 5, 8, 3, 4, 1, 4, 5],
    [20, 5, 20, 15, 20, 5, 5, 10],
];

/// How the steps of one list are chosen.
#[derive(Drop)]
pub struct Chooser {
    random: Random,
    mix: Mix,
    words: u32,
}

/// How many pairs are put first.
pub const FIRST_PAIRS: u32 = 30;

/// How the steps of a list are chosen, by the number of the list, and the machine that it begins with.
pub fn chooser_of(alloc: Global, list: u32) -> (Chooser, Machine) {
    let mut random = Random(u64::from(list).wrapping_mul(0x9e37_79b9_7f4a_7c15));
    random.next(2);
    let mix = MIXES
        .get(random.next(5) as usize)
        .copied()
        .unwrap_or([1; 8]);
    let words = random.next(16).saturating_add(1);
    let workers = random.next(16).saturating_add(1);
    let grain = u64::from(random.next(4)).saturating_add(1);
    let limits = limits_of(&mut random);
    let chooser = Chooser { random, mix, words };
    (chooser, Machine::new(alloc, limits, workers, grain))
}

// The largest limits; or few pairs, or few entries.
fn limits_of(random: &mut Random) -> Limits {
    let pairs = match random.next(4) {
        0 => u64::from(random.next(20)).saturating_add(1),
        _ => 1 << 24,
    };
    let entries = match random.next(8) {
        0 => random.next(200).saturating_add(40),
        _ => 1 << 20,
    };
    Limits { pairs, entries }
}

// A small size as a number to choose below.
fn size_of(size: usize) -> u32 {
    u32::try_from(size).unwrap_or(0)
}

impl Chooser {
    /// A pair is put on handle 1.
    pub fn first_put(&mut self) -> Plan {
        let key = self.key();
        Plan::On(1, Do::Put(key, self.value()))
    }

    /// The next step of a machine.
    pub fn next(&mut self, machine: &Machine) -> Plan {
        match self.kind() {
            0 => Plan::On(self.handle(), self.command()),
            1 => Plan::View(self.handle()),
            2 => self.call(),
            3 => Plan::Freeze(self.frozen(), self.question()),
            4 => Plan::Finish(self.job(machine)),
            5 => Plan::Abandon(self.job(machine)),
            6 => Plan::Move(self.job(machine), self.any_move(machine.workers)),
            _ => self.lively(machine),
        }
    }

    // A number of a weight of the mix.
    fn kind(&mut self) -> u32 {
        let mut left = self.random.next(100);
        let mut kind = 0u32;
        for weight in self.mix {
            if left < weight {
                return kind;
            }
            left = left.saturating_sub(weight);
            kind = kind.saturating_add(1);
        }
        0
    }

    fn key(&mut self) -> ChosenKey {
        let word = self.random.next(self.words) as usize;
        ChosenKey {
            path: PARTING_WORDS.get(word).copied().unwrap_or(0),
            id: self.random.next(KEYS),
        }
    }

    fn value(&mut self) -> u64 {
        u64::from(self.random.next(VALUES))
    }

    // One of a few handles, the last number, or none.
    fn any_handle(&mut self) -> u32 {
        match self.random.next(40) {
            0 | 1 => 1023,
            2 => 1024,
            3 => u32::MAX,
            _ => self.random.next(6),
        }
    }

    // The same, and half of the time the handle that has pairs first.
    fn handle(&mut self) -> u32 {
        match self.random.next(2) {
            0 => 1,
            _ => self.any_handle(),
        }
    }

    // Mostly the handle that has pairs first.
    fn frozen(&mut self) -> u32 {
        match self.random.next(4) {
            0 => self.handle(),
            _ => 1,
        }
    }

    fn command(&mut self) -> Do {
        let (key, value, other) = (self.key(), self.value(), self.value());
        match self.random.next(32) {
            0..=3 => Do::Get(key),
            4..=13 => Do::Put(key, value),
            14..=16 => Do::PutIfAbsent(key, value),
            17..=19 => Do::Replace(key, value),
            20..=22 => Do::ReplaceIf(key, other, value),
            23..=26 => Do::Remove(key),
            27..=29 => Do::RemoveIf(key, value),
            30 => Do::Size,
            _ => match self.random.next(6) {
                0 => Do::Clear,
                _ => Do::Get(key),
            },
        }
    }

    fn call(&mut self) -> Plan {
        match self.random.next(6) {
            0 | 1 => Plan::Open(self.any_handle()),
            2..=4 => Plan::Snapshot(self.handle(), self.any_handle()),
            _ => Plan::Drop(self.any_handle()),
        }
    }

    // Values between two of a few bounds, or all.
    fn test(&mut self) -> Passing {
        match self.random.next(4) {
            0 => ALL,
            _ => Passing {
                least: self.value(),
                most: self.value(),
                odd: true,
            },
        }
    }

    fn question(&mut self) -> Question {
        let test = self.test();
        match self.random.next(8) {
            0 | 1 => Question::Count(test),
            2 => Question::Exists(test),
            3 => Question::ForAll(test),
            4 => Question::Find(test),
            5 => Question::Filter(test, self.any_handle()),
            6 => Question::Zeros(self.any_handle()),
            _ => Question::Total,
        }
    }

    // Mostly an open job, and else one that is closed or not yet open.
    fn job(&mut self, machine: &Machine) -> u64 {
        let number = self.random.next(size_of(machine.jobs.len())) as usize;
        match machine.jobs.get(number) {
            Some(job) if self.random.next(8) > 0 => job.number,
            _ => {
                let known = u32::try_from(machine.table.next).unwrap_or(0);
                u64::from(self.random.next(known.saturating_add(2)))
            }
        }
    }

    // A worker, or now and then a number that is none's.
    fn worker(&mut self, workers: u32) -> u32 {
        match self.random.next(20) {
            0 => workers,
            _ => self.random.next(workers),
        }
    }

    fn any_move(&mut self, workers: u32) -> Move {
        let worker = self.worker(workers);
        match self.random.next(4) {
            0 => Move::Take(worker),
            1 => Move::Steal(worker, self.worker(workers)),
            2 => Move::Split(worker),
            _ => Move::Work(worker),
        }
    }

    // A move of a worker of the newest open job, or of another, that has something to do.
    fn lively(&mut self, machine: &Machine) -> Plan {
        let open = size_of(machine.jobs.len());
        let number = match self.random.next(3) {
            0 => self.random.next(open),
            _ => open.saturating_sub(1),
        };
        match machine.jobs.get(number as usize) {
            Some(job) => self.lively_move(job),
            None => Plan::Freeze(1, self.question()),
        }
    }

    // A worker that holds a span cuts or works it. One that holds none takes one of its own, or steals one. Where
    // nothing is left, the job is finished.
    fn lively_move(&mut self, job: &Job) -> Plan {
        let worker = self.random.next(size_of(job.worker_states.len()));
        let owner = self.owner(job);
        let chosen = match (job.held(worker), owner) {
            (Some(_), _) => self.use_of_held(worker),
            (None, Some(owner)) if owner == worker => Move::Take(worker),
            (None, Some(owner)) => Move::Steal(worker, owner),
            (None, None) => match holder(job) {
                Some(holder) => self.use_of_held(holder),
                None => return Plan::Finish(job.number),
            },
        };
        Plan::Move(job.number, chosen)
    }

    // A worker that holds a span cuts it, or now and then works it.
    fn use_of_held(&mut self, worker: u32) -> Move {
        match self.random.next(4) {
            0 => Move::Work(worker),
            _ => Move::Split(worker),
        }
    }

    // A worker for whom something waits, where there is one.
    fn owner(&mut self, job: &Job) -> Option<u32> {
        let mut owner = None;
        let mut number = 0u32;
        for worker_state in &job.worker_states {
            if !worker_state.queue.is_empty() && (owner.is_none() || self.random.next(2) == 0) {
                owner = Some(number);
            }
            number = number.saturating_add(1);
        }
        owner
    }
}

// The first worker that holds something.
fn holder(job: &Job) -> Option<u32> {
    let mut number = 0u32;
    for worker_state in &job.worker_states {
        if worker_state.held.is_some() {
            return Some(number);
        }
        number = number.saturating_add(1);
    }
    None
}
