//! Random numbers, which follow from a seed.

/// A generator of numbers: a linear congruential one with Knuth's factor.
#[derive(Drop)]
pub struct Draws {
    state: u64,
}

/// The factor and the summand of a step.
const FACTOR: u64 = 6_364_136_223_846_793_005;

const SUMMAND: u64 = 1_442_695_040_888_963_407;

impl Draws {
    /// The generator of one thread of one history.
    pub fn new(seed: u64, history: u64, thread: u64) -> Draws {
        let mut draws = Draws { state: seed };
        draws.step(history);
        draws.step(thread);
        draws.step(0);
        draws
    }

    /// A number below `limit`, or 0 where that is 0.
    pub fn below(&mut self, limit: u64) -> u64 {
        self.step(0);
        // the low bits have short periods
        (self.state >> 33) % limit.max(1)
    }

    /// Whether a draw of one in `limit` comes out.
    pub fn one_in(&mut self, limit: u64) -> bool {
        self.below(limit) == 0
    }

    // Goes on to the next state, which the number has a part in.
    fn step(&mut self, number: u64) {
        self.state = (self.state ^ number.wrapping_mul(SUMMAND))
            .wrapping_mul(FACTOR)
            .wrapping_add(SUMMAND);
    }
}
