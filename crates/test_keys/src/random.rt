//! Random numbers that are the same in each run.
ghost use Rattle.std.specs.Prelude.{◌≡◌, ◌<◌, ◌⊎◌};

/// A linear congruential generator, by its state.
#[derive(Drop)]
pub struct Random(pub u64);

impl Random {
    /// A number below a bound, or 0 where the bound is 0.
    pub fn next(&mut self, below: u32) -> u32
        ensures { (result < below) ⊎ (result ≡ 0) }
    {
        let state = self
            .0
            .wrapping_mul(6_364_136_223_846_793_005)
            .wrapping_add(1_442_695_040_888_963_407);
        self.0 = state;
        ((state >> 33) as u32).checked_rem(below).unwrap_or(0)
    }
}
