//! Keys for a map whose texts others choose: texts with a path word that nobody can foresee who does not know the seed.
#![tactic(auto)]

mod inlined;
mod seed;
mod seeded;
mod sought;

pub use seed::Seed;
pub use seeded::SeededText;
