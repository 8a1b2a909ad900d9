//! What a table may be asked.
ghost use Rattle.std.specs.Prelude.{◌≡◌, ◌≤◌, IfOk, length};
ghost use Rattle.bulk_work.specs.Answers as plain;
ghost use Rattle.bulk_work.specs.Summaries.{MakesFor, summary_of};
ghost use Rattle.versions.specs.Map.{Map};

use crate::pairs::Pair;
use combiner::Bulk;
use hash_path::PathKey;
use versions::{NoMemory, Version, View};

/// The answer of a query.
///
/// <!-- quoted from crates/example_expiry/src/tour.rt -->
/// ```rust
/// let (answer, _) = ask(alloc, frozen.try_clone()?, &expired(NOW))?;
/// if let Answer::Count(count) = answer {
///     rt.println(format_args!("expired: {count}"))?;
/// ```
#[derive(Drop)]
pub enum Answer<K: PathKey, V, I> {
    /// How many pairs pass.
    Count(u64),
    /// Whether some pair passes, or every pair.
    Truth(bool),
    /// A pair that passes, if there is one.
    Found(Option<Pair<K, V>>),
    /// How many pairs the target was given: those that pass, or those of new values.
    Made(u64),
    /// The map that the target was given, of images. The query does not say which one of the images of a key it has.
    Images(View<K, V>),
    /// The items of all pairs combined.
    Item(I),
}

/// A bulk operation that a table may be asked, whose part has an answer and may make a map for a handle.
///
/// <!-- quoted from crates/example_expiry/src/tour.rt -->
/// ```rust
/// let (_, made) = ask(alloc, frozen.try_clone()?, &live(NOW, LIVE))?;
/// ```
///
/// Its closures run on the threads of a crew, several at once, and with no lock held. `conclude` and `tell` run at the
/// finish of a job, under the lock of the table.
pub trait Asks<K: PathKey, V>: Bulk<K, V> {
    ghost use Rattle.std.specs.Prelude.{ℕ, Option};

    type Item: Drop;

    /// The number of the handle that is to have the map that is made.
    ghost target_of: { Self → Option ℕ };

    /// The answers that it may have for a map.
    ghost answered: { Self → Map K V → plain.Answer K V Self.Item → Type 0 };

    /// A part's answer, wherever it lies.
    ghost answer_of: { Self.Part → plain.Answer K V Self.Item };

    /// The number of the handle that is to have the map that is made.
    fn target(&self) -> Option<u32>
        ensures { result ≡ target_of self.now };

    /// What is reported of the part's answer, and the map that it makes where there is a target. It takes no memory.
    fn conclude(&self, part: Self::Part) -> (Answer<K, V, Self::Item>, Option<Version<K, V>>)
        requires { ∥ ((m : Map K V) × Self.answers self.now m part) ∥₁ }
        ensures told { summary_of result.0 ≡ plain.summary (answer_of part) }
        ensures map { MakesFor (target_of self.now) (answer_of part) result.1 }
        ensures answered { (m : Map K V) → Self.answers self.now m part → answered self.now m (answer_of part) }
        ensures few { (m : Map K V) → Self.answers self.now m part → length (plain.map_of (answer_of part)) ≤ length m };

    /// What `conclude` would tell of the part, which is lent alone. It makes no request for memory: a pair that was
    /// found is shared with the part.
    fn tell(&self, part: &Self::Part) -> Result<Answer<K, V, Self::Item>, NoMemory>
        requires { ∥ ((m : Map K V) × Self.answers self.now m part.now) ∥₁ }
        ensures told { IfOk result (λ answer. summary_of answer ≡ plain.summary (answer_of part.now)) }
        ensures answered { (m : Map K V) → Self.answers self.now m part.now → answered self.now m (answer_of part.now) };
}
