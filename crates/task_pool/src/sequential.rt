//! The work of the caller.
ghost use Rattle.std.specs.Prelude.{◌≡◌, ◌+◌, ◌++◌, ◌∷◌, [], ℕ, All, IfOk};
ghost use Rattle.iter.specs.Intervals.{AreApart, cover};
ghost use Rattle.partial_results.specs.Worked.{once};

use crate::gate::Gate;
use crate::shared::Shared;
use combiner::BulkIn;
use hash_path::PathKey;
use partial_results::{OfBulk, OfView, Partial, Task};
use splitter::law_of_cuts;
use trie_node::{NoMemory, Slots};

/// Cuts a piece down to the grain and works all of it.
pub fn work_alone<'a, C, K, V, S, B, G>(
    shared: &Shared<'_, G>,
    partial: Partial<'a, C, K, V, S, B>,
    number: u32,
    task: Task<C, K, V, S>,
) -> Result<Partial<'a, C, K, V, S, B>, NoMemory>
where
    C: OfView<K, V> + OfBulk<B>,
    K: PathKey,
    S: Slots<K, V>,
    S::Key: Drop,
    S::Value: Drop,
    B: BulkIn<K, V, S>,
    G: Gate,
    requires grain { shared.now.grain ≡ C.grain }
    requires apart { AreApart (partial ++ task ∷ []) }
    ensures did { IfOk result (λ all. (p : ℕ) → cover all p ≡ cover partial.entry p + once task p) }
    ensures asked { IfOk result (λ all. All (G.asked shared.now.gate.now number) partial.entry → All (G.asked shared.now.gate.now number) all) }
{
    law_of_cuts::<K, V>();
    match task.halves(shared.grain) {
        Err(task) => {
            drop(task);
            drop(partial);
            Err(NoMemory)
        }
        Ok((lower, rest)) => match rest {
            None => {
                shared.gate.before(number, lower.lo(), lower.hi());
                partial.work(shared.alloc, lower)
            }
            Some(upper) => match work_alone(shared, partial, number, lower) {
                Ok(partial) => work_alone(shared, partial, number, upper),
                Err(NoMemory) => {
                    drop(upper);
                    Err(NoMemory)
                }
            },
        },
    }
}

/// Works the pieces that the workers left over.
pub fn work_leftovers<'a, C, K, V, S, B, G>(
    shared: &Shared<'_, G>,
    partial: Partial<'a, C, K, V, S, B>,
    number: u32,
    leftover: Vec<Task<C, K, V, S>>,
) -> Result<Partial<'a, C, K, V, S, B>, NoMemory>
where
    C: OfView<K, V> + OfBulk<B>,
    K: PathKey,
    S: Slots<K, V>,
    S::Key: Drop,
    S::Value: Drop,
    B: BulkIn<K, V, S>,
    G: Gate,
    requires grain { shared.now.grain ≡ C.grain }
    requires apart { AreApart (partial ++ leftover.items) }
    ensures did { IfOk result (λ all. (p : ℕ) → cover all p ≡ cover partial.entry p + cover leftover.items p) }
    ensures asked { IfOk result (λ all. All (G.asked shared.now.gate.now number) partial.entry → All (G.asked shared.now.gate.now number) all) }
{
    let mut all = partial;
    for task in leftover {
        all = work_alone(shared, all, number, task)?;
    }
    Ok(all)
}
