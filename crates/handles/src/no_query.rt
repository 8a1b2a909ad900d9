//! The query of a table that is asked none.
ghost use Rattle.std.specs.Prelude.{⊤};

use bulk_work::{Answer, Asks};
use combiner::Bulk;
use hash_path::PathKey;
use std::alloc::Global;
use std::sync::Arc;
use versions::{NoMemory, Version};

/// The query of a table that is asked none: it looks at no pair, every map decides it, and its answer is 0.
///
/// <!-- quoted from crates/example_index/src/indexer.rt -->
/// ```rust
/// type Index<J> = SharedMap<ByteText, u64, NoQuery, J>;
/// ```
#[derive(Drop)]
pub struct NoQuery;

impl<K: PathKey, V> Bulk<K, V> for NoQuery {
    type Part = ();

    ghost answers = { λ q m part. ⊤ };

    ghost decides = { λ q m. ⊤ };

    ghost ready = { λ q. ⊤ };

    fn unit(&self, _alloc: Global) -> Result<(), NoMemory> {
        Ok(())
    }

    fn one(&self, _alloc: Global, _key: &Arc<K>, _value: &Arc<V>) -> Result<(), NoMemory> {
        Ok(())
    }

    fn join(&self, _alloc: Global, _a: &(), _b: &()) -> Result<(), NoMemory> {
        Ok(())
    }

    fn settled(&self, _part: &()) -> bool {
        true
    }
}

impl<K: PathKey, V> Asks<K, V> for NoQuery {
    type Item = ();

    ghost use Rattle.handles.specs.NoQueries.{answer_of_none, no_answer, no_target};

    ghost target_of = { λ q. no_target q };

    ghost answered = { λ q m a. no_answer q m a };

    ghost answer_of = { λ part. answer_of_none part };

    fn target(&self) -> Option<u32> {
        None
    }

    fn conclude(&self, _part: ()) -> (Answer<K, V, ()>, Option<Version<K, V>>) {
        (Answer::Count(0), None)
    }

    fn tell(&self, _part: &()) -> Result<Answer<K, V, ()>, NoMemory> {
        Ok(Answer::Count(0))
    }
}
