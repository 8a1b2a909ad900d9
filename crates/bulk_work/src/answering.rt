//! Questions that are asked and answered at once.
ghost use Rattle.std.specs.Prelude.{IfOk};
ghost use Rattle.bulk_work.specs.Summaries.{IsAnswered};

use crate::asks::{Answer, Asks};
use crate::walking::work;
use hash_path::PathKey;
use iter::parts_follow_intervals;
use splitter::whole;
use std::alloc::Global;
use trie_node::NoMemory;
use versions::{Version, View};

/// The answer of the query for the whole view, and the map that it makes where it has a target.
///
/// It is worked on the caller's thread: the map that the view was taken of may be written meanwhile.
///
/// Cost: O(n), or up to where the answer is settled, no lock. Refused: `NoMemory`, if memory runs out.
pub fn ask<K: PathKey + Drop, V: Drop, Q: Asks<K, V>>(
    alloc: Global,
    view: View<K, V>,
    query: &Q,
) -> Result<(Answer<K, V, Q::Item>, Option<Version<K, V>>), NoMemory>
    requires { Q.ready query.now }
    ensures { IfOk result (λ answer. IsAnswered (Q.answered query.now view) (Q.target_of query.now) answer.0 answer.1) }
{
    parts_follow_intervals::<K, V>();
    let piece = whole(alloc, view);
    let Ok(part) = work(alloc, &piece, query) else {
        drop(piece);
        return Err(NoMemory);
    };
    drop(piece);
    Ok(query.conclude(part))
}
