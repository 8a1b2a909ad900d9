//! When a work stops: once its part is settled, and else at the end of its piece.

use super::{assert_is, first, many};
use bulk_work::work;
use combiner::Bulk;
use splitter::whole;
use std::alloc::Global;
use std::panic::Expect;
use std::process::Abort;
use std::sync::Arc;
use test_keys::ChosenKey;
use trie_node::NoMemory;
use versions::View;

// Its part is the number of pairs that it was given. It is settled at once, or never.
#[derive(Drop)]
pub(super) struct Given {
    pub(super) settled: bool,
}

impl Bulk<ChosenKey, i64> for Given {
    type Part = u64;

    ghost use Rattle.std.specs.Prelude.{◌≡◌, ⊤, true};

    ghost answers = { λ q m part. ⊤ };

    ghost decides = { λ q m. q.settled ≡ true };

    ghost ready = { λ q. ⊤ };

    fn unit(&self, _alloc: Global) -> Result<u64, NoMemory> {
        Ok(0)
    }

    fn one(
        &self,
        _alloc: Global,
        _key: &Arc<ChosenKey>,
        _value: &Arc<i64>,
    ) -> Result<u64, NoMemory> {
        Ok(1)
    }

    fn join(&self, _alloc: Global, a: &u64, b: &u64) -> Result<u64, NoMemory> {
        Ok(a.wrapping_add(*b))
    }

    fn settled(&self, _part: &u64) -> bool {
        self.settled
    }
}

// How many pairs of the view such a work is given.
fn pairs_given(rt: &impl Abort, alloc: Global, view: View<ChosenKey, i64>, settled: bool) -> u64 {
    let piece = whole(alloc, view);
    work(alloc, &piece, &Given { settled }).expect(rt, "no part")
}

#[test]
fn a_settled_work_looks_at_no_other_pair(rt: HostRuntime) {
    let alloc = rt.alloc();
    for (settled, want) in [(true, 1), (false, 3)] {
        let seen = pairs_given(&rt, alloc, first(&rt, alloc, 3), settled);
        assert_is(&rt, seen, want);
    }
    // however many pairs were taken from the trie at a time
    for (settled, want) in [(true, 1), (false, 1_200)] {
        let seen = pairs_given(&rt, alloc, many(&rt, alloc, 1_200), settled);
        assert_is(&rt, seen, want);
    }
}
