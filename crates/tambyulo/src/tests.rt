//! The tests of what is written here; what is handed on is tested where it stands.

use crate::{PairFn, Passes, test_by};

// Pairs of one value pass.
#[derive(Drop)]
struct Is(u64);

impl Passes<u64, u64> for Is {
    ghost use Rattle.std.specs.Prelude.{◌==◌};

    ghost meaning = { λ test key value. value == test.0 };

    fn passes(&self, _key: &u64, value: &u64) -> bool {
        *value == self.0
    }
}

#[test]
fn a_stored_test_answers_by_what_it_means(rt: HostRuntime) {
    let stored = test_by::<u64, u64, Is>(Is(7));
    let passes = |value: u64| stored.closure().answer(&1, &value);
    assert_eq!(rt; (passes(7), passes(8)), (true, false));
}
