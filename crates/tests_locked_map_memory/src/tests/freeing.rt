//! When the values of a map that is dropped or cleared are dropped.
ghost use Rattle.std.specs.Prelude.{⊤};
ghost use Rattle.std.specs.Thread.{IsSync};

use super::assert_is;
use bulk_ops::{NoImages, PairFn, Query, Stored};
use combiner::Sum;
use handles::{Call, Command};
use locked_map::{Client, Crew, Free, JournalName, MOST_SEATS, Seat, SharedMap, with_clients};
use std::alloc::Global;
use std::marker::Model;
use std::process::Abort;
use std::sync::atomic::{AtomicU32, Ordering};
use std::sync::{Arc, Wait};
use std::thread::Threads;
use test_clients::{A, LARGEST, MOST_TURNS};
use test_keys::{ChosenKey, wait_for};
use test_machine::shared_key;

// What two clients tell one another. Each number counts up from 0.
#[derive(Drop)]
struct Signs {
    // Values that are being dropped.
    dropping: AtomicU32,
    // Calls that were answered since.
    answered: AtomicU32,
    // Values that were dropped while a call could be answered, and while none could.
    free: AtomicU32,
    held: AtomicU32,
}

// A value whose drop waits until another client's call is answered, where it has the signs. Its number is all that is
// seen of it.
struct Waiting {
    number: u32,
    signs: Option<Arc<Signs, Global>>,
}

impl Model for Waiting {
    ghost use Rattle.std.specs.Prelude.{ℕ};

    ghost Value = { ℕ };

    ghost view = { λ waiting. waiting.number };
}

impl PartialEq for Waiting {
    ghost use Rattle.std.proofs.Common.{rules};
    ghost use Rattle.std.specs.Cmp.Rules.{comparing};
    ghost use Rattle.std.specs.Prelude.{◌==◌};

    ghost eq = { ◌==◌ };

    ghost laws = { Prim.search (comparing, rules) };

    fn eq(&self, other: &Waiting) -> bool {
        self.number == other.number
    }
}

impl Eq for Waiting {
    ghost use Rattle.std.proofs.Common.{rules};
    ghost use Rattle.std.specs.Cmp.Rules.{comparing};

    ghost laws = { Prim.search (comparing, rules) };
}

impl Drop for Waiting {
    fn drop(self) {
        let Waiting { number: _, signs } = self;
        if let Some(signs) = signs {
            signs.dropping.store(1, Ordering::SeqCst);
            let count = if wait_for(&signs.answered, MOST_TURNS) {
                &signs.free
            } else {
                &signs.held
            };
            count.fetch_add(1, Ordering::SeqCst);
        }
    }
}

// Each pair's new value has the signs.
#[derive(Drop)]
struct Signed {
    signs: Arc<Signs, Global>,
}

impl PairFn<ChosenKey, Waiting, Waiting> for Signed {
    ghost use Rattle.std.specs.Prelude.{◌≡◌};

    ghost can = { λ f. Unit {0} };

    ghost gives = { λ f k v r. r ≡ 1 };

    fn answer(&self, _key: &ChosenKey, _value: &Waiting) -> Waiting {
        Waiting {
            number: 1,
            signs: Arc::try_clone(&self.signs).ok(),
        }
    }
}

// A test and an item that are asked of no pair.
#[derive(Drop)]
struct NoTest;

impl PairFn<ChosenKey, Waiting, bool> for NoTest {
    ghost use Rattle.std.specs.Prelude.{⊤};

    ghost can = { λ f. Unit {0} };

    ghost gives = { λ f k v r. ⊤ };

    fn answer(&self, _key: &ChosenKey, _value: &Waiting) -> bool {
        true
    }
}

#[derive(Drop)]
struct NoItem;

impl PairFn<ChosenKey, Waiting, i128> for NoItem {
    ghost use Rattle.std.specs.Prelude.{⊤};

    ghost can = { λ f. Unit {0} };

    ghost gives = { λ f k v r. ⊤ };

    fn answer(&self, _key: &ChosenKey, _value: &Waiting) -> i128 {
        0
    }
}

type Signing = Query<ChosenKey, Waiting, NoTest, Signed, Sum, NoItem, NoImages>;

// A map of such values by its calls alone, which return whether they were answered.
trait WaitingMap {
    // A seat of the map.
    type Seat;

    // Makes the call.
    fn is_called<R: Wait>(
        &self,
        rt: &R,
        seat: &mut Self::Seat,
        call: Call<ChosenKey, Waiting>,
    ) -> bool;

    // Has a crew answer the query about handle 1.
    fn is_asked<R: Threads + Wait + Sync>(
        &self,
        rt: &R,
        seat: &mut Self::Seat,
        query: Arc<Signing>,
    ) -> bool
        requires sync { IsSync R.row };
}

impl<J: JournalName> WaitingMap for SharedMap<ChosenKey, Waiting, Signing, J> {
    type Seat = Seat<ChosenKey, Waiting, Signing, J>;

    fn is_called<R: Wait>(
        &self,
        rt: &R,
        seat: &mut Seat<ChosenKey, Waiting, Signing, J>,
        call: Call<ChosenKey, Waiting>,
    ) -> bool {
        let answer = self.call(rt, seat, call);
        let is_answered = answer.is_ok();
        drop(answer);
        is_answered
    }

    fn is_asked<R: Threads + Wait + Sync>(
        &self,
        rt: &R,
        seat: &mut Seat<ChosenKey, Waiting, Signing, J>,
        query: Arc<Signing>,
    ) -> bool {
        let answer = self.bulk(rt, seat, 1, query, Crew::of(1), &Free);
        let is_answered = answer.is_ok();
        drop(answer);
        is_answered
    }
}

// The map of new values, for handle 2.
fn query_of(signs: Arc<Signs, Global>) -> Signing {
    Query::MapValues(Stored::new(Signed { signs }), 2)
}

// The two clients. They come to how often they were answered.
#[derive(Drop)]
enum Freer {
    // Has a crew make a map for handle 2, and clears it, where this says so, or drops it.
    Dropper(Arc<Signs, Global>, bool),
    // Opens handle 3 once a value is being dropped.
    Opener(Arc<Signs, Global>),
}

impl Client<ChosenKey, Waiting, Signing> for Freer {
    type Out = bool;

    ghost needs = { λ _. ⊤ };

    ghost gives = { λ _ _ _. ⊤ };

    fn run<J: JournalName, R: Threads + Wait + Sync>(
        self,
        rt: &R,
        alloc: Global,
        map: &SharedMap<ChosenKey, Waiting, Signing, J>,
        seat: &mut Seat<ChosenKey, Waiting, Signing, J>,
    ) -> bool {
        play(rt, alloc, map, seat, self)
    }
}

fn play<M: WaitingMap, R: Threads + Wait + Sync>(
    rt: &R,
    alloc: Global,
    map: &M,
    seat: &mut M::Seat,
    freer: Freer,
) -> bool {
    match freer {
        Freer::Dropper(signs, clears) => {
            put_one(rt, alloc, map, seat)
                && make_map(rt, alloc, map, seat, signs)
                && let_go(rt, map, seat, clears)
        }
        Freer::Opener(signs) => open(rt, map, seat, &signs),
    }
}

// Opens handle 1 and puts a pair.
fn put_one<M: WaitingMap, R: Wait>(rt: &R, alloc: Global, map: &M, seat: &mut M::Seat) -> bool {
    let value = Waiting {
        number: 0,
        signs: None,
    };
    let Ok(key) = shared_key(alloc, A) else {
        return false;
    };
    let Ok(value) = Arc::new(alloc, value) else {
        return false;
    };
    map.is_called(rt, seat, Call::Open(1))
        && map.is_called(rt, seat, Call::On(1, Command::Put(key, value)))
}

// Has a crew make a map of a new value for handle 2. The journal does not have that value.
fn make_map<M: WaitingMap, R: Threads + Wait + Sync>(
    rt: &R,
    alloc: Global,
    map: &M,
    seat: &mut M::Seat,
    signs: Arc<Signs, Global>,
) -> bool {
    let Ok(query) = Arc::new(alloc, query_of(signs)) else {
        return false;
    };
    map.is_asked(rt, seat, query)
}

fn let_go<M: WaitingMap, R: Wait>(rt: &R, map: &M, seat: &mut M::Seat, clears: bool) -> bool {
    let call = if clears {
        Call::On(2, Command::Clear)
    } else {
        Call::Drop(2)
    };
    map.is_called(rt, seat, call)
}

fn open<M: WaitingMap, R: Wait>(rt: &R, map: &M, seat: &mut M::Seat, signs: &Signs) -> bool {
    let is_opened = wait_for(&signs.dropping, MOST_TURNS) && map.is_called(rt, seat, Call::Open(3));
    signs.answered.store(1, Ordering::SeqCst);
    is_opened
}

// The two clients, with their signs.
fn two_clients(
    rt: &impl Abort,
    alloc: Global,
    signs: &Arc<Signs, Global>,
    clears: bool,
) -> Vec<Freer> {
    let mine = Arc::try_clone(signs).expect(rt, "no signs");
    let theirs = Arc::try_clone(signs).expect(rt, "no signs");
    let mut clients = Vec::new(alloc);
    clients
        .push(Freer::Dropper(mine, clears))
        .expect(rt, "no room");
    clients.push(Freer::Opener(theirs)).expect(rt, "no room");
    clients
}

fn no_signs(rt: &impl Abort, alloc: Global) -> Arc<Signs, Global> {
    let signs = Signs {
        dropping: AtomicU32::new(0),
        answered: AtomicU32::new(0),
        free: AtomicU32::new(0),
        held: AtomicU32::new(0),
    };
    Arc::new(alloc, signs).expect(rt, "no signs")
}

// How many values are dropped while a call can be answered, and while none can.
fn dropped<R: AllocGlobal + Abort + Threads + Wait + Sync>(rt: &R, clears: bool) -> (u32, u32) {
    let signs = no_signs(rt, rt.alloc());
    let clients = two_clients(rt, rt.alloc(), &signs, clears);
    assert!(rt; clients.len() <= MOST_SEATS as usize);
    let (answered, closed) = with_clients(rt, rt.alloc(), LARGEST, clients).expect(
        rt,
        "no journal",
    );
    drop(closed);
    for answered in answered {
        assert_is(rt, answered, true);
    }
    (
        signs.free.load(Ordering::SeqCst),
        signs.held.load(Ordering::SeqCst),
    )
}

// Were the value dropped under the lock, the call would wait for the drop to end, and the drop for the call's answer.
#[test]
fn a_map_is_freed_with_no_lock_held(rt: HostRuntime) {
    assert_is(&rt, dropped(&rt, false), (1, 0));
    assert_is(&rt, dropped(&rt, true), (1, 0));
}
