//! When the pairs that a map releases are dropped.
use super::{assert_is, key};
use std::alloc::Global;
use std::process::Abort;
use std::sync::atomic::{AtomicU32, Ordering};
use std::sync::{Arc, Wait};
use std::thread;
use std::thread::Threads;
use test_keys::{ChosenKey, wait_for};
use trie_map::{PutError, TrieMap};

// How often a thread lets others run before it gives up.
const PATIENCE: u32 = 4_000_000;

// What two threads tell one another.
#[derive(Drop)]
struct Signs {
    // Whether a value is being dropped.
    dropping: AtomicU32,
    // Whether all stripes were locked since.
    locked: AtomicU32,
    // How many values were dropped while a stripe could be locked, and how many while none could.
    free: AtomicU32,
    held: AtomicU32,
}

// A value whose drop waits until another thread has locked all stripes.
struct Waiting {
    signs: Arc<Signs, Global>,
}

impl Drop for Waiting {
    fn drop(self) {
        let Waiting { signs } = self;
        signs.dropping.store(1, Ordering::SeqCst);
        let count = if wait_for(&signs.locked, PATIENCE) {
            &signs.free
        } else {
            &signs.held
        };
        count.fetch_add(1, Ordering::SeqCst);
    }
}

type Values = TrieMap<ChosenKey, Waiting>;

// Calls that let go of the value of a key.
#[derive(Clone, Copy, Debug)]
enum Ends {
    Clear,
    // An update that makes none, and whose answer is something else.
    UpdateWith,
    // A put of another value, whose answer is nothing.
    Extend,
    // Of a list, whose answer is dropped.
    PutMany,
    RemoveMany,
    Retain,
    ReplaceAll,
    // By a view of no pairs. What it returns has the old ones.
    Restore,
}

// A value that waits by these signs.
fn waiting(rt: &impl Abort, signs: &Arc<Signs, Global>) -> Waiting {
    let signs = Arc::try_clone(signs).expect(rt, "too many handles");
    Waiting { signs }
}

// Puts a pair by a list of one.
fn put_all<R: AllocGlobal + Wait>(
    rt: &R,
    map: &Values,
    pairs: [(ChosenKey, Waiting); 1],
) -> Result<(), PutError> {
    drop(map.put_many(rt, Vec::from_array(rt.alloc(), pairs)?)?);
    Ok(())
}

// Puts a pair, and has the map let go of it.
fn put_and_end<R: AllocGlobal + Wait + Abort>(
    rt: &R,
    map: &Values,
    signs: &Arc<Signs, Global>,
    call: Ends,
) -> Result<(), PutError> {
    map.put(rt, key(3, 0), waiting(rt, signs))?;
    match call {
        Ends::Clear => map.clear(rt)?,
        Ends::UpdateWith => map.update_with(rt, key(3, 0), |_| (None, ()))?,
        Ends::Extend => map.extend_from(rt, [(key(3, 0), waiting(rt, signs))])?,
        Ends::PutMany => put_all(rt, map, [(key(3, 0), waiting(rt, signs))])?,
        Ends::RemoveMany => drop(map.remove_many(rt, &[&key(3, 0)])?),
        Ends::Retain => drop(map.retain(rt, |_, _| false)?),
        Ends::ReplaceAll => drop(map.replace_all(rt, |_, _| waiting(rt, signs))?),
        Ends::Restore => {
            let none: Values = TrieMap::new(rt)?;
            drop(map.restore(rt, &none.view(rt)?)?);
        }
    }
    Ok(())
}

// Locks all stripes once a value is being dropped.
fn lock_all<R: Wait>(rt: &R, map: &Values, signs: &Signs) {
    if wait_for(&signs.dropping, PATIENCE) {
        map.len(rt);
        signs.locked.store(1, Ordering::SeqCst);
    }
}

// Signs none of which is set.
fn no_signs(alloc: Global) -> Result<Arc<Signs, Global>, PutError> {
    let signs = Signs {
        dropping: AtomicU32::new(0),
        locked: AtomicU32::new(0),
        free: AtomicU32::new(0),
        held: AtomicU32::new(0),
    };
    Ok(Arc::new(alloc, signs)?)
}

// How many values were dropped while no lock was held, and how many while one was, by the thread that makes the call.
fn dropped<R: AllocGlobal + Threads + Wait + Abort + Sync>(rt: &R, call: Ends) -> (u32, u32) {
    let map: Values = TrieMap::new(rt).expect(rt, "no map");
    let signs = no_signs(rt.alloc()).expect(rt, "no signs");
    let (ended, _) = thread::join(
        rt,
        || put_and_end(rt, &map, &signs, call),
        || lock_all(rt, &map, &signs),
    );
    assert_is(rt, ended, Ok(()));
    (
        signs.free.load(Ordering::SeqCst),
        signs.held.load(Ordering::SeqCst),
    )
}

#[test]
fn what_a_map_lets_go_of_is_dropped_when_no_lock_is_held(rt: HostRuntime) {
    for call in [
        Ends::Clear,
        Ends::UpdateWith,
        Ends::Extend,
        Ends::PutMany,
        Ends::RemoveMany,
        Ends::Retain,
        Ends::ReplaceAll,
        Ends::Restore,
    ] {
        assert_eq!(rt; dropped(&rt, call), (1, 0), "{call:?}");
    }
}
