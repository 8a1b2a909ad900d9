//! When what a session releases is dropped, and when what makes a value runs.
use super::{assert_is, key};
use std::alloc::Global;
use std::marker::Brand;
use std::process::Abort;
use std::sync::atomic::{AtomicU32, Ordering};
use std::sync::{Arc, Wait};
use std::thread;
use std::thread::Threads;
use tambyulo::history::{Naming, Opened};
use test_keys::{ChosenKey, wait_for};
use trie_map::{Anything, PutError, Session, TrieMap};

// How often a thread lets others run before it gives up.
const PATIENCE: u32 = 400_000;

// What two threads tell one another.
#[derive(Drop)]
struct Signs {
    // Whether one waits, and whether all stripes were locked since.
    waits: AtomicU32,
    locked: AtomicU32,
    // How often it waited while a stripe could be locked, and how often while none could.
    free: AtomicU32,
    held: AtomicU32,
}

impl Signs {
    // Waits until another thread has locked all stripes.
    fn wait(&self) {
        self.waits.store(1, Ordering::SeqCst);
        let count = if wait_for(&self.locked, PATIENCE) {
            &self.free
        } else {
            &self.held
        };
        count.fetch_add(1, Ordering::SeqCst);
    }
}

// A value whose drop waits.
struct Waiting {
    signs: Arc<Signs, Global>,
}

impl Drop for Waiting {
    fn drop(self) {
        let Waiting { signs } = self;
        signs.wait();
    }
}

// A map with a history, of such values.
type Told<J> = TrieMap<ChosenKey, Waiting, Anything, J>;

// The calls of one thread on it.
type Calls<'m, J> = Session<'m, ChosenKey, Waiting, Anything, J>;

// Calls that release the value of a key, and two that make one for another key.
#[derive(Clone, Copy, Debug)]
enum Does {
    Clear,
    // An update that makes none, and whose answer is something else.
    UpdateWith,
    Extend,
    ExtendFrom,
    Make,
    TryMake,
}

// A value that waits by these signs.
fn waiting(rt: &impl Abort, signs: &Arc<Signs, Global>) -> Waiting {
    let signs = Arc::try_clone(signs).expect(rt, "too many handles");
    Waiting { signs }
}

// A value that was waited for before it was made.
fn made(rt: &impl Abort, signs: &Arc<Signs, Global>) -> Waiting {
    signs.wait();
    waiting(rt, signs)
}

// Puts a pair, and does this then.
fn put_and_do<R: AllocGlobal + Wait + Abort, J: Naming>(
    rt: &R,
    mut calls: Calls<'_, J>,
    signs: &Arc<Signs, Global>,
    what: Does,
) -> Result<(), PutError> {
    let (here, other) = (key(3, 0), key(3, 1));
    calls.put(rt, here, waiting(rt, signs))?;
    match what {
        Does::Clear => calls.clear(rt)?,
        Does::UpdateWith => calls.update_with(rt, here, |_| (None, ()))?,
        Does::Extend => {
            let pairs = vec![in rt.alloc(); (here, waiting(rt, signs))]?;
            calls.extend(rt, pairs)?;
        }
        Does::ExtendFrom => calls.extend_from(rt, [(here, waiting(rt, signs))])?,
        Does::Make => drop(calls.get_or_else_update(rt, other, || made(rt, signs))?),
        Does::TryMake => {
            let make = || Ok::<Waiting, ()>(made(rt, signs));
            drop(calls.try_get_or_else_update(rt, other, make)?);
        }
    }
    Ok(())
}

// Locks all stripes once something waits.
fn lock_all<R: Wait, J: Naming>(rt: &R, map: &Told<J>, signs: &Signs) {
    if wait_for(&signs.waits, PATIENCE) {
        map.len(rt);
        signs.locked.store(1, Ordering::SeqCst);
    }
}

// Signs none of which is set.
fn no_signs(alloc: Global) -> Result<Arc<Signs, Global>, PutError> {
    let signs = Signs {
        waits: AtomicU32::new(0),
        locked: AtomicU32::new(0),
        free: AtomicU32::new(0),
        held: AtomicU32::new(0),
    };
    Ok(Arc::new(alloc, signs)?)
}

// How often the thread that makes the call waited while no lock was held, and how often while one was.
fn waited<J: Naming + Send + Sync, R: AllocGlobal + Threads + Wait + Abort + Sync>(
    rt: &R,
    opened: Opened<ChosenKey, Waiting>,
    what: Does,
) -> Result<(u32, u32), PutError> {
    let (map, front, mut authors) = Told::<J>::with_history(rt, opened)?;
    let calls = map.session(front, authors.next());
    let signs = no_signs(rt.alloc())?;
    let (ended, _) = thread::join(
        rt,
        || put_and_do(rt, calls, &signs, what),
        || lock_all(rt, &map, &signs),
    );
    ended?;
    Ok((
        signs.free.load(Ordering::SeqCst),
        signs.held.load(Ordering::SeqCst),
    ))
}

#[test]
fn a_session_drops_and_makes_values_when_no_lock_is_held(rt: HostRuntime) {
    for what in [
        Does::Clear,
        Does::UpdateWith,
        Does::Extend,
        Does::ExtendFrom,
        Does::Make,
        Does::TryMake,
    ] {
        let seen = waited::<Brand, _>(&rt, Opened::new(1), what);
        assert_eq!(rt; seen, Ok((1, 0)), "{what:?}");
    }
}
