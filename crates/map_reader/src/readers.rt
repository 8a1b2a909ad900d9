//! What the readers of a map share.
ghost use Rattle.std.specs.Prelude.{◌≡◌, IfOk};
ghost use Rattle.map_reader.specs.Sights.{AllTold};
ghost use Rattle.stripe.specs.Rules.{AllKeep};
ghost use Rattle.write_history.specs.Rules.{HasHistory};

use crate::base::Base;
use crate::latest::LatestBase;
use crate::reader::Reader;
use crate::sight::Sight;
use crate::since::Since;
use hash_path::PathKey;
use std::alloc::Global;
use std::mem;
use std::sync::atomic::{AtomicU64, Ordering};
use std::sync::{Arc, Mutex, Wait};
use stripes::{Anything, Keeps, Marking, Marks, Stripes};
use trie_node::{NoMemory, Shared, Slots};
use united_roots::RootRow;
use versions::View;
use write_history::{Front, Naming, Unnamed};

/// The latest base, unless its marks have ended, and how many bases were made until then.
pub type Latest<K, V, P, J, W, S = Shared> = (Option<Arc<Base<K, V, P, J, W, S>>>, u64);

/// What the readers of one map share: the latest base.
///
/// <!-- quoted from crates/tests_trie_map/src/tests/hot_keys.rt -->
/// ```rust
/// let readers = map.readers();
/// let mut reader = readers.reader();
/// ```
///
/// It borrows the map, so its readers read no other. Threads share it by reference, and each makes a `Reader` of its
/// own by `reader`. One is enough for a map: of two, each ends the bases of the other.
///
/// # What it keeps
///
/// It makes a base when its readers need one: a view of the map, which keeps what was written over or removed since,
/// and marks of 2 to 32 bits for each pair, of 1,024 bytes at least. The view is dropped when the next base is made and
/// all readers have that one, or when a reader finds that the map was cleared, or with the `Readers` and its readers.
/// The marks stay with the map until the next base or `clear`: a first write of a key sets a bit there. A map of which
/// no reader was made has none.
#[derive(Drop)]
pub struct Readers<
    'm,
    K: PathKey,
    V,
    P: Keeps<K, V> = Anything,
    J: Naming = Unnamed,
    W: Since<K, V> = Unnamed,
    S: Slots<K, V> = Shared,
> {
    alloc: Global,
    row: &'m Stripes<K, V, P, J, S>,
    latest: LatestBase<K, V, P, J, W, S, S::Key, S::Value>,
    made: AtomicU64,
    sight: Sight<K, V, J, W>,
}

impl<'m, K: PathKey + Drop, V: Drop, P: Keeps<K, V>, S: Slots<K, V>> Readers<
    'm,
    K,
    V,
    P,
    Unnamed,
    Unnamed,
    S,
>
where
    S::Key: Drop,
    S::Value: Drop,
{
    /// Readers of the map with no history that has these stripes, with no base yet.
    ///
    /// Cost: O(1), no lock. Refused: never.
    pub fn new(
        alloc: Global,
        row: &'m Stripes<K, V, P, Unnamed, S>,
    ) -> Readers<'m, K, V, P, Unnamed, Unnamed, S> {
        Readers {
            alloc,
            row,
            latest: LatestBase::new(Mutex::new(None)),
            made: AtomicU64::new(0),
            sight: Sight::none(),
        }
    }
}

impl<
    'm,
    K: PathKey + Drop,
    V: Drop,
    P: Keeps<K, V>,
    J: Naming,
    W: Since<K, V>,
    S: Slots<K, V>,
> Readers<'m, K, V, P, J, W, S>
where
    S::Key: Drop,
    S::Value: Drop,
{
    /// Readers of the map with a history that has these stripes, with no base yet. They go on from what the front has
    /// seen, which `W` names.
    ///
    /// Cost: O(1), no lock. Refused: never.
    pub fn since(
        alloc: Global,
        row: &'m Stripes<K, V, P, J, S>,
        front: &Front<K, V, J>,
    ) -> Readers<'m, K, V, P, J, W, S>
        requires { W.since ≡ front.now }
    {
        Readers {
            alloc,
            row,
            latest: LatestBase::new(Mutex::new(None)),
            made: AtomicU64::new(0),
            sight: Sight::of(front),
        }
    }

    /// A reader for one thread.
    ///
    /// Cost: O(1), no lock. Refused: never.
    pub fn reader(&self) -> Reader<'_, K, V, P, J, W, S> {
        Reader::new(self)
    }

    /// The stripes of the map.
    pub(crate) fn row(&self) -> &'m Stripes<K, V, P, J, S> {
        self.row
    }

    /// What its readers begin with.
    pub(crate) fn sight(&self) -> Sight<K, V, J, W> {
        self.sight.again()
    }

    /// How many bases its readers have made until now: each is a view of the map.
    ///
    /// Cost: O(1), no lock. Refused: never.
    pub fn made(&self) -> u64 {
        self.made.load(Ordering::SeqCst)
    }

    /// The latest base, unless it has ended: then it is dropped. None is returned where another thread is at it, and
    /// nobody waits.
    pub(crate) fn latest(&self) -> Option<Latest<K, V, P, J, W, S>> {
        let mut latest = self.latest.as_lock().try_lock()?;
        let base = unless_over(&latest);
        let ended = if base.is_none() { latest.take() } else { None };
        let made = self.made();
        drop(latest);
        // So its nodes are dropped with no lock held.
        drop(ended);
        Some((base, made))
    }

    /// A new base for about `pairs` pairs, or the latest one where others than `seen` were made. None is returned where
    /// another thread is at it, and if memory runs out.
    pub(crate) fn next<R: Wait>(
        &self,
        rt: &R,
        pairs: u64,
        seen: u64,
    ) -> Option<Latest<K, V, P, J, W, S>> {
        let mut latest = self.latest.as_lock().try_lock()?;
        if self.made() != seen {
            let newest = (unless_over(&latest), self.made());
            drop(latest);
            return Some(newest);
        }
        let Ok(base) = self.new_base(rt, pairs) else {
            drop(latest);
            return None;
        };
        let Ok(shared) = Arc::try_clone(&base) else {
            drop((latest, base));
            return None;
        };
        let before = mem::replace(&mut *latest, Some(shared));
        let made = self.made.fetch_add(1, Ordering::SeqCst).wrapping_add(1);
        drop(latest);
        // So the nodes of the base before are dropped with no lock held.
        drop(before);
        Some((Some(base), made))
    }

    // A base of the map as it stands at one moment of the call, when all stripes are held. Where the map has a history,
    // that is a later moment than the one from which on writes are marked: a write between the two is in the base, and
    // marked all the same.
    fn new_base<R: Wait>(
        &self,
        rt: &R,
        pairs: u64,
    ) -> Result<Arc<Base<K, V, P, J, W, S>>, NoMemory> {
        let marks = Arc::new(self.alloc, Marks::new(self.alloc, pairs)?)?;
        let mut sight = self.sight();
        let Ok(plain) = self.marked_view(rt, &marks, &mut sight) else {
            drop((marks, sight));
            return Err(NoMemory);
        };
        Ok(Arc::new(self.alloc, Base::new(plain, marks, sight))?)
    }

    // A view of the map at that moment, whose sight it is. Each stripe has the marks from then on.
    fn marked_view<R: Wait>(
        &self,
        rt: &R,
        marks: &Arc<Marks>,
        sight: &mut Sight<K, V, J, W>,
    ) -> Result<View<K, V, S>, NoMemory>
        ensures told { HasHistory J.book → IfOk result (λ plain. AllTold K.cmp K.path_of plain sight.new) }
        ensures kept { IfOk result (λ plain. AllKeep K.cmp P.holds plain) }
    {
        let mut marking = Marking::new(self.alloc, marks)?;
        let Ok(room) = RootRow::new(self.alloc) else {
            drop(marking);
            return Err(NoMemory);
        };
        let Ok(held) = self.row.all_marked(rt, self.alloc, &mut marking) else {
            drop((marking, room));
            return Err(NoMemory);
        };
        let map = sight.whole(rt, self.alloc, self.row, held, room);
        drop(marking);
        let map = map?;
        let plain = map.view();
        drop(map);
        Ok(plain?)
    }
}

// A handle on the base, unless its marks have ended.
fn unless_over<
    K: PathKey + Drop,
    V: Drop,
    P: Keeps<K, V>,
    J: Naming,
    W: Since<K, V>,
    S: Slots<K, V>,
>(base: &Option<Arc<Base<K, V, P, J, W, S>>>) -> Option<Arc<Base<K, V, P, J, W, S>>>
where
    S::Key: Drop,
    S::Value: Drop,
{
    match base {
        Some(base) if !base.is_over() => Arc::try_clone(base).ok(),
        _ => None,
    }
}
