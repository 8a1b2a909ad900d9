//! What one thread reads a map by.
ghost use Rattle.std.specs.Prelude.{◌≡◌, IfSome, Some, option_map};
ghost use Rattle.std.specs.Sync.Mutex.{mutex_guard_value};
ghost use mathlib.Core.List.{IsPrefix};
ghost use Rattle.hash_path.specs.Digits.{digit};
ghost use Rattle.stripe.specs.Told.{Tells};
ghost use Rattle.write_history.specs.Rules.{HasHistory};
ghost use Rattle.write_history.specs.Signers.{Read};

use crate::base::Base;
use crate::counts::Counts;
use crate::readers::{Latest, Readers};
use crate::sight::Sight;
use crate::since::Since;
use hash_path::{Path, PathKey, Sought};
use std::marker::Model;
use std::sync::{Arc, MutexGuard, Wait};
use stripes::{Anything, Keeps, Stripe};
use trie_node::{Shared, Slots};
use write_history::{Front, Naming, Unnamed};

/// What one thread reads a map by, mostly without its locks.
///
/// <!-- quoted from crates/shared_bench/src/one_key.rt -->
/// ```rust
/// let mut reader = readers.reader();
/// let mut sum = 0i64;
/// for _ in 0..calls {
///     sum = sum.wrapping_add(reader.get_copied(rt, key).unwrap_or(0));
/// }
/// ```
///
/// It has a base: a view of the map, and marks of what was written since it was taken. A key that was not written since
/// has its value there, and is read with no lock and with no write to memory that other threads read. Any other key is
/// read under the lock of its stripe.
///
/// # Each read is one step
///
/// A read takes place at one moment between its call and its return, as each call of the map does: by the base, when it
/// looks at the mark of its key; else when it has the lock. So it sees each write that had ended before it began, by
/// whichever thread. Two reads are two steps, and the map may be written between them.
///
/// No clause can say so much. They say what those of the map's own calls say: a value that is found keeps the rule. And
/// where the map has a history, what is found is what that leaves the key, at a moment no older than the one that `W`
/// names. That it is what the map has now follows from what is said of [`Marks`](stripes::Marks), and tests show it.
///
/// # When it pays
///
/// It pays where several threads read the same keys over and over and these are seldom written: there the threads would
/// take a lock from one another. A reader begins with no base, and is then as fast as the map's own `read`. It makes
/// one after 64 misses, which are reads under a lock, and one miss for each 32 pairs. Then:
///
/// - if the base had 16 hits for each miss by then, the next one is made after as many misses again;
/// - else it is made after twice as many misses as the time before. So bases get rare where most reads miss, and come
///   back where the writes end.
///
/// So keep a reader for as long as its thread reads. No read waits for a base of another thread, and none is refused:
/// where there is no memory for a base, the reader has the one before, or none.
#[derive(Drop)]
pub struct Reader<
    'm,
    K: PathKey,
    V,
    P: Keeps<K, V> = Anything,
    J: Naming = Unnamed,
    W: Since<K, V> = Unnamed,
    S: Slots<K, V> = Shared,
> {
    readers: &'m Readers<'m, K, V, P, J, W, S>,
    base: Option<Arc<Base<K, V, P, J, W, S>>>,
    seen: u64,
    counts: Counts,
    sight: Sight<K, V, J, W>,
}

impl<'m, K: PathKey, V, P: Keeps<K, V>, J: Naming, W: Since<K, V>, S: Slots<K, V>> Model
    for Reader<'m, K, V, P, J, W, S> {
    ghost use Rattle.std.specs.Prelude.{List};
    ghost use Rattle.write_history.specs.declared.entry.Entry.{Entry};

    ghost Value = { List (Entry K V) };

    ghost view = { λ r. r.sight };
}

impl<
    'm,
    K: PathKey + Drop,
    V: Drop,
    P: Keeps<K, V>,
    J: Naming,
    W: Since<K, V>,
    S: Slots<K, V>,
> Reader<'m, K, V, P, J, W, S>
where
    S::Key: Drop,
    S::Value: Drop,
{
    /// A reader with no base yet.
    pub(crate) fn new(readers: &'m Readers<'m, K, V, P, J, W, S>) -> Reader<'m, K, V, P, J, W, S> {
        Reader {
            readers,
            base: None,
            seen: 0,
            counts: Counts::new(),
            sight: readers.sight(),
        }
    }

    /// The history by which the last read answered, if the map has one.
    ///
    /// Cost: O(1), no lock. Refused: never.
    pub fn front(&self) -> Option<Front<K, V, J>>
        ensures { HasHistory J.book → result ≡ Some self.now }
    {
        self.sight.front()
    }

    /// What `look` returns of the value of the key, or of none: a value is read where it is, and no handle on it is
    /// cloned.
    ///
    /// `look` runs once, with no lock held or while the stripe of the key is locked. So it must not call the map, since
    /// the thread could wait for itself. It may rest on the rule for the value that it is given.
    ///
    /// Cost: O(log n), no lock where the key was not written since the base, and else under that of its stripe; now and
    /// then a new base, under all locks. Refused: never.
    pub fn read<R: Wait, T, Q: Sought<K>, F: FnOnce(Option<&V>) -> T>(
        &mut self,
        rt: &R,
        key: Q,
        look: F,
    ) -> T
        requires callable { (found : _) → IfSome found (λ value. P.holds (Q.key_of key) value.now) → F.pre look found }
        ensures kept { (found : _) × IfSome found (λ value. P.holds (Q.key_of key) value.now) × F.post look found result }
        ensures since { HasHistory J.book → (found : _) × Read K.cmp K.path_of (Q.key_of key) (option_map (λ value. value.now) found) W.since self.new × F.post look found result }
    {
        let path = key.path_sought();
        if let Some(base) = &self.base {
            if base.is_clear(path) {
                self.counts.hit();
                self.sight.follow(base.sight());
                return look(base.value(key, path));
            }
        }
        self.seen_stripe(rt, path).read(key, path, look)
    }

    // The stripe of the keys with this path word, for a read that takes a lock. The history is seen as it is then.
    fn seen_stripe<R: Wait>(&mut self, rt: &R, path: Path) -> MutexGuard<'m, Stripe<K, V, P, J, S>>
        ensures tells { HasHistory J.book → Tells K.cmp K.path_of (mutex_guard_value result).digit (mutex_guard_value result).entries self.new }
        ensures since { HasHistory J.book → IsPrefix W.since self.new }
        ensures digit { (mutex_guard_value result).digit ≡ digit path.0 0 }
    {
        self.miss(rt);
        let mut stripe = self.readers.row().stripe_at(rt, path);
        self.sight.see(&mut stripe);
        stripe
    }

    // Counts a read that takes a lock. It has another base then where there is one, or where it is time for one.
    fn miss<R: Wait>(&mut self, rt: &R) {
        if self.is_behind() {
            if let Some(latest) = self.readers.latest() {
                if self.take(latest) {
                    self.counts.begin();
                    return;
                }
            }
        }
        self.counts.miss();
        if self.counts.are_due() {
            self.renew(rt);
        }
    }

    // Whether there may be a newer base, or this one has ended.
    fn is_behind(&self) -> bool {
        match &self.base {
            Some(base) if base.is_over() => true,
            _ => self.readers.made() != self.seen,
        }
    }

    // Tries a new base, where it is time for one by the pairs that the map has.
    fn renew<R: Wait>(&mut self, rt: &R) {
        let pairs = self.readers.row().approx_len(rt);
        if self.counts.are_due_for(pairs) {
            if let Some(latest) = self.readers.next(rt, pairs, self.seen) {
                self.take(latest);
            }
            self.counts.tried();
        }
    }

    // Has the latest base from now on, if there is one, and returns whether. The base before is dropped, with no lock
    // held.
    fn take(&mut self, latest: Latest<K, V, P, J, W, S>) -> bool {
        let (base, made) = latest;
        self.seen = made;
        self.base = base;
        self.base.is_some()
    }
}

impl<
    'm,
    K: PathKey + Drop,
    V: Copy + Drop,
    P: Keeps<K, V>,
    J: Naming,
    W: Since<K, V>,
    S: Slots<K, V>,
> Reader<'m, K, V, P, J, W, S>
where
    S::Key: Drop,
    S::Value: Drop,
{
    /// A copy of the value of the key, or none. No handle on it is cloned.
    ///
    /// Cost: O(log n), no lock or one, as `read`. Refused: never.
    pub fn get_copied<R: Wait, Q: Sought<K>>(&mut self, rt: &R, key: Q) -> Option<V>
        ensures kept { IfSome result (λ value. P.holds (Q.key_of key) value) }
        ensures since { HasHistory J.book → Read K.cmp K.path_of (Q.key_of key) result W.since self.new }
    {
        let path = key.path_sought();
        if let Some(base) = &self.base {
            if base.is_clear(path) {
                self.counts.hit();
                self.sight.follow(base.sight());
                return base.value(key, path).copied();
            }
        }
        let stripe = self.seen_stripe(rt, path);
        let found = match stripe.get(key, path) {
            Some(value) => Some(*S::lend_value(value)),
            None => None,
        };
        drop(stripe);
        found
    }
}
