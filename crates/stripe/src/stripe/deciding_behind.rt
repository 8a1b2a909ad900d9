//! Writes of a stripe that a closure decides on, behind what a thread has seen of the history.
ghost use Rattle.std.specs.Prelude.{◌≡◌, ◌&&◌, ◌||◌, Err, IfErr, IfOk, IfSome, Ok, OnErr, Option, Result, Some, is_some, option_map};
ghost use Rattle.stripe.specs.Rules.{first_digit as digit_of};
ghost use Rattle.stripe.specs.Told.{Finds};
ghost use Rattle.stripe.specs.Updates.{MayMake, MayPass, made_of, write_of};
ghost use Rattle.versions.specs.Commands.{is_full_for};
ghost use Rattle.versions.specs.Map.{value_at};
ghost use Rattle.versions.specs.Puts.{FullExactly};
ghost use Rattle.write_history.specs.declared.entry.Write.TheVariants.{Remove};
ghost use Rattle.write_history.specs.Signers.{Read, WroteIf, signed_if};

use super::{MOST_PAIRS_OF_STRIPE, Stripe};
use crate::keeps::Keeps;
use hash_path::{Path, PathKey, Sought};
use std::alloc::Global;
use trie_node::{NoMemory, Slots};
use versions::Refusal;
use write_history::{Author, Front, Naming};

impl<K: PathKey + Drop, V: Drop, P: Keeps<K, V>, J: Naming, S: Slots<K, V>> Stripe<K, V, P, J, S>
where
    S::Key: Drop,
    S::Value: Drop,
{
    /// What `update` does, as a write behind what the front had seen. It sees then the history up to that.
    ///
    /// It is refused as `update` is. The front has then seen what it had.
    pub fn update_behind<F: FnOnce(Option<&V>) -> Option<V>>(
        &mut self,
        alloc: Global,
        key: K,
        path: Path,
        change: F,
        front: &mut Front<K, V, J>,
        author: &mut Author<J>,
    ) -> Result<Option<S::Value>, Refusal>
        requires path { path.0 ≡ K.path_of key }
        requires place { digit_of K.path_of key ≡ self.old.digit }
        requires callable { (old : _) → IfSome old (λ value. P.holds key value.now) → F.pre change old }
        requires rule { (old : _) (made : _) → IfSome old (λ value. P.holds key value.now) → F.post change old made → IfSome made (P.holds key) }
        ensures made { IfOk result (λ before. (made : Option V) × MayMake F.FnOnce change (option_map S.value_of before) made × WroteIf K.cmp K.path_of (is_some made || is_some before) (write_of key made) key (option_map S.value_of before) author.old front.old front.new × (author.new ≡ signed_if (is_some made || is_some before) author.old)) }
        ensures full { (made : Option V) × Finds K.cmp K.path_of self.old.digit front.old (λ pairs. MayMake F.FnOnce change (value_at K.cmp pairs key) made × FullExactly result (is_some made && is_full_for K.cmp MOST_PAIRS_OF_STRIPE pairs key)) }
        ensures kept { IfOk result (λ before. IfSome before (λ value. P.holds key (S.value_of value))) }
        ensures front { OnErr result (front.new ≡ front.old) }
        ensures unsigned { OnErr result (author.new ≡ author.old) }
    {
        front.law();
        self.meet(front);
        self.law();
        let before = self.update(alloc, key, path, change, author)?;
        self.tell(front);
        Ok(before)
    }

    /// What `update_with` does, as a write behind what the front had seen. It sees then the history up to that.
    ///
    /// It is refused as `update_with` is. The front has then seen what it had.
    pub fn update_with_behind<T: Drop, F: FnOnce(Option<&V>) -> (Option<V>, T)>(
        &mut self,
        alloc: Global,
        key: K,
        path: Path,
        change: F,
        front: &mut Front<K, V, J>,
        author: &mut Author<J>,
    ) -> Result<(Option<S::Value>, T), Refusal>
        requires path { path.0 ≡ K.path_of key }
        requires place { digit_of K.path_of key ≡ self.old.digit }
        requires callable { (old : _) → IfSome old (λ value. P.holds key value.now) → F.pre change old }
        requires rule { (old : _) (made : _) → IfSome old (λ value. P.holds key value.now) → F.post change old made → IfSome made.0 (P.holds key) }
        ensures made { IfOk result (λ both. (made : Option V) × MayMake F.FnOnce change (option_map S.value_of both.0) (made, both.1) × WroteIf K.cmp K.path_of (is_some made || is_some both.0) (write_of key made) key (option_map S.value_of both.0) author.old front.old front.new × (author.new ≡ signed_if (is_some made || is_some both.0) author.old)) }
        ensures full { (made : Option V) × (answer : T) × Finds K.cmp K.path_of self.old.digit front.old (λ pairs. MayMake F.FnOnce change (value_at K.cmp pairs key) (made, answer) × FullExactly result (is_some made && is_full_for K.cmp MOST_PAIRS_OF_STRIPE pairs key)) }
        ensures kept { IfOk result (λ both. IfSome both.0 (λ value. P.holds key (S.value_of value))) }
        ensures front { OnErr result (front.new ≡ front.old) }
        ensures unsigned { OnErr result (author.new ≡ author.old) }
    {
        front.law();
        self.meet(front);
        self.law();
        let both = self.update_with(alloc, key, path, change, author)?;
        self.tell(front);
        Ok(both)
    }

    /// What `try_update` does, as a write behind what the front had seen. It sees then the history up to that, or up to
    /// where `change` failed.
    ///
    /// It is refused as `try_update` is. The front has then seen what it had.
    pub fn try_update_behind<E, F: FnOnce(Option<&V>) -> Result<Option<V>, E>>(
        &mut self,
        alloc: Global,
        key: K,
        path: Path,
        change: F,
        front: &mut Front<K, V, J>,
        author: &mut Author<J>,
    ) -> Result<Result<Option<S::Value>, E>, Refusal>
        requires path { path.0 ≡ K.path_of key }
        requires place { digit_of K.path_of key ≡ self.old.digit }
        requires callable { (old : _) → IfSome old (λ value. P.holds key value.now) → F.pre change old }
        requires rule { (old : _) (made : _) → IfSome old (λ value. P.holds key value.now) → F.post change old made → IfOk made (λ new. IfSome new (P.holds key)) }
        ensures made { IfOk result (λ done. IfOk done (λ before. (made : Option V) × MayMake F.FnOnce change (option_map S.value_of before) (Ok made) × WroteIf K.cmp K.path_of (is_some made || is_some before) (write_of key made) key (option_map S.value_of before) author.old front.old front.new × (author.new ≡ signed_if (is_some made || is_some before) author.old))) }
        ensures failed { IfOk result (λ done. IfErr done (λ error. (found : Option V) × Read K.cmp K.path_of key found front.old front.new × MayMake F.FnOnce change found (Err error) × (author.new ≡ author.old))) }
        ensures full { (made : Result (Option V) E) × Finds K.cmp K.path_of self.old.digit front.old (λ pairs. MayMake F.FnOnce change (value_at K.cmp pairs key) made × FullExactly result (is_some (made_of made) && is_full_for K.cmp MOST_PAIRS_OF_STRIPE pairs key)) }
        ensures kept { IfOk result (λ done. IfOk done (λ before. IfSome before (λ value. P.holds key (S.value_of value)))) }
        ensures front { OnErr result (front.new ≡ front.old) }
        ensures unsigned { OnErr result (author.new ≡ author.old) }
    {
        front.law();
        self.meet(front);
        self.law();
        let done = self.try_update(alloc, key, path, change, author)?;
        self.tell(front);
        Ok(done)
    }

    /// What `remove_passing` does, as a write behind what the front had seen. It sees then the history up to that, or up
    /// to where the test was not passed.
    ///
    /// The only error is `NoMemory`, if memory runs out. The front has then seen what it had.
    pub fn remove_passing_behind<Q: Sought<K>, F: FnOnce(&V) -> bool>(
        &mut self,
        alloc: Global,
        key: Q,
        path: Path,
        test: F,
        front: &mut Front<K, V, J>,
        author: &mut Author<J>,
    ) -> Result<Option<S::Value>, NoMemory>
        requires path { path.0 ≡ K.path_of (Q.key_of key) }
        requires place { digit_of K.path_of (Q.key_of key) ≡ self.old.digit }
        requires callable { (value : _) → P.holds (Q.key_of key) value.now → F.pre test value }
        ensures tested { IfOk result (λ removed. (found : Option V) × WroteIf K.cmp K.path_of (is_some removed) (Remove (Q.key_of key)) (Q.key_of key) found author.old front.old front.new × MayPass F.FnOnce test found (is_some removed) × IfSome removed (λ value. found ≡ Some (S.value_of value))) }
        ensures author { IfOk result (λ removed. author.new ≡ signed_if (is_some removed) author.old) }
        ensures kept { IfOk result (λ removed. IfSome removed (λ value. P.holds (Q.key_of key) (S.value_of value))) }
        ensures front { OnErr result (front.new ≡ front.old) }
        ensures unsigned { OnErr result (author.new ≡ author.old) }
    {
        front.law();
        self.meet(front);
        let removed = self.remove_passing(alloc, key, path, test, author)?;
        self.tell(front);
        Ok(removed)
    }
}
