//! Calls of a stripe whose answers stand in the history, behind what a thread has seen.
ghost use Rattle.std.specs.Prelude.{◌≡◌, ◌&&◌, IfOk, IfSome, None, OnErr, is_some, option_map};
ghost use mathlib.Core.List.{IsPrefix};
ghost use Rattle.stripe.specs.Rules.{first_digit as digit_of};
ghost use Rattle.stripe.specs.Told.{Finds, Tells};
ghost use Rattle.versions.specs.Commands.{is_full_for};
ghost use Rattle.versions.specs.Puts.{FullExactly};
ghost use Rattle.write_history.specs.declared.entry.Write.TheVariants.{Put, Remove};
ghost use Rattle.write_history.specs.Signers.{WroteIf, signed_if};

use super::{MOST_PAIRS_OF_STRIPE, Stripe};
use crate::keeps::Keeps;
use hash_path::{Path, PathKey, Sought};
use std::alloc::Global;
use trie_node::{Condition, NoMemory, Slots};
use versions::{Change, Refusal};
use write_history::{Author, Front, Naming};

impl<K: PathKey + Drop, V: Drop, P: Keeps<K, V>, J: Naming, S: Slots<K, V>> Stripe<K, V, P, J, S>
where
    S::Key: Drop,
    S::Value: Drop,
{
    /// Has the front see the history as it is now: each key of the stripe has the value that it leaves.
    pub fn see(&mut self, front: &mut Front<K, V, J>)
        ensures seen { IsPrefix front.old front.new }
        ensures tells { Tells K.cmp K.path_of self.new.digit self.new.entries front.new }
        ensures log { self.new.log ≡ front.new }
        ensures entries { self.new.entries ≡ self.old.entries }
        ensures digit { self.new.digit ≡ self.old.digit }
    {
        front.law();
        self.meet(front);
        self.law();
        self.tell(front);
    }

    /// What `put_where` does, as a write behind what the front had seen. It sees then the history up to that.
    ///
    /// It is refused as `put_where` is. The front has then seen what it had.
    pub fn put_behind<C: Condition<V>>(
        &mut self,
        alloc: Global,
        key: S::Key,
        path: Path,
        value: S::Value,
        condition: &C,
        front: &mut Front<K, V, J>,
        author: &mut Author<J>,
    ) -> Result<Change<V, S>, Refusal>
        requires rule { P.holds (S.key_of key) (S.value_of value) }
        requires path { path.0 ≡ K.path_of (S.key_of key) }
        requires place { digit_of K.path_of (S.key_of key) ≡ self.old.digit }
        ensures wrote { IfOk result (λ change. WroteIf K.cmp K.path_of change.written (Put (S.key_of key) (S.value_of value)) (S.key_of key) (option_map S.value_of change.previous) author.old front.old front.new) }
        ensures written { IfOk result (λ change. change.written ≡ C.holds condition.now (option_map S.value_of change.previous)) }
        ensures author { IfOk result (λ change. author.new ≡ signed_if change.written author.old) }
        ensures kept { IfOk result (λ change. IfSome change.previous (λ value. P.holds (S.key_of key) (S.value_of value))) }
        ensures full { Finds K.cmp K.path_of self.old.digit front.old (λ pairs. FullExactly result (C.holds condition.now None && is_full_for K.cmp MOST_PAIRS_OF_STRIPE pairs (S.key_of key))) }
        ensures front { OnErr result (front.new ≡ front.old) }
        ensures unsigned { OnErr result (author.new ≡ author.old) }
    {
        front.law();
        self.meet(front);
        self.law();
        let change = self.put_where(alloc, key, path, value, condition, author)?;
        self.tell(front);
        Ok(change)
    }

    /// What `put_key_where` does, as a write behind what the front had seen. It sees then the history up to that.
    ///
    /// It is refused as `put_where` is. The front has then seen what it had.
    pub fn put_key_behind<C: Condition<V>>(
        &mut self,
        alloc: Global,
        key: K,
        path: Path,
        value: S::Value,
        condition: &C,
        front: &mut Front<K, V, J>,
        author: &mut Author<J>,
    ) -> Result<Change<V, S>, Refusal>
        requires rule { P.holds key (S.value_of value) }
        requires path { path.0 ≡ K.path_of key }
        requires place { digit_of K.path_of key ≡ self.old.digit }
        ensures wrote { IfOk result (λ change. WroteIf K.cmp K.path_of change.written (Put key (S.value_of value)) key (option_map S.value_of change.previous) author.old front.old front.new) }
        ensures written { IfOk result (λ change. change.written ≡ C.holds condition.now (option_map S.value_of change.previous)) }
        ensures author { IfOk result (λ change. author.new ≡ signed_if change.written author.old) }
        ensures kept { IfOk result (λ change. IfSome change.previous (λ value. P.holds key (S.value_of value))) }
        ensures full { Finds K.cmp K.path_of self.old.digit front.old (λ pairs. FullExactly result (C.holds condition.now None && is_full_for K.cmp MOST_PAIRS_OF_STRIPE pairs key)) }
        ensures front { OnErr result (front.new ≡ front.old) }
        ensures unsigned { OnErr result (author.new ≡ author.old) }
    {
        front.law();
        self.meet(front);
        self.law();
        let change = self.put_key_where(alloc, key, path, value, condition, author)?;
        self.tell(front);
        Ok(change)
    }

    /// What `remove_where` does, as a write behind what the front had seen. It sees then the history up to that.
    ///
    /// The only error is `NoMemory`, if memory runs out. The front has then seen what it had.
    pub fn remove_behind<Q: Sought<K>, C: Condition<V>>(
        &mut self,
        alloc: Global,
        key: Q,
        path: Path,
        condition: &C,
        front: &mut Front<K, V, J>,
        author: &mut Author<J>,
    ) -> Result<Change<V, S>, NoMemory>
        requires path { path.0 ≡ K.path_of (Q.key_of key) }
        requires place { digit_of K.path_of (Q.key_of key) ≡ self.old.digit }
        ensures wrote { IfOk result (λ change. WroteIf K.cmp K.path_of change.written (Remove (Q.key_of key)) (Q.key_of key) (option_map S.value_of change.previous) author.old front.old front.new) }
        ensures written { IfOk result (λ change. change.written ≡ (is_some change.previous && C.holds condition.now (option_map S.value_of change.previous))) }
        ensures author { IfOk result (λ change. author.new ≡ signed_if change.written author.old) }
        ensures kept { IfOk result (λ change. IfSome change.previous (λ value. P.holds (Q.key_of key) (S.value_of value))) }
        ensures front { OnErr result (front.new ≡ front.old) }
        ensures unsigned { OnErr result (author.new ≡ author.old) }
    {
        front.law();
        self.meet(front);
        let change = self.remove_where(alloc, key, path, condition, author)?;
        self.tell(front);
        Ok(change)
    }
}
