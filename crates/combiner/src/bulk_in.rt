//! Operations on whole maps of any storage.
ghost use Rattle.std.specs.Prelude.{◌≡◌, ◌↔◌, ◌≤◌, ◌∷◌, [], length, IfOk, IfSome, MatchResult, OnErr, OnOk, true};
ghost use Rattle.combiner.specs.Bulks.{CanAdd, CanJoin, CanJoinMap, IsAdded, IsJoined, IsJoinedMap};
ghost use Rattle.combiner.specs.Unions.{IsWithin};
ghost use Rattle.trie_shape.specs.Roots.{IsRoot, map_of};
ghost use Rattle.trie_shape.specs.View.{tree};
ghost use Rattle.versions.specs.Map.{Map};
ghost use Rattle.versions.specs.declared.version.TheConstants.{MOST_PAIRS};

use hash_path::PathKey;
use std::alloc::Global;
use trie_node::{NoMemory, Node, Slots};

/// An operation on a whole map of a storage, whose parts may be worked apart and joined in any order.
///
/// It is `Bulk` over any storage: its functions get keys and values as they lie in the rows of the map.
pub trait BulkIn<K: PathKey, V, S: Slots<K, V>> {
    /// What is known of some of the pairs.
    type Part: Drop;

    /// The part answers the map.
    ghost answers: { Self → Map K V → Self.Part → Type 0 };

    /// The map decides: its answer is that of every larger map.
    ghost decides: { Self → Map K V → Type 0 };

    /// Its closures may be called on every pair.
    ghost ready: { Self → Type 0 };

    /// The part of no pairs.
    fn unit(&self, alloc: Global) -> Result<Self::Part, NoMemory>
        ensures { IfOk result (λ part. answers self.now [] part) };

    /// The part of one pair.
    fn one(&self, alloc: Global, key: &S::Key, value: &S::Value) -> Result<Self::Part, NoMemory>
        requires { ready self.now }
        ensures { IfOk result (λ part. answers self.now ((S.key_of key.now, S.value_of value.now) ∷ []) part) };

    /// The part of the pairs of both parts, which share no key.
    fn join(&self, alloc: Global, a: &Self::Part, b: &Self::Part) -> Result<Self::Part, NoMemory>
        requires { CanJoin K.cmp (answers self.now) a.now b.now }
        ensures { IfOk result (λ part. IsJoined K.cmp (answers self.now) a.now b.now part) };

    /// Whether the part has the answer, whatever other pairs there are.
    fn settled(&self, part: &Self::Part) -> bool
        ensures exact { (m : Map K V) → answers self.now m part.now → result ≡ true ↔ decides self.now m }
        ensures lasting { result ≡ true → (m n : Map K V) → answers self.now m part.now → IsWithin m n → answers self.now n part.now };

    /// Adds a pair to the part, whose key it has not yet: the part is then that of its pairs and this one.
    ///
    /// It means what `join` with `one` does. An operation that can change its part where it stands has a body of its
    /// own. After `NoMemory` the part is as before.
    fn add(
        &self,
        alloc: Global,
        part: &mut Self::Part,
        key: &S::Key,
        value: &S::Value,
    ) -> Result<(), NoMemory>
        requires ready { ready self.now }
        requires apart { CanAdd K.cmp (answers self.now) part.old (S.key_of key.now) (S.value_of value.now) }
        ensures added { OnOk result (IsAdded K.cmp (answers self.now) part.old (S.key_of key.now) (S.value_of value.now) part.new) }
        ensures err { OnErr result (part.new ≡ part.old) }
    {
        let one = self.one(alloc, key, value)?;
        *part = self.join(alloc, &one, part)?;
        Ok(())
    }

    /// Whether `of_root` may have a part, so that it is worth a root of the pairs to ask it.
    fn by_shape(&self) -> bool {
        false
    }

    /// The part of all pairs of a root, where the operation makes one from the shape of the trie.
    ///
    /// It means what `unit` and then an `add` for each pair do. Write it, and `by_shape` beside it, where the part
    /// follows the nodes of the trie, as a map with the same keys does: it is then made branch by branch, with no way
    /// down from the root for each pair. An operation that looks at pair after pair has no use for it.
    fn of_root(&self, alloc: Global, root: &Node<K, V, S>) -> Result<Option<Self::Part>, NoMemory>
        requires ready { ready self.now }
        requires root { IsRoot K.cmp K.path_of (tree root.now) }
        requires few { length (map_of K.cmp (tree root.now)) ≤ MOST_PAIRS }
        ensures { IfOk result (λ made. IfSome made (λ part. answers self.now (map_of K.cmp (tree root.now)) part)) }
    {
        let _ = alloc;
        let _ = root;
        Ok(None)
    }

    /// Joins all pairs of a root to the part, which has none of their keys: `Ok(Ok(part))` is the part of both. Where the
    /// operation makes none from a root, `Ok(Err(part))` gives back the part as it was.
    ///
    /// It means what `join` with `of_root` does. An operation that can change its part where it stands has a body of its
    /// own: the pairs are then put into the part, and no part of the root is made. After `NoMemory` the part is gone.
    fn join_root(
        &self,
        alloc: Global,
        part: Self::Part,
        root: &Node<K, V, S>,
    ) -> Result<Result<Self::Part, Self::Part>, NoMemory>
        requires ready { ready self.now }
        requires root { IsRoot K.cmp K.path_of (tree root.now) }
        requires few { length (map_of K.cmp (tree root.now)) ≤ MOST_PAIRS }
        requires apart { CanJoinMap K.cmp (answers self.now) part (map_of K.cmp (tree root.now)) }
        ensures { IfOk result (λ made. MatchResult made (λ more. IsJoinedMap K.cmp (answers self.now) part (map_of K.cmp (tree root.now)) more) (λ back. back ≡ part)) }
    {
        match self.of_root(alloc, root)? {
            Some(made) => Ok(Ok(self.join(alloc, &part, &made)?)),
            None => Ok(Err(part)),
        }
    }
}
