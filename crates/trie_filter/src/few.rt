//! Items of which the first costs no memory.
ghost use Rattle.std.specs.Prelude.{◌≡◌, ◌++◌, [], ◌∷◌, IfOk};
ghost use Rattle.trie_filter.specs.Few.{IsFew, items_of};

use std::alloc::Global;
use trie_node::NoMemory;

/// No item, one or more. Memory is requested from the second on.
#[derive(Drop)]
pub(crate) enum Few<T> {
    Nothing,
    One(T),
    More(Vec<T>),
}

impl<T: Drop> Few<T> {
    /// The items and one more. At the second, room for `room` items is requested.
    pub(crate) fn with(self, alloc: Global, room: usize, item: T) -> Result<Few<T>, NoMemory>
        requires { IsFew self }
        ensures items { IfOk result (λ few. items_of few ≡ items_of self ++ item ∷ []) }
        ensures few { IfOk result IsFew }
    {
        match self {
            Few::Nothing => Ok(Few::One(item)),
            Few::One(first) => {
                let mut all = Vec::with_capacity(alloc, room)?;
                all.push(first)?;
                all.push(item)?;
                Ok(Few::More(all))
            }
            Few::More(mut all) => {
                all.push(item)?;
                Ok(Few::More(all))
            }
        }
    }

    /// The items in a vector.
    pub(crate) fn into_vec(self, alloc: Global) -> Result<Vec<T>, NoMemory>
        ensures { IfOk result (λ all. all.items ≡ items_of self) }
    {
        match self {
            Few::Nothing => Ok(Vec::new(alloc)),
            Few::One(only) => {
                let mut all = Vec::with_capacity(alloc, 1)?;
                all.push(only)?;
                Ok(all)
            }
            Few::More(all) => Ok(all),
        }
    }
}
