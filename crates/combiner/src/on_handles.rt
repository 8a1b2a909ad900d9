//! Operations on maps of handles, as operations on maps of a storage.
use crate::bulk::Bulk;
use crate::bulk_in::BulkIn;
use hash_path::PathKey;
use std::alloc::Global;
use std::sync::Arc;
use trie_node::{NoMemory, Node, Shared};

/// A `Bulk`, which works maps whose keys and values lie behind handles.
#[derive(Clone, Copy)]
pub struct OnHandles<'b, B> {
    /// The operation.
    pub bulk: &'b B,
}

impl<'b, K: PathKey, V, B: Bulk<K, V>> BulkIn<K, V, Shared> for OnHandles<'b, B> {
    type Part = B::Part;

    ghost answers = { λ on m part. B.answers on.bulk.now m part };

    ghost decides = { λ on m. B.decides on.bulk.now m };

    ghost ready = { λ on. B.ready on.bulk.now };

    fn unit(&self, alloc: Global) -> Result<B::Part, NoMemory> {
        self.bulk.unit(alloc)
    }

    fn one(&self, alloc: Global, key: &Arc<K>, value: &Arc<V>) -> Result<B::Part, NoMemory> {
        self.bulk.one(alloc, key, value)
    }

    fn join(&self, alloc: Global, a: &B::Part, b: &B::Part) -> Result<B::Part, NoMemory> {
        self.bulk.join(alloc, a, b)
    }

    fn settled(&self, part: &B::Part) -> bool {
        self.bulk.settled(part)
    }

    fn add(
        &self,
        alloc: Global,
        part: &mut B::Part,
        key: &Arc<K>,
        value: &Arc<V>,
    ) -> Result<(), NoMemory> {
        self.bulk.add(alloc, part, key, value)
    }

    fn by_shape(&self) -> bool {
        self.bulk.by_shape()
    }

    fn of_root(&self, alloc: Global, root: &Node<K, V>) -> Result<Option<B::Part>, NoMemory> {
        self.bulk.of_root(alloc, root)
    }

    fn join_root(
        &self,
        alloc: Global,
        part: B::Part,
        root: &Node<K, V>,
    ) -> Result<Result<B::Part, B::Part>, NoMemory> {
        self.bulk.join_root(alloc, part, root)
    }
}
