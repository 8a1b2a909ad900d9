//! The memory that a call on many keys needs, which is requested before the first is written.
ghost use Rattle.std.specs.Prelude.{IfOk};
ghost use Rattle.many_writes.specs.Rooms.{HasRoom};

use crate::order::Order;
use crate::turn::Turn;
use std::alloc::Global;
use trie_node::NoMemory;

/// Room for a list of items: for their turns and their order, and for either answer.
#[derive(Drop)]
pub(crate) struct Room<T, B> {
    pub(crate) turns: Vec<Turn<T, B>>,
    pub(crate) order: Order,
    pub(crate) answers: Vec<B>,
    pub(crate) done: Vec<(usize, B)>,
    pub(crate) rest: Vec<T>,
}

impl<T: Drop, B: Drop> Room<T, B> {
    /// Room for so many items, and for so many that are given back.
    pub(crate) fn of(alloc: Global, count: usize, rest: usize) -> Result<Room<T, B>, NoMemory>
        ensures { IfOk result (HasRoom count rest) }
    {
        Ok(Room {
            turns: Vec::with_capacity(alloc, count)?,
            order: Order::with_room(alloc, count)?,
            answers: Vec::with_capacity(alloc, count)?,
            done: Vec::with_capacity(alloc, count)?,
            rest: Vec::with_capacity(alloc, rest)?,
        })
    }
}
