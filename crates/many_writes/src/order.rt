//! The order in which the items of a list are written.
ghost use Rattle.std.specs.Prelude.{◌<◌};

use hash_path::Path;
use std::alloc::Global;
use stripes::STRIPES;
use trie_node::NoMemory;

const DIGITS: usize = STRIPES as usize;

// No list has such a place.
const NONE: usize = usize::MAX;

/// For each place of a list, the next place whose key is of the same stripe, or 0 where there is none.
#[derive(Drop)]
pub(crate) struct Order {
    next: Vec<usize>,
    last: [usize; DIGITS],
}

impl Order {
    /// Room for the order of so many items.
    pub(crate) fn with_room(alloc: Global, count: usize) -> Result<Order, NoMemory> {
        Ok(Order {
            next: Vec::with_capacity(alloc, count)?,
            last: [NONE; DIGITS],
        })
    }

    /// Adds the item of the next place, whose key has this path word. Without room it would be behind no other.
    pub(crate) fn add(&mut self, path: Path) {
        let place = self.next.len();
        if self.next.push(0).is_err() {
            return;
        }
        if let Some(last) = self.last.get_mut(path.digit(0) as usize) {
            if let Some(next) = self.next.get_mut(*last) {
                *next = place;
            }
            *last = place;
        }
    }

    /// The next place of the same stripe, or the end where there is none.
    pub(crate) fn behind(&self, place: usize, end: usize) -> usize
        requires { place < end }
        ensures { place < result }
    {
        match self.next.get(place) {
            Some(next) => { if place < *next { *next } else { end } }
            None => end,
        }
    }
}
