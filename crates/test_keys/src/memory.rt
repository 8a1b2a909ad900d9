//! Refuses every request for memory, or all but some.
//!
//! It takes the whole address space in blocks that nobody touches, so it costs little memory. It needs the C
//! library's allocator as a test is built with it: an address sanitizer's keeps memory of its own aside.

use std::alloc::{AllocError, Global};

/// How many blocks can be kept.
const MOST_BLOCKS: usize = 1 << 18;

/// The largest block that is tried, and how often the size is halved from there.
const LARGEST: usize = 1 << 46;

const HALVINGS: u32 = 34;

/// The largest of the small blocks, which go down by a step to none.
const LARGEST_SMALL: usize = 4096;

const SMALL_STEP: usize = 16;

/// All the memory that there is: each later request is refused until the blocks are dropped.
///
/// # Errors
///
/// There is no memory for the list of the blocks.
pub fn take_all(alloc: Global) -> Result<Vec<Vec<u8>>, AllocError> {
    let mut taken = Vec::with_capacity(alloc, MOST_BLOCKS)?;
    let mut large = LARGEST;
    for _ in 0..HALVINGS {
        take_all_of(alloc, &mut taken, large);
        large /= 2;
    }
    let mut small = LARGEST_SMALL;
    for _ in 0..LARGEST_SMALL / SMALL_STEP {
        take_all_of(alloc, &mut taken, small);
        small = small.saturating_sub(SMALL_STEP);
    }
    Ok(taken)
}

// Takes blocks of the size until one is refused.
fn take_all_of(alloc: Global, taken: &mut Vec<Vec<u8>>, size: usize) {
    for _ in 0..MOST_BLOCKS {
        let Ok(block) = Vec::with_capacity(alloc, size) else {
            return;
        };
        if taken.len() == taken.capacity() || taken.push(block).is_err() {
            return;
        }
    }
}

/// How many bytes a shortage can give.
const BLOCK: usize = 122_880;

/// All memory is taken but for some bytes next to one another, so that a call can be tried with no memory, with a
/// little, and so on.
#[derive(Drop)]
pub struct Shortage {
    taken: Vec<Vec<u8>>,
    eaten: Vec<u8>,
    given: usize,
}

impl Shortage {
    /// No memory is left.
    ///
    /// # Errors
    ///
    /// There is no memory for the list of what is taken.
    pub fn new(alloc: Global) -> Result<Shortage, AllocError> {
        let eaten = Vec::with_capacity(alloc, BLOCK)?;
        Ok(Shortage {
            taken: take_all(alloc)?,
            eaten,
            given: 0,
        })
    }

    /// No memory is left but for `bytes` bytes next to one another.
    ///
    /// # Errors
    ///
    /// There is no memory for the list of what is taken, or those bytes could not be given.
    pub fn with_bytes(alloc: Global, bytes: usize) -> Result<Shortage, AllocError> {
        let mut shortage = Shortage::new(alloc)?;
        shortage.give(alloc, bytes)?;
        Ok(shortage)
    }

    /// Gives `bytes` bytes more, next to those that were given. There are 122,880 in all.
    ///
    /// # Errors
    ///
    /// What is left of those bytes could not be kept.
    pub fn give(&mut self, alloc: Global, bytes: usize) -> Result<(), AllocError> {
        self.given = self.given.saturating_add(bytes);
        self.eaten = Vec::new(alloc);
        self.eaten = Vec::with_capacity(alloc, BLOCK.saturating_sub(self.given))?;
        Ok(())
    }
}

/// `pairs` pairs of blocks of the two sizes in turn, the last of the first size. Taken before all memory, each that is
/// dropped then is room for one request of its size.
///
/// # Errors
///
/// There is no memory for the blocks.
pub fn spare_blocks(
    alloc: Global,
    pairs: usize,
    first: usize,
    second: usize,
) -> Result<Vec<Vec<u8>>, AllocError> {
    let mut blocks = Vec::new(alloc);
    for _ in 0..pairs {
        blocks.push(Vec::with_capacity(alloc, second)?)?;
        blocks.push(Vec::with_capacity(alloc, first)?)?;
    }
    Ok(blocks)
}
