//! How many threads there is room for.
ghost use Rattle.std.specs.Prelude.{◌≤◌};

use std::alloc::{AllocError, Global};

// What the C library asks of the address space to place the heap of a thread, in bytes: it keeps the half, 64 MiB, at a
// multiple of that.
const HEAP: usize = 128 << 20;

/// How many threads with a stack of `stack` bytes there is address space for, at most `most`.
///
/// It asks for a block of the stack's size and 128 MiB for each thread, and for one more, which is left to all else. It
/// counts the blocks that it gets, and gives all of them back. No byte of them is touched, so they take address space and
/// no memory; a block costs an `mmap` and a `munmap`, some microseconds together.
///
/// 128 MiB is what glibc asks for to place a thread's heap, of which it keeps 64. Where it finds no place for it, it meets
/// each request of the thread by a page or more of its own, so that little address space would soon be used up.
///
/// Where Linux counts untouched memory too (`vm.overcommit_memory=2`), fewer threads are started.
pub fn room_for(alloc: Global, stack: usize, most: usize) -> usize
    ensures { result ≤ most }
{
    let size = stack.saturating_add(HEAP);
    let Ok(_rest) = block(alloc, size) else {
        return 0;
    };
    let mut blocks = Vec::new(alloc);
    let mut count = 0;
    while count < most {
        let Ok(block) = block(alloc, size) else {
            return count;
        };
        let Ok(()) = blocks.push(block) else {
            return count;
        };
        count += 1;
    }
    count
}

fn block(alloc: Global, size: usize) -> Result<Vec<u8>, AllocError> {
    Vec::with_capacity(alloc, size)
}
