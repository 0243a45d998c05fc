//! Memory that the heap has at hand for blocks that come.

use record_core::{Record, width_of};
use std::alloc::Global;

/// By how many bytes the heap grows at once: by fewer than allocators give pages of their own.
const STRETCH: u64 = 112 * 1024;

/// About how many bytes a block takes beside its records.
const BESIDE: u64 = 64;

/// What is left of the memory by which a grower's heap grew last. The C library has a thread's heap grow a page at a time where
/// small blocks are asked for, each time by a call of the system, for which other threads' calls wait. Where a large block is
/// taken and given back, the heap grows by all of it at once, and has it for those that come. None of it is touched. No
/// clause speaks of it, and who is refused it goes on without.
#[derive(Drop)]
pub(crate) struct Stretch {
    left: u64,
}

impl Stretch {
    /// A phase of few growths goes without.
    pub(crate) fn new() -> Stretch {
        Stretch { left: STRETCH }
    }

    /// Counts a block of so many records, and has the heap grow where no more is left. One that is as large has it grow by
    /// itself.
    pub(crate) fn count<R: Record>(&mut self, alloc: Global, len: u64) {
        let bytes = len
            .saturating_mul(width_of::<R>() as u64)
            .saturating_add(BESIDE);
        if bytes >= STRETCH {
            return;
        }
        match self.left.checked_sub(bytes) {
            Some(left) => self.left = left,
            None => {
                drop(Vec::<u8>::with_capacity(alloc, STRETCH as usize));
                self.left = STRETCH;
            }
        }
    }
}
