//! The records from before a phase.

ghost use Rattle.std.specs.Prelude.{◌≡◌, ℕ, ◌+◌, ◌<◌, ◌≤◌, length, take, sum_by, slice_index, vec_len, MatchResult};
ghost use Rattle.record_core.specs.Limits.{record_limit};
ghost use Rattle.book_core.specs.Lists.{records_of, joined_pieces, IsPlaceIn};

use record_core::Record;
use std::alloc::Global;

/// The blocks of before a phase, with the position at which each ends, and how many records they have.
#[derive(Drop)]
pub(crate) struct Opening<R: Record> {
    pub(crate) blocks: Vec<Vec<R>>,
    ends: Vec<u64>,
    size: u64,
    ghost sized: { length (joined_pieces (records_of blocks.items)) ≡ size },
    ghost in_limit: { size ≤ record_limit },
    ghost as_many: { vec_len ends ≡ vec_len blocks },
    ghost ends_are: { (k : ℕ) → k < vec_len blocks
        → slice_index ends.items k ≡ sum_by length (take (k + 1) (records_of blocks.items)) },
}

impl<R: Record> Opening<R> {
    /// The records of these blocks, which come back where no memory is left for the ends.
    pub(crate) fn of(alloc: Global, blocks: Vec<Vec<R>>) -> Result<Opening<R>, Vec<Vec<R>>>
        requires { length (joined_pieces (records_of blocks.items)) ≤ record_limit }
        ensures { MatchResult result
            (λ opening. opening.blocks.items ≡ blocks.items)
            (λ back. back.items ≡ blocks.items) }
    {
        let Ok(mut ends) = Vec::with_capacity(alloc, blocks.len()) else {
            return Err(blocks);
        };
        let mut size: u64 = 0;
        for block in &blocks {
            size += block.len() as u64;
            ends.push_reserved(size);
        }
        Ok(Opening { blocks, ends, size })
    }

    /// How many records there are.
    pub(crate) fn len(&self) -> u64
        ensures is { result ≡ length (joined_pieces (records_of self.now.blocks.items)) }
        ensures in_limit { result ≤ record_limit }
    {
        self.size
    }

    /// The number of the block that has position `i`.
    fn block_of(&self, i: u64) -> usize
        requires { i < length (joined_pieces (records_of self.now.blocks.items)) }
        ensures { (result < vec_len self.now.blocks)
            × (sum_by length (take result (records_of self.now.blocks.items)) ≤ i)
            × (i < sum_by length (take (result + 1) (records_of self.now.blocks.items))) }
    {
        self.ends.as_slice().partition_point(|end| *end <= i)
    }

    /// How many records stand before a block.
    fn start_of(&self, number: usize) -> u64
        requires { number < vec_len self.now.blocks }
        ensures { result ≡ sum_by length (take number (records_of self.now.blocks.items)) }
    {
        if number == 0 {
            return 0;
        }
        self.ends[number - 1]
    }

    /// The number of the block that has position `i`, and the place there.
    pub(crate) fn find(&self, i: u64) -> (usize, usize)
        requires { i < length (joined_pieces (records_of self.now.blocks.items)) }
        ensures { IsPlaceIn (records_of self.now.blocks.items) i result.0 result.1 }
    {
        let number = self.block_of(i);
        let start = self.start_of(number);
        (number, (i - start) as usize)
    }

    /// The blocks.
    pub(crate) fn into_blocks(self) -> Vec<Vec<R>>
        ensures { result.items ≡ self.blocks.items }
    {
        self.blocks
    }
}
