//! The source over lists that are given.
//!
//! The toolchain passes no method of a trait, over each `R: Record` at once, that calls a function over such an `R`: so there
//! is one impl for each type of records. An impl over each of them may lend its records, but makes no blocks, and a source
//! that wraps this one may ask for these.

ghost use Rattle.std.specs.Prelude.{◌≡◌, ◌<◌, ◌≤◌, ◌^◌, ◌⊎◌, ℕ, length, All, HoldsAt, vec_len, MatchOption};
ghost use Rattle.crew_core.specs.Crewing.{grower_growths, grower_count, block_in};

use crate::source::Source;
use block_core::{Fresh, FreshFault};
use record_core::{Flagged, Pair, Record};
use std::alloc::Global;

/// For each grower the records of its blocks.
#[derive(Drop)]
pub struct Lists<'a, R: Record> {
    lists: &'a [Vec<Vec<R>>],
    ghost growers: { length lists.now < 2 ^ 16 },
    ghost counts: { All (λ blocks. vec_len blocks < 2 ^ 32) lists.now },
}

impl<'a, R: Record> Lists<'a, R> {
    /// At most 65,535 growers, and at most 4,294,967,295 blocks of each.
    pub fn new(lists: &'a [Vec<Vec<R>>]) -> Lists<'a, R>
        requires growers { length lists.now < 2 ^ 16 }
        requires counts { All (λ blocks. vec_len blocks < 2 ^ 32) lists.now }
        ensures { result.lists.now ≡ lists.now }
    {
        Lists { lists }
    }

    /// The same, where it isn't known whether there are more growers or blocks: `None` then.
    pub fn try_new(lists: &'a [Vec<Vec<R>>]) -> Option<Lists<'a, R>>
        ensures { MatchOption result
            ((2 ^ 16 ≤ length lists.now) ⊎ ((k : ℕ) × HoldsAt (λ blocks. 2 ^ 32 ≤ vec_len blocks) lists.now k))
            (λ source. source.lists.now ≡ lists.now) }
    {
        if lists.len() > u16::MAX as usize {
            return None;
        }
        for k in 0..lists.len() {
            if lists[k].len() > u32::MAX as usize {
                return None;
            }
        }
        Some(Lists { lists })
    }
}

impl<'a> Source<u32> for Lists<'a, u32> {
    ghost growers_of = { λ s. length s.lists.now };

    ghost count_of = { λ s grower. grower_count (grower_growths s.lists.now) grower };

    ghost block_of = { λ s grower k. block_in (grower_growths s.lists.now) grower k };

    fn growers(&self) -> u16 {
        self.lists.len() as u16
    }

    fn count(&self, grower: u16) -> u32 {
        self.lists[grower as usize].len() as u32
    }

    fn block(&self, alloc: Global, grower: u16, k: u32) -> Result<Fresh<u32>, FreshFault> {
        Fresh::from_slice(alloc, self.lists[grower as usize][k as usize].as_slice())
    }
}

impl<'a> Source<u64> for Lists<'a, u64> {
    ghost growers_of = { λ s. length s.lists.now };

    ghost count_of = { λ s grower. grower_count (grower_growths s.lists.now) grower };

    ghost block_of = { λ s grower k. block_in (grower_growths s.lists.now) grower k };

    fn growers(&self) -> u16 {
        self.lists.len() as u16
    }

    fn count(&self, grower: u16) -> u32 {
        self.lists[grower as usize].len() as u32
    }

    fn block(&self, alloc: Global, grower: u16, k: u32) -> Result<Fresh<u64>, FreshFault> {
        Fresh::from_slice(alloc, self.lists[grower as usize][k as usize].as_slice())
    }
}

impl<'a> Source<i64> for Lists<'a, i64> {
    ghost growers_of = { λ s. length s.lists.now };

    ghost count_of = { λ s grower. grower_count (grower_growths s.lists.now) grower };

    ghost block_of = { λ s grower k. block_in (grower_growths s.lists.now) grower k };

    fn growers(&self) -> u16 {
        self.lists.len() as u16
    }

    fn count(&self, grower: u16) -> u32 {
        self.lists[grower as usize].len() as u32
    }

    fn block(&self, alloc: Global, grower: u16, k: u32) -> Result<Fresh<i64>, FreshFault> {
        Fresh::from_slice(alloc, self.lists[grower as usize][k as usize].as_slice())
    }
}

impl<'a> Source<Pair> for Lists<'a, Pair> {
    ghost growers_of = { λ s. length s.lists.now };

    ghost count_of = { λ s grower. grower_count (grower_growths s.lists.now) grower };

    ghost block_of = { λ s grower k. block_in (grower_growths s.lists.now) grower k };

    fn growers(&self) -> u16 {
        self.lists.len() as u16
    }

    fn count(&self, grower: u16) -> u32 {
        self.lists[grower as usize].len() as u32
    }

    fn block(&self, alloc: Global, grower: u16, k: u32) -> Result<Fresh<Pair>, FreshFault> {
        Fresh::from_slice(alloc, self.lists[grower as usize][k as usize].as_slice())
    }
}

impl<'a> Source<Flagged> for Lists<'a, Flagged> {
    ghost growers_of = { λ s. length s.lists.now };

    ghost count_of = { λ s grower. grower_count (grower_growths s.lists.now) grower };

    ghost block_of = { λ s grower k. block_in (grower_growths s.lists.now) grower k };

    fn growers(&self) -> u16 {
        self.lists.len() as u16
    }

    fn count(&self, grower: u16) -> u32 {
        self.lists[grower as usize].len() as u32
    }

    fn block(&self, alloc: Global, grower: u16, k: u32) -> Result<Fresh<Flagged>, FreshFault> {
        Fresh::from_slice(alloc, self.lists[grower as usize][k as usize].as_slice())
    }
}
