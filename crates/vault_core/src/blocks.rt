//! The blocks in which the records of a vault stand.

ghost use Rattle.std.specs.Prelude.{◌≡◌, ℕ, ◌+◌, ◌-◌, ◌<◌, ◌≤◌, ◌^◌, ◌++◌, [], ◌∷◌, List, Some, length, take, drop, map, replicate, sum_by, slice_get, true, IfOk, OnOk, OnErr, MatchOption, vec_len, vec_capacity};
ghost use Rattle.segment_core.specs.Frame.{Run};
ghost use Rattle.segment_core.specs.Runs.{runs_given};
ghost use Rattle.segment_core.specs.Written.{joined};
ghost use Rattle.segment_core.specs.Tally.{are_ascending, are_inside};
ghost use Rattle.book_core.specs.Lists.{records_of, IsRestOfPiece};
ghost use Rattle.vault_core.specs.Parts.{IsPart, AreParts, IsCutIntoRuns, Fill, block_at, slice_of, spans_of, span_of};
ghost use Rattle.vault_core.specs.Blocks.{AreEnds};
ghost use Rattle.vault_core.specs.Touched.{IsTouched};

use crate::parts::Part;
use block_core::{Touch, touch_parts};
use record_core::Record;
use std::alloc::{AllocError, Global};
use std::marker::Model;
use std::thread::Threads;

/// The records of one part that one thread touches at most.
const TOUCH_LEN: usize = 8192;

/// Blocks one behind another, with the position at which each ends. Contracts see them as the records of each.
#[derive(Drop)]
pub(crate) struct Blocks<R: Record> {
    blocks: Vec<Vec<R>>,
    ends: Vec<u64>,
}

impl<R: Record> Model for Blocks<R> {
    ghost use Rattle.std.specs.Prelude.{List};
    ghost use Rattle.book_core.specs.Lists.{records_of};
    ghost use Rattle.vault_core.specs.Blocks.{AreEnds};

    ghost Value = { List (List R) };

    ghost view = { λ row. records_of row.blocks.items };

    ghost invariant = { λ row. AreEnds (records_of row.blocks.items) row.ends.items };
}

impl<R: Record> Blocks<R> {
    /// No blocks, and no memory.
    pub(crate) fn new(alloc: Global) -> Blocks<R>
        ensures { result ≡ [] }
    {
        Blocks {
            blocks: Vec::new(alloc),
            ends: Vec::new(alloc),
        }
    }

    /// These records as one block.
    pub(crate) fn of(alloc: Global, records: Vec<R>) -> Result<Blocks<R>, AllocError>
        requires { length records.items ≤ 2 ^ 32 }
        ensures whole { IfOk result (λ row. joined row ≡ records.items) }
        ensures one { IfOk result (λ row. length row ≡ 1) }
    {
        let mut row = Blocks::new(alloc);
        row.push(records)?;
        Ok(row)
    }

    /// The same records as one block.
    pub(crate) fn merged(&self, alloc: Global) -> Result<Blocks<R>, AllocError>
        ensures whole { IfOk result (λ row. joined row ≡ joined self.now) }
        ensures one { IfOk result (λ row. length row ≡ 1) }
    {
        let mut records = Vec::with_capacity(alloc, self.len() as usize)?;
        for k in 0..self.blocks.len() {
            records.extend_from_slice(self.blocks[k].as_slice())?;
        }
        Blocks::of(alloc, records)
    }

    /// These blocks, and the row that tells their ends, in a row with room for it.
    pub(crate) fn with_ends(blocks: Vec<Vec<R>>, ends: Vec<u64>) -> Blocks<R>
        requires room { (length ends.items ≡ 0) × (vec_len blocks ≤ vec_capacity ends) }
        requires few { length (joined (records_of blocks.items)) ≤ 2 ^ 32 }
        ensures { result ≡ records_of blocks.items }
    {
        let mut ends = ends;
        let mut end: u64 = 0;
        for k in 0..blocks.len() {
            end += blocks[k].len() as u64;
            ends.push_reserved(end);
        }
        Blocks { blocks, ends }
    }

    /// The blocks, and the position at which each ends.
    pub(crate) fn into_parts(self) -> (Vec<Vec<R>>, Vec<u64>)
        ensures blocks { records_of result.0.items ≡ self }
        ensures ends { AreEnds self result.1.items }
        ensures few { length (joined self) ≤ 2 ^ 32 }
    {
        (self.blocks, self.ends)
    }

    /// What `into_parts` gave.
    pub(crate) fn from_parts(blocks: Vec<Vec<R>>, ends: Vec<u64>) -> Blocks<R>
        requires { AreEnds (records_of blocks.items) ends.items }
        ensures { result ≡ records_of blocks.items }
    {
        Blocks { blocks, ends }
    }

    /// How many records there are.
    pub(crate) fn len(&self) -> u64
        ensures is { result ≡ length (joined self.now) }
        ensures short { result ≤ 2 ^ 32 }
    {
        self.start_of(self.blocks.len())
    }

    /// How many blocks there are.
    pub(crate) fn count(&self) -> usize
        ensures { result ≡ length self.now }
    {
        self.blocks.len()
    }

    /// The blocks, in order.
    pub(crate) fn as_slice(&self) -> &[Vec<R>]
        ensures { records_of result.now ≡ self.now }
    {
        self.blocks.as_slice()
    }

    /// The number of the block that has position `i`.
    fn block_of(&self, i: u64) -> usize
        requires { i < length (joined self.now) }
        ensures { (result < length self.now)
            × (sum_by length (take result self.now) ≤ i)
            × (i < sum_by length (take (result + 1) self.now)) }
    {
        self.ends.as_slice().partition_point(|end| *end <= i)
    }

    /// How many records stand before a block.
    fn start_of(&self, number: usize) -> u64
        requires { number ≤ length self.now }
        ensures is { result ≡ sum_by length (take number self.now) }
        ensures short { result ≤ 2 ^ 32 }
    {
        if number == 0 {
            return 0;
        }
        self.ends[number - 1]
    }

    /// The number of the block that has position `i`, and how many of its records stand before it.
    fn place_of(&self, i: u64) -> (usize, usize)
        requires { i < length (joined self.now) }
        ensures number { result.0 < length self.now }
        ensures inside { result.1 < length (block_at self.now result.0) }
        ensures is { i ≡ sum_by length (take result.0 self.now) + result.1 }
    {
        let number = self.block_of(i);
        (number, (i - self.start_of(number)) as usize)
    }

    /// The records of the block of that number.
    fn block_at(&self, number: usize) -> &[R]
        requires { number < length self.now }
        ensures { result.now ≡ block_at self.now number }
    {
        self.blocks[number].as_slice()
    }

    /// The records from position `i` to the end of the block that has it. `None` past the end.
    pub(crate) fn rest(&self, i: u64) -> Option<&[R]>
        ensures { MatchOption result
            (length (joined self.now) ≤ i)
            (λ rest. IsRestOfPiece self.now i rest.now) }
    {
        if i >= self.len() {
            return None;
        }
        let (number, place) = self.place_of(i);
        Some(&self.block_at(number)[place..])
    }

    /// Puts parts that stand one behind the other behind the others: those of the positions from `start` on.
    fn push_run(&self, start: u64, count: u64, parts: &mut Vec<Part>) -> Result<(), AllocError>
        requires inside { start + count ≤ length (joined self.now) }
        ensures { OnOk result ((more : List Part)
            × (parts.new.items ≡ parts.old.items ++ more)
            × AreParts self.now more
            × Fill start (start + count) (spans_of more)) }
    {
        let blocks = &self.blocks;
        if count == 0 {
            return Ok(());
        }
        let end = start + count;
        let mut at = start;
        let mut block = self.block_of(start);
        while at < end {
            let from = (at - self.start_of(block)) as usize;
            let left = blocks[block].len() - from;
            let len = left.min((end - at) as usize);
            parts.push(Part {
                block,
                from,
                at,
                len,
            })?;
            at += len as u64;
            block += 1;
        }
        Ok(())
    }

    /// Cuts runs of positions, by start and count, where the blocks end.
    pub(crate) fn cut(&self, runs: &[(u64, u64)], parts: &mut Vec<Part>) -> Result<(), AllocError>
        requires { are_inside (length (joined self.now)) (runs_given runs.now) ≡ true }
        ensures { OnOk result (AreParts self.now parts.new.items × IsCutIntoRuns (runs_given runs.now) (spans_of parts.new.items)) }
    {
        parts.clear();
        for k in 0..runs.len() {
            let (start, count) = runs[k];
            self.push_run(start, count, parts)?;
        }
        Ok(())
    }

    /// Touches the records of one part.
    fn touch_part<E: Threads + Sync, T: Touch<R>>(&mut self, rt: &E, part: Part, touch: &T)
        requires { IsPart self.old part }
        ensures touched { IsTouched (T.one touch.now) (span_of part ∷ []) (joined self.old) (joined self.new) }
        ensures lengths { map length self.new ≡ map length self.old }
    {
        let block = &mut self.blocks[part.block];
        let records = &mut block[part.from..part.from + part.len];
        touch_parts(rt, part.at, records, TOUCH_LEN, touch);
    }

    /// Touches the records of parts that stand one behind the other.
    pub(crate) fn touch<E: Threads + Sync, T: Touch<R>>(
        &mut self,
        rt: &E,
        parts: &[Part],
        touch: &T,
    )
        requires parts { AreParts self.old parts.now }
        requires ascending { are_ascending 0 (spans_of parts.now) ≡ true }
        ensures touched { IsTouched (T.one touch.now) (spans_of parts.now) (joined self.old) (joined self.new) }
        ensures parts { AreParts self.new parts.now }
    {
        for k in 0..parts.len() {
            self.touch_part(rt, parts[k], touch);
        }
    }

    /// Touches the records of one part, by the calling thread alone.
    fn touch_part_alone<T: Touch<R>>(&mut self, part: Part, touch: &T)
        requires { IsPart self.old part }
        ensures touched { IsTouched (T.one touch.now) (span_of part ∷ []) (joined self.old) (joined self.new) }
        ensures lengths { map length self.new ≡ map length self.old }
    {
        let block = &mut self.blocks[part.block];
        let records = &mut block[part.from..part.from + part.len];
        touch.touch(part.at, records);
    }

    /// Touches the records of parts that stand one behind the other, by the calling thread alone.
    pub(crate) fn touch_alone<T: Touch<R>>(&mut self, parts: &[Part], touch: &T)
        requires parts { AreParts self.old parts.now }
        requires ascending { are_ascending 0 (spans_of parts.now) ≡ true }
        ensures touched { IsTouched (T.one touch.now) (spans_of parts.now) (joined self.old) (joined self.new) }
        ensures parts { AreParts self.new parts.now }
    {
        for k in 0..parts.len() {
            self.touch_part_alone(parts[k], touch);
        }
    }

    /// Puts a block behind the others.
    pub(crate) fn push(&mut self, block: Vec<R>) -> Result<(), AllocError>
        requires { length (joined self.old) + length block.items ≤ 2 ^ 32 }
        ensures ok { OnOk result (self.new ≡ self.old ++ block.items ∷ []) }
        ensures refused { OnErr result (self.new ≡ self.old) }
    {
        let end = self.len() + block.len() as u64;
        self.ends.reserve(1)?;
        self.blocks.push(block)?;
        self.ends.push_reserved(end);
        Ok(())
    }

    /// The last block, as a row of one.
    pub(crate) fn last(&self) -> &[Vec<R>]
        requires { 0 < length self.now }
        ensures { records_of result.now ≡ drop (length self.now - 1) self.now }
    {
        &self.blocks.as_slice()[self.blocks.len() - 1..]
    }

    /// Keeps so many blocks.
    fn keep(&mut self, number: usize)
        requires { number ≤ length self.old }
        ensures { self.new ≡ take number self.old }
    {
        self.blocks.truncate(number);
        self.ends.truncate(number);
    }

    /// Keeps the blocks before one, and so many of its records, which end at a position.
    fn trim(&mut self, number: usize, left: usize, end: u64)
        requires number { number < length self.old }
        requires left { left ≤ length (block_at self.old number) }
        requires end { end ≡ sum_by length (take number self.old) + left }
        ensures { self.new ≡ take number self.old ++ take left (block_at self.old number) ∷ [] }
    {
        self.blocks[number].truncate(left);
        self.ends[number] = end;
        self.blocks.truncate(number + 1);
        self.ends.truncate(number + 1);
    }

    /// Keeps the first `n` records, and no empty block behind them. It takes no memory.
    pub(crate) fn truncate(&mut self, n: u64)
        ensures { joined self.new ≡ take n (joined self.old) }
    {
        if n >= self.len() {
            return;
        }
        let (number, left) = self.place_of(n);
        if left == 0 {
            self.keep(number);
        } else {
            self.trim(number, left, n);
        }
    }

    /// Takes the last block away.
    pub(crate) fn pop(&mut self)
        ensures { self.new ≡ take (length self.old - 1) self.old }
    {
        self.blocks.pop();
        self.ends.pop();
    }
}
