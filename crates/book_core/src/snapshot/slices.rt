//! Slices of records one behind another, each found by position.

ghost use Rattle.std.specs.Prelude.{◌≡◌, ◌+◌, ◌<◌, ◌≤◌, [], ◌∷◌, ◌++◌, length, map, slice_get, Some, MatchOption, IfOk, IfSome, OnOk};
ghost use Rattle.record_core.specs.Limits.{record_limit};
ghost use Rattle.directory_core.specs.Finding.{IsPieceAt};
ghost use Rattle.book_core.specs.Lists.{records_of, joined_pieces, IsPlaceIn, IsRestOfPiece};
ghost use Rattle.book_core.specs.Snapshots.{HasRoomFor, AreFull, IsStepWith, full_of};

use super::dividing::{divided, reciprocal_of};
use super::hints::Hints;
use directory_core::last_start_near;
use record_core::Record;
use std::alloc::{AllocError, Global};
use std::marker::Model;

/// Slices one behind another, none of them empty, and the row of their starts. Where all have one length a position is
/// found by a multiplication in place of a division, and else by a search in that row, from a hint on. Contracts see it as the list of the slices, and
/// the room that is there for more.
#[derive(Drop)]
pub(crate) struct Slices<'a, R: Record> {
    slices: Vec<&'a [R]>,
    starts: Vec<u32>,
    size: u64,
    /// How many records each slice but the last has, which has no more; 0 where they have no one length.
    step: u64,
    /// What a position is multiplied by in place of its division by `step`.
    reciprocal: u64,
    hints: Hints,
}

impl<'a, R: Record> Model for Slices<'a, R> {
    ghost use Rattle.std.specs.Prelude.{map, vec_capacity};
    ghost use Rattle.book_core.specs.Snapshots.{Row, HaveStarts, AreEven};

    ghost Value = { Row R };

    ghost view = { λ row. record {
      pieces = map (λ s. s.now) row.slices.items;
      slice_room = vec_capacity row.slices;
      start_room = vec_capacity row.starts;
    } };

    ghost invariant = { λ row.
        HaveStarts (map (λ s. s.now) row.slices.items) row.starts.items row.size
        × AreEven row.starts.items row.size row.step };
}

/// The one length of slices with one more of `len` records, 0 where they have none: so many there are, with so many
/// records together.
fn step_with(count: u64, size: u64, step: u64, len: u64) -> u64
    ensures { IsStepWith count size step len result }
{
    if count == 0 {
        return len;
    }
    match count.checked_mul(step) {
        Some(full) if full == size && len <= step => step,
        _ => 0,
    }
}

impl<'a, R: Record> Slices<'a, R> {
    /// No slices, and no memory.
    pub(crate) fn new(alloc: Global) -> Slices<'a, R>
        ensures { result.pieces ≡ [] }
    {
        Slices {
            slices: Vec::new(alloc),
            starts: Vec::new(alloc),
            size: 0,
            step: 0,
            reciprocal: 0,
            hints: Hints::new(alloc),
        }
    }

    /// Takes memory for so many more slices, 20 bytes each without their hints.
    pub(crate) fn reserve(&mut self, count: usize) -> Result<(), AllocError>
        ensures same { self.new.pieces ≡ self.old.pieces }
        ensures room { OnOk result (HasRoomFor self.new count) }
    {
        self.slices.reserve(count)?;
        self.starts.reserve(count)
    }

    /// Puts the slice behind the others.
    pub(crate) fn push(&mut self, slice: &'a [R])
        requires room { HasRoomFor self.old 1 }
        requires some { 0 < length slice.now }
        requires limit { length (joined_pieces self.old.pieces) + length slice.now ≤ record_limit }
        ensures pieces { self.new.pieces ≡ self.old.pieces ++ slice.now ∷ [] }
        ensures room { (self.new.slice_room ≡ self.old.slice_room) × (self.new.start_room ≡ self.old.start_room) }
    {
        let len = slice.len() as u64;
        let starts = self.starts.as_slice();
        let had = self.step;
        self.step = step_with(starts.len() as u64, self.size, had, len);
        self.reciprocal = reciprocal_of(self.step, had, self.reciprocal);
        self.slices.push_reserved(slice);
        self.starts.push_reserved(self.size as u32);
        self.size += len;
    }

    /// Lays hints for the slices that have none, if they are of many lengths: at most 8 bytes each. Where there is no
    /// memory for them there are none.
    pub(crate) fn lay_hints(&mut self)
        ensures { self.new ≡ self.old }
    {
        if self.step == 0 {
            self.hints.extend(self.starts.as_slice(), self.size);
        }
    }

    /// The blocks that have records.
    pub(crate) fn of_blocks(
        alloc: Global,
        blocks: &'a [Vec<R>],
    ) -> Result<Slices<'a, R>, AllocError>
        requires { length (joined_pieces (records_of blocks.now)) ≤ record_limit }
        ensures { IfOk result (λ row. row.pieces ≡ full_of (records_of blocks.now)) }
    {
        let mut slices = Slices::new(alloc);
        slices.reserve(blocks.len())?;
        slices.push_blocks(blocks);
        slices.lay_hints();
        Ok(slices)
    }

    /// Puts the blocks that have records behind the others.
    fn push_blocks(&mut self, blocks: &'a [Vec<R>])
        requires room { HasRoomFor self.old (length blocks.now) }
        requires limit { length (joined_pieces self.old.pieces) + length (joined_pieces (records_of blocks.now)) ≤ record_limit }
        ensures { self.new.pieces ≡ self.old.pieces ++ full_of (records_of blocks.now) }
    {
        for block in blocks {
            let records = block.as_slice();
            if !records.is_empty() {
                self.push(records);
            }
        }
    }

    /// How many slices there are.
    pub(crate) fn count(&self) -> usize
        ensures { result ≡ length self.now.pieces }
    {
        self.slices.len()
    }

    /// How many records they have.
    pub(crate) fn len(&self) -> u64
        ensures sum { result ≡ length (joined_pieces self.now.pieces) }
        ensures in_limit { result ≤ record_limit }
    {
        self.size
    }

    /// The slices, in order.
    pub(crate) fn as_slice(&self) -> &[&'a [R]]
        ensures is { map (λ s. s.now) result.now ≡ self.now.pieces }
        ensures full { AreFull self.now.pieces }
    {
        self.slices.as_slice()
    }

    /// The number of the slice that has position `i`, and the place there, by a search. It stands by itself, so that what
    /// is left of a read is small enough to stand in its caller's loop.
    #[inline(never)]
    fn search(&self, i: u64) -> (usize, usize)
        requires { i < length (joined_pieces self.now.pieces) }
        ensures { IsPlaceIn self.now.pieces i result.0 result.1 }
    {
        let starts = self.starts.as_slice();
        let (low, high) = self.hints.around(i, starts.len());
        let number = last_start_near(starts, self.size, i, low, high);
        (number, (i - starts[number] as u64) as usize)
    }

    /// The number of the slice that has position `i`, and the place there. `None` past the end.
    #[inline]
    fn find(&self, i: u64) -> Option<(usize, usize)>
        ensures { MatchOption result
            (length (joined_pieces self.now.pieces) ≤ i)
            (λ found. IsPlaceIn self.now.pieces i found.0 found.1) }
    {
        if i >= self.size {
            return None;
        }
        if self.step != 0 {
            let (number, place) = divided(i, self.step, self.reciprocal);
            return Some((number as usize, place as usize));
        }
        Some(self.search(i))
    }

    /// The records from position `i` to the end of its slice. `None` past the end.
    pub(crate) fn piece(&self, i: u64) -> Option<&'a [R]>
        ensures value { MatchOption result
            (length (joined_pieces self.now.pieces) ≤ i)
            (λ piece. IsRestOfPiece self.now.pieces i piece.now) }
        ensures in_order { IfSome result (λ piece. IsPieceAt (joined_pieces self.now.pieces) i piece.now) }
    {
        let (number, place) = self.find(i)?;
        let slice = self.slices[number];
        Some(&slice[place..])
    }

    /// The record at position `i`. `None` past the end.
    #[inline]
    pub(crate) fn get(&self, i: u64) -> Option<&'a R>
        ensures { MatchOption result
            (length (joined_pieces self.now.pieces) ≤ i)
            (λ found. slice_get (joined_pieces self.now.pieces) i ≡ Some found.now) }
    {
        let (number, place) = self.find(i)?;
        let slice = self.slices[number];
        Some(&slice[place])
    }
}
