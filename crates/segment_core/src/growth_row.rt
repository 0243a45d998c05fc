//! Growths in one row of records.

ghost use Rattle.std.specs.Prelude.{◌≡◌, ◌≢◌, ◌≤◌, slice_index, ◌↔◌, ◌∷◌, ◌++◌, [], ◌<◌, Some, length, slice_get, IsTrue, OnOk, OnErr};
ghost use Rattle.segment_core.specs.Growths.{end_from, growths_from, start_at, AreEndsFrom};

use std::alloc::{AllocError, Global};
use std::marker::Model;

/// Growths, and behind them the records of one that has not ended yet. All stand in one row, so that none takes
/// memory of its own.
#[derive(Drop)]
pub struct Growths<R> {
    records: Vec<R>,
    ends: Vec<usize>,
}

impl<R> Model for Growths<R> {
    ghost use Rattle.std.specs.Prelude.{List, length, drop};
    ghost use Rattle.segment_core.specs.Growths.{growths_from, end_from, AreEndsFrom};

    ghost Value = { List (List R) × List R };

    ghost view = { λ row. (growths_from 0 row.ends.items row.records.items, drop (end_from 0 row.ends.items) row.records.items) };

    ghost invariant = { λ row. AreEndsFrom 0 row.ends.items (length row.records.items) };
}

/// Where the last growth ends.
fn last_end(ends: &[usize]) -> usize
    ensures { result ≡ end_from 0 ends.now }
{
    match ends {
        [.., end] => *end,
        [] => 0,
    }
}

/// Where growth `k` begins and ends, in a row of so many records.
fn range_at(ends: &[usize], k: usize, len: usize) -> (usize, usize)
    requires ends { AreEndsFrom 0 ends.now len }
    requires inside { k < length ends.now }
    ensures place { (result.0 ≡ start_at 0 ends.now k) × (result.1 ≡ slice_index ends.now k) }
    ensures order { result.0 ≤ result.1 }
    ensures end { result.1 ≤ len }
{
    let start = if k == 0 { 0 } else { ends[k - 1] };
    (start, ends[k])
}

/// The records of growth `k` of a row, by the places where its growths end.
fn growth_at<'a, R>(row: &'a [R], ends: &[usize], k: usize) -> &'a [R]
    requires ends { AreEndsFrom 0 ends.now (length row.now) }
    requires inside { k < length ends.now }
    ensures { slice_get (growths_from 0 ends.now row.now) k ≡ Some result.now }
{
    let (start, end) = range_at(ends, k, row.len());
    &row[start..end]
}

impl<R: Copy> Growths<R> {
    /// No growth. It takes no memory.
    pub fn new(alloc: Global) -> Growths<R>
        ensures { result ≡ ([], []) }
    {
        Growths {
            records: Vec::new(alloc),
            ends: Vec::new(alloc),
        }
    }

    /// Takes all records out, and keeps the memory for others.
    pub fn clear(&mut self)
        ensures { self.new ≡ ([], []) }
    {
        self.ends.clear();
        self.records.clear();
    }

    /// Appends a record to the growth that has not ended.
    pub fn push(&mut self, value: R) -> Result<(), AllocError>
        ensures ok { OnOk result (self.new ≡ (self.old.0, self.old.1 ++ value ∷ [])) }
        ensures refused { OnErr result (self.new ≡ self.old) }
    {
        self.records.push(value)?;
        Ok(())
    }

    /// Ends the growth: the next record begins another.
    pub fn end(&mut self) -> Result<(), AllocError>
        ensures ok { OnOk result (self.new ≡ (self.old.0 ++ self.old.1 ∷ [], [])) }
        ensures refused { OnErr result (self.new ≡ self.old) }
    {
        self.ends.push(self.records.len())?;
        Ok(())
    }

    /// Whether the growth that has not ended has a record.
    pub fn is_begun(&self) -> bool
        ensures { IsTrue result ↔ (self.now.1 ≢ []) }
    {
        self.records.len() > last_end(self.ends.as_slice())
    }

    /// How many growths have ended.
    pub fn count(&self) -> usize
        ensures { result ≡ length self.now.0 }
    {
        self.ends.len()
    }

    /// The records of growth `k`, counted from 0, of those that have ended.
    pub fn growth(&self, k: usize) -> &[R]
        requires { k < length self.now.0 }
        ensures { slice_get self.now.0 k ≡ Some result.now }
    {
        growth_at(self.records.as_slice(), self.ends.as_slice(), k)
    }
}
