//! Which positions have no record so far, and where the bytes stand that say so.

ghost use Rattle.std.specs.Prelude.{◌≡◌, ◌≢◌, ◌<◌, ◌≤◌, ℕ, Some, None, OnOk, IsTrue, MatchOption};
ghost use Rattle.segment_core.specs.Notes.{noted};

use std::alloc::{AllocError, Global};
use std::collections::BTreeMap;

/// The positions whose bytes are no record, each with the place of those bytes. Empty in every sound file.
#[derive(Drop)]
pub(crate) struct Notes {
    places: BTreeMap<u64, u64>,
}

impl Notes {
    /// No notes. It takes no memory.
    pub(crate) fn new(alloc: Global) -> Notes
        ensures { (q : ℕ) → noted result q ≡ None }
    {
        Notes {
            places: BTreeMap::new(alloc),
        }
    }

    /// Whether nothing is noted.
    #[inline(always)]
    pub(crate) fn is_empty(&self) -> bool
        ensures { IsTrue result → (q : ℕ) → noted self.now q ≡ None }
    {
        self.places.is_empty()
    }

    /// The bytes at this place say what is at the position, and are no record.
    #[cold]
    #[inline(never)]
    pub(crate) fn note(&mut self, position: u64, place: u64) -> Result<(), AllocError>
        ensures here { OnOk result (noted self.new position ≡ Some place) }
        ensures others { OnOk result ((q : ℕ) → q ≢ position → noted self.new q ≡ noted self.old q) }
    {
        self.places.insert(position, place)?;
        Ok(())
    }

    /// The position has a record. It is called for each record, and in a sound file there is nothing to forget.
    #[inline(always)]
    pub(crate) fn forget(&mut self, position: u64)
        ensures here { noted self.new position ≡ None }
        ensures others { (q : ℕ) → q ≢ position → noted self.new q ≡ noted self.old q }
    {
        if !self.is_empty() {
            self.remove(position);
        }
    }

    /// The same, where something is noted: kept out of the loops over records.
    #[cold]
    #[inline(never)]
    fn remove(&mut self, position: u64)
        ensures here { noted self.new position ≡ None }
        ensures others { (q : ℕ) → q ≢ position → noted self.new q ≡ noted self.old q }
    {
        self.places.remove(&position);
    }

    /// Forgets all positions from `size` on.
    pub(crate) fn truncate(&mut self, size: u64)
        ensures below { (q : ℕ) → q < size → noted self.new q ≡ noted self.old q }
        ensures beyond { (q : ℕ) → size ≤ q → noted self.new q ≡ None }
    {
        while let Some((position, _)) = self.places.last_key_value() {
            if *position < size {
                return;
            }
            self.places.pop_last();
        }
    }

    /// The least position that has no record, below this size, and the place of its bytes.
    pub(crate) fn least(&self, size: u64) -> Option<(u64, u64)>
        ensures { MatchOption result
            ((q : ℕ) → q < size → noted self.now q ≡ None)
            (λ first. (first.0 < size) × (noted self.now first.0 ≡ Some first.1) × ((q : ℕ) → q < first.0 → noted self.now q ≡ None)) }
    {
        match self.places.first_key_value() {
            Some((position, place)) if *position < size => Some((*position, *place)),
            _ => None,
        }
    }
}
