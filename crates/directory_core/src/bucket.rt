//! A run of cells that are set once.

ghost use Rattle.std.specs.Prelude.{◌≡◌, ◌<◌, ◌≤◌, length, slice_get, Some, IfOk, MatchOption};
ghost use Rattle.once_cell.specs.Once.{cell_name};
ghost use Rattle.directory_core.specs.Spot.{span};

use crate::address::bucket_len;
use block_core::Entry;
use once_cell::race::OnceBox;
use record_core::Record;
use std::alloc::{AllocError, Global};
use std::marker::Model;

/// The cells of as many growths as the bucket has places. Contracts see their names.
#[derive(Drop)]
pub(crate) struct Bucket<R: Record> {
    cells: Vec<OnceBox<Entry<R>>>,
}

impl<R: Record> Model for Bucket<R> {
    ghost use Rattle.std.specs.Prelude.{List, ℕ, map};
    ghost use Rattle.once_cell.specs.Once.{cell_name};

    ghost Value = { List ℕ };

    ghost view = { λ bucket. map cell_name bucket.cells.items };
}

impl<R: Record> Bucket<R> {
    /// The bucket of that number, whose cells are empty.
    #[cold]
    pub(crate) fn boxed(alloc: Global, number: usize) -> Result<Box<Bucket<R>>, AllocError>
        requires { number < 26 }
        ensures { IfOk result (λ bucket. length bucket.value ≡ span number) }
    {
        let len = bucket_len(number);
        let mut cells = Vec::with_capacity(alloc, len)?;
        for _ in 0..len {
            cells.push_reserved(OnceBox::new(alloc));
        }
        Ok(Box::new(alloc, Bucket { cells })?)
    }

    /// A bucket that has no cells.
    pub(crate) fn without_places(alloc: Global) -> Result<Box<Bucket<R>>, AllocError> {
        let cells = Vec::new(alloc);
        Ok(Box::new(alloc, Bucket { cells })?)
    }

    /// The cell at that place.
    pub(crate) fn cell(&self, place: usize) -> Option<&OnceBox<Entry<R>>>
        ensures { MatchOption result
            (length self.now ≤ place)
            (λ cell. slice_get self.now place ≡ Some (cell_name cell.now)) }
    {
        self.cells.get(place)
    }
}
