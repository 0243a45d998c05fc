//! The records of a vault, piece by piece.

ghost use Rattle.std.specs.Prelude.{◌≡◌, ◌≤◌, length, Some, IfSome};
ghost use Rattle.std.specs.Iterator.{UpTo, YieldsFirstRef, at_most, item_count};
ghost use Rattle.std.specs.Iterator.SizeHint.{IsWithinCount};
ghost use Rattle.book_core.specs.Lists.{records_of};

use std::iter::{ExactSizeIterator, FusedIterator, Iterator};
use std::marker::Model;
use std::slice;

/// The pieces in which the records of a vault stand, in order. Contracts see it as the list of those that are left, the
/// records of each.
#[derive(Drop)]
pub struct VaultPieces<'a, R> {
    blocks: slice::Iter<'a, Vec<R>>,
}

impl<'a, R> Model for VaultPieces<'a, R> {
    ghost use Rattle.std.specs.Prelude.{List};
    ghost use Rattle.std.specs.Slice.Iter.{iter_rest};
    ghost use Rattle.book_core.specs.Lists.{records_of};

    ghost Value = { List (List R) };

    ghost view = { λ p. records_of (iter_rest p.blocks) };
}

impl<'a, R> VaultPieces<'a, R> {
    /// Those of these blocks.
    pub(crate) fn of(blocks: &'a [Vec<R>]) -> VaultPieces<'a, R>
        ensures { result ≡ records_of blocks.now }
    {
        VaultPieces {
            blocks: blocks.iter(),
        }
    }
}

impl<'a, R> Iterator for VaultPieces<'a, R> {
    type Item = &'a [R];

    ghost next_gives = { YieldsFirstRef (λ s. s) };

    ghost remaining = { item_count (λ s. s) };

    #[inline]
    fn next(&mut self) -> Option<&'a [R]> {
        let block = self.blocks.next()?;
        Some(block.as_slice())
    }

    fn size_hint(&self) -> (usize, Option<usize>)
        ensures lower { IsWithinCount result.0 (at_most (length self.now)) }
        ensures upper { IfSome result.1 (UpTo (at_most (length self.now))) }
        ensures exact { (result.0 ≡ length self.now) × (result.1 ≡ Some (length self.now)) }
    {
        let left = self.blocks.len();
        (left, Some(left))
    }
}

impl<'a, R> FusedIterator for VaultPieces<'a, R> {}

impl<'a, R> ExactSizeIterator for VaultPieces<'a, R> {
    fn len(&self) -> usize {
        self.blocks.len()
    }
}
