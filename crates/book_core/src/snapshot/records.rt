//! The records of slices, one after another.

ghost use Rattle.std.specs.Prelude.{◌≡◌, ◌≤◌, map, length, Some, IfSome};
ghost use Rattle.std.specs.Iterator.{UpTo, YieldsFirstRef, at_most, item_count};
ghost use Rattle.std.specs.Iterator.SizeHint.{IsWithinCount};
ghost use Rattle.record_core.specs.Limits.{record_limit};
ghost use Rattle.book_core.specs.Lists.{joined_pieces};
ghost use Rattle.book_core.specs.Snapshots.{AreFull};

use record_core::Record;
use std::iter::{ExactSizeIterator, FusedIterator, Iterator};
use std::marker::Model;
use std::slice;

/// The records of a snapshot, in order. Contracts see it as the list of those that are left.
#[derive(Drop)]
pub struct Records<'s, 'a, R: Record> {
    current: slice::Iter<'a, R>,
    slices: slice::Iter<'s, &'a [R]>,
    /// How many records the slices have that aren't begun.
    behind: usize,
}

impl<'s, 'a, R: Record> Model for Records<'s, 'a, R> {
    ghost use Rattle.std.specs.Prelude.{◌≡◌, ◌≤◌, ◌+◌, List, ◌++◌, length, map};
    ghost use Rattle.std.specs.Slice.Iter.{iter_rest};
    ghost use Rattle.record_core.specs.Limits.{record_limit};
    ghost use Rattle.book_core.specs.Lists.{joined_pieces};
    ghost use Rattle.book_core.specs.Snapshots.{AreFull};

    ghost Value = { List R };

    ghost view = { λ r. iter_rest r.current ++ joined_pieces (map (λ s. s.now) (iter_rest r.slices)) };

    ghost invariant = { λ r. AreFull (map (λ s. s.now) (iter_rest r.slices))
        × (r.behind ≡ length (joined_pieces (map (λ s. s.now) (iter_rest r.slices))))
        × (length (iter_rest r.current) + r.behind ≤ record_limit) };
}

impl<'s, 'a, R: Record> Records<'s, 'a, R> {
    /// The records of these slices, which are so many.
    pub(crate) fn of(slices: &'s [&'a [R]], count: usize) -> Records<'s, 'a, R>
        requires full { AreFull (map (λ s. s.now) slices.now) }
        requires count { count ≡ length (joined_pieces (map (λ s. s.now) slices.now)) }
        requires limit { count ≤ record_limit }
        ensures { result ≡ joined_pieces (map (λ s. s.now) slices.now) }
    {
        Records {
            current: [].iter(),
            slices: slices.iter(),
            behind: count,
        }
    }
}

impl<'s, 'a, R: Record> Iterator for Records<'s, 'a, R> {
    type Item = &'a R;

    ghost next_gives = { YieldsFirstRef (λ s. s) };

    ghost remaining = { item_count (λ s. s) };

    #[inline]
    fn next(&mut self) -> Option<&'a R> {
        if let Some(record) = self.current.next() {
            return Some(record);
        }
        let slice = self.slices.next()?;
        self.behind -= slice.len();
        self.current = slice.iter();
        self.current.next()
    }

    fn size_hint(&self) -> (usize, Option<usize>)
        ensures lower { IsWithinCount result.0 (at_most (length self.now)) }
        ensures upper { IfSome result.1 (UpTo (at_most (length self.now))) }
        ensures exact { (result.0 ≡ length self.now) × (result.1 ≡ Some (length self.now)) }
    {
        let left = self.current.len() + self.behind;
        (left, Some(left))
    }
}

impl<'s, 'a, R: Record> FusedIterator for Records<'s, 'a, R> {}

impl<'s, 'a, R: Record> ExactSizeIterator for Records<'s, 'a, R> {
    fn len(&self) -> usize {
        self.current.len() + self.behind
    }
}
