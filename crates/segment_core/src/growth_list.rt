//! Growths of records, wherever they stand.

ghost use Rattle.std.specs.Prelude.{◌≡◌, ◌<◌, List, Some, length, map, slice_get};
ghost use Rattle.segment_core.specs.Written.{growths_of};

use crate::growth_row::Growths;

/// Growths in order, of which each lends its records as one slice.
pub trait GrowthList<R> {
    ghost growths: { Self → List (List R) };

    /// How many growths there are.
    fn count(&self) -> usize
        ensures { result ≡ length (growths self.now) };

    /// The records of growth `k`, counted from 0.
    fn growth(&self, k: usize) -> &[R]
        requires { k < length (growths self.now) }
        ensures { slice_get (growths self.now) k ≡ Some result.now };
}

impl<R> GrowthList<R> for &[Vec<R>] {
    ghost growths = { λ group. growths_of group.now };

    fn count(&self) -> usize {
        self.len()
    }

    fn growth(&self, k: usize) -> &[R] {
        self[k].as_slice()
    }
}

impl<R> GrowthList<R> for &[&[R]] {
    ghost growths = { λ group. map (λ growth. growth.now) group.now };

    fn count(&self) -> usize {
        self.len()
    }

    fn growth(&self, k: usize) -> &[R] {
        self[k]
    }
}

/// The growths that have ended.
impl<R: Copy> GrowthList<R> for Growths<R> {
    ghost growths = { λ row. row.0 };

    fn count(&self) -> usize {
        Growths::count(self)
    }

    fn growth(&self, k: usize) -> &[R] {
        Growths::growth(self, k)
    }
}
