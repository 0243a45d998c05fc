//! What a search is for.

ghost use Rattle.std.specs.Prelude.{◌≡◌, Bool};

use record_core::Record;

/// What records a search is for. It is asked from many threads at once.
pub trait Pick<R>: Sync {
    ghost picks_of: { Self → R → Bool };

    /// Whether it is for this record.
    fn picks(&self, r: &R) -> bool
        ensures { result ≡ picks_of self.now r.now };
}

/// Records that equal this one.
#[derive(Clone, Copy, Debug, PartialEq, Eq)]
pub struct Equals<R> {
    pub record: R,
}

impl<R: Record> Pick<R> for Equals<R> {
    ghost picks_of = { λ equals r. R.Eq.eq r equals.record };

    fn picks(&self, r: &R) -> bool {
        *r == self.record
    }
}
