//! What no call tells of a file. Only proofs read it, and it takes no memory.
ghost use Rattle.std.specs.Prelude.{◌≡◌};
ghost use Rattle.std.specs.Borrow.{ftrue};
ghost use Rattle.disk_core.specs.FileTruth.{FileTruth};

use std::marker::{Model, PhantomData};

/// What a file held when it was opened, and what each failed write left of it.
#[derive(Drop)]
pub(crate) struct Truth {
    of: PhantomData<u8>,
    pub(crate) ghost facts: { FileTruth },
}

impl Model for Truth {
    ghost also_owns = { λ _. ftrue };
}

// It owns nothing.
unsafe impl Send for Truth {}

impl Truth {
    /// Whatever it is.
    pub(crate) fn any() -> Truth
        ghost facts: { FileTruth }
        ensures { result.facts ≡ facts }
    {
        Truth { of: PhantomData }
    }
}
