//! What no call tells of a file that another process writes. Only proofs read it, and it takes no memory.
ghost use Rattle.std.specs.Prelude.{◌≡◌};
ghost use Rattle.std.specs.Borrow.{ftrue};
ghost use Rattle.disk_core.specs.SharedTruth.{SharedTruth};

use std::marker::{Model, PhantomData};

/// What the file held at each moment, and how long each call lasted.
#[derive(Drop)]
pub(crate) struct Unseen {
    of: PhantomData<u8>,
    pub(crate) ghost facts: { SharedTruth },
}

impl Model for Unseen {
    ghost also_owns = { λ _. ftrue };
}

// It owns nothing.
unsafe impl Send for Unseen {}

impl Unseen {
    /// Whatever it is.
    pub(crate) fn any() -> Unseen
        ghost facts: { SharedTruth }
        ensures { result.facts ≡ facts }
    {
        Unseen { of: PhantomData }
    }
}
