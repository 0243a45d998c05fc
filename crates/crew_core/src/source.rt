//! What the growers of a crew grow by, and what they ask and tell.

ghost use Rattle.std.specs.Prelude.{◌≡◌, ◌<◌, ℕ, List, length, true, false, IfSome, MatchResult};
ghost use Rattle.book_core.specs.declared.seat.Receipt.{Receipt};
ghost use Rattle.crew_core.specs.Crewing.{IsSourceFault, ComesNext};

use block_core::{Fresh, FreshFault};
use book_core::Receipt;
use record_core::Record;
use std::alloc::Global;

/// For each of some growers a list of blocks, by which it grows.
pub trait Source<R: Record>: Sync {
    ghost growers_of: { Self → ℕ };

    ghost count_of: { Self → ℕ → ℕ };

    ghost block_of: { Self → ℕ → ℕ → List R };

    /// How many growers there are.
    fn growers(&self) -> u16
        ensures { result ≡ growers_of self.now };

    /// How many blocks a grower has.
    fn count(&self, grower: u16) -> u32
        requires { grower < growers_of self.now }
        ensures { result ≡ count_of self.now grower };

    /// A grower's block of that number. A crew doesn't ask for one whose records are lent.
    fn block(&self, alloc: Global, grower: u16, k: u32) -> Result<Fresh<R>, FreshFault>
        requires grower { grower < growers_of self.now }
        requires k { k < count_of self.now grower }
        ensures { MatchResult result
            (λ fresh. fresh ≡ block_of self.now grower k)
            (IsSourceFault R.form.width (length (block_of self.now grower k))) };

    /// The records of a grower's block of that number, where the source lends them: a crew copies these into a block.
    fn records(&self, _grower: u16, _k: u32) -> Option<&[R]>
        requires grower { _grower < growers_of self.now }
        requires k { _k < count_of self.now _grower }
        ensures { IfSome result (λ records. records.now ≡ block_of self.now _grower _k) }
    {
        None
    }
}

/// What a grower asks before each of its growths, and tells after it, one growth after the other. Both may be called from
/// many threads at once.
pub trait Gate: Sync {
    /// Whether it may stop a grower before its growth of that number.
    ghost may_stop: { Self → ℕ → ℕ → Type 0 };

    /// That it let a grower make its growth of that number.
    ghost has_let: { Self → ℕ → ℕ → Type 0 } = { λ _ _ _. Unit {0} };

    /// That it was told of a grower's growth by this receipt.
    ghost was_told: { Self → ℕ → Receipt → Type 0 } = { λ _ _ _. Unit {0} };

    /// Whether the grower may make its growth of that number; if not, it stops.
    fn before(&self, grower: u16, k: u32) -> bool
        requires { ComesNext (was_told self.now grower) k }
        ensures stops { result ≡ false → may_stop self.now grower k }
        ensures lets { result ≡ true → has_let self.now grower k };

    /// It was made.
    fn after(&self, grower: u16, receipt: &Receipt)
        requires { ComesNext (was_told self.now grower) receipt.now.serial }
        ensures { was_told self.now grower receipt.now };
}

/// A gate that holds nobody up, and tells nobody.
#[derive(Clone, Copy)]
pub struct OpenGate;

impl Gate for OpenGate {
    ghost may_stop = { λ _ _ _. ⊥ };

    fn before(&self, _grower: u16, _k: u32) -> bool {
        true
    }

    fn after(&self, _grower: u16, _receipt: &Receipt) {}
}
