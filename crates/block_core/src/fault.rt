//! Why records become no block.

ghost use Rattle.std.specs.Prelude.{◌≡◌};

use std::alloc::{AllocError, AllocFailed};
use thiserror::Error;

/// Why records become no block, in the order in which it is tested.
#[derive(Clone, Copy, Debug, PartialEq, Eq, Error)]
pub enum FreshFault {
    /// There is no record.
    #[error("empty")]
    Empty,
    /// The records don't fit one frame: with the 8 bytes before them they would pass `PAYLOAD_LIMIT`.
    #[error("too large")]
    TooLarge,
    /// A growth of memory was refused.
    #[error("memory")]
    Memory,
}

impl From<AllocError> for FreshFault {
    ghost use Rattle.block_core.specs.declared.fault.FreshFault.{FreshFault};

    ghost from_gives = { λ _ fault. fault ≡ FreshFault.Memory };

    fn from(_: AllocError) -> FreshFault {
        FreshFault::Memory
    }
}

impl<T: Drop> From<AllocFailed<T>> for FreshFault {
    ghost use Rattle.block_core.specs.declared.fault.FreshFault.{FreshFault};

    ghost from_gives = { λ _ fault. fault ≡ FreshFault.Memory };

    fn from(_: AllocFailed<T>) -> FreshFault {
        FreshFault::Memory
    }
}
