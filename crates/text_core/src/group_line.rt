//! What group lines are made of: a bar between growths, and why a line gives none.

ghost use Rattle.std.specs.Prelude.{◌≡◌};

use std::alloc::{AllocError, AllocFailed};

pub const BAR: &[u8] = b"|";

/// Why a line gives no group.
#[derive(Clone, Copy, Debug, PartialEq, Eq)]
pub enum LineFault {
    /// It is no group line.
    Bad,
    /// A growth of memory was refused.
    Memory,
}

impl From<AllocError> for LineFault {
    ghost use Rattle.text_core.specs.declared.group_line.LineFault.{LineFault};

    ghost from_gives = { λ _ fault. fault ≡ LineFault.Memory };

    fn from(_: AllocError) -> LineFault {
        LineFault::Memory
    }
}

impl<T: Drop> From<AllocFailed<T>> for LineFault {
    ghost use Rattle.text_core.specs.declared.group_line.LineFault.{LineFault};

    ghost from_gives = { λ _ fault. fault ≡ LineFault.Memory };

    fn from(_: AllocFailed<T>) -> LineFault {
        LineFault::Memory
    }
}
