//! Why a growth isn't made, or isn't settled.

ghost use Rattle.std.specs.Prelude.{◌≡◌, Some};
ghost use Rattle.book_core.specs.Faults.{fault_of_block};
ghost use Rattle.book_core.specs.Names.{grow_name};

use block_core::FreshFault;
use std::alloc::{AllocError, AllocFailed};
use std::error::Error;
use std::fmt;

/// Why a growth isn't made, or a phase isn't begun. A growth is refused by the first of these that holds: `Empty`,
/// `TooLarge` and the block's `Memory` before the seat's door is taken, then `Closed`, `Strayed`, `Full`, `TooLong` and
/// the directory's `Memory`.
#[derive(Clone, Copy, Debug, PartialEq, Eq)]
pub enum GrowFault {
    /// The book is closed.
    Closed,
    /// The phase has no room for another growth.
    Full,
    /// The vector would have more than 2^32 records.
    TooLong,
    /// The growth of this number doesn't follow those before it: the seat then knows these, and there is room for it.
    /// Or the seat knows the growth of this number, which bears the seat's id and is none of its growths.
    Strayed(u64),
    /// A growth of memory was refused.
    Memory,
    /// There is no record.
    Empty,
    /// The records don't fit one frame of the segment file; of a phase, the room or the number of seats is 0 or past
    /// its limit.
    TooLarge,
}

impl fmt::Display for GrowFault {
    ghost output = { λ fault. Some (grow_name fault) };

    fn fmt<W: fmt::Write>(&self, f: &mut fmt::Formatter<W>) -> fmt::Result {
        let name = match *self {
            GrowFault::Strayed(number) => return write!(f, "strayed {number}"),
            GrowFault::Closed => "closed",
            GrowFault::Full => "full",
            GrowFault::TooLong => "too long",
            GrowFault::Memory => "memory",
            GrowFault::Empty => "empty",
            GrowFault::TooLarge => "too large",
        };
        f.write_str(name)
    }
}

impl Error for GrowFault {}

impl From<FreshFault> for GrowFault {
    ghost from_gives = { λ of_block fault. fault ≡ fault_of_block of_block };

    fn from(of_block: FreshFault) -> GrowFault {
        match of_block {
            FreshFault::Empty => GrowFault::Empty,
            FreshFault::TooLarge => GrowFault::TooLarge,
            FreshFault::Memory => GrowFault::Memory,
        }
    }
}

impl From<AllocError> for GrowFault {
    ghost use Rattle.book_core.specs.declared.fault.GrowFault.{GrowFault};

    ghost from_gives = { λ _ fault. fault ≡ GrowFault.Memory };

    fn from(_: AllocError) -> GrowFault {
        GrowFault::Memory
    }
}

impl<T: Drop> From<AllocFailed<T>> for GrowFault {
    ghost use Rattle.book_core.specs.declared.fault.GrowFault.{GrowFault};

    ghost from_gives = { λ _ fault. fault ≡ GrowFault.Memory };

    fn from(_: AllocFailed<T>) -> GrowFault {
        GrowFault::Memory
    }
}

/// Why a growth isn't settled and won't be: the mark tells no more, and the growths that it tells of end before it.
#[derive(Clone, Copy, Debug, PartialEq, Eq)]
pub enum SettleFault {
    /// The mark says Ended.
    Ended,
    /// The mark says Broken.
    Broken,
}

impl fmt::Display for SettleFault {
    fn fmt<W: fmt::Write>(&self, f: &mut fmt::Formatter<W>) -> fmt::Result {
        f.write_str(match self {
            SettleFault::Ended => "ended",
            SettleFault::Broken => "broken",
        })
    }
}

impl Error for SettleFault {}
