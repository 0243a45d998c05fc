//! Why a growth isn't published, or isn't found.

ghost use Rattle.std.specs.Prelude.{◌≡◌, Some};
ghost use Rattle.directory_core.specs.Names.{dir_name};

use std::alloc::AllocError;
use std::error::Error;
use std::fmt;

/// Why a growth isn't published, or isn't found. The pass knows what it knew.
#[derive(Clone, Copy, Debug, PartialEq, Eq)]
pub enum DirFault {
    /// Another thread's growth took the number.
    Taken,
    /// The directory has no room for another growth.
    Full,
    /// The growth of this number doesn't follow those before it: its number or its start is another, or it passes
    /// the limit of the directory's records.
    Strayed(u64),
    /// A growth of memory was refused.
    Memory,
}

impl fmt::Display for DirFault {
    ghost output = { λ fault. Some (dir_name fault) };

    fn fmt<W: fmt::Write>(&self, f: &mut fmt::Formatter<W>) -> fmt::Result {
        let name = match *self {
            DirFault::Strayed(number) => return write!(f, "strayed {number}"),
            DirFault::Taken => "taken",
            DirFault::Full => "full",
            DirFault::Memory => "memory",
        };
        f.write_str(name)
    }
}

impl Error for DirFault {}

impl From<AllocError> for DirFault {
    ghost use Rattle.directory_core.specs.declared.fault.DirFault.{DirFault};

    ghost from_gives = { λ _ fault. fault ≡ DirFault.Memory };

    fn from(_: AllocError) -> DirFault {
        DirFault::Memory
    }
}
