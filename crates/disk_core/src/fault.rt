//! What a call of a disk could not do.

ghost use Rattle.std.specs.Prelude.{Some};
ghost use Rattle.disk_core.specs.Names.{disk_name};

use std::error::Error;
use std::fmt;

/// What a call of a disk could not do. It comes only from a disk whose count of faults rose in that call.
#[derive(Clone, Copy, Debug, PartialEq, Eq)]
pub enum DiskFault {
    /// The length could not be told. Nothing changed.
    Length,
    /// The bytes could not be read. Nothing changed on the disk; the buffer may hold anything.
    Read,
    /// The bytes were not all written: their place on the disk may hold anything, and the length may be anything
    /// from what it was up to where they would have ended.
    Write,
    /// What was written is not known to be on the disk. A crash may leave what it might have left before.
    Sync,
}

impl fmt::Display for DiskFault {
    ghost output = { λ fault. Some (disk_name fault) };

    fn fmt<W: fmt::Write>(&self, f: &mut fmt::Formatter<W>) -> fmt::Result {
        f.write_str(match self {
            DiskFault::Length => "disk length",
            DiskFault::Read => "disk read",
            DiskFault::Write => "disk write",
            DiskFault::Sync => "disk sync",
        })
    }
}

impl Error for DiskFault {}
