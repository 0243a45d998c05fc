//! Why a pen refuses.

ghost use Rattle.std.specs.Prelude.{Some};
ghost use Rattle.pen_core.specs.Names.{pen_name, open_name};

use disk_core::DiskFault;
use segment_core::ScanFault;
use std::error::Error;
use std::fmt;

/// Why a pen refuses, in the order in which its calls test. After `Disk` it answers `Broken` until the file is
/// opened again. After any other refusal it is unchanged.
#[derive(Clone, Copy, Debug, PartialEq, Eq)]
pub enum PenFault {
    /// A call of the disk has failed before.
    Broken,
    /// A log job is in hand.
    Busy,
    /// More than one run for a file of version 1.
    OldFormat,
    /// Runs that are empty, overlap or don't ascend.
    Runs,
    /// Outside the vector, or past 2^32 records.
    OutOfRange,
    /// A payload past the format's limit.
    TooLarge,
    /// A shrink while a change is live.
    Unfolded,
    /// The next gate would stand at 2^48 or past it, after all that is begun.
    FileFull,
    /// A growth of memory was refused.
    Memory,
    /// There is a file already.
    Exists,
    /// The disk's call failed.
    Disk(DiskFault),
}

impl fmt::Display for PenFault {
    ghost output = { λ fault. Some (pen_name fault) };

    fn fmt<W: fmt::Write>(&self, f: &mut fmt::Formatter<W>) -> fmt::Result {
        let name = match *self {
            PenFault::Disk(fault) => return fmt::Display::fmt(&fault, f),
            PenFault::Broken => "broken",
            PenFault::Busy => "busy",
            PenFault::OldFormat => "old format",
            PenFault::Runs => "runs",
            PenFault::OutOfRange => "out of range",
            PenFault::TooLarge => "too large",
            PenFault::Unfolded => "unfolded",
            PenFault::FileFull => "file full",
            PenFault::Memory => "memory",
            PenFault::Exists => "exists",
        };
        f.write_str(name)
    }
}

impl Error for PenFault {}

/// Why a file wasn't opened.
#[derive(Clone, Copy, Debug, PartialEq, Eq)]
pub enum OpenFault {
    /// The file's first fault, or that memory was refused.
    Scan(ScanFault),
    /// The disk's call failed.
    Disk(DiskFault),
}

impl fmt::Display for OpenFault {
    ghost output = { λ fault. Some (open_name fault) };

    fn fmt<W: fmt::Write>(&self, f: &mut fmt::Formatter<W>) -> fmt::Result {
        match *self {
            OpenFault::Scan(fault) => fmt::Display::fmt(&fault, f),
            OpenFault::Disk(fault) => fmt::Display::fmt(&fault, f),
        }
    }
}

impl Error for OpenFault {}
