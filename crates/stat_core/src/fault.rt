//! Why a file has no summary.

ghost use Rattle.std.specs.Prelude.{Some};
ghost use Rattle.stat_core.specs.Names.{stat_name};

use crate::summary::Summary;
use disk_core::DiskFault;
use segment_core::ScanFault;
use std::error::Error;
use std::fmt::{self, Display, Formatter};

/// Why a file has no summary.
#[derive(Clone, Copy, Debug)]
pub enum StatFault {
    /// A call of the disk failed.
    Disk(DiskFault),
    /// The header has this fault: `Unborn`, `NotSegment`, `Version`, or `Width` of 0.
    Header(ScanFault),
    /// The frame whose gate is at `before.gate` has this fault, which is `Damaged`. The frames before it are sound, as
    /// far as `summarize` reads them, and `before` counts them.
    Frame { fault: ScanFault, before: Summary },
}

impl Display for StatFault {
    ghost output = { λ fault. Some (stat_name fault) };

    fn fmt<W: fmt::Write>(&self, f: &mut Formatter<W>) -> fmt::Result {
        match self {
            StatFault::Disk(fault) => Display::fmt(fault, f),
            StatFault::Header(fault) => Display::fmt(fault, f),
            StatFault::Frame { fault, .. } => Display::fmt(fault, f),
        }
    }
}

impl Error for StatFault {}
