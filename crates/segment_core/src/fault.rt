//! Why an image has no vector, and why growths make no image.

ghost use Rattle.std.specs.Prelude.{◌≡◌, Some};
ghost use Rattle.segment_core.specs.Names.{cause_name, scan_name};

use std::error::Error;
use std::fmt;

/// What is wrong with a frame or a record, in the order in which it is looked for.
#[derive(Clone, Copy, Debug, PartialEq, Eq)]
pub enum Cause {
    /// The image ends where a gate has to stand.
    NoGate,
    /// The image ends inside the frame.
    ShortFrame,
    /// The frame's kind isn't known.
    Kind(u8),
    /// The payload is longer than `PAYLOAD_LIMIT`.
    TooLarge,
    /// The payload doesn't have the form of its kind.
    Layout,
    /// The runs of a change aren't in ascending order, or overlap.
    Runs,
    /// A change outside the vector so far, or a shrink to more than it has.
    Range,
    /// A shrink while a change isn't folded.
    Unfolded,
    /// The count of a fold falls, or passes the changes so far.
    FoldCount,
    /// A group brings the vector past `RECORD_LIMIT` records.
    TooLong,
    /// The bytes that say what stands at a position are no record.
    BadRecord,
}

impl fmt::Display for Cause {
    ghost output = { λ fault. Some (cause_name fault) };

    fn fmt<W: fmt::Write>(&self, f: &mut fmt::Formatter<W>) -> fmt::Result {
        let name = match *self {
            Cause::Kind(kind) => return write!(f, "kind {kind}"),
            Cause::NoGate => "no gate",
            Cause::ShortFrame => "short frame",
            Cause::TooLarge => "too large",
            Cause::Layout => "layout",
            Cause::Runs => "runs",
            Cause::Range => "range",
            Cause::Unfolded => "unfolded",
            Cause::FoldCount => "fold count",
            Cause::TooLong => "too long",
            Cause::BadRecord => "bad record",
        };
        f.write_str(name)
    }
}

impl Error for Cause {}

/// Why an image has no vector: the first fault, in the order of `docs/file/format.md`.
#[derive(Clone, Copy, Debug, PartialEq, Eq)]
pub enum ScanFault {
    /// No file was begun: at most one byte, or the first gate isn't open.
    Unborn,
    /// The bytes behind the first gate aren't those of a segment file.
    NotSegment,
    /// The file has this version, which isn't known.
    Version(u8),
    /// The file's records have this width in bytes, and not that of the record type asked for.
    Width(u16),
    /// The byte at this place is where the fault was found.
    Damaged { at: u64, cause: Cause },
    /// A growth of memory was refused. It may come in place of any answer once the header is read.
    Memory,
}

impl fmt::Display for ScanFault {
    ghost output = { λ fault. Some (scan_name fault) };

    fn fmt<W: fmt::Write>(&self, f: &mut fmt::Formatter<W>) -> fmt::Result {
        let name = match *self {
            ScanFault::Version(version) => return write!(f, "version {version}"),
            ScanFault::Width(width) => return write!(f, "width {width}"),
            ScanFault::Damaged { at, cause } => return write!(f, "damaged at {at}: {cause}"),
            ScanFault::Unborn => "unborn",
            ScanFault::NotSegment => "not a segment",
            ScanFault::Memory => "memory",
        };
        f.write_str(name)
    }
}

impl Error for ScanFault {}

/// Why growths make no image.
#[derive(Clone, Copy, Debug, PartialEq, Eq)]
pub enum ImageFault {
    /// The payload of this group, counted from 0, would pass `PAYLOAD_LIMIT`: the first such.
    TooLarge(usize),
    /// A growth of memory was refused.
    Memory,
}

impl fmt::Display for ImageFault {
    fn fmt<W: fmt::Write>(&self, f: &mut fmt::Formatter<W>) -> fmt::Result {
        match *self {
            ImageFault::TooLarge(group) => write!(f, "group {group} is too large"),
            ImageFault::Memory => f.write_str("memory"),
        }
    }
}

impl Error for ImageFault {}

/// Why a group gets no frame.
#[derive(Clone, Copy, Debug, PartialEq, Eq)]
pub enum GroupFault {
    /// Its payload would pass the limit.
    TooLarge,
    /// A growth of memory was refused.
    Memory,
}

impl fmt::Display for GroupFault {
    fn fmt<W: fmt::Write>(&self, f: &mut fmt::Formatter<W>) -> fmt::Result {
        f.write_str(match self {
            GroupFault::TooLarge => "the group is too large",
            GroupFault::Memory => "memory",
        })
    }
}

impl Error for GroupFault {}

/// The fault of a cause that was found at this place.
pub(crate) fn damaged(at: u64, cause: Cause) -> ScanFault
    ensures { result ≡ ScanFault.Damaged at cause }
{
    ScanFault::Damaged { at, cause }
}
