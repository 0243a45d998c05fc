//! What is wrong with the bytes of a file, or with the disk that they are on, and what to do next.

use crate::calls::{RefusedCall, write_call};
use crate::standing::Standing;
use pen_core::OpenFault;
use segment_core::ScanFault;
use std::fmt::{self, Formatter};
use words_core::RecordType;

/// What is wrong with the width of a file's records, by the type that was given, if one was.
fn write_width<W: fmt::Write>(
    f: &mut Formatter<W>,
    record_type: Option<RecordType>,
    found: u16,
) -> fmt::Result {
    let Some(record_type) = record_type else {
        return f.write_str(
            "its records have no bytes by its head, which no vector has; it is as it was",
        );
    };
    let of_type = record_type.word();
    let width = record_type.width();
    write!(
        f,
        "its records have {found} bytes, and those of {of_type} have {width}; give the type that it was made with"
    )
}

/// What to do about a file in which no vector was made, by the type that was given, if one was. No other is made over bytes that
/// may be somebody's.
fn write_unborn<W: fmt::Write>(
    f: &mut Formatter<W>,
    name: &str,
    record_type: Option<RecordType>,
    stands: Standing,
) -> fmt::Result {
    f.write_str("no vector was made in this file")?;
    match (stands, record_type) {
        (Standing::Nothing, Some(record_type)) => {
            let of_type = record_type.word();
            write!(f, "; `cvec create {of_type} {name}` makes one")
        }
        (Standing::Nothing, None) => f.write_str("; `cvec create` makes one"),
        _ => f.write_str(", which has other bytes; it is as it was"),
    }
}

/// What is wrong with the bytes of a file, where no number tells of it.
fn wrong_bytes(fault: ScanFault) -> &'static str {
    match fault {
        ScanFault::Memory => "there is not enough memory for its vector; it is as it was",
        _ => "it isn't a segment file; it is as it was",
    }
}

/// What is wrong with the bytes of a file behind its name, by the type of its records, if one was given.
fn write_wrong_bytes<W: fmt::Write>(
    f: &mut Formatter<W>,
    name: &str,
    record_type: Option<RecordType>,
    fault: ScanFault,
    stands: Standing,
) -> fmt::Result {
    match fault {
        ScanFault::Unborn => write_unborn(f, name, record_type, stands),
        ScanFault::Version(version) => write!(
            f,
            "it has version {version}, and this program reads 1 and 2; it is as it was"
        ),
        ScanFault::Width(found) => write_width(f, record_type, found),
        ScanFault::Damaged { at, cause } => write!(
            f,
            "it is damaged at byte {at} ({cause}); nothing was written"
        ),
        ScanFault::NotSegment | ScanFault::Memory => f.write_str(wrong_bytes(fault)),
    }
}

/// What is wrong with the bytes of a file, by the type of its records, if one was given.
fn write_scan<W: fmt::Write>(
    f: &mut Formatter<W>,
    name: &str,
    record_type: Option<RecordType>,
    fault: ScanFault,
    stands: Standing,
) -> fmt::Result {
    write!(f, "{name}: ")?;
    write_wrong_bytes(f, name, record_type, fault, stands)
}

pub fn write_open<W: fmt::Write>(
    f: &mut Formatter<W>,
    name: &str,
    record_type: Option<RecordType>,
    fault: OpenFault,
    stands: Standing,
    refused: Option<RefusedCall>,
) -> fmt::Result {
    match fault {
        OpenFault::Scan(fault) => write_scan(f, name, record_type, fault, stands),
        OpenFault::Disk(call) => {
            write!(f, "{name}: ")?;
            write_call(f, call, refused)?;
            f.write_str("; nothing was written")
        }
    }
}
