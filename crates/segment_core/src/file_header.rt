//! The header of a file: a gate, the magic, the version and the width of a record.

ghost use Rattle.std.specs.Prelude.{◌≡◌, ◌<◌, ◌^◌, ◌++◌, ◌∷◌, [], Some, None, drop, OnOk, IfOk, MatchResult};
ghost use Rattle.segment_core.specs.Shape.{shape_of, format_in};
ghost use Rattle.segment_core.specs.Frame.{closed_gate, header, header_len};
ghost use Rattle.segment_core.specs.Fault.{header_fault, IsSound, IsHeaderFault};

use crate::fault::ScanFault;
use crate::format::{CLOSED_GATE, EMPTY_FILE_LEN, Format, HEADER_LEN, OPEN_GATE, Shape};
use record_core::{Record, width_of};
use std::alloc::AllocError;

/// What stands behind the first gate.
const MAGIC: &[u8; 7] = b"CVECSEG";

/// The header of a file of this format, whose records have this width in bytes.
fn header_bytes(format: Format, width: u16) -> [u8; HEADER_LEN]
    ensures { result ≡ header (record { format = format; width = width }) }
{
    let mut bytes = [OPEN_GATE; HEADER_LEN];
    bytes[1..8].copy_from_slice(MAGIC);
    bytes[8] = format.version();
    bytes[9..].copy_from_slice(&width.to_le_bytes());
    bytes
}

/// An empty file of this format, whose records have this width in bytes: its header, and a closed gate.
pub fn empty_file(format: Format, width: u16) -> [u8; EMPTY_FILE_LEN]
    ensures { result ≡ header (record { format = format; width = width }) ++ closed_gate ∷ [] }
{
    let mut bytes = [CLOSED_GATE; EMPTY_FILE_LEN];
    bytes[..HEADER_LEN].copy_from_slice(&header_bytes(format, width));
    bytes
}

/// Appends the header of a file of this format, of records of this type.
pub fn append_header<R: Record>(format: Format, file: &mut Vec<u8>) -> Result<(), AllocError>
    ensures { OnOk result (file.new.items ≡ file.old.items ++ header (shape_of format R.form)) }
{
    file.extend_from_slice(&header_bytes(format, width_of::<R>() as u16))
}

impl Shape {
    /// What the header of a file says. These are its bytes, or those of a file that has fewer. No record has a width
    /// of 0: a file of such a width is refused as `Width(0)`.
    pub fn read(bytes: &[u8]) -> Result<Shape, ScanFault>
        ensures sound { MatchResult result
            (λ shape. (0 < shape.width) × (shape.width < 2 ^ 16) × IsSound shape.width shape.format bytes.now)
            (IsHeaderFault bytes.now) }
        ensures spelled { IfOk result (λ shape. bytes.now ≡ header shape ++ drop header_len bytes.now) }
    {
        if bytes.len() <= 1 || bytes[0] != OPEN_GATE {
            return Err(ScanFault::Unborn);
        }
        if bytes.len() < HEADER_LEN || !bytes[1..].starts_with(MAGIC) {
            return Err(ScanFault::NotSegment);
        }
        let Some(format) = Format::from_version(bytes[8]) else {
            return Err(ScanFault::Version(bytes[8]));
        };
        let width = u16::from_le_bytes([bytes[9], bytes[10]]);
        if width == 0 {
            return Err(ScanFault::Width(0));
        }
        Ok(Shape {
            format,
            width: width as usize,
        })
    }
}

/// The format of the file, if the header is that of a file whose records have this width.
pub(crate) fn check_header(bytes: &[u8], width: usize) -> Result<Format, ScanFault>
    requires { 0 < width }
    ensures { MatchResult result
        (λ format. (header_fault width bytes.now ≡ None) × (format_in bytes.now ≡ format) × (bytes.now ≡ header (record { format = format; width = width }) ++ drop header_len bytes.now))
        (λ fault. header_fault width bytes.now ≡ Some fault) }
{
    let shape = Shape::read(bytes)?;
    if shape.width != width {
        return Err(ScanFault::Width(shape.width as u16));
    }
    Ok(shape.format)
}
