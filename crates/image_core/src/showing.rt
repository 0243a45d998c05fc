//! The engine that lists the records of a segment file.

ghost use Rattle.std.specs.Prelude.{◌≡◌, ◌≢◌, ◌≤◌, length, IfSome, IfOk, IfErr};
ghost use Rattle.image_core.specs.Engines.{WritesVector, WritesShowRefusal, IsVectorOfHex};
ghost use Rattle.text_core.specs.Refusals.{input_limit};
ghost use Rattle.image_core.specs.Refusals.{IsShowRefusal};

use crate::fault::{ShowFault, refuse_show};
use segment_core::scan;
use std::alloc::Global;
use std::io::{Read, Write};
use text_core::{Status, TextRecord, bytes_of_hex_line, read_input, write_records};

/// The vector of the image whose hex the input is.
fn records_of_hex<R: TextRecord>(alloc: Global, input: &[u8]) -> Result<Vec<R>, ShowFault>
    ensures found { IfOk result (λ records. IsVectorOfHex R.form input.now records.items) }
    ensures refused { length input.now ≤ input_limit → IfErr result (IsShowRefusal R.form input.now) }
{
    let bytes = bytes_of_hex_line(alloc, input)?;
    match scan::<R>(alloc, bytes.as_slice()) {
        Ok(scanned) => Ok(scanned.records),
        Err(fault) => Err(ShowFault::Scan(fault)),
    }
}

/// Reads one hex line, and writes the records of the image that it spells, one a line. Of an input that is
/// refused only the line of the refusal is written.
pub fn show<R: TextRecord, I: Read, W: Write>(
    alloc: Global,
    reader: &mut I,
    writer: &mut W,
) -> Status
    ensures done { result ≡ Status.Done → IfSome (I.remaining reader.old) (λ input.
        WritesVector R.form R.spelling input (W.contents writer.old) (W.contents writer.new)) }
    ensures refused { result ≡ Status.Refused → IfSome (I.remaining reader.old) (λ input.
        WritesShowRefusal R.form input (W.contents writer.old) (W.contents writer.new)) }
    ensures no_usage { result ≢ Status.Usage }
{
    let answer = match read_input(alloc, reader) {
        Ok(input) => records_of_hex::<R>(alloc, input.as_slice()),
        Err(refusal) => Err(ShowFault::Input(refusal)),
    };
    match answer {
        Ok(records) => match write_records(records.as_slice(), writer) {
            Ok(()) => Status::Done,
            Err(_) => Status::OutputFailed,
        },
        Err(fault) => refuse_show(writer, fault),
    }
}
