//! The engine that makes a segment file of group lines.

ghost use Rattle.std.specs.Prelude.{◌≡◌, ◌≢◌, IfSome};
ghost use Rattle.image_core.specs.Engines.{WritesImage, WritesImageRefusal};

use crate::file_of_lines::file_of_lines;
use std::alloc::Global;
use std::io::{Read, Write};
use text_core::{Status, TextRecord, read_input, refuse, write_hex_line};

/// Reads group lines, one group each, and writes the hex of their segment file as one line. Of an input that
/// is refused only the line of the refusal is written.
pub fn image<R: TextRecord, I: Read, W: Write>(
    alloc: Global,
    reader: &mut I,
    writer: &mut W,
) -> Status
    ensures done { result ≡ Status.Done → IfSome (I.remaining reader.old) (λ input.
        WritesImage R.form R.spelling input (W.contents writer.old) (W.contents writer.new)) }
    ensures refused { result ≡ Status.Refused → IfSome (I.remaining reader.old) (λ input.
        WritesImageRefusal R.form R.spelling input (W.contents writer.old) (W.contents writer.new)) }
    ensures no_usage { result ≢ Status.Usage }
{
    let answer = match read_input(alloc, reader) {
        Ok(input) => file_of_lines::<R>(alloc, input.as_slice()),
        Err(refusal) => Err(refusal),
    };
    match answer {
        Ok(file) => match write_hex_line(file.as_slice(), writer) {
            Ok(()) => Status::Done,
            Err(_) => Status::OutputFailed,
        },
        Err(refusal) => refuse(writer, refusal),
    }
}
