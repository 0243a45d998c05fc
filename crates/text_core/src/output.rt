//! What the engines write: records one a line, lines, and what a search has found.

ghost use Rattle.std.specs.Prelude.{OnOk};
ghost use Rattle.std.specs.Io.KnownBytes.{Appends};
ghost use Rattle.text_core.specs.Answers.{number_line, found_line};
ghost use Rattle.text_core.specs.Text.{ended_line, record_lines};

use crate::number::write_number;
use crate::text::TextRecord;
use std::io;
use std::io::Write;

/// Writes each record and an LF. No memory is taken on the way.
pub fn write_records<R: TextRecord, W: Write>(records: &[R], writer: &mut W) -> io::Result<()>
    ensures { OnOk result (Appends (W.contents writer.old) (W.contents writer.new) (record_lines R.spelling.text_of records.now)) }
{
    for record in records {
        record.write_text(writer)?;
        writer.write_all(b"\n")?;
    }
    writer.flush()
}

/// Writes the text and an LF.
pub fn write_line<W: Write>(text: &[u8], writer: &mut W) -> io::Result<()>
    ensures { OnOk result (Appends (W.contents writer.old) (W.contents writer.new) (ended_line text.now)) }
{
    writer.write_all(text)?;
    writer.write_all(b"\n")?;
    writer.flush()
}

/// Writes a text that ends its lines itself.
pub fn write_text<W: Write>(text: &[u8], writer: &mut W) -> io::Result<()>
    ensures { OnOk result (Appends (W.contents writer.old) (W.contents writer.new) text.now) }
{
    writer.write_all(text)?;
    writer.flush()
}

/// Writes a number and an LF.
pub fn write_number_line<W: Write>(writer: &mut W, n: u64) -> io::Result<()>
    ensures { OnOk result (Appends (W.contents writer.old) (W.contents writer.new) (number_line n)) }
{
    write_number(writer, n)?;
    write_line(b"", writer)
}

/// Writes a position and an LF, or that there is none.
pub fn write_found<W: Write>(writer: &mut W, found: Option<u64>) -> io::Result<()>
    ensures { OnOk result (Appends (W.contents writer.old) (W.contents writer.new) (found_line found)) }
{
    match found {
        Some(position) => write_number_line(writer, position),
        None => write_line(b"none", writer),
    }
}
