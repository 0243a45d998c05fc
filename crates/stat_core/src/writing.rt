//! The text of a summary.

ghost use Rattle.std.specs.Prelude.{◌++◌, decimal, OnOk};
ghost use Rattle.std.specs.Io.KnownBytes.{Appends};
ghost use Rattle.stat_core.specs.Text.{opening_text, field_text, closing_text, file_text, frames_text, vector_text, end_text, summary_text};

use crate::summary::Summary;
use itoa::Buffer;
use std::io;
use std::io::Write;

/// How a summary is written.
#[derive(Clone, Copy)]
pub enum Form {
    /// A name, a space and a number a line.
    Lines,
    /// One line, which is a JSON object of the same names and numbers.
    Json,
}

/// Writes words, and a number behind them.
fn write_numbered<W: Write>(writer: &mut W, words: &[u8], n: u64) -> io::Result<()>
    ensures { OnOk result (Appends (W.contents writer.old) (W.contents writer.new) (words.now ++ decimal n)) }
{
    writer.write_all(words)?;
    let mut buffer = Buffer::new();
    writer.write_all(buffer.format(n).as_bytes())
}

/// Writes the first name and its number.
fn write_opening<W: Write>(writer: &mut W, form: Form, version: u8) -> io::Result<()>
    ensures { OnOk result (Appends (W.contents writer.old) (W.contents writer.new) (opening_text form version)) }
{
    match form {
        Form::Lines => {
            write_numbered(writer, b"version ", u64::from(version))?;
            writer.write_all(b"\n")
        }
        Form::Json => write_numbered(writer, b"{\"version\":", u64::from(version)),
    }
}

/// Writes a name and its number, behind others.
fn write_field<W: Write>(writer: &mut W, form: Form, name: &[u8], n: u64) -> io::Result<()>
    ensures { OnOk result (Appends (W.contents writer.old) (W.contents writer.new) (field_text form name.now n)) }
{
    match form {
        Form::Lines => {
            writer.write_all(name)?;
            write_numbered(writer, b" ", n)?;
            writer.write_all(b"\n")
        }
        Form::Json => {
            writer.write_all(b",\"")?;
            writer.write_all(name)?;
            write_numbered(writer, b"\":", n)
        }
    }
}

/// Writes what ends a summary.
fn write_closing<W: Write>(writer: &mut W, form: Form) -> io::Result<()>
    ensures { OnOk result (Appends (W.contents writer.old) (W.contents writer.new) (closing_text form)) }
{
    match form {
        Form::Lines => writer.write_all(b""),
        Form::Json => writer.write_all(b"}\n"),
    }
}

/// Writes what the header tells, and how long the file is.
#[tactic(auto, unfolding(crate::specs::Text::file_text))]
fn write_file<W: Write>(summary: &Summary, form: Form, writer: &mut W) -> io::Result<()>
    ensures { OnOk result (Appends (W.contents writer.old) (W.contents writer.new) (file_text form summary.now)) }
{
    write_opening(writer, form, summary.version)?;
    write_field(writer, form, b"width", u64::from(summary.width))?;
    write_field(writer, form, b"bytes", summary.bytes)
}

/// Writes how many frames of each kind there are.
#[tactic(auto, unfolding(crate::specs::Text::frames_text))]
fn write_frames<W: Write>(summary: &Summary, form: Form, writer: &mut W) -> io::Result<()>
    ensures { OnOk result (Appends (W.contents writer.old) (W.contents writer.new) (frames_text form summary.now)) }
{
    write_field(writer, form, b"groups", summary.groups)?;
    write_field(writer, form, b"changes", summary.changes)?;
    write_field(writer, form, b"shrinks", summary.shrinks)?;
    write_field(writer, form, b"folds", summary.folds)
}

/// Writes what the frames leave.
#[tactic(auto, unfolding(crate::specs::Text::vector_text))]
fn write_vector<W: Write>(summary: &Summary, form: Form, writer: &mut W) -> io::Result<()>
    ensures { OnOk result (Appends (W.contents writer.old) (W.contents writer.new) (vector_text form summary.now)) }
{
    write_field(writer, form, b"growths", summary.growths)?;
    write_field(writer, form, b"records", summary.records)?;
    write_field(writer, form, b"size", summary.size)?;
    write_field(writer, form, b"live", summary.live())
}

/// Writes where the frames end.
#[tactic(auto, unfolding(crate::specs::Text::end_text))]
fn write_end<W: Write>(summary: &Summary, form: Form, writer: &mut W) -> io::Result<()>
    ensures { OnOk result (Appends (W.contents writer.old) (W.contents writer.new) (end_text form summary.now)) }
{
    write_field(writer, form, b"gate", summary.gate)?;
    write_field(writer, form, b"behind", summary.behind())?;
    write_closing(writer, form)
}

/// Writes a summary, and flushes the writer. The names are, in this order, `version`, `width` (bytes of a record),
/// `bytes` (of the file), `groups`, `changes`, `shrinks` and `folds` (frames of each kind), `growths` and `records`
/// (that the groups have), `size` (records of the vector), `live` (changes behind the last fold), `gate` (the place
/// of the closed gate that ends the frames) and `behind` (bytes behind it). As lines:
///
/// ```text
/// version 1
/// width 8
/// ..
/// ```
///
/// And as JSON, in one line: `{"version":1,"width":8,..}`.
pub fn write_summary<W: Write>(summary: &Summary, form: Form, writer: &mut W) -> io::Result<()>
    ensures { OnOk result (Appends (W.contents writer.old) (W.contents writer.new) (summary_text form summary.now)) }
{
    write_file(summary, form, writer)?;
    write_frames(summary, form, writer)?;
    write_vector(summary, form, writer)?;
    write_end(summary, form, writer)?;
    writer.flush()
}
