//! Output as JSON: for each line of an answer, or of a refusal, a line with the value or the object that it tells.

ghost use Rattle.std.specs.Prelude.{None, is_none, if◌then◌else◌};

use std::alloc::Global;
use std::io::{self, Write};
use text_core::cut;

/// What the text of a record is.
#[derive(Clone, Copy)]
pub enum RecordText {
    /// A number, or an object that is JSON already.
    Number,
    /// A number, or a word for what JSON has no number for.
    Float,
    /// Two numbers with a colon between them.
    Keyed,
    /// Digits in hex.
    Hex,
}

/// What each line of an answer tells.
#[derive(Clone, Copy)]
pub enum Told {
    /// Behind `ok`, what a file has: names, each with its number.
    Measures,
    /// How many records equal one.
    Count,
    /// The position of a record, or that there is none.
    Position,
    /// A record.
    Record(RecordText),
}

/// What the line of a refusal begins with, before its name.
const REFUSED: &[u8] = b"refused: ";

/// What the line of what a file has begins with.
const OK: &[u8] = b"ok ";

/// Writes a text between two others.
fn write_between<W: Write>(
    writer: &mut W,
    front: &[u8],
    text: &[u8],
    behind: &[u8],
) -> io::Result<()> {
    writer.write_all(front)?;
    writer.write_all(text)?;
    writer.write_all(behind)
}

/// Writes an object of names and numbers, which stand behind each other with a blank between each two.
fn write_measures<W: Write>(writer: &mut W, words: &[u8]) -> io::Result<()> {
    writer.write_all(b"{\"")?;
    let mut is_number = false;
    for byte in words {
        if *byte != b' ' {
            writer.write_all(&[*byte])?;
            continue;
        }
        let between: &[u8] = if is_number { b",\"" } else { b"\":" };
        writer.write_all(between)?;
        is_number = !is_number;
    }
    writer.write_all(b"}")
}

/// Whether JSON has a number for the text of a float: it is neither infinite nor NaN.
fn is_finite(text: &[u8]) -> bool {
    !text.contains(&b'n') && !text.contains(&b'N')
}

fn write_text<W: Write>(writer: &mut W, text: &[u8]) -> io::Result<()> {
    write_between(writer, b"\"", text, b"\"")
}

fn write_record<W: Write>(writer: &mut W, text: &[u8], of: RecordText) -> io::Result<()> {
    match of {
        RecordText::Number => writer.write_all(text),
        RecordText::Float if is_finite(text) => writer.write_all(text),
        RecordText::Float | RecordText::Hex => write_text(writer, text),
        RecordText::Keyed => {
            let (key, value) = cut(text, b':');
            write_between(writer, b"[", key, b",")?;
            write_between(writer, b"", value.unwrap_or(b"null"), b"]")
        }
    }
}

/// Writes what a line of an answer tells.
fn write_told<W: Write>(writer: &mut W, told: Told, line: &[u8]) -> io::Result<()> {
    match told {
        Told::Measures => write_measures(writer, line.strip_prefix(OK).unwrap_or(line)),
        Told::Count => write_between(writer, b"{\"count\":", line, b"}"),
        Told::Position if line == b"none".as_slice() => writer.write_all(b"{\"position\":null}"),
        Told::Position => write_between(writer, b"{\"position\":", line, b"}"),
        Told::Record(of) => write_record(writer, line, of),
    }
}

/// Writes what a line of an answer or of a refusal tells, as a line.
fn write_json<W: Write>(writer: &mut W, told: Told, line: &[u8]) -> io::Result<()> {
    if let Some(name) = line.strip_prefix(REFUSED) {
        return write_between(writer, b"{\"refused\":\"", name, b"\"}\n");
    }
    write_told(writer, told, line)?;
    writer.write_all(b"\n")
}

/// Writes to the writer inside what each line tells, as JSON; or all as it is, where that isn't asked for. Names of refusals
/// have no bytes that JSON would escape.
#[derive(Drop)]
pub struct InJson<W> {
    inner: W,
    told: Option<Told>,
    /// What has come of a line that has no end yet.
    line: Vec<u8>,
}

impl<W> InJson<W> {
    pub fn new(alloc: Global, inner: W, told: Option<Told>) -> InJson<W> {
        InJson {
            inner,
            told,
            line: Vec::new(alloc),
        }
    }
}

impl<W: Write> InJson<W> {
    /// Takes bytes of lines that tell this.
    fn take(&mut self, told: Told, bytes: &[u8]) -> io::Result<()> {
        for byte in bytes {
            if *byte == b'\n' {
                write_json(&mut self.inner, told, self.line.as_slice())?;
                self.line.clear();
            } else {
                self.line.push(*byte)?;
            }
        }
        Ok(())
    }
}

impl<W: Write> Write for InJson<W> {
    ghost contents = { λ json. if is_none json.told then W.contents json.inner else None };

    fn write(&mut self, buf: &[u8]) -> io::Result<usize> {
        match self.told {
            Some(told) => {
                self.take(told, buf)?;
                Ok(buf.len())
            }
            None => self.inner.write(buf),
        }
    }

    fn flush(&mut self) -> io::Result<()> {
        self.inner.flush()
    }

    fn write_all(&mut self, buf: &[u8]) -> io::Result<()> {
        match self.told {
            Some(told) => self.take(told, buf),
            None => self.inner.write_all(buf),
        }
    }
}
