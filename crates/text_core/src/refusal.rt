//! Why an engine refuses, and the line that names it.

ghost use Rattle.std.specs.Prelude.{◌≡◌, ◌++◌, ◌⊎◌, OnOk, IfSome, Some, decimal};
ghost use Rattle.std.specs.Io.KnownBytes.{Appends};
ghost use Rattle.text_core.specs.Refusals.{name_of, refused_line, refusal_line};

use crate::number::write_number;
use crate::status::Status;
use std::alloc::AllocError;
use std::fmt::{self, Display};
use std::io::{self, Write};

/// Why an engine refuses.
#[derive(Clone, Copy, Debug, PartialEq, Eq)]
pub enum Refusal {
    /// This line, counted from 1, is the first that isn't of the engine's form.
    Line(u64),
    /// The group of this line, counted from 1, is the first that is larger than a frame may be.
    TooLargeAtLine(u64),
    /// The input is no hex line.
    NotHex,
    /// A read failed.
    Input,
    /// The input has more than `INPUT_LIMIT` bytes.
    InputTooLong,
    /// A growth of memory was refused.
    Memory,
}

impl From<AllocError> for Refusal {
    ghost use Rattle.text_core.specs.declared.refusal.Refusal.{Refusal};

    ghost from_gives = { λ _ refusal. refusal ≡ Refusal.Memory };

    fn from(_: AllocError) -> Refusal {
        Refusal::Memory
    }
}

impl Display for Refusal {
    ghost output = { λ refusal. Some (name_of refusal) };

    fn fmt<W: fmt::Write>(&self, f: &mut fmt::Formatter<W>) -> fmt::Result {
        let name = match *self {
            Refusal::Line(n) => return write!(f, "line {n}"),
            Refusal::TooLargeAtLine(n) => return write!(f, "too large at line {n}"),
            Refusal::NotHex => "not hex",
            Refusal::Input => "input",
            Refusal::InputTooLong => "input too long",
            Refusal::Memory => "memory",
        };
        f.write_str(name)
    }
}

/// Writes words, and a number behind them.
pub fn write_numbered<W: Write>(writer: &mut W, words: &[u8], n: u64) -> io::Result<()>
    ensures { OnOk result (Appends (W.contents writer.old) (W.contents writer.new) (words.now ++ decimal n)) }
{
    writer.write_all(words)?;
    write_number(writer, n)
}

/// Writes the line of what refuses by this name. No memory is taken for it.
pub fn write_refusal<W: Write, F: Display + Drop>(writer: &mut W, fault: F) -> io::Result<()>
    ensures { OnOk result (IfSome (F.output fault) (λ name. Appends (W.contents writer.old) (W.contents writer.new) (refused_line name))) }
{
    writeln!(writer, "refused: {fault}")?;
    writer.flush()
}

/// Writes the line of a refusal. No memory is taken for it.
pub fn refuse<W: Write>(writer: &mut W, refusal: Refusal) -> Status
    ensures refused { result ≡ Status.Refused → Appends (W.contents writer.old) (W.contents writer.new) (refusal_line refusal) }
    ensures ends { (result ≡ Status.Refused) ⊎ (result ≡ Status.OutputFailed) }
{
    match write_refusal(writer, refusal) {
        Ok(()) => Status::Refused,
        Err(_) => Status::OutputFailed,
    }
}
