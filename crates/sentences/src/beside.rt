//! Why a command that reads beside a writer is refused, as no other command is.

ghost use Rattle.std.specs.Prelude.{Some};
ghost use Rattle.sentences.specs.Beside.{beside_name};

use crate::shown::write_quoted;
use std::fmt::{self, Display, Formatter};
use words_core::{FileTask, FileWords, Following};

/// Why a command that reads beside a writer is refused, as no other command is.
#[derive(Clone, Copy, Debug, PartialEq, Eq)]
pub enum BesideFault {
    /// The value of `--after` is no place. Nothing was opened.
    NoPlace,
    /// The bytes of the record at this position are none of the type.
    BadRecord(u64),
    /// The record at this position was replaced after a look had read it.
    Changed(u64),
    /// The vector was cut to so many records, and a look had read more.
    Shorter(u64),
    /// The file's name leads to another file than the one that was opened, or to none.
    Replaced,
    /// The file has become shorter, which no command over a vector does to it.
    Cut,
}

impl Display for BesideFault {
    ghost output = { λ fault. Some (beside_name fault) };

    fn fmt<W: fmt::Write>(&self, f: &mut Formatter<W>) -> fmt::Result {
        let name = match *self {
            BesideFault::BadRecord(i) => return write!(f, "bad record {i}"),
            BesideFault::Changed(i) => return write!(f, "changed {i}"),
            BesideFault::Shorter(n) => return write!(f, "shorter {n}"),
            BesideFault::NoPlace => "word",
            BesideFault::Replaced => "replaced",
            BesideFault::Cut => "cut",
        };
        f.write_str(name)
    }
}

/// The value of `--after`, as it was given.
fn place_of<'a>(task: FileTask<'a>) -> &'a str {
    match task {
        FileTask::Follow {
            what: Following::Events { after },
            ..
        } => after.unwrap_or(""),
        _ => "",
    }
}

fn write_no_place<W: fmt::Write>(f: &mut Formatter<W>, place: &str) -> fmt::Result {
    f.write_str("the value of --after is ")?;
    write_quoted(f, place.as_bytes(), false)?;
    f.write_str(
        "; it is to be the word behind a dot that --events has written; nothing was read or written",
    )
}

/// What became of the file that is followed, and what to do.
fn about_file(fault: BesideFault) -> &'static str {
    match fault {
        BesideFault::Cut =>
            "it has become shorter, which no vector's file does; what was written is of what it was; begin again",
        _ =>
            "this name leads to another file now, or to none; what was written is of the one that it led to; begin again",
    }
}

pub fn write_beside<W: fmt::Write>(
    f: &mut Formatter<W>,
    words: &FileWords<'_>,
    fault: BesideFault,
) -> fmt::Result {
    let name = words.file;
    match fault {
        BesideFault::NoPlace => write_no_place(f, place_of(words.task)),
        BesideFault::BadRecord(i) => {
            let of_type = words.record_type.word();
            write!(
                f,
                "{name}: its record at position {i} is none of {of_type}; give the type that it was made with"
            )
        }
        BesideFault::Changed(i) => write!(
            f,
            "{name}: the record at position {i} was replaced after it was read here; begin again, or give --events, which shows changes"
        ),
        BesideFault::Shorter(n) => write!(
            f,
            "{name}: the vector was cut to {n} records after more were read here; begin again, or give --events, which shows cuts"
        ),
        BesideFault::Replaced | BesideFault::Cut => {
            let about = about_file(fault);
            write!(f, "{name}: {about}")
        }
    }
}
