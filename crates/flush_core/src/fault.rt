//! Why a flusher refuses.

ghost use Rattle.std.specs.Prelude.{Some};
ghost use Rattle.flush_core.specs.Names.{flush_name};

use pen_core::PenFault;
use std::error::Error;
use std::fmt;

/// Why a flusher refuses. After `Pen(Disk)` its pen is broken until the file is opened again; learning growths, raising
/// the mark, taking in seats and giving back the disk go on working.
#[derive(Clone, Copy, Debug, PartialEq, Eq)]
pub enum FlushFault {
    /// As the pen refuses.
    Pen(PenFault),
    /// The growth of this number doesn't follow those before it.
    Strayed(u64),
}

impl fmt::Display for FlushFault {
    ghost output = { λ fault. Some (flush_name fault) };

    fn fmt<W: fmt::Write>(&self, f: &mut fmt::Formatter<W>) -> fmt::Result {
        match *self {
            FlushFault::Pen(fault) => fmt::Display::fmt(&fault, f),
            FlushFault::Strayed(number) => write!(f, "strayed {number}"),
        }
    }
}

impl Error for FlushFault {}
