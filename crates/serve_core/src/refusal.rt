//! Why a client's request is refused.

ghost use Rattle.std.specs.Prelude.{◌≡◌};
ghost use Rattle.serve_core.specs.Answers.{refusal_code, ends_talk, refusal_of_growth};

use book_core::GrowFault;
use std::error::Error;
use std::fmt;

/// Why a client's request is refused. Behind the first six the seat's conversation ends, since what follows can't be told from
/// a request; behind the others it goes on.
#[derive(Clone, Copy, Debug)]
pub enum RequestRefusal {
    /// There is no request of this kind.
    UnknownKind,
    /// A number that the request doesn't have isn't 0.
    StrayNumber,
    /// A growth or a read of no record.
    NoRecord,
    /// A growth or a read of more records than one frame of the file holds.
    TooMany,
    /// The bytes of a record of the growth are no record of the file's type.
    BadRecord,
    /// There is no memory for the growth's bytes.
    NoMemory,
    /// There is no memory for the growth.
    Memory,
    /// The server takes no more growths: it is closed.
    Closed,
    /// It has taken as many growths as it may from its start on.
    Full,
    /// The vector would have more than 2^32 records.
    TooLong,
    /// A growth doesn't follow those before it.
    Strayed,
    /// It isn't settled, and won't be: the server has ended.
    Ended,
    /// It isn't known to be settled, and nothing more will be: the file refused.
    Broken,
}

impl RequestRefusal {
    /// The number that stands for it in an answer.
    pub fn code(self) -> u32
        ensures { result ≡ refusal_code self }
    {
        match self {
            RequestRefusal::UnknownKind => 1,
            RequestRefusal::StrayNumber => 2,
            RequestRefusal::NoRecord => 3,
            RequestRefusal::TooMany => 4,
            RequestRefusal::BadRecord => 5,
            RequestRefusal::NoMemory => 6,
            RequestRefusal::Memory => 7,
            RequestRefusal::Closed => 8,
            RequestRefusal::Full => 9,
            RequestRefusal::TooLong => 10,
            RequestRefusal::Strayed => 11,
            RequestRefusal::Ended => 12,
            RequestRefusal::Broken => 13,
        }
    }

    /// Its name, as it is printed.
    fn name(self) -> &'static str {
        match self {
            RequestRefusal::UnknownKind => "unknown kind",
            RequestRefusal::StrayNumber => "stray number",
            RequestRefusal::NoRecord => "no record",
            RequestRefusal::TooMany => "too many records",
            RequestRefusal::BadRecord => "bad record",
            RequestRefusal::NoMemory => "no memory",
            RequestRefusal::Memory => "memory",
            RequestRefusal::Closed => "closed",
            RequestRefusal::Full => "full",
            RequestRefusal::TooLong => "too long",
            RequestRefusal::Strayed => "strayed",
            RequestRefusal::Ended => "ended",
            RequestRefusal::Broken => "broken",
        }
    }

    /// Whether a conversation ends behind it.
    pub fn ends_talk(self) -> bool
        ensures { result ≡ ends_talk self }
    {
        match self {
            RequestRefusal::UnknownKind
            | RequestRefusal::StrayNumber
            | RequestRefusal::NoRecord
            | RequestRefusal::TooMany
            | RequestRefusal::BadRecord
            | RequestRefusal::NoMemory => true,
            RequestRefusal::Memory
            | RequestRefusal::Closed
            | RequestRefusal::Full
            | RequestRefusal::TooLong
            | RequestRefusal::Strayed
            | RequestRefusal::Ended
            | RequestRefusal::Broken => false,
        }
    }

    /// Why a growth wasn't made.
    pub(crate) fn of_growth(fault: GrowFault) -> RequestRefusal
        ensures { result ≡ refusal_of_growth fault }
    {
        match fault {
            GrowFault::Closed => RequestRefusal::Closed,
            GrowFault::Full => RequestRefusal::Full,
            GrowFault::TooLong => RequestRefusal::TooLong,
            GrowFault::Strayed(_) => RequestRefusal::Strayed,
            GrowFault::Memory => RequestRefusal::Memory,
            GrowFault::Empty => RequestRefusal::NoRecord,
            GrowFault::TooLarge => RequestRefusal::TooMany,
        }
    }
}

impl fmt::Display for RequestRefusal {
    fn fmt<W: fmt::Write>(&self, f: &mut fmt::Formatter<W>) -> fmt::Result {
        f.write_str(self.name())
    }
}

impl Error for RequestRefusal {}
