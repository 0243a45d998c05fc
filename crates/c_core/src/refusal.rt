//! Why a call is refused, in numbers.

ghost use Rattle.std.specs.Prelude.{◌≡◌, ◌<◌};
ghost use Rattle.c_core.specs.Refusal.{code_of, of_scan};

use segment_core::ScanFault;

/// Why a call is refused. The numbers are those of `cvec.h`, where 0 is told of a call that has done what was asked.
#[derive(Clone, Copy)]
pub enum Refusal {
    /// No file was begun: at most one byte, or the first gate isn't open.
    Unborn = 1,
    /// The bytes behind the first gate aren't those of a segment file.
    NotSegment = 2,
    /// A version that isn't known, or isn't that of what was asked.
    Version = 3,
    /// Records of another width.
    Width = 4,
    /// A fault of the file at a place, with its cause.
    Damaged = 5,
    /// Memory was refused.
    Memory = 6,
    /// A group or a growth without a record.
    Empty = 7,
    /// The vector would have more than 2^32 records, or has none at that position; or no call of that number is listed.
    OutOfRange = 8,
    /// It doesn't fit one frame; of a phase, the number of seats is 0 or past 64, or there is no such room for growths.
    TooLarge = 9,
    /// The next gate would stand at 2^48 or past it.
    FileFull = 10,
    /// The memory that was passed is too small.
    NoRoom = 11,
    /// No whole open frame begins there.
    NoFrame = 12,
    /// Bytes that are no records of the type: not whole ones, or one has a value that the type doesn't have.
    NoRecord = 13,
    /// Something is there already.
    Exists = 32,
    /// A call of the file was lost or failed: nothing more can be committed.
    Broken = 34,
    /// No type of records has this number; the handle has another end, or none; or no seat is left.
    NotSo = 64,
    /// Another growth came first: the call may be made again.
    Again = 65,
    /// The phase has as many growths as it may have: a new one begins with the file.
    Full = 66,
    /// An end of the phase isn't closed; of a vault, a job is in hand.
    Busy = 67,
    /// The length falls while a change isn't folded.
    Unfolded = 69,
    /// A growth isn't settled: commit first.
    Unsettled = 70,
}

impl Refusal {
    /// Its number.
    pub fn code(self) -> u32
        ensures number { result ≡ code_of self }
        ensures not_done { 0 < result }
    {
        self as u32
    }

    /// That of a file whose bytes have no vector for this.
    pub fn of_scan(fault: ScanFault) -> Refusal
        ensures { result ≡ of_scan fault }
    {
        match fault {
            ScanFault::Unborn => Refusal::Unborn,
            ScanFault::NotSegment => Refusal::NotSegment,
            ScanFault::Version(_) => Refusal::Version,
            ScanFault::Width(_) => Refusal::Width,
            ScanFault::Damaged { at: _, cause: _ } => Refusal::Damaged,
            ScanFault::Memory => Refusal::Memory,
        }
    }
}
