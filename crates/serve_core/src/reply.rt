//! What a client is told: a head of 24 bytes, and behind that of a piece its records.

ghost use Rattle.std.specs.Prelude.{◌≡◌, ◌<◌, ◌+◌, ◌*◌, ◌^◌, ◌++◌, length, vec_len, OnOk, OnErr};
ghost use Rattle.std.specs.Int.{w32, w64, to_le_bytes};
ghost use Rattle.serve_core.specs.Answers.{numbers_of, answer_bytes};

use crate::refusal::RequestRefusal;
use record_core::{Record, append_records};
use std::alloc::AllocError;

/// What a client is told.
#[derive(Clone, Copy)]
pub enum Reply {
    /// The seat's conversation has ended as asked.
    Ended,
    /// The growth is made: so many growths of this server stand before it, and it begins at position `start`.
    Grown { number: u64, start: u64 },
    /// All that the seat grew is settled, and of this server's growths the first `growths` are.
    Settled { growths: u64 },
    /// The vector has `size` records, and of this server's growths the first `settled` are settled.
    Looked { size: u64, settled: u64 },
    /// The records from this position on follow: none, where the vector ends before it as far as the seat knows it.
    Piece { start: u64 },
    /// It isn't done.
    Refused(RequestRefusal),
}

/// The numbers of an answer's head but for the count of its records.
#[derive(Clone, Copy)]
pub struct Numbers {
    /// 0 where it is done; else the number that stands for the refusal.
    pub status: u32,
    pub first: u64,
    pub second: u64,
}

impl Reply {
    /// Its numbers.
    pub fn numbers(self) -> Numbers
        ensures { result ≡ numbers_of self }
    {
        let (status, first, second) = match self {
            Reply::Ended => (0, 0, 0),
            Reply::Grown { number, start } => (0, number, start),
            Reply::Settled { growths } => (0, growths, 0),
            Reply::Looked { size, settled } => (0, size, settled),
            Reply::Piece { start } => (0, start, 0),
            Reply::Refused(refusal) => (refusal.code(), 0, 0),
        };
        Numbers {
            status,
            first,
            second,
        }
    }

    /// Appends its head and these records: the status in bytes 0 to 3, the count of the records in 4 to 7, the two numbers in
    /// 8 to 15 and 16 to 23, each with its lowest byte first; then the records. Where memory is refused a part of it may stand
    /// there.
    pub fn append_to<R: Record>(self, records: &[R], out: &mut Vec<u8>) -> Result<(), AllocError>
        requires few { length records.now < 2 ^ 32 }
        requires room { vec_len out.old + 24 + length records.now * R.form.width < 2 ^ 64 }
        ensures { OnOk result (out.new.items ≡ out.old.items ++ answer_bytes R.form self records.now) }
    {
        let numbers = self.numbers();
        out.extend_from_slice(&numbers.status.to_le_bytes())?;
        out.extend_from_slice(&(records.len() as u32).to_le_bytes())?;
        out.extend_from_slice(&numbers.first.to_le_bytes())?;
        out.extend_from_slice(&numbers.second.to_le_bytes())?;
        append_records(records, out)
    }
}
