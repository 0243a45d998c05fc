//! An input that is taken in parts, each of which ends with a growth.

ghost use Rattle.std.specs.Prelude.{◌≤◌, IfSome, length};
ghost use Rattle.std.specs.Io.{ReadsAtMost};

use std::alloc::Global;
use std::io::{self, Cursor, Read};
use std::num::NonZeroU32;

/// The bytes that are read at once where it is asked whether more comes.
const PIECE_LEN: usize = 65_536;

/// Counts the records, lines and growths of a part, by the bytes of its lines.
#[derive(Clone, Copy)]
struct Counting {
    /// The lines of a growth.
    block: u32,
    /// The lines that the growth which isn't whole yet has.
    lines_open: u32,
    /// The records of the part so far.
    records: u64,
    /// With so many records or more it ends.
    room: u64,
    /// All whole growths and whole lines so far, of the parts before too.
    growths: u64,
    lines: u64,
}

impl Counting {
    /// Takes the end of a line. Whether the part ends there.
    fn ends_with_line(&mut self) -> bool {
        self.records = self.records.saturating_add(1);
        self.lines = self.lines.saturating_add(1);
        self.lines_open = self.lines_open.saturating_add(1);
        if self.lines_open < self.block {
            return false;
        }
        self.lines_open = 0;
        self.growths = self.growths.saturating_add(1);
        self.records >= self.room
    }

    /// Takes these bytes, up to the end of the growth with which the part ends. Answers where that is.
    fn end_in(&mut self, bytes: &[u8]) -> Option<usize>
        ensures { IfSome result (λ end. end ≤ length bytes.now) }
    {
        for at in 0..bytes.len() {
            match bytes[at] {
                b' ' => self.records = self.records.saturating_add(1),
                b'\n' if self.ends_with_line() => return Some(at + 1),
                _ => {}
            }
        }
        None
    }
}

/// Gives the input in parts, or all of it as one where no lines of a growth are said. A part ends with the growth by which it has
/// as many records as it has room for, or more; the next one begins behind it.
#[derive(Drop)]
pub struct Parted<I> {
    alloc: Global,
    input: I,
    /// None: there is one part.
    counting: Option<Counting>,
    /// What was read, and is of the next part.
    kept: Cursor<Vec<u8>>,
    part_ended: bool,
    input_ended: bool,
}

impl<I> Parted<I> {
    pub fn new(alloc: Global, input: I, block: Option<NonZeroU32>) -> Parted<I> {
        let counting = match block {
            Some(block) => Some(Counting {
                block: block.get(),
                lines_open: 0,
                records: 0,
                room: u64::MAX,
                growths: 0,
                lines: 0,
            }),
            None => None,
        };
        Parted {
            alloc,
            input,
            counting,
            kept: Cursor::new(Vec::new(alloc)),
            part_ended: false,
            input_ended: false,
        }
    }

    /// Begins a part with room for so many records.
    pub fn begin_part(&mut self, room: u64) {
        self.part_ended = room == 0;
        if let Some(counting) = &mut self.counting {
            counting.room = room;
            counting.records = 0;
        }
    }

    /// How many growths and lines were given so far.
    pub fn given(&self) -> (u64, u64) {
        match &self.counting {
            Some(counting) => (counting.growths, counting.lines),
            None => (0, 0),
        }
    }

    /// Whether bytes that were read have not been given.
    fn has_kept(&self) -> bool {
        self.kept.position() < self.kept.get_ref().len() as u64
    }
}

impl<I: Read> Parted<I> {
    /// Whether more of the input comes, which is waited for.
    pub fn has_more(&mut self) -> io::Result<bool> {
        if self.has_kept() {
            return Ok(true);
        }
        if self.input_ended {
            return Ok(false);
        }
        let mut piece = Vec::with_capacity(self.alloc, PIECE_LEN)?;
        piece.resize(PIECE_LEN, 0)?;
        let n = self.input.read(piece.as_mut_slice())?;
        piece.truncate(n);
        self.kept = Cursor::new(piece);
        self.input_ended = n == 0;
        Ok(n > 0)
    }

    /// Reads of the part, and may read behind its end.
    fn read_on(&mut self, buf: &mut [u8]) -> io::Result<usize>
        ensures { ReadsAtMost result buf.new }
    {
        if self.has_kept() {
            return self.kept.read(buf);
        }
        if self.input_ended {
            return Ok(0);
        }
        let n = self.input.read(buf)?;
        self.input_ended = n == 0 && !buf.is_empty();
        Ok(n)
    }

    /// Keeps bytes that were read for the next part, before those that are kept.
    fn keep(&mut self, bytes: &[u8]) -> io::Result<()> {
        let at = (self.kept.position() as usize).min(self.kept.get_ref().len());
        let mut kept = Vec::with_capacity(self.alloc, bytes.len())?;
        kept.extend_from_slice(bytes)?;
        kept.extend_from_slice(&self.kept.get_ref().as_slice()[at..])?;
        self.kept = Cursor::new(kept);
        Ok(())
    }
}

impl<I: Read> Read for Parted<I> {
    fn read(&mut self, buf: &mut [u8]) -> io::Result<usize> {
        let Some(counting) = &self.counting else {
            return self.input.read(buf);
        };
        let mut counting = *counting;
        if self.part_ended {
            return Ok(0);
        }
        let n = self.read_on(buf)?;
        let end = counting.end_in(&buf[..n]);
        self.counting = Some(counting);
        match end {
            Some(end) => {
                self.keep(&buf[end..n])?;
                self.part_ended = true;
                Ok(end)
            }
            None => Ok(n),
        }
    }
}
