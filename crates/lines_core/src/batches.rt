//! Lines that are read a batch after the other.

ghost use Rattle.std.specs.Prelude.{◌≡◌, ◌≤◌, drop, length, MatchOption};
ghost use Rattle.std.specs.Io.KnownBytes.{prepend_known};
ghost use Rattle.std.specs.NonZero.{non_zero_u32_get};
ghost use Rattle.lines_core.specs.Batches.{IsBatch, IsFilled, IsWholeLen};
ghost use Rattle.lines_core.specs.Excerpts.{IsRestShown};

use crate::excerpt::Excerpt;
use crate::gathering::whole_blocks;
use crate::line_blocks::{Front, LineBlocks, read_front};
use segment_core::Growths;
use std::alloc::Global;
use std::io::Read;
use std::num::NonZeroU32;
use text_core::{INPUT_LIMIT, Refusal, TextRecord};

/// The bytes that are read at least before blocks are committed, where so many are at hand.
const BATCH_LEN: usize = 4_194_304;

/// The bytes that one read asks for at most.
const PIECE_LEN: usize = 65_536;

/// What is to come of an input behind what was read.
#[derive(Clone, Copy)]
pub enum Rest {
    More,
    Nothing,
    /// A line that was read is refused, by its number among those that were read.
    Refused(Refusal),
    /// It wasn't read.
    Unread(Refusal),
}

impl Rest {
    /// The same, unless a line that was read is refused.
    fn or_refused(self, refusal: Option<Refusal>) -> Rest
        ensures { MatchOption refusal (result ≡ self) (λ r. result ≡ Rest.Refused r) }
    {
        match refusal {
            Some(refusal) => Rest::Refused(refusal),
            None => self,
        }
    }
}

/// Growths of lines that were read, and what is to come behind them.
#[derive(Drop)]
pub struct LineBatch<R> {
    pub growths: Growths<R>,
    /// How many lines they are of.
    pub lines: u64,
    pub rest: Rest,
    /// Of the line that is refused, where it is no growth line.
    pub shown: Option<Excerpt>,
}

/// A refusal of lines behind so many others.
pub fn behind(lines: u64, refusal: Refusal) -> Refusal {
    match refusal {
        Refusal::Line(n) => Refusal::Line(n.saturating_add(lines)),
        Refusal::TooLargeAtLine(n) => Refusal::TooLargeAtLine(n.saturating_add(lines)),
        other => other,
    }
}

/// Reads into the buffer until it has a whole line more, and either a batch or all that the reader has at hand: then a read
/// gives less than it is asked for. So what has come is committed, and doesn't wait for more.
fn fill<I: Read>(reader: &mut I, buffer: &mut Vec<u8>) -> Rest
    ensures { IsFilled (I.remaining reader.old) (I.remaining reader.new) buffer.old.items buffer.new.items result }
{
    let mut piece = [0u8; PIECE_LEN];
    let mut fresh: usize = 0;
    let mut has_line = false;
    for _ in 0..=INPUT_LIMIT {
        let Ok(n) = reader.read(&mut piece) else {
            return Rest::Unread(Refusal::Input);
        };
        if n == 0 {
            return Rest::Nothing;
        }
        if buffer.extend_from_slice(&piece[..n]).is_err() {
            return Rest::Unread(Refusal::Memory);
        }
        fresh = fresh.saturating_add(n);
        has_line = has_line || piece[..n].contains(&b'\n');
        if has_line && (fresh >= BATCH_LEN || n < PIECE_LEN) {
            return Rest::More;
        }
        if buffer.len() > INPUT_LIMIT {
            return Rest::Unread(Refusal::InputTooLong);
        }
    }
    Rest::Unread(Refusal::InputTooLong)
}

/// How many bytes of a buffer are of lines that have come: all, where nothing is to come, else those of whole blocks.
fn whole_len(buffer: &[u8], block: NonZeroU32, rest: Rest) -> usize
    ensures within { result ≤ length buffer.now }
    ensures whole { IsWholeLen (non_zero_u32_get block) buffer.now result rest }
{
    match rest {
        Rest::Nothing => buffer.len(),
        _ => whole_blocks(buffer, block),
    }
}

/// Takes so many bytes from the front of a buffer.
fn drop_front(buffer: &mut Vec<u8>, len: usize)
    requires { len ≤ length buffer.old.items }
    ensures { buffer.new.items ≡ drop len buffer.old.items }
{
    buffer.drain(..len);
}

/// Reads some blocks of lines behind those that were read, and their growths.
pub fn read_batch<R: TextRecord, I: Read>(
    alloc: Global,
    reader: &mut I,
    buffer: &mut Vec<u8>,
    block: NonZeroU32,
) -> LineBatch<R>
    ensures batch { IsBatch R.spelling (non_zero_u32_get block)
        (prepend_known buffer.old.items (I.remaining reader.old)) (prepend_known buffer.new.items (I.remaining reader.new)) result.growths.0 result.lines result.rest }
    ensures shown { IsRestShown R.spelling (prepend_known buffer.old.items (I.remaining reader.old)) result.rest result.shown }
{
    let rest = fill(reader, buffer);
    let len = whole_len(buffer, block, rest);
    let Front {
        blocks,
        refusal,
        shown,
    } = read_front::<R>(alloc, &buffer[..len], block);
    drop_front(buffer, len);
    let LineBlocks { growths, lines } = blocks;
    LineBatch {
        growths,
        lines,
        rest: rest.or_refused(refusal),
        shown,
    }
}
