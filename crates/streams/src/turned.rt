//! Input that is turned on its way: lines that are taken leniently, and floats.

ghost use Rattle.std.specs.Prelude.{◌≡◌, IfOk, MatchOption};
ghost use Rattle.std.specs.Io.{ReadsAtMost};
ghost use Rattle.lines_core.specs.Strict.{strict_bytes};

use float_core::{Encoder, FloatLines, FloatType};
use lines_core::{Held, NOTHING_HELD};
use std::alloc::{AllocError, Global};
use std::io::{self, Cursor, Read};

/// The bytes that are read at once.
const PIECE_LEN: usize = 65_536;

/// What the bytes of an input are turned into on their way. Where it is neither, they are given as they are.
#[derive(Clone, Copy)]
pub struct Turn {
    /// Lines are taken leniently: the strict lines are given that they stand for.
    pub lenient: bool,
    /// Floats of these lines are given as the numbers that have their bits.
    pub floats: Option<(FloatType, FloatLines)>,
}

/// What was read of an input, as what it is turned into.
#[derive(Drop)]
struct Turning {
    alloc: Global,
    piece: Vec<u8>,
    /// What is held back of a lenient line. None: lines are strict.
    held: Option<Held>,
    encoder: Option<Encoder>,
    /// The turned bytes at hand.
    bytes: Cursor<Vec<u8>>,
    /// The last read gave all that it asked for, so more is at hand.
    has_more: bool,
    /// The input has ended.
    ended: bool,
    /// Why the input gave no more, where it gave bytes before that: the next read is refused so.
    failed: Option<io::Error>,
}

/// What has the floats of an input turned.
fn encoder_of(alloc: Global, floats: Option<(FloatType, FloatLines)>) -> Option<Encoder> {
    let (float, lines) = floats?;
    Some(Encoder::new(alloc, float, lines))
}

/// The strict bytes that these are known to stand for.
fn strict_of(alloc: Global, held: &mut Option<Held>, read: &[u8]) -> Result<Vec<u8>, AllocError>
    ensures { IfOk result (λ strict. MatchOption held.old (strict.items ≡ read.now) (λ before. strict.items ≡ strict_bytes before read.now)) }
{
    let mut strict = Vec::with_capacity(alloc, PIECE_LEN)?;
    match held {
        Some(held) => held.append_strict(read, &mut strict)?,
        None => strict.extend_from_slice(read)?,
    }
    Ok(strict)
}

/// What is given for these bytes, and behind the last of the input for what was held back.
fn turned_of(
    alloc: Global,
    encoder: &mut Option<Encoder>,
    strict: Vec<u8>,
    ended: bool,
) -> Result<Vec<u8>, AllocError> {
    let Some(encoder) = encoder else {
        return Ok(strict);
    };
    let mut bytes = Vec::with_capacity(alloc, PIECE_LEN)?;
    encoder.append_encoded(strict.as_slice(), &mut bytes)?;
    if ended {
        encoder.end(&mut bytes)?;
    }
    Ok(bytes)
}

impl Turning {
    fn new(alloc: Global, turn: Turn) -> Result<Turning, AllocError> {
        let mut piece = Vec::with_capacity(alloc, PIECE_LEN)?;
        piece.resize(PIECE_LEN, 0)?;
        Ok(Turning {
            alloc,
            piece,
            held: turn.lenient.then_some(NOTHING_HELD),
            encoder: encoder_of(alloc, turn.floats),
            bytes: Cursor::new(Vec::new(alloc)),
            has_more: true,
            ended: false,
            failed: None,
        })
    }

    /// Reads a piece, where the bytes at hand have all been given. Whether there may be more then.
    fn read_piece<I: Read>(&mut self, input: &mut I) -> io::Result<bool> {
        if let Some(error) = self.failed.take() {
            return Err(error);
        }
        if self.ended {
            return Ok(false);
        }
        let n = input.read(self.piece.as_mut_slice())?;
        let strict = strict_of(self.alloc, &mut self.held, &self.piece[..n])?;
        let turned = turned_of(self.alloc, &mut self.encoder, strict, n == 0)?;
        self.bytes = Cursor::new(turned);
        self.has_more = n == self.piece.len();
        self.ended = n == 0;
        Ok(n > 0 || !self.bytes.get_ref().is_empty())
    }

    /// Reads less than is asked for where no more is at hand, as the input does.
    fn read<I: Read>(&mut self, input: &mut I, buf: &mut [u8]) -> io::Result<usize>
        ensures { ReadsAtMost result buf.new }
    {
        let mut filled = 0;
        for _ in 0..u64::MAX {
            let kept_back = usize::from(!self.has_more && buf.len() > 1);
            let end = buf.len() - kept_back;
            if filled < end {
                filled += self.bytes.read(&mut buf[filled..end])?;
            }
            if filled >= end || (filled > 0 && !self.has_more) {
                return Ok(filled);
            }
            match self.read_piece(input) {
                Ok(true) => {}
                Ok(false) => return Ok(filled),
                Err(error) if filled == 0 => return Err(error),
                Err(error) => {
                    self.failed = Some(error);
                    return Ok(filled);
                }
            }
        }
        Ok(filled)
    }
}

/// Gives what the input is turned into; or the input itself, where nothing is asked for.
#[derive(Drop)]
pub struct Turned<I> {
    input: I,
    /// None: the input itself is given.
    turning: Option<Turning>,
}

impl<I: Drop> Turned<I> {
    pub fn new(alloc: Global, input: I, turn: Turn) -> Result<Turned<I>, AllocError> {
        let turning = if turn.lenient || turn.floats.is_some() {
            Some(Turning::new(alloc, turn)?)
        } else {
            None
        };
        Ok(Turned { input, turning })
    }
}

impl<I: Read> Read for Turned<I> {
    fn read(&mut self, buf: &mut [u8]) -> io::Result<usize> {
        match &mut self.turning {
            Some(turning) => turning.read(&mut self.input, buf),
            None => self.input.read(buf),
        }
    }
}
