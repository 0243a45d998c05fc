//! Standard input that a thread of its own reads ahead, so that what has come is handed on while more is waited for.

ghost use Rattle.std.specs.Prelude.{◌≤◌};
ghost use Rattle.std.specs.Io.{ReadsAtMost};

use crossbeam_channel::{Receiver, Sender, bounded};
use std::alloc::{AllocError, Global};
use std::io::{self, Cursor, ErrorKind, Read};
use std::mem;
use std::sync::Wait;
use std::thread::{self, Threads};
use std::time::{Clock, Duration, Instant};

/// The bytes that are read at once at most.
const PIECE_LEN: usize = 65_536;

/// The pieces that are read ahead at most.
const PIECES: usize = 16;

/// What one read gave. It is empty at the end of the input.
type Piece = io::Result<Vec<u8>>;

/// Reads, and again where a signal came in between.
fn read_uninterrupted<I: Read, E: Wait>(
    rt: &E,
    input: &mut I,
    buffer: &mut [u8],
) -> io::Result<usize> {
    for _ in rt.forever() {
        match input.read(buffer) {
            Err(error) if error.kind() == ErrorKind::Interrupted => {}
            read => return read,
        }
    }
    unreachable!()
}

/// Reads into a buffer that is free.
fn read_piece<I: Read, E: Wait>(rt: &E, input: &mut I, buffer: Vec<u8>) -> Piece {
    let mut buffer = buffer;
    buffer.resize(PIECE_LEN, 0)?;
    let n = read_uninterrupted(rt, input, buffer.as_mut_slice())?;
    buffer.truncate(n);
    Ok(buffer)
}

/// More may come behind this piece.
fn has_more(piece: &Piece) -> bool {
    match piece {
        Ok(bytes) => !bytes.is_empty(),
        Err(_) => false,
    }
}

/// Reads the input into free buffers, until it ends or fails, or nobody takes what was read.
fn read_ahead<I: Read + Drop, E: Wait>(
    rt: &E,
    input: I,
    free: &Receiver<Vec<u8>, Global>,
    pieces: &Sender<Piece, Global>,
) {
    let mut input = input;
    for _ in rt.forever() {
        let Ok(buffer) = free.recv(rt) else {
            return;
        };
        let piece = read_piece(rt, &mut input, buffer);
        let is_last = !has_more(&piece);
        if pieces.send(rt, piece).is_err() || is_last {
            return;
        }
    }
}

/// Whether more may come behind the bytes that are at hand.
#[derive(Clone, Copy)]
enum InputState {
    Open,
    Ended,
    Failed(io::Error),
}

/// The input as its thread reads it.
#[derive(Drop)]
struct Ahead {
    pieces: Receiver<Piece, Global>,
    free: Sender<Vec<u8>, Global>,
    /// The buffers that the thread gets at the first read.
    unsent: Vec<Vec<u8>>,
    /// The bytes at hand.
    bytes: Cursor<Vec<u8>>,
    state: InputState,
    /// How long what has come waits for more: so not each line of a slow input is committed for itself.
    pause: Duration,
    /// When the first byte came that was handed on behind the last pause.
    since: Option<Instant>,
}

/// So many buffers.
fn buffers(alloc: Global) -> Result<Vec<Vec<u8>>, AllocError> {
    let mut made = Vec::with_capacity(alloc, PIECES)?;
    for _ in 0..PIECES {
        made.push(Vec::with_capacity(alloc, PIECE_LEN)?)?;
    }
    Ok(made)
}

impl Ahead {
    /// Begins the thread. It reads nothing before it gets a buffer. None, where memory or the thread is refused.
    fn begin<E: Threads + Wait + Copy + Send + 'static>(
        threads: &E,
        host: &HostRuntime,
        pause: Duration,
    ) -> Option<Ahead> {
        let alloc = host.alloc();
        let unsent = buffers(alloc).ok()?;
        let none = Vec::with_capacity(alloc, PIECE_LEN).ok()?;
        let (free, buffers) = bounded(alloc, PIECES + 1).ok()?;
        let (sender, pieces) = bounded(alloc, PIECES).ok()?;
        let (rt, input) = (*threads, host.stdin());
        // The thread ends with the program, also where it waits for input then.
        let _reader = thread::spawn(
            threads,
            move || read_ahead(&rt, input, &buffers, &sender),
        ).ok()?;
        Some(Ahead {
            pieces,
            free,
            unsent,
            bytes: Cursor::new(none),
            state: InputState::Open,
            pause,
            since: None,
        })
    }

    /// Gives the thread its buffers.
    fn send_buffers<E: Wait>(&mut self, rt: &E) {
        for _ in 0..PIECES {
            if let Some(buffer) = self.unsent.pop() {
                let _ = self.free.send(rt, buffer);
            }
        }
    }

    /// The next piece. The first one of a read is waited for; another as long as the pause isn't over.
    fn next<E: Wait + Clock>(&mut self, rt: &E, is_first: bool) -> Option<Piece> {
        if !is_first {
            let until = self.since?.checked_add(self.pause)?;
            return self.pieces.recv_deadline(rt, until).ok();
        }
        let piece = match self.pieces.recv(rt) {
            Ok(piece) => piece,
            Err(_) => Err(ErrorKind::UnexpectedEof.into()),
        };
        if self.since.is_none() {
            self.since = Instant::now(rt).ok();
        }
        Some(piece)
    }

    /// Takes the next piece, and gives the buffer of the last one back. Whether there are bytes at hand then.
    fn takes_next<E: Wait + Clock>(&mut self, rt: &E, is_first: bool) -> bool {
        if !matches!(self.state, InputState::Open) {
            return false;
        }
        match self.next(rt, is_first) {
            Some(Ok(bytes)) if bytes.is_empty() => self.state = InputState::Ended,
            Some(Ok(bytes)) => {
                let last = mem::replace(&mut self.bytes, Cursor::new(bytes));
                let _ = self.free.send(rt, last.into_inner());
                return true;
            }
            Some(Err(error)) => self.state = InputState::Failed(error),
            None => self.since = None,
        }
        false
    }

    /// How many of the bytes that fill a read are kept for the next one: one, where no more comes in a pause. So that read
    /// gives less than it is asked for, and what has come isn't waited with.
    fn kept_back<E: Wait + Clock>(&mut self, rt: &E, filled: usize) -> usize
        ensures { result ≤ filled }
    {
        let at = self.bytes.position();
        if filled == 0 || at == 0 || at < self.bytes.get_ref().len() as u64 {
            return 0;
        }
        self.since = Instant::now(rt).ok();
        if self.takes_next(rt, false) || !matches!(self.state, InputState::Open) {
            return 0;
        }
        self.bytes.set_position(at - 1);
        1
    }

    fn read<E: Wait + Clock>(&mut self, rt: &E, buf: &mut [u8]) -> io::Result<usize>
        ensures { ReadsAtMost result buf.new }
    {
        self.send_buffers(rt);
        let mut filled = 0;
        for _ in rt.forever() {
            filled += self.bytes.read(&mut buf[filled..])?;
            if filled == buf.len() {
                return Ok(filled - self.kept_back(rt, filled));
            }
            if !self.takes_next(rt, filled == 0) {
                return match self.state {
                    InputState::Failed(error) if filled == 0 => Err(error),
                    _ => Ok(filled),
                };
            }
        }
        unreachable!()
    }
}

/// Standard input. Read ahead, it gives less than it is asked for where no more is at hand, and a pause has passed since the
/// first byte came behind the last such read.
#[derive(Drop)]
pub struct Paced<'a, E> {
    threads: &'a E,
    host: &'a HostRuntime,
    /// None, where the input is read directly.
    ahead: Option<Ahead>,
}

impl<'a, E: Threads + Wait + Copy + Send + 'static> Paced<'a, E> {
    /// Read ahead, if a pause of so many milliseconds is asked for, and neither memory nor a thread is refused for it. Nothing
    /// is read before the first read.
    pub fn new(threads: &'a E, host: &'a HostRuntime, pause: Option<u64>) -> Paced<'a, E> {
        let ahead = match pause {
            Some(millis) => Ahead::begin(threads, host, Duration::from_millis(millis)),
            None => None,
        };
        Paced {
            threads,
            host,
            ahead,
        }
    }
}

impl<'a, E: Wait + Clock> Read for Paced<'a, E> {
    fn read(&mut self, buf: &mut [u8]) -> io::Result<usize> {
        match &mut self.ahead {
            Some(ahead) => ahead.read(self.threads, buf),
            None => self.host.stdin().read(buf),
        }
    }
}
