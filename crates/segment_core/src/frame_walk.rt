//! A walk over the frames of a file that reads none of their records.

ghost use Rattle.std.specs.Prelude.{◌≡◌, ◌≤◌, ◌<◌, ◌+◌, ◌^◌, ◌++◌, ◌∷◌, [], ℕ, List, Some, length, take, drop, min, OnOk, IfOk, IfErr, MatchResult};
ghost use Rattle.segment_core.specs.declared.format.FrameKind.{FrameKind};
ghost use Rattle.segment_core.specs.Frame.{Frame, header, header_len};
ghost use Rattle.segment_core.specs.Fault.{header_fault, IsSound};
ghost use Rattle.segment_core.specs.FrameHead.{front_len, FitsNumber};
ghost use Rattle.segment_core.specs.FrameWalk.{heads_len, IsFrameFront, HasPrefix, HasWalked, HasAdvanced, IsTaken, IsFramed, IsEndedBy};

use crate::fault::ScanFault;
use crate::file_header::check_header;
use crate::format::{COUNT_LEN, FRAME_HEAD_LEN, FRONT_LEN, Format, FrameKind, HEADER_LEN, Shape};
use crate::found::{Home, Homes};
use crate::frame::read_frame;
use crate::frame_head::FrameHead;
use crate::places::Places;
use crate::tally::Tally;
use std::alloc::{AllocError, Global};

/// What the first bytes of a frame came to.
#[derive(Clone, Copy)]
pub enum Advance {
    /// The gate is closed: the frames end.
    Closed,
    /// The frame is behind the walk.
    Taken,
    /// As many of its first bytes are needed.
    Needs(u64),
}

/// What the frames before `at` leave, and where their records stand. Of each frame it is shown what stands before the
/// records: the gate, the head, and the lengths of growths or the runs.
#[derive(Drop)]
pub struct FrameWalk {
    shape: Shape,
    /// The place of the next gate.
    at: usize,
    /// The frames so far.
    frames: u64,
    tally: Tally,
    places: Places,
    /// Begins with the frame that is read. Where its records would stand is anything.
    bytes: Vec<u8>,
}

/// What the frames of a file leave, and where its records stand.
#[derive(Drop)]
pub struct Framed {
    pub shape: Shape,
    /// The place of the gate behind the frames.
    pub gate: u64,
    /// How many frames there are.
    pub frames: u64,
    pub tally: Tally,
    /// Where the home bytes stand, and the runs of the live changes.
    pub homes: Homes,
    /// Where the records of these runs stand, in their order: a later one is laid over those before it.
    pub live: Vec<Home>,
}

/// The bytes of a frame before its records, as its head tells them: not more than the frame has.
fn front_size(head: FrameHead, format: Format) -> u64
    requires { FitsNumber format head.kind head.payload_len head.number }
    ensures { result ≡ 6 + min head.payload_len (heads_len format head.kind head.number) }
{
    let len = match head.kind {
        FrameKind::Group => (head.number + 1) * COUNT_LEN as u64,
        FrameKind::Change => format.runs_len(head.number as usize) as u64,
        FrameKind::Shrink | FrameKind::Fold => head.payload_len,
    };
    FRAME_HEAD_LEN as u64 + len.min(head.payload_len)
}

/// Writes these over the first bytes.
fn put_over(front: &[u8], bytes: &mut [u8])
    requires { length front.now ≤ length bytes.old }
    ensures { take (length front.now) bytes.new ≡ front.now }
{
    bytes[..front.len()].copy_from_slice(front);
}

/// Lets the first bytes be these, of `len` at least.
fn put_front(front: &[u8], len: usize, frame: &mut Vec<u8>) -> Result<(), AllocError>
    requires { length front.now ≤ len }
    ensures long { OnOk result (len ≤ length frame.new.items) }
    ensures begins { OnOk result (take (length front.now) frame.new.items ≡ front.now) }
{
    if frame.len() < len {
        frame.resize(len, 0)?;
    }
    put_over(front, frame);
    Ok(())
}

impl FrameWalk {
    /// A walk that stands behind the header of a file of this shape.
    fn new(alloc: Global, shape: Shape) -> FrameWalk
        requires { 0 < shape.width }
        ensures shape { result.shape ≡ shape }
        ensures walked { HasWalked [] result }
    {
        FrameWalk {
            shape,
            at: HEADER_LEN,
            frames: 0,
            tally: Tally {
                size: 0,
                changes: 0,
                folded: 0,
            },
            places: Places::new(alloc),
            bytes: Vec::new(alloc),
        }
    }

    /// A walk that stands behind the header of a file of so many bytes, of which these are the first: `HEADER_LEN`, where
    /// there are as many. It takes no memory so far. Refused where the header has a fault, for records of this width in
    /// bytes.
    pub fn begin(alloc: Global, front: &[u8], left: u64, width: u16) -> Result<FrameWalk, ScanFault>
        requires wide { 0 < width }
        requires enough { length front.now ≡ min header_len left }
        ensures walked { IfOk result (λ walk. (walk.shape.width ≡ width) × (header_len ≤ left) × HasWalked [] walk) }
        ensures header { (bytes : List ℕ) → HasPrefix front.now left bytes → MatchResult result
            (λ walk. IsSound width walk.shape.format bytes × (bytes ≡ header walk.shape ++ drop header_len bytes))
            (λ fault. header_fault width bytes ≡ Some fault) }
    {
        let width = width as usize;
        let format = check_header(front, width)?;
        Ok(FrameWalk::new(alloc, Shape { format, width }))
    }

    /// The place of the next gate.
    pub fn at(&self) -> u64
        ensures { result ≡ self.now.at }
    {
        self.at as u64
    }

    /// Takes in the next frame, of which these are the first bytes: `FRONT_LEN` at least, where so many of the file are
    /// left from its gate on. Where more of them are needed, nothing has changed.
    pub fn advance(&mut self, front: &[u8], left: u64) -> Result<Advance, ScanFault>
        requires walked { (frames : List Frame) × HasWalked frames self.old }
        requires place { self.old.at + left < 2 ^ 64 }
        requires enough { min front_len left ≤ length front.now }
        requires inside { length front.now ≤ left }
        ensures shape { self.new.shape ≡ self.old.shape }
        ensures advanced { IfOk result (HasAdvanced self.old front.now left self.new) }
        ensures ended { IfErr result (λ fault. (bytes : List ℕ) → HasPrefix front.now left bytes → IsEndedBy self.old bytes fault) }
    {
        let first = &front[..front.len().min(FRONT_LEN)];
        let found = match FrameHead::read(first, left, self.at as u64, self.shape) {
            Ok(found) => found,
            Err(unread) => return Err(unread.fault(self.at as u64, left)),
        };
        let Some(head) = found else {
            return Ok(Advance::Closed);
        };
        let size = front_size(head, self.shape.format);
        if (front.len() as u64) < size {
            return Ok(Advance::Needs(size));
        }
        self.take(
            &front[..size as usize],
            FRAME_HEAD_LEN + head.payload_len as usize,
        )?;
        Ok(Advance::Taken)
    }

    /// What the frames leave that are behind the walk. Refused for want of memory alone.
    pub fn finish(self) -> Result<Framed, ScanFault>
        ensures shape { IfOk result (λ framed. framed.shape ≡ self.shape) }
        ensures gate { IfOk result (λ framed. framed.gate ≡ self.at) }
        ensures framed { IfOk result (λ framed. (frames : List Frame) → HasWalked frames self → IsFramed frames framed) }
        ensures memory { IfErr result (λ fault. fault ≡ ScanFault.Memory) }
    {
        let Ok((homes, live)) = self.places.finish() else {
            return Err(ScanFault::Memory);
        };
        Ok(Framed {
            shape: self.shape,
            gate: self.at as u64,
            frames: self.frames,
            tally: self.tally,
            homes,
            live,
        })
    }

    /// Takes in the frame of so many bytes of which these stand before its records.
    fn take(&mut self, front: &[u8], len: usize) -> Result<(), ScanFault>
        requires walked { (frames : List Frame) × HasWalked frames self.old }
        requires place { self.old.at + len < 2 ^ 64 }
        requires front { (kind : FrameKind) × IsFrameFront self.old.shape.format kind len front.now }
        ensures shape { self.new.shape ≡ self.old.shape }
        ensures taken { OnOk result ((left : ℕ) → len ≤ left → IsTaken self.old front.now left self.new) }
        ensures ended { IfErr result (λ fault. (left : ℕ) (bytes : List ℕ) → len ≤ left → HasPrefix front.now left bytes → IsEndedBy self.old bytes fault) }
    {
        let Ok(()) = put_front(front, len, &mut self.bytes) else {
            return Err(ScanFault::Memory);
        };
        let frame = match read_frame(&self.bytes[..len], self.at, self.shape) {
            Ok(Some(frame)) => frame,
            Ok(None) => unreachable!(),
            Err(unread) => return Err(unread.fault(self.at as u64, len as u64)),
        };
        self.tally.check(&frame)?;
        let Ok(()) = self.places.take(&frame, self.tally) else {
            return Err(ScanFault::Memory);
        };
        self.tally = self.tally.after(&frame);
        self.at += frame.len();
        self.frames += 1;
        Ok(())
    }
}
