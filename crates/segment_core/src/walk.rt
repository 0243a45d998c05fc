//! A walk over the frames of an image, one step a frame.

ghost use Rattle.std.specs.Prelude.{◌≡◌, ◌≤◌, ◌<◌, ◌+◌, ◌^◌, ◌++◌, ◌⊎◌, ◌∷◌, [], ℕ, List, Some, length, drop, OnOk, IfOk, IfErr, vec_capacity};
ghost use Rattle.segment_core.specs.Frame.{Frame};
ghost use Rattle.segment_core.specs.Layout.{IsFrame};
ghost use Rattle.segment_core.specs.Fault.{first_line, order_lines};
ghost use Rattle.segment_core.specs.Walk.{IsBehind, StandsBefore, IsTail, IsWalkRefused};

use crate::fault::ScanFault;
use crate::format::{HEADER_LEN, Shape};
use crate::found::Found;
use crate::frame::{FrameReader, read_frame};
use crate::frame_head::Unread;
use crate::tally::Tally;
use record_core::Record;
use std::alloc::Global;

/// What stands behind the frames that were read.
#[derive(Clone, Copy)]
pub(crate) enum Tail {
    /// A closed gate: the frames end.
    Closed,
    /// The front of a frame, or nothing.
    Short,
}

/// What the frames before `at` leave.
#[derive(Drop)]
pub(crate) struct Walk<R> {
    pub(crate) shape: Shape,
    /// The place of the next gate.
    pub(crate) at: usize,
    /// The frames so far.
    pub(crate) frames: u64,
    pub(crate) tally: Tally,
    /// What they say of the vector.
    pub(crate) found: Found<R>,
}

impl<R: Record> Walk<R> {
    /// A walk that stands behind the header of a file of this shape. It has no memory of its own so far but for
    /// `room` records, where that could be had.
    pub(crate) fn new(alloc: Global, shape: Shape, room: usize) -> Walk<R>
        requires { shape.width ≡ R.form.width }
        ensures shape { result.shape ≡ shape }
        ensures behind { IsBehind R.form [] result }
        ensures room { vec_capacity result.found.records ≤ room }
    {
        Walk {
            shape,
            at: HEADER_LEN,
            frames: 0,
            tally: Tally {
                size: 0,
                changes: 0,
                folded: 0,
            },
            found: Found::new(alloc, room),
        }
    }

    /// Takes in the whole frames that these bytes begin with, and answers how many bytes they are and what
    /// stands behind them.
    pub(crate) fn read(&mut self, bytes: &[u8]) -> Result<(usize, Tail), ScanFault>
        requires { (image : List ℕ) × StandsBefore R.form image bytes.now self.old × (length image < 2 ^ 64) }
        ensures shape { self.new.shape ≡ self.old.shape }
        ensures stands { IfOk result (λ end. (image : List ℕ) → StandsBefore R.form image bytes.now self.old → StandsBefore R.form image (drop end.0 bytes.now) self.new) }
        ensures tail { IfOk result (λ end. (end.0 ≤ length bytes.now) × IsTail self.new.shape self.new.at (drop end.0 bytes.now) end.1) }
        ensures err { IfErr result (λ fault. (image : List ℕ) → StandsBefore R.form image bytes.now self.old → IsWalkRefused self.old.shape image fault) }
    {
        let mut used = 0;
        loop {
            match read_frame(&bytes[used..], self.at, self.shape) {
                Ok(Some(frame)) => {
                    self.step(&frame)?;
                    used += frame.len();
                }
                Ok(None) => return Ok((used, Tail::Closed)),
                Err(Unread::Short) => return Ok((used, Tail::Short)),
                Err(Unread::Fault(fault)) => return Err(fault),
            }
        }
    }

    /// Takes in the next frame.
    fn step(&mut self, frame: &FrameReader<'_>) -> Result<(), ScanFault>
        requires behind { (frames : List Frame) × IsBehind R.form frames self.old }
        requires at { frame.now.at ≡ self.old.at }
        requires placed { self.old.at < 2 ^ 64 }
        requires shaped { frame.now.shape ≡ self.old.shape }
        requires whole { IsFrame self.old.shape frame.now.frame }
        ensures shape { self.new.shape ≡ self.old.shape }
        ensures ok { OnOk result ((frames : List Frame) → IsBehind R.form frames self.old → IsBehind R.form (frames ++ frame.now.frame ∷ []) self.new) }
        ensures err { IfErr result (λ fault. (first_line (order_lines self.old.at self.old.tally frame.now.frame) ≡ Some fault) ⊎ (fault ≡ ScanFault.Memory)) }
    {
        self.tally.check(frame)?;
        match self.found.take(frame) {
            Ok(()) => {}
            Err(_) => return Err(ScanFault::Memory),
        }
        self.tally = self.tally.after(frame);
        self.at += frame.len();
        self.frames += 1;
        Ok(())
    }
}
