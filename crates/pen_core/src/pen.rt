//! A pen writes one segment file.

ghost use Rattle.std.specs.Prelude.{◌≡◌, ◌≤◌, ◌^◌, length, IfSome};
ghost use Rattle.pen_core.specs.InHand.{writes_left};
ghost use Rattle.pen_core.specs.Pen.{IsKept, stage_of};

use crate::fold::Fold;
use crate::stage::Stage;
use crate::step::PenStep;
use disk_core::Disk;
use segment_core::{Format, Homes, Shape, Tally};
use std::marker::Model;

/// A pen over one file. It commits one frame at a time, by four calls of the disk, and no crash breaks the file:
/// whatever one leaves opens to the vector of before, or to that after the frame.
#[derive(Drop)]
pub struct Pen<D: Disk> {
    pub(crate) disk: D,
    pub(crate) shape: Shape,
    /// The place of the closed gate behind the file's frames.
    pub(crate) gate: u64,
    /// What the file's frames leave.
    pub(crate) tally: Tally,
    /// What they leave once the job in hand is done.
    pub(crate) next: Tally,
    /// The job's frame with its gate open, and the next gate, closed. Its memory is used again.
    pub(crate) bytes: Vec<u8>,
    /// The device call that comes next, where a job is in hand.
    pub(crate) step: Option<PenStep>,
    /// Where the home bytes of the file's positions stand, and the runs of its live changes; behind them stands what
    /// the job in hand adds.
    pub(crate) homes: Homes,
    /// How many of the runs are of changes in the file.
    pub(crate) live: usize,
    /// The fold in hand.
    pub(crate) fold: Fold,
    /// A call of the disk has failed.
    pub(crate) broken: bool,
}

impl<D: Disk> Model for Pen<D> {
    ghost use Rattle.pen_core.specs.PenOf.{PenOf};

    ghost Value = { PenOf D };

    ghost use Rattle.pen_core.specs.Fields.{seen_as, IsSoundPen};

    ghost view = { λ pen. seen_as D.states pen };

    ghost invariant = { λ pen. IsSoundPen D.keeps D.states pen };
}

impl<D: Disk> Pen<D> {
    /// The disk as it stands.
    pub fn disk(&self) -> &D
        ensures disk { result.now ≡ self.now.disk }
        ensures kept { D.keeps result.now → IsKept (D.states result.now) self.now }
    {
        &self.disk
    }

    /// The disk as it stands, also behind a fault.
    pub fn into_disk(self) -> D
        ensures disk { result ≡ self.disk }
        ensures kept { D.keeps result → IsKept (D.states result) self }
    {
        self.disk
    }

    /// The version of the file.
    pub fn format(&self) -> Format
        ensures { result ≡ self.now.shape.format }
    {
        self.shape.format
    }

    /// How many records the vector has. A job in hand doesn't count.
    pub fn len(&self) -> u64
        ensures is { result ≡ self.now.tally.size }
        ensures few { result ≤ 2 ^ 32 }
    {
        self.tally.size
    }

    /// What is left of the job and of the fold.
    pub fn stage(&self) -> Stage
        ensures stage { result ≡ stage_of self.now }
        ensures homes { IfSome self.now.fold (λ fold. length fold.left ≡ writes_left fold.stage) }
    {
        let log = match self.step {
            Some(step) => step.left(),
            None => 0,
        };
        Stage {
            log,
            fold: self.fold.stage,
        }
    }
}
