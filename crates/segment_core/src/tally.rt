//! What frames leave, and which frame may come then.

ghost use Rattle.std.specs.Prelude.{◌≡◌, ◌≤◌, ◌<◌, ◌^◌, Some, MatchResult};
ghost use Rattle.record_core.specs.Limits.{record_limit};
ghost use Rattle.segment_core.specs.Tally.{after, are_ascending, are_inside, is_outside, is_unfolded, is_miscounted, is_too_long, MayFollow};
ghost use Rattle.segment_core.specs.Fault.{first_line, order_lines};
ghost use Rattle.segment_core.specs.Reading.{runs_of};

use crate::fault::{Cause, ScanFault, damaged};
use crate::format::FrameKind;
use crate::frame::FrameReader;
use record_core::RECORD_LIMIT;

/// What the frames so far leave.
#[derive(Clone, Copy)]
pub struct Tally {
    /// The vector's length.
    pub size: u64,
    /// The changes so far.
    pub changes: u64,
    /// The count of the last fold, 0 where there is none.
    pub folded: u64,
}

/// Whether each run of a change begins at or behind the end of the one before.
fn runs_ascend(frame: &FrameReader<'_>) -> bool
    ensures { result ≡ are_ascending 0 (runs_of frame.now.frame) }
{
    let mut end: u128 = 0;
    for k in 0..frame.runs() {
        let (start, count) = frame.run(k);
        if u128::from(start) < end {
            return false;
        }
        end = u128::from(start) + u128::from(count);
    }
    true
}

/// Whether the runs of a change end inside a vector of this length.
fn runs_inside(frame: &FrameReader<'_>, size: u64) -> bool
    ensures { result ≡ are_inside size (runs_of frame.now.frame) }
{
    for k in 0..frame.runs() {
        let (start, count) = frame.run(k);
        if count > size || start > size - count {
            return false;
        }
    }
    true
}

impl Tally {
    /// Whether the frame is a change outside the vector, or a shrink to more than it has.
    #[tactic(auto, using(crate::proofs::Tallied::outside_by_runs))]
    fn is_outside(&self, frame: &FrameReader<'_>) -> bool
        ensures { result ≡ is_outside self.now frame.now.frame }
    {
        match frame.kind() {
            FrameKind::Shrink => frame.new_length() > self.size,
            _ => !runs_inside(frame, self.size),
        }
    }

    /// Whether the frame is a shrink while a change is live.
    #[tactic(auto, using(crate::proofs::Tallied::unfolded_by_shrink, crate::proofs::Tallied::folded_otherwise))]
    fn is_unfolded(&self, frame: &FrameReader<'_>) -> bool
        ensures { result ≡ is_unfolded self.now frame.now.frame }
    {
        match frame.kind() {
            FrameKind::Shrink => self.folded < self.changes,
            _ => false,
        }
    }

    /// Whether the frame is a fold whose count falls, or passes the changes so far.
    #[tactic(auto, using(crate::proofs::Tallied::counted_otherwise))]
    fn is_miscounted(&self, frame: &FrameReader<'_>) -> bool
        ensures { result ≡ is_miscounted self.now frame.now.frame }
    {
        match frame.kind() {
            FrameKind::Fold => frame.fold_count() < self.folded
                || self.changes < frame.fold_count(),
            _ => false,
        }
    }

    /// Whether the frame is a group that brings the vector past `RECORD_LIMIT`.
    #[tactic(auto, using(crate::proofs::Tallied::too_long_group, crate::proofs::Tallied::short_otherwise))]
    fn is_too_long(&self, frame: &FrameReader<'_>) -> bool
        requires { self.now.size ≤ record_limit }
        ensures { result ≡ is_too_long self.now frame.now.frame }
    {
        match frame.kind() {
            FrameKind::Group => RECORD_LIMIT < self.size + u64::from(frame.records()),
            _ => false,
        }
    }

    /// Whether the frame may come now. The fault is the first that it has after the frames before it.
    pub fn check(&self, frame: &FrameReader<'_>) -> Result<(), ScanFault>
        requires { self.now.size ≤ record_limit }
        ensures { MatchResult result
            (λ _. MayFollow self.now frame.now.frame)
            (λ fault. first_line (order_lines frame.now.at self.now frame.now.frame) ≡ Some fault) }
    {
        let payload = frame.payload_at();
        if !runs_ascend(frame) {
            return Err(damaged(payload, Cause::Runs));
        }
        if self.is_outside(frame) {
            return Err(damaged(payload, Cause::Range));
        }
        if self.is_unfolded(frame) {
            return Err(ScanFault::Damaged {
                at: frame.at(),
                cause: Cause::Unfolded,
            });
        }
        if self.is_miscounted(frame) {
            return Err(damaged(payload, Cause::FoldCount));
        }
        if self.is_too_long(frame) {
            return Err(damaged(payload, Cause::TooLong));
        }
        Ok(())
    }

    /// What the frame leaves behind these.
    pub fn after(self, frame: &FrameReader<'_>) -> Tally
        requires may { MayFollow self frame.now.frame }
        requires few { self.changes < 2 ^ 63 }
        ensures { result ≡ after self frame.now.frame }
    {
        match frame.kind() {
            FrameKind::Group => Tally {
                size: self.size + u64::from(frame.records()),
                ..self
            },
            FrameKind::Change => Tally {
                changes: self.changes + 1,
                ..self
            },
            FrameKind::Shrink => Tally {
                size: frame.new_length(),
                ..self
            },
            FrameKind::Fold => Tally {
                folded: frame.fold_count(),
                ..self
            },
        }
    }
}
