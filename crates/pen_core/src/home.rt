//! A fold's begin, and its ticks: its home writes, their sync, and its frame as the log job.

ghost use Rattle.std.specs.Prelude.{◌≡◌, ◌+◌, ◌-◌, ◌≤◌, ◌<◌, ◌^◌, length, map, take, OnOk, OnErr, IfOk, IfErr, IfSome, MatchResult, false};
ghost use Rattle.disk_core.specs.Fault.{CountsFailures};
ghost use Rattle.disk_core.specs.Moments.{LeavesOnly, clock};
ghost use Rattle.segment_core.specs.Written.{joined};
ghost use Rattle.pen_core.specs.Folds.{IsWholeFold};
ghost use Rattle.pen_core.specs.InHand.{gate_then};
ghost use Rattle.pen_core.specs.Pen.{MayOpen, IsKept, FileSame, IsHomeTicked, HomeTickCalls, HomeTickFails, IsHomeFault, home_calls_due, failed_calls, IsUnchanged, IsReadyToFold, IsFoldBarred};
ghost use Rattle.pen_core.specs.Pen.{IsFoldAnswer, IsFoldRefusal};

use crate::fault::PenFault;
use crate::fold::FRAME_LEN;
use crate::frame_bytes::put_fold;
use crate::pen::Pen;
use crate::stage::{FoldStage, HomeTicked};
use crate::step::PenStep;
use disk_core::Disk;
use record_core::Record;
use segment_core::{GATE_LIMIT, GrowthList, Tally};
use std::mem::swap;

/// Where the gate will stand behind the job in hand.
fn gate_behind(gate: u64, step: Option<PenStep>, bytes: &[u8]) -> u64
    requires { gate_then gate bytes.now step < 2 ^ 64 }
    ensures { result ≡ gate_then gate bytes.now step }
{
    match step {
        Some(_) => gate + (bytes.len() as u64).saturating_sub(1),
        None => gate,
    }
}

impl<D: Disk> Pen<D> {
    /// Whether a fold would be begun now, if memory for it can be had: not where no change is live. It takes no memory.
    ///
    /// Refused, in this order: `Broken`; `Busy`, while a fold is in hand; then, where a change is live, `FileFull`.
    pub fn ready_fold(&self) -> Result<bool, PenFault>
        ensures ready { IfOk result (λ ready. IsReadyToFold self.now ready) }
        ensures refused { IfErr result (λ fault. IsFoldBarred self.now fault) }
        ensures kept { D.keeps self.now.disk → IsKept (D.states self.now.disk) self.now }
    {
        self.whole()?;
        if !self.fold.is_none() {
            return Err(PenFault::Busy);
        }
        if self.tally.changes <= self.tally.folded {
            return Ok(false);
        }
        if gate_behind(self.gate, self.step, &self.bytes) >= GATE_LIMIT - FRAME_LEN {
            return Err(PenFault::FileFull);
        }
        Ok(true)
    }

    /// Begins to fold all changes in the file; one in hand isn't among them. The pieces begin with the file's vector
    /// now, in order; a job in hand doesn't count. Answers whether a fold was begun: not where no change is live.
    ///
    /// It takes all memory that the fold needs. Refused, in this order: `Broken`; `Busy`, while a fold is in hand;
    /// then, where a change is live, `FileFull`; `Memory`.
    pub fn begin_fold_from<R: Record, G: GrowthList<R>>(
        &mut self,
        pieces: &G,
    ) -> Result<bool, PenFault>
        requires width { R.form.width ≡ self.old.shape.width }
        requires all { self.old.tally.size ≤ length (joined (G.growths pieces.now)) }
        requires values { D.keeps self.old.disk → self.old.vector ≡ map R.form.bytes_of (take self.old.tally.size (joined (G.growths pieces.now))) }
        ensures begun { IfOk result (λ begun. IsFoldAnswer self.old self.new begun) }
        ensures plans { D.keeps self.old.disk → OnOk result (IfSome self.new.fold (λ fold. IsWholeFold self.old.shape self.old.frames self.old.vector fold.left)) }
        ensures refused { IfErr result (λ fault. IsFoldRefusal self.old fault) }
        ensures unchanged { OnErr result (IsUnchanged self.old self.new) }
        ensures kept { D.keeps self.new.disk → IsKept (D.states self.new.disk) self.new }
    {
        if !self.ready_fold()? {
            return Ok(false);
        }
        let live = &self.homes.live[..self.live];
        let width = self.shape.width as u64;
        if self
            .fold
            .plan::<R, G>(live, &self.homes.homes, self.tally.size, width, pieces)
            .is_err()
        {
            return Err(PenFault::Memory);
        }
        if put_fold(self.tally.changes, &mut self.fold.frame).is_err() {
            return Err(PenFault::Memory);
        }
        self.fold.count = self.tally.changes;
        self.fold.runs = self.live;
        self.fold.stage = FoldStage::Home(self.fold.writes.len() as u64);
        Ok(true)
    }

    /// Begins to fold all changes in the file. `begin_fold_from` says more.
    pub fn begin_fold<R: Record>(&mut self, pieces: &[&[R]]) -> Result<bool, PenFault>
        requires width { R.form.width ≡ self.old.shape.width }
        requires all { self.old.tally.size ≤ length (joined (map (λ piece. piece.now) pieces.now)) }
        requires values { D.keeps self.old.disk → self.old.vector ≡ map R.form.bytes_of (take self.old.tally.size (joined (map (λ piece. piece.now) pieces.now))) }
        ensures begun { IfOk result (λ begun. IsFoldAnswer self.old self.new begun) }
        ensures plans { D.keeps self.old.disk → OnOk result (IfSome self.new.fold (λ fold. IsWholeFold self.old.shape self.old.frames self.old.vector fold.left)) }
        ensures refused { IfErr result (λ fault. IsFoldRefusal self.old fault) }
        ensures unchanged { OnErr result (IsUnchanged self.old self.new) }
        ensures kept { D.keeps self.new.disk → IsKept (D.states self.new.disk) self.new }
    {
        self.begin_fold_from::<R, &[&[R]]>(&pieces)
    }

    /// Makes the next device call of the fold in hand: a home write, or the sync behind the last one; then, while no
    /// log job is in hand, the fold's frame becomes that. The fold ends once it is done. It takes no memory.
    ///
    /// Each image that a crash may leave inside the call opens to the vector of before, or to that with the job's
    /// frame. After `Disk` the pen is broken until the file is opened again.
    pub fn tick_home(&mut self) -> Result<HomeTicked, PenFault>
        ensures images { D.keeps self.new.disk
            → LeavesOnly (D.states self.old.disk) (D.states self.new.disk) (MayOpen self.old) }
        ensures kept { D.keeps self.new.disk → IsKept (D.states self.new.disk) self.new }
        ensures calls { D.keeps self.new.disk → MatchResult result
            (λ ticked. HomeTickCalls self.old.fold ticked (D.states self.old.disk) (D.states self.new.disk))
            (λ _. HomeTickFails self.old.broken self.old.fold (D.states self.old.disk) (D.states self.new.disk)) }
        ensures ticked { IfOk result (λ ticked. IsHomeTicked self.old self.new ticked) }
        ensures refused { IfErr result (λ fault. IsHomeFault self.old self.new fault) }
        ensures whole { OnOk result ((self.old.broken ≡ false) × (self.new.broken ≡ false)) }
        ensures file { D.keeps self.new.disk → FileSame self.old self.new }
        ensures time { clock (D.states self.new.disk) ≡ clock (D.states self.old.disk) + home_calls_due self.old.broken self.old.fold }
        ensures faults { CountsFailures failed_calls (D.faults self.old.disk) (D.faults self.new.disk) result }
        ensures model { D.keeps self.new.disk → D.keeps self.old.disk }
        ensures goes_on { D.keeps self.old.disk → OnOk result (D.keeps self.new.disk) }
    {
        if self.broken {
            return Err(PenFault::Broken);
        }
        if self.fold.has_call() {
            if let Err(fault) = self.fold.call(&mut self.disk) {
                self.broken = true;
                return Err(PenFault::Disk(fault));
            }
            self.fold.advance();
            return Ok(HomeTicked::Step);
        }
        if self.fold.is_none() {
            return Ok(HomeTicked::Idle);
        }
        // A filed fold is the job.
        if self.step.is_some() {
            return Ok(HomeTicked::Waiting);
        }
        swap(&mut self.bytes, &mut self.fold.frame);
        self.fold.stage = FoldStage::Filed;
        self.next = Tally {
            folded: self.fold.count,
            ..self.tally
        };
        self.step = Some(PenStep::Body);
        Ok(HomeTicked::Filed)
    }
}
