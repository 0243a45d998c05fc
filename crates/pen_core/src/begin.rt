//! The begin of a job: it tests all refusals and takes all memory, so that the ticks take none.

ghost use Rattle.std.specs.Prelude.{◌≡◌, ◌≤◌, ◌<◌, ◌^◌, None, Some, true, false, take, OnOk, OnErr, IfErr};
ghost use Rattle.std.specs.Option.{is_some};
ghost use Rattle.segment_core.specs.Frame.{Shrink};
ghost use Rattle.pen_core.specs.Pen.{BeginsFrame, IsKept, IsUnchanged, vector_after};
ghost use Rattle.pen_core.specs.Refusals as refusals;
ghost use Rattle.pen_core.specs.Refusals.{first_refusal, IsRefusal, ready_lines, shrink_lines};

use crate::fault::PenFault;
use crate::frame_bytes::put_shrink;
use crate::pen::Pen;
use crate::step::PenStep;
use disk_core::Disk;
use segment_core::{FRAME_HEAD_LEN, GATE_LIMIT, SHRINK_PAYLOAD_LEN, Tally};

impl<D: Disk> Pen<D> {
    /// Refused: `Broken`, where a call of the disk has failed.
    pub(crate) fn whole(&self) -> Result<(), PenFault>
        ensures whole { OnOk result (self.now.broken ≡ false) }
        ensures short { self.now.tally.size ≤ 2 ^ 32 }
        ensures refused { IfErr result (λ fault. (fault ≡ PenFault.Broken) × (self.now.broken ≡ true)) }
        ensures kept { D.keeps self.now.disk → IsKept (D.states self.now.disk) self.now }
    {
        if self.broken {
            return Err(PenFault::Broken);
        }
        Ok(())
    }

    /// Whether a log job may be begun: what each begin tests first.
    ///
    /// Refused, in this order: `Broken`, where a call of the disk has failed; `Busy`, while a log job is in hand.
    pub fn ready(&self) -> Result<(), PenFault>
        ensures whole { OnOk result (self.now.broken ≡ false) }
        ensures idle { OnOk result (is_some self.now.job ≡ false) }
        ensures short { self.now.tally.size ≤ 2 ^ 32 }
        ensures allowed { OnOk result (first_refusal (ready_lines self.now) ≡ None) }
        ensures refused { IfErr result (λ fault. first_refusal (ready_lines self.now) ≡ Some fault) }
        ensures kept { D.keeps self.now.disk → IsKept (D.states self.now.disk) self.now }
    {
        self.whole()?;
        if self.step.is_some() {
            return Err(PenFault::Busy);
        }
        Ok(())
    }

    /// Whether the file has no room for a frame with a payload of so many bytes. Each begin tests it last but memory.
    pub fn is_full(&self, payload: usize) -> bool
        requires { payload < 2 ^ 32 }
        ensures { result ≡ refusals.is_full self.now payload }
    {
        self.gate >= GATE_LIMIT
            || self.gate + (FRAME_HEAD_LEN + payload) as u64 + self.fold.frame_len() >= GATE_LIMIT
    }

    /// Begins to shrink the vector to its first `n` records.
    ///
    /// Refused, in this order: `Broken`; `Busy`; `OutOfRange`, where it has fewer; `Unfolded`, while a change is live;
    /// `FileFull`; `Memory`.
    pub fn begin_shrink(&mut self, n: u64) -> Result<(), PenFault>
        ensures begun { OnOk result (BeginsFrame (Shrink n) self.old self.new) }
        ensures vector { OnOk result (vector_after self.new ≡ take n self.old.vector) }
        ensures allowed { OnOk result (first_refusal (shrink_lines self.old n) ≡ None) }
        ensures refused { IfErr result (λ fault. IsRefusal (shrink_lines self.old n) fault) }
        ensures unchanged { OnErr result (IsUnchanged self.old self.new) }
        ensures kept { D.keeps self.new.disk → IsKept (D.states self.new.disk) self.new }
    {
        self.ready()?;
        if n > self.tally.size {
            return Err(PenFault::OutOfRange);
        }
        if self.tally.folded < self.tally.changes {
            return Err(PenFault::Unfolded);
        }
        if self.is_full(SHRINK_PAYLOAD_LEN) {
            return Err(PenFault::FileFull);
        }
        if put_shrink(n, &mut self.bytes).is_err() {
            return Err(PenFault::Memory);
        }
        self.next = Tally {
            size: n,
            ..self.tally
        };
        self.step = Some(PenStep::Body);
        Ok(())
    }
}
