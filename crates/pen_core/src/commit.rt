//! The commit of a frame: body, sync, gate, sync.

ghost use Rattle.std.specs.Prelude.{◌≡◌, ◌≤◌, ◌<◌, ◌+◌, ◌^◌, length, OnOk, OnErr, IfOk, IfErr, MatchResult, false};
ghost use Rattle.disk_core.specs.Calls.{bytes_of};
ghost use Rattle.disk_core.specs.Moments.{LeavesOnly, clock};
ghost use Rattle.disk_core.specs.Fault.{IsCounted, CountsFailures};
ghost use Rattle.pen_core.specs.Step.{Calls, FailsCall, fault_of};
ghost use Rattle.pen_core.specs.Pen.{MayOpen, IsKept, LogTickCalls, LogTickFails, IsTicked, FileTicked, FileSame, IsTickFault, calls_due, failed_calls};

use crate::fault::PenFault;
use crate::pen::Pen;
use crate::stage::Ticked;
use crate::step::PenStep;
use disk_core::{Disk, DiskFault};
use segment_core::OPEN_GATE;

/// The device call of this step.
fn call<D: Disk>(disk: &mut D, step: PenStep, gate: u64, bytes: &[u8]) -> Result<(), DiskFault>
    requires some { 1 ≤ length bytes.now }
    requires inside { D.keeps disk.old → gate < length (bytes_of (D.states disk.old)) }
    requires fits { gate + length bytes.now < 2 ^ 64 }
    ensures done { D.keeps disk.old → OnOk result (Calls step gate bytes.now (D.states disk.old) (D.states disk.new)) }
    ensures failed { D.keeps disk.new → OnErr result (FailsCall step gate bytes.now (D.states disk.old) (D.states disk.new)) }
    ensures time { clock (D.states disk.new) ≡ clock (D.states disk.old) + 1 }
    ensures cause { IsCounted (fault_of step) (D.faults disk.old) (D.faults disk.new) result }
    ensures model { D.keeps disk.new → D.keeps disk.old }
    ensures goes_on { D.keeps disk.old → OnOk result (D.keeps disk.new) }
{
    match step {
        PenStep::Body => disk.write_at(gate + 1, &bytes[1..]),
        PenStep::BodySync => disk.sync(),
        PenStep::Gate => disk.write_at(gate, &[OPEN_GATE]),
        PenStep::GateSync => disk.sync(),
    }
}

impl<D: Disk> Pen<D> {
    /// Makes the next device call of the job in hand, if there is one. It takes no memory.
    ///
    /// Each image that a crash may leave inside the call opens to the vector of before, or to that with the job's
    /// frame; after `Done` each opens to the latter. After `Disk` the pen is broken until the file is opened again.
    pub fn tick_log(&mut self) -> Result<Ticked, PenFault>
        ensures images { D.keeps self.new.disk
            → LeavesOnly (D.states self.old.disk) (D.states self.new.disk) (MayOpen self.old) }
        ensures kept { D.keeps self.new.disk → IsKept (D.states self.new.disk) self.new }
        ensures calls { D.keeps self.new.disk → MatchResult result
            (λ ticked. LogTickCalls self.old ticked (D.states self.old.disk) (D.states self.new.disk))
            (λ _. LogTickFails self.old.broken self.old (D.states self.old.disk) (D.states self.new.disk)) }
        ensures ticked { IfOk result (λ ticked. IsTicked self.old self.new ticked) }
        ensures file { D.keeps self.new.disk → IfOk result (λ ticked. FileTicked self.old self.new ticked) }
        ensures refused { IfErr result (λ fault. IsTickFault self.old self.new fault) }
        ensures whole { OnOk result ((self.old.broken ≡ false) × (self.new.broken ≡ false)) }
        ensures file_stays { D.keeps self.new.disk → OnErr result (FileSame self.old self.new) }
        ensures time { clock (D.states self.new.disk) ≡ clock (D.states self.old.disk) + calls_due self.old.broken self.old.job }
        ensures faults { CountsFailures failed_calls (D.faults self.old.disk) (D.faults self.new.disk) result }
        ensures model { D.keeps self.new.disk → D.keeps self.old.disk }
        ensures goes_on { D.keeps self.old.disk → OnOk result (D.keeps self.new.disk) }
    {
        if self.broken {
            return Err(PenFault::Broken);
        }
        let Some(step) = self.step else {
            return Ok(Ticked::Idle);
        };
        if let Err(fault) = call(&mut self.disk, step, self.gate, &self.bytes) {
            self.broken = true;
            return Err(PenFault::Disk(fault));
        }
        match step.next() {
            Some(behind) => {
                self.step = Some(behind);
                Ok(Ticked::Step)
            }
            None => {
                self.homes.cut(self.next.size);
                self.gate += self.bytes.len() as u64 - 1;
                self.fold.end(&mut self.homes.live, &mut self.bytes);
                self.live = self.homes.live.len();
                self.tally = self.next;
                self.step = None;
                Ok(Ticked::Done)
            }
        }
    }
}
