//! All ticks of a job.

ghost use Rattle.std.specs.Prelude.{◌≡◌, ◌+◌, false, OnOk, OnErr, IfErr, MatchResult};
ghost use Rattle.disk_core.specs.Fault.{CountsFailures};
ghost use Rattle.disk_core.specs.Moments.{LeavesOnly, clock};
ghost use Rattle.pen_core.specs.Pen.{MayOpen, FileSame, log_left, failed_calls, vector_after};
ghost use Rattle.pen_core.specs.Settled.{IsLogSettled, IsLogFault, frames_after};

use crate::fault::PenFault;
use crate::pen::Pen;
use crate::stage::Ticked;
use disk_core::Disk;

impl<D: Disk> Pen<D> {
    /// Makes all device calls of the job in hand, if there is one.
    ///
    /// Each image that a crash may leave meanwhile opens to the vector of before or to that with the job. Refused: `Broken`,
    /// with no call; `Disk`, at the call that failed, and from then on the pen is broken.
    pub fn settle_log(&mut self) -> Result<(), PenFault>
        ensures images { D.keeps self.new.disk → LeavesOnly (D.states self.old.disk) (D.states self.new.disk) (MayOpen self.old) }
        ensures settled { OnOk result (IsLogSettled self.old self.new) }
        ensures file { D.keeps self.new.disk → OnOk result (self.new.vector ≡ vector_after self.old) }
        ensures frames { D.keeps self.new.disk → OnOk result (self.new.frames ≡ frames_after self.old) }
        ensures whole { OnOk result ((self.old.broken ≡ false) × (self.new.broken ≡ false)) }
        ensures refused { IfErr result (λ fault. IsLogFault self.old self.new fault) }
        ensures file_stays { D.keeps self.new.disk → OnErr result (FileSame self.old self.new) }
        ensures time { MatchResult result
            (λ _. clock (D.states self.new.disk) ≡ clock (D.states self.old.disk) + log_left self.old.job)
            (λ fault. clock (D.states self.new.disk) + log_left self.new.job ≡ clock (D.states self.old.disk) + log_left self.old.job + failed_calls fault) }
        ensures faults { CountsFailures failed_calls (D.faults self.old.disk) (D.faults self.new.disk) result }
        ensures model { D.keeps self.new.disk → D.keeps self.old.disk }
        ensures goes_on { D.keeps self.old.disk → OnOk result (D.keeps self.new.disk) }
    {
        while let Ticked::Step = self.tick_log()? {}
        Ok(())
    }
}
