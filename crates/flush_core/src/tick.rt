//! The ticks of a flusher's two lanes.

ghost use Rattle.std.specs.Prelude.{◌≡◌, ◌+◌, ◌≤◌, false, IfOk, IfErr, OnOk, OnErr};
ghost use Rattle.disk_core.specs.Fault.{CountsFailures};
ghost use Rattle.disk_core.specs.Moments.{LeavesOnly, clock};
ghost use Rattle.pen_core.specs.Pen.{IsKept};
ghost use Rattle.flush_core.specs.Flusher.{OpensToJob, SameGrowths};
ghost use Rattle.flush_core.specs.Refusals.{IsLaneTicked, IsLaneFault, lane_calls, settled_behind, failed};

use crate::fault::FlushFault;
use crate::flusher::Flusher;
use crate::lane::{Lane, Tick};
use disk_core::Disk;
use pen_core::{HomeTicked, Ticked};
use record_core::Record;

impl<R: Record, D: Disk> Flusher<R, D> {
    /// Makes the next device call of a lane, if there is one, or makes a fold whose homes are on the disk the log job. It
    /// takes no memory.
    ///
    /// Each image that a crash may leave inside the call opens to the records from before the phase and just those growths
    /// that were settled, or, with a group in hand, just those that were taken. Refused as the pen's ticks: `Pen(Disk)`, and
    /// from then on `Pen(Broken)`.
    pub fn tick(&mut self, lane: Lane) -> Result<Tick, FlushFault>
        ensures images { D.keeps self.new.pen.disk → LeavesOnly (D.states self.old.pen.disk) (D.states self.new.pen.disk) (OpensToJob R.form self.old) }
        ensures kept { D.keeps self.new.pen.disk → IsKept (D.states self.new.pen.disk) self.new.pen }
        ensures ticked { IfOk result (λ tick. IsLaneTicked lane self.old.pen self.new.pen tick) }
        ensures settled { IfOk result (λ tick. self.new.settled ≡ settled_behind self.old tick) }
        ensures refused { IfErr result (λ fault. IsLaneFault lane self.old.pen self.new.pen fault) }
        ensures failed { OnErr result (self.new.settled ≡ self.old.settled) }
        ensures no_less { self.old.settled ≤ self.new.settled }
        ensures whole { OnOk result ((self.old.pen.broken ≡ false) × (self.new.pen.broken ≡ false)) }
        ensures same { SameGrowths self.old self.new }
        ensures opening { D.keeps self.new.pen.disk → self.new.opening ≡ self.old.opening }
        ensures time { clock (D.states self.new.pen.disk) ≡ clock (D.states self.old.pen.disk) + lane_calls lane self.old.pen }
        ensures faults { CountsFailures failed (D.faults self.old.pen.disk) (D.faults self.new.pen.disk) result }
        ensures model { D.keeps self.new.pen.disk → D.keeps self.old.pen.disk }
        ensures goes_on { D.keeps self.old.pen.disk → OnOk result (D.keeps self.new.pen.disk) }
    {
        match lane {
            Lane::Log => match self.pen.tick_log() {
                Ok(Ticked::Idle) => Ok(Tick::Idle),
                Ok(Ticked::Step) => Ok(Tick::Step),
                Ok(Ticked::Done) => {
                    self.settled = self.taken;
                    Ok(Tick::Done)
                }
                Err(fault) => Err(FlushFault::Pen(fault)),
            },
            Lane::Home => match self.pen.tick_home() {
                Ok(HomeTicked::Idle) => Ok(Tick::Idle),
                Ok(HomeTicked::Step) => Ok(Tick::Step),
                Ok(HomeTicked::Filed) => Ok(Tick::Filed),
                Ok(HomeTicked::Waiting) => Ok(Tick::Waiting),
                Err(fault) => Err(FlushFault::Pen(fault)),
            },
        }
    }
}
