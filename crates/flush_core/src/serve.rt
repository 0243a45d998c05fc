//! Serving growers: what they put is committed, group by group, until the book is closed.

ghost use Rattle.std.specs.Prelude.{◌≡◌, length, IsTrue, None, OnOk, OnErr, IfErr};
ghost use Rattle.disk_core.specs.Fault.{CountsFailures};
ghost use Rattle.disk_core.specs.Moments.{LeavesOnly};
ghost use Rattle.directory_core.specs.Known.{KnowsAll};
ghost use Rattle.flush_core.specs.Flusher.{IsFlusherOf, FlusherLearns, FlusherGoesOn, OpensToFirst, ToldIsLeft};
ghost use Rattle.flush_core.specs.Refusals.{failed};
ghost use Rattle.flush_core.specs.Serving.{Serves, HasSettledAll, TellsBroken, IsServeFault, fold_with};

use crate::fault::FlushFault;
use crate::flusher::Flusher;
use crate::lane::{Lane, Tick};
use book_core::Live;
use disk_core::Disk;
use record_core::Record;
use std::sync::Wait;

impl<R: Record, D: Disk> Flusher<R, D> {
    /// Ticks the log until no job is in hand.
    fn settle_job(&mut self) -> Result<(), FlushFault>
        ensures serves { Serves R.form D.keeps D.states self.old self.new }
        ensures idle { OnOk result (self.new.pen.job ≡ None) }
        ensures whole { OnOk result (self.new.pen.broken ≡ self.old.pen.broken) }
        ensures refused { IfErr result (λ fault. IsServeFault R.form.width self.old self.new fault) }
        ensures faults { CountsFailures failed (D.faults self.old.pen.disk) (D.faults self.new.pen.disk) result }
    {
        while self.tick(Lane::Log)? == Tick::Step {}
        Ok(())
    }

    /// Learns what growers have published, and begins to commit the next growths.
    fn begin_next(&mut self, live: &Live<R>) -> Result<(), FlushFault>
        requires of { IsFlusherOf (D.keeps self.old.pen.disk) live.now self.old }
        requires idle { self.old.pen.job ≡ None }
        ensures goes_on { FlusherGoesOn (D.keeps self.new.pen.disk) self.old self.new }
        ensures disk { self.new.pen.disk ≡ self.old.pen.disk }
        ensures whole { self.new.pen.broken ≡ self.old.pen.broken }
        ensures fold { fold_with self.new.pen.job self.new.pen.fold ≡ fold_with self.old.pen.job self.old.pen.fold }
        ensures refused { IfErr result (λ fault. IsServeFault R.form.width self.old self.new fault × (failed fault ≡ 0)) }
    {
        self.look(live)?;
        self.take_group(live)?;
        Ok(())
    }

    /// Whether the phase is over: the book is closed, each growth that it knows is settled, and none can stand behind
    /// those, which it ends then.
    fn ends(&mut self, live: &Live<R>, closed: bool) -> bool
        requires of { IsFlusherOf (D.keeps self.old.pen.disk) live.now self.old }
        ensures learns { FlusherLearns self.old self.new }
        ensures same { self.new.pass.entries ≡ self.old.pass.entries }
        ensures all { IsTrue result → (self.new.settled ≡ length self.new.pass.entries) × KnowsAll self.new.pass }
    {
        closed && self.settled() == self.known() && self.end(live)
    }

    /// Commits and tells, until the book is closed and all is settled.
    fn serve_all<E: Wait>(&mut self, rt: &E, live: &Live<R>) -> Result<(), FlushFault>
        requires of { IsFlusherOf (D.keeps self.old.pen.disk) live.now self.old }
        ensures serves { Serves R.form D.keeps D.states self.old self.new }
        ensures all { OnOk result ((self.new.settled ≡ length self.new.pass.entries) × KnowsAll self.new.pass) }
        ensures idle { OnOk result (self.new.pen.job ≡ None) }
        ensures refused { IfErr result (λ fault. IsServeFault R.form.width self.old self.new fault) }
        ensures faults { CountsFailures failed (D.faults self.old.pen.disk) (D.faults self.new.pen.disk) result }
    {
        // A group may be in hand, or the frame of a fold.
        self.settle_job()?;
        for _ in rt.forever() {
            self.raise(live);
            let woken = live.wake_settled();
            live.await_waiters(rt, woken);
            let closed = live.await_more(rt, self.settled);
            self.begin_next(live)?;
            self.settle_job()?;
            if self.ends(live, closed) {
                break;
            }
        }
        Ok(())
    }

    /// Commits what growers put, group by group, and tells by the mark what is settled and wakes those that wait for it,
    /// until the book is closed and every growth of the phase is settled; then the mark says Ended. It knows all of them:
    /// it ends the directory behind those that it knows, and a growth that came first it learns of and commits.
    ///
    /// Behind a commit it waits for those that it woke to wait again, for 100 microseconds at most: what they grow by in
    /// between is then in the next group. While there is nothing to commit it sleeps. It makes no call of a fold: one that is
    /// in hand stays as it is, but where its own frame is the job in hand, which ends it.
    ///
    /// On a refusal the mark says Broken. Refused: `Strayed`; `Pen(Broken)`, where the pen was; `Pen(FileFull)`, where the file
    /// has no room for the next group; `Pen(Memory)`; `Pen(Disk)`. None of them but `Pen(Broken)` and `Pen(Disk)` leaves a log
    /// job in hand. What the mark told stands, whatever came of it: each image that a crash might have left since a raise
    /// opens to so many growths at least.
    pub fn serve<E: Wait>(&mut self, rt: &E, live: &Live<R>) -> Result<(), FlushFault>
        requires of { IsFlusherOf (D.keeps self.old.pen.disk) live.now self.old }
        ensures ended { OnOk result (HasSettledAll self.new) }
        ensures all { OnOk result (KnowsAll self.new.pass) }
        ensures broken { OnErr result (TellsBroken self.new) }
        ensures refused { IfErr result (λ fault. IsServeFault R.form.width self.old self.new fault) }
        ensures goes_on { FlusherGoesOn (D.keeps self.new.pen.disk) self.old self.new }
        ensures images { D.keeps self.new.pen.disk → LeavesOnly (D.states self.old.pen.disk) (D.states self.new.pen.disk) (OpensToFirst R.form self.old.settled self.new) }
        ensures fold { fold_with self.new.pen.job self.new.pen.fold ≡ fold_with self.old.pen.job self.old.pen.fold }
        ensures told { D.keeps self.new.pen.disk → ToldIsLeft R.form (D.states self.new.pen.disk) self.new self.new.mark.raises }
        ensures faults { CountsFailures failed (D.faults self.old.pen.disk) (D.faults self.new.pen.disk) result }
        ensures model { D.keeps self.new.pen.disk → D.keeps self.old.pen.disk }
    {
        let served = self.serve_all(rt, live);
        self.raise(live);
        match served {
            Ok(()) => self.mark.set_ended(live.mark()),
            Err(_) => self.mark.set_broken(live.mark()),
        }
        live.wake_settled();
        // What the mark told stands.
        let _disk = self.disk();
        served
    }
}
