//! The steps of a growth phase.

ghost use Rattle.std.specs.Prelude.{◌≡◌, ◌≤◌, ◌<◌, length, MatchOption};
ghost use Rattle.drive_core.specs.Asked.{answer_of, step_of};
ghost use Rattle.drive_core.specs.GrowthTies.{GrowthSteps};
ghost use Rattle.drive_core.specs.Step as step;

use crate::fault::StepFault;
use crate::growing::Growing;
use crate::step::{Answer, Step};
use disk_core::Disk;
use flush_core::Lane;
use record_core::Record;
use std::sync::Wait;
use vault_core::VaultFault;

/// What a step answers that doesn't fit the phase, or names no seat.
pub(crate) fn misplaced<R>() -> Answer<R>
    ensures { answer_of result ≡ step.Refused (StepFault.Vault VaultFault.WrongPhase) }
{
    Answer::Refused(StepFault::Vault(VaultFault::WrongPhase))
}

/// A growth of these records by a seat.
fn put<R: Record, D: Disk, E: Wait>(
    growing: &mut Growing<R, D>,
    rt: &E,
    seat: u64,
    records: &Vec<R>,
) -> Answer<R>
    ensures steps { GrowthSteps R.form D.states D.faults D.keeps growing.old growing.new (step.Put seat records.now.items) (answer_of result) }
    ensures model { D.keeps growing.new.flusher.pen.disk → D.keeps growing.old.flusher.pen.disk }
{
    match growing.seat(seat) {
        Some(seat) => growing.put(rt, seat, records),
        None => misplaced(),
    }
}

/// What a seat, or the flusher, finds.
fn look<R: Record, D: Disk>(growing: &mut Growing<R, D>, pass: Option<u64>) -> Answer<R>
    ensures steps { GrowthSteps R.form D.states D.faults D.keeps growing.old growing.new (step.Look pass) (answer_of result) }
    ensures model { D.keeps growing.new.flusher.pen.disk → D.keeps growing.old.flusher.pen.disk }
{
    let Some(seat) = pass else {
        return growing.look_flusher();
    };
    match growing.seat(seat) {
        Some(seat) => growing.look(seat),
        None => misplaced(),
    }
}

/// The list as a seat knows it.
fn view<R: Record, D: Disk>(growing: &mut Growing<R, D>, seat: u64) -> Answer<R>
    ensures steps { GrowthSteps R.form D.states D.faults D.keeps growing.old growing.new (step.View seat) (answer_of result) }
    ensures model { D.keeps growing.new.flusher.pen.disk → D.keeps growing.old.flusher.pen.disk }
{
    match growing.seat(seat) {
        Some(seat) => growing.view(seat),
        None => misplaced(),
    }
}

/// What a seat is told by the mark.
fn settled<R: Record, D: Disk>(growing: &mut Growing<R, D>, seat: u64) -> Answer<R>
    ensures steps { GrowthSteps R.form D.states D.faults D.keeps growing.old growing.new (step.Settled seat) (answer_of result) }
    ensures model { D.keeps growing.new.flusher.pen.disk → D.keeps growing.old.flusher.pen.disk }
{
    match growing.seat(seat) {
        Some(seat) => growing.settled(seat),
        None => misplaced(),
    }
}

/// The answer to a step that leaves the phase as it is.
pub(crate) fn answer<R: Record, D: Disk, E: Wait>(
    growing: &mut Growing<R, D>,
    rt: &E,
    asked: &Step<R>,
) -> Answer<R>
    requires { asked.now ≡ Step.Gather → ⊥ }
    ensures steps { GrowthSteps R.form D.states D.faults D.keeps growing.old growing.new (step_of asked.now) (answer_of result) }
    ensures model { D.keeps growing.new.flusher.pen.disk → D.keeps growing.old.flusher.pen.disk }
{
    match asked {
        Step::Put(seat, records) => put(growing, rt, *seat, records),
        Step::Look(pass) => look(growing, *pass),
        Step::View(seat) => view(growing, *seat),
        Step::Settled(seat) => settled(growing, *seat),
        Step::Take => growing.take(),
        Step::Raise => growing.raise(),
        Step::Close => growing.close(rt),
        Step::Fold => growing.fold(),
        Step::Log => growing.tick(Lane::Log),
        Step::Home => growing.tick(Lane::Home),
        Step::Create
        | Step::CreateTwo
        | Step::Open
        | Step::Share(_, _)
        | Step::Gather
        | Step::Change(_, _)
        | Step::Changes(_)
        | Step::Resize(_, _)
        | Step::Clear
        | Step::List => misplaced(),
    }
}
