//! A vault in the driver's hand: each step is a call of the vault, and is answered by a row of the table of steps.

ghost use Rattle.std.specs.Prelude.{◌≡◌, ◌<◌, length, IfOk, OnErr};
ghost use Rattle.segment_core.specs.Runs as run_lists;
ghost use Rattle.drive_core.specs.Asked.{answer_of};
ghost use Rattle.drive_core.specs.Given.{pieces_of};
ghost use Rattle.drive_core.specs.LaneRows.{lane_step};
ghost use Rattle.drive_core.specs.Step as step;
ghost use Rattle.drive_core.specs.VaultTies.{VaultSteps};
ghost use Rattle.drive_core.specs.World.{piece_runs};

use crate::copying::copy_list;
use crate::fault::StepFault;
use crate::given::{Given, GivenRuns};
use crate::step::Answer;
use disk_core::Disk;
use flush_core::Lane;
use pen_core::PenFault;
use record_core::Record;
use std::alloc::{AllocError, Global};
use std::thread::Threads;
use vault_core::{Vault, VaultFault};

/// The next device call of a lane: of the log job, or of the fold in hand, or its filing.
pub(crate) fn tick<R: Record, D: Disk>(vault: &mut Vault<R, D>, lane: Lane) -> Answer<R>
    ensures steps { VaultSteps R.form D.states D.faults D.keeps vault.old vault.new (lane_step lane) (answer_of result) }
    ensures model { D.keeps vault.new.pen.disk → D.keeps vault.old.pen.disk }
{
    let ticked = vault.tick(lane);
    let _ = vault.disk();
    match ticked {
        Ok(tick) => Answer::Ticked(tick),
        Err(fault) => Answer::Refused(StepFault::Vault(fault)),
    }
}

/// Begins a fold.
pub(crate) fn fold<R: Record, D: Disk>(vault: &mut Vault<R, D>) -> Answer<R>
    ensures steps { VaultSteps R.form D.states D.faults D.keeps vault.old vault.new step.Fold (answer_of result) }
    ensures model { D.keeps vault.new.pen.disk → D.keeps vault.old.pen.disk }
{
    let _ = vault.disk();
    match vault.begin_fold() {
        Ok(begun) => Answer::Begun(begun),
        Err(fault) => Answer::Refused(StepFault::Vault(fault)),
    }
}

/// The list.
pub(crate) fn list<R: Record, D: Disk>(alloc: Global, vault: &Vault<R, D>) -> Answer<R>
    ensures steps { VaultSteps R.form D.states D.faults D.keeps vault.now vault.now step.Listing (answer_of result) }
{
    match copy_list(alloc, vault) {
        Ok(records) => Answer::Listed(records),
        Err(_) => Answer::Refused(StepFault::Vault(VaultFault::Pen(PenFault::Memory))),
    }
}

/// Makes the length that is asked for.
pub(crate) fn resize<R: Record, D: Disk>(vault: &mut Vault<R, D>, n: u64, v: R) -> Answer<R>
    ensures steps { VaultSteps R.form D.states D.faults D.keeps vault.old vault.new (step.Resize n v) (answer_of result) }
    ensures model { D.keeps vault.new.pen.disk → D.keeps vault.old.pen.disk }
{
    let _ = vault.len();
    let result = vault.resize(n, v);
    let _ = vault.disk();
    match result {
        Ok(()) => Answer::Fine,
        Err(fault) => Answer::Refused(StepFault::Vault(fault)),
    }
}

/// Takes all records away.
pub(crate) fn clear<R: Record, D: Disk>(vault: &mut Vault<R, D>) -> Answer<R>
    ensures steps { VaultSteps R.form D.states D.faults D.keeps vault.old vault.new step.Clear (answer_of result) }
    ensures model { D.keeps vault.new.pen.disk → D.keeps vault.old.pen.disk }
{
    let _ = vault.len();
    let result = vault.clear();
    let _ = vault.disk();
    match result {
        Ok(()) => Answer::Fine,
        Err(fault) => Answer::Refused(StepFault::Vault(fault)),
    }
}

/// Changes the records from a position on to these.
pub(crate) fn change<R: Record, D: Disk, E: Threads + Sync>(
    vault: &mut Vault<R, D>,
    rt: &E,
    start: u64,
    records: &[R],
) -> Answer<R>
    ensures steps { VaultSteps R.form D.states D.faults D.keeps vault.old vault.new (step.Change start records.now) (answer_of result) }
    ensures model { D.keeps vault.new.pen.disk → D.keeps vault.old.pen.disk }
{
    let _ = vault.len();
    let given = Given { start, records };
    let result = vault.change(rt, start, records.len() as u64, &given);
    let _ = vault.disk();
    match result {
        Ok(()) => Answer::Fine,
        Err(fault) => Answer::Refused(StepFault::Vault(fault)),
    }
}

/// The starts and lengths of runs.
fn runs_given<R>(alloc: Global, runs: &[(u64, Vec<R>)]) -> Result<Vec<(u64, u64)>, AllocError>
    ensures list { IfOk result (λ list. run_lists.runs_given list.items ≡ piece_runs (pieces_of runs.now)) }
    ensures some { OnErr result (0 < length runs.now) }
{
    let mut list = Vec::new(alloc);
    for (start, records) in runs {
        list.push((*start, records.as_slice().len() as u64))?;
    }
    Ok(list)
}

/// Changes the records of runs of positions to these, as one command.
pub(crate) fn change_runs<R: Record, D: Disk, E: Threads + Sync>(
    alloc: Global,
    vault: &mut Vault<R, D>,
    rt: &E,
    runs: &[(u64, Vec<R>)],
) -> Answer<R>
    ensures steps { VaultSteps R.form D.states D.faults D.keeps vault.old vault.new (step.Changes (pieces_of runs.now)) (answer_of result) }
    ensures model { D.keeps vault.new.pen.disk → D.keeps vault.old.pen.disk }
{
    let Ok(list) = runs_given(alloc, runs) else {
        return Answer::Refused(StepFault::Vault(VaultFault::Pen(PenFault::Memory)));
    };
    let _ = vault.len();
    let given = GivenRuns { runs };
    let result = vault.change_runs(rt, list.as_slice(), &given);
    let _ = vault.disk();
    match result {
        Ok(()) => Answer::Fine,
        Err(fault) => Answer::Refused(StepFault::Vault(fault)),
    }
}
