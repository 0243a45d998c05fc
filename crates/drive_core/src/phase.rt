//! What is in hand between two steps, and the steps that lead from one phase to another.

ghost use Rattle.std.specs.Prelude.{◌≡◌, ◌⊎◌, ◌≤◌, ℕ};
ghost use Rattle.drive_core.specs.Asked.{answer_of, step_of};
ghost use Rattle.drive_core.specs.Line.{of_open};
ghost use Rattle.drive_core.specs.Phases.{PhaseSteps, disk_in};
ghost use Rattle.drive_core.specs.Step as step;
ghost use Rattle.drive_core.specs.VaultTies.{VaultSteps};

use crate::exclusive;
use crate::fault::StepFault;
use crate::growing::Growing;
use crate::growth::{self, misplaced};
use crate::step::{Answer, Step};
use disk_core::Disk;
use flush_core::Lane;
use pen_core::{OpenFault, PenFault};
use record_core::Record;
use segment_core::Format;
use std::alloc::Global;
use std::sync::Wait;
use std::thread::Threads;
use vault_core::{Vault, VaultFault};

/// A disk, while none is open; a vault; or a growth phase.
#[derive(Drop)]
pub(crate) enum DrivePhase<R: Record, D: Disk> {
    Shut(D),
    Exclusive(Vault<R, D>),
    Growth(Growing<R, D>),
}

/// Makes an empty file.
fn create<R: Record, D: Disk>(
    alloc: Global,
    disk: D,
    format: Format,
) -> (DrivePhase<R, D>, Answer<R>)
    ensures steps { PhaseSteps R.form D.states D.faults D.keeps (DrivePhase.Shut disk) result.0 (step.Create format) (answer_of result.1) }
    ensures model { D.keeps (disk_in result.0) → D.keeps disk }
{
    match Vault::create_as(alloc, disk, format) {
        Ok(vault) => {
            let _ = vault.disk();
            (DrivePhase::Exclusive(vault), Answer::Fine)
        }
        Err((disk, fault)) => (
            DrivePhase::Shut(disk),
            Answer::Refused(StepFault::Vault(VaultFault::Pen(fault))),
        ),
    }
}

/// Why a file isn't opened.
fn open_fault(fault: OpenFault) -> StepFault
    ensures { result ≡ of_open fault }
{
    match fault {
        OpenFault::Scan(fault) => StepFault::Scan(fault),
        OpenFault::Disk(fault) => StepFault::Vault(VaultFault::Pen(PenFault::Disk(fault))),
    }
}

/// Opens the file on the disk.
fn open<R: Record, D: Disk>(alloc: Global, disk: D) -> (DrivePhase<R, D>, Answer<R>)
    ensures steps { PhaseSteps R.form D.states D.faults D.keeps (DrivePhase.Shut disk) result.0 step.Open (answer_of result.1) }
    ensures model { D.keeps (disk_in result.0) → D.keeps disk }
{
    match Vault::open(alloc, disk) {
        Ok(vault) => {
            let _ = vault.disk();
            let size = vault.len();
            (DrivePhase::Exclusive(vault), Answer::Size(size))
        }
        Err((disk, fault)) => (DrivePhase::Shut(disk), Answer::Refused(open_fault(fault))),
    }
}

/// A step while none is open.
fn shut_step<R: Record, D: Disk>(
    alloc: Global,
    disk: D,
    asked: &Step<R>,
) -> (DrivePhase<R, D>, Answer<R>)
    ensures steps { PhaseSteps R.form D.states D.faults D.keeps (DrivePhase.Shut disk) result.0 (step_of asked.now) (answer_of result.1) }
    ensures model { D.keeps (disk_in result.0) → D.keeps disk }
{
    match asked {
        Step::Create => create(alloc, disk, Format::One),
        Step::CreateTwo => create(alloc, disk, Format::Two),
        Step::Open => open(alloc, disk),
        Step::Share(_, _)
        | Step::Put(_, _)
        | Step::Look(_)
        | Step::View(_)
        | Step::Settled(_)
        | Step::Take
        | Step::Raise
        | Step::Close
        | Step::Gather
        | Step::Change(_, _)
        | Step::Changes(_)
        | Step::Resize(_, _)
        | Step::Clear
        | Step::List
        | Step::Fold
        | Step::Log
        | Step::Home => (DrivePhase::Shut(disk), misplaced()),
    }
}

/// So many seats, or the most that can be asked for: more than a phase may have.
fn clamped(seats: u64) -> u16
    ensures { (result ≡ seats) ⊎ ((65535 ≤ seats) × (result ≡ 65535)) }
{
    if seats < u16::MAX as u64 {
        seats as u16
    } else {
        u16::MAX
    }
}

/// Begins a growth phase.
fn share<R: Record, D: Disk>(
    alloc: Global,
    vault: Vault<R, D>,
    room: u64,
    seats: u64,
) -> (DrivePhase<R, D>, Answer<R>)
    ensures steps { PhaseSteps R.form D.states D.faults D.keeps (DrivePhase.Exclusive vault) result.0 (step.Share room seats) (answer_of result.1) }
    ensures model { D.keeps (disk_in result.0) → D.keeps vault.pen.disk }
{
    let count = clamped(seats);
    match vault.share(room, count) {
        Ok((live, flusher, seats)) => {
            let growing = Growing::begin(alloc, live, flusher, seats);
            (DrivePhase::Growth(growing), Answer::Fine)
        }
        Err((vault, fault)) => (
            DrivePhase::Exclusive(vault),
            Answer::Refused(StepFault::Vault(fault)),
        ),
    }
}

/// A command, a tick, a fold or the list.
fn command<R: Record, D: Disk, E: Threads + Sync>(
    alloc: Global,
    vault: &mut Vault<R, D>,
    rt: &E,
    asked: &Step<R>,
) -> Answer<R>
    requires { (room seats : ℕ) → asked.now ≡ Step.Share room seats → ⊥ }
    ensures steps { VaultSteps R.form D.states D.faults D.keeps vault.old vault.new (step_of asked.now) (answer_of result) }
    ensures model { D.keeps vault.new.pen.disk → D.keeps vault.old.pen.disk }
{
    match asked {
        Step::Change(start, records) => exclusive::change(vault, rt, *start, records.as_slice()),
        Step::Changes(runs) => exclusive::change_runs(alloc, vault, rt, runs.as_slice()),
        Step::Resize(n, record) => exclusive::resize(vault, *n, *record),
        Step::Clear => exclusive::clear(vault),
        Step::List => exclusive::list(alloc, vault),
        Step::Fold => exclusive::fold(vault),
        Step::Log => exclusive::tick(vault, Lane::Log),
        Step::Home => exclusive::tick(vault, Lane::Home),
        Step::Create
        | Step::CreateTwo
        | Step::Open
        | Step::Share(_, _)
        | Step::Put(_, _)
        | Step::Look(_)
        | Step::View(_)
        | Step::Settled(_)
        | Step::Take
        | Step::Raise
        | Step::Close
        | Step::Gather => misplaced(),
    }
}

/// A step of the exclusive phase.
fn exclusive_step<R: Record, D: Disk, E: Threads + Sync>(
    alloc: Global,
    vault: Vault<R, D>,
    rt: &E,
    asked: &Step<R>,
) -> (DrivePhase<R, D>, Answer<R>)
    ensures steps { PhaseSteps R.form D.states D.faults D.keeps (DrivePhase.Exclusive vault) result.0 (step_of asked.now) (answer_of result.1) }
    ensures model { D.keeps (disk_in result.0) → D.keeps vault.pen.disk }
{
    if let Step::Share(room, seats) = asked {
        return share(alloc, vault, *room, *seats);
    }
    let mut vault = vault;
    let answer = command(alloc, &mut vault, rt, asked);
    (DrivePhase::Exclusive(vault), answer)
}

/// Ends a growth phase.
fn gather<R: Record, D: Disk>(growing: Growing<R, D>) -> (DrivePhase<R, D>, Answer<R>)
    ensures steps { PhaseSteps R.form D.states D.faults D.keeps (DrivePhase.Growth growing) result.0 step.Gather (answer_of result.1) }
    ensures model { D.keeps (disk_in result.0) → D.keeps growing.flusher.pen.disk }
{
    match growing.gather() {
        Ok(vault) => {
            let _ = vault.disk();
            let size = vault.len();
            (DrivePhase::Exclusive(vault), Answer::Size(size))
        }
        Err((growing, fault)) => (
            DrivePhase::Growth(growing),
            Answer::Refused(StepFault::Vault(fault)),
        ),
    }
}

/// A step of a growth phase.
fn growth_step<R: Record, D: Disk, E: Wait>(
    growing: Growing<R, D>,
    rt: &E,
    asked: &Step<R>,
) -> (DrivePhase<R, D>, Answer<R>)
    ensures steps { PhaseSteps R.form D.states D.faults D.keeps (DrivePhase.Growth growing) result.0 (step_of asked.now) (answer_of result.1) }
    ensures model { D.keeps (disk_in result.0) → D.keeps growing.flusher.pen.disk }
{
    if let Step::Gather = asked {
        return gather(growing);
    }
    let mut growing = growing;
    let answer = growth::answer(&mut growing, rt, asked);
    (DrivePhase::Growth(growing), answer)
}

impl<R: Record, D: Disk> DrivePhase<R, D> {
    /// The answer to a step, and what is in hand then.
    pub(crate) fn step<E: Threads + Wait + Sync>(
        self,
        alloc: Global,
        rt: &E,
        asked: &Step<R>,
    ) -> (DrivePhase<R, D>, Answer<R>)
        ensures steps { PhaseSteps R.form D.states D.faults D.keeps self result.0 (step_of asked.now) (answer_of result.1) }
        ensures model { D.keeps (disk_in result.0) → D.keeps (disk_in self) }
    {
        match self {
            DrivePhase::Shut(disk) => shut_step(alloc, disk, asked),
            DrivePhase::Exclusive(vault) => exclusive_step(alloc, vault, rt, asked),
            DrivePhase::Growth(growing) => growth_step(growing, rt, asked),
        }
    }

    /// The disk as it stands.
    pub(crate) fn disk(&self) -> &D
        ensures { result.now ≡ disk_in self.now }
    {
        match self {
            DrivePhase::Shut(disk) => disk,
            DrivePhase::Exclusive(vault) => vault.disk(),
            DrivePhase::Growth(growing) => growing.disk(),
        }
    }

    /// The disk as it stands.
    pub(crate) fn into_disk(self) -> D
        ensures { result ≡ disk_in self }
    {
        match self {
            DrivePhase::Shut(disk) => disk,
            DrivePhase::Exclusive(vault) => vault.into_disk(),
            DrivePhase::Growth(growing) => growing.into_disk(),
        }
    }
}
