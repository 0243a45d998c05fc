//! The run of a list of steps.

ghost use Rattle.std.specs.Prelude.{◌≡◌, ◌-◌, ◌≤◌, ◌%◌, ◌^◌, map, IfOk, IfErr};
ghost use Rattle.disk_core.specs.Moments.{clock};
ghost use Rattle.drive_core.specs.Asked.{answer_of, step_of};
ghost use Rattle.drive_core.specs.Counted.{below};
ghost use Rattle.drive_core.specs.Drive.{IsDriven};
ghost use Rattle.drive_core.specs.Driving.{DriverSteps};
ghost use Rattle.drive_core.specs.Outcome.{stray_in};
ghost use Rattle.drive_core.specs.Phases.{disk_in};
ghost use Rattle.drive_core.specs.Ties.{disk_of};

use crate::counted::{Began, Counted, between};
use crate::fault::StepFault;
use crate::phase::DrivePhase;
use crate::step::{Answer, Step};
use book_core::GrowFault;
use disk_core::Disk;
use record_core::Record;
use std::alloc::{AllocError, Global};
use std::marker::Brand;
use std::sync::Wait;
use std::thread::Threads;

/// What is in hand, and the first growth found that no step made.
#[derive(Drop)]
struct Driver<R: Record, D: Disk> {
    phase: DrivePhase<R, D>,
    strayed: Option<u64>,
}

/// The number of the growth that strayed, where the answer tells one.
fn stray_of<R>(answer: &Answer<R>) -> Option<u64>
    ensures { result ≡ stray_in (answer_of answer.now) }
{
    match answer {
        Answer::Refused(StepFault::Grow(GrowFault::Strayed(number))) => Some(*number),
        _ => None,
    }
}

impl<R: Record, D: Disk> Driver<R, D> {
    /// The answer to one step, and what is in hand then.
    fn step<E: Threads + Wait + Sync>(
        self,
        alloc: Global,
        rt: &E,
        asked: &Step<R>,
    ) -> (Driver<R, D>, Answer<R>)
        ensures steps { DriverSteps R.form D.states D.faults D.keeps self.phase self.strayed result.0.phase result.0.strayed (step_of asked.now) (answer_of result.1) }
        ensures model { D.keeps (disk_in result.0.phase) → D.keeps (disk_in self.phase) }
    {
        if let Some(number) = self.strayed {
            return (
                self,
                Answer::Refused(StepFault::Grow(GrowFault::Strayed(number))),
            );
        }
        let (phase, answered) = self.phase.step(alloc, rt, asked);
        let strayed = stray_of(&answered);
        (Driver { phase, strayed }, answered)
    }
}

impl<R: Record, D: Disk, B: Began> Driver<R, Counted<D, B>> {
    /// The calls of the disk so far.
    fn calls(&self) -> u64
        ensures { (B.moment ≤ clock (D.states (below (disk_in self.now.phase)))) × (result ≡ (clock (D.states (below (disk_in self.now.phase))) - B.moment) % 2 ^ 64) }
    {
        self.phase.disk().calls()
    }
}

/// What was answered to steps, with how many calls of the device each, and the disk as they left it.
#[derive(Drop)]
pub struct Driven<R: Record, D: Disk> {
    pub disk: D,
    pub answers: Vec<Answer<R>>,
    pub calls: Vec<u64>,
}

/// The run of the steps, by a disk that counts from this moment on.
fn drive_counted<R: Record, D: Disk, B: Began, E: Threads + Wait + Sync>(
    alloc: Global,
    rt: &E,
    disk: D,
    steps: &[Step<R>],
) -> Result<Driven<R, D>, (D, AllocError)>
    requires { clock (D.states disk) ≡ B.moment }
    ensures driven { IfOk result (λ d. IsDriven R.form (D.keeps d.disk) (disk_of D.states D.faults disk) (map step_of steps.now) (map answer_of d.answers.items) d.calls.items (disk_of D.states D.faults d.disk)) }
    ensures model { IfOk result (λ d. D.keeps d.disk → D.keeps disk) }
    ensures refused { IfErr result (λ r. r.0 ≡ disk) }
{
    let mut answers = match Vec::with_capacity(alloc, steps.len()) {
        Ok(answers) => answers,
        Err(fault) => return Err((disk, fault)),
    };
    let mut calls = match Vec::with_capacity(alloc, steps.len()) {
        Ok(calls) => calls,
        Err(fault) => return Err((disk, fault)),
    };
    let counted: Counted<D, B> = Counted::new(disk);
    let mut driver = Driver {
        phase: DrivePhase::Shut(counted),
        strayed: None,
    };
    for k in 0..steps.len() {
        let before = driver.calls();
        let (next, answered) = driver.step(alloc, rt, &steps[k]);
        driver = next;
        let after = driver.calls();
        calls.push_reserved(between(before, after));
        answers.push_reserved(answered);
    }
    let disk = driver.phase.into_disk().into_inner();
    Ok(Driven {
        disk,
        answers,
        calls,
    })
}

/// Answers steps with one thread, one after the other, on a disk on which none is open.
///
/// The answers are a run of the steps. Whatever a crash leaves of the disk once a file was created or opened, within the
/// device calls of any step too, opens to the vector after a prefix of the history that holds every settled command; so
/// each growth is there whole or not at all.
///
/// An error comes before any step, and hands the disk back.
pub fn drive<R: Record, D: Disk, E: Threads + Wait + Sync>(
    alloc: Global,
    rt: &E,
    disk: D,
    steps: &[Step<R>],
) -> Result<Driven<R, D>, (D, AllocError)>
    ensures driven { IfOk result (λ d. IsDriven R.form (D.keeps d.disk) (disk_of D.states D.faults disk) (map step_of steps.now) (map answer_of d.answers.items) d.calls.items (disk_of D.states D.faults d.disk)) }
    ensures model { IfOk result (λ d. D.keeps d.disk → D.keeps disk) }
    ensures refused { IfErr result (λ r. r.0 ≡ disk) }
{
    drive_counted::<R, D, Brand, E>(alloc, rt, disk, steps)
}
