//! Where the records of frames stand, kept by a walk that doesn't read them.

ghost use Rattle.std.specs.Prelude.{◌≡◌, ◌≤◌, ◌++◌, ◌∷◌, [], ℕ, List, drop, map, IfOk, OnOk};
ghost use Rattle.std.specs.List.{flat_map};
ghost use Rattle.segment_core.specs.Frame.{Frame};
ghost use Rattle.segment_core.specs.Layout.{IsFrame};
ghost use Rattle.segment_core.specs.declared.format.Shape.{Shape};
ghost use Rattle.segment_core.specs.Found.{AreHomesOf};
ghost use Rattle.segment_core.specs.FrameWalk.{with_records, homes_of_change, extent_of, live_homes, ArePlaces, MayCome};

use crate::format::FrameKind;
use crate::found::{Home, Homes};
use crate::frame::FrameReader;
use crate::homes::cut;
use crate::tally::Tally;
use std::alloc::{AllocError, Global};
use std::collections::VecDeque;

/// Where the records of a file stand.
#[derive(Drop)]
pub(crate) struct Places {
    alloc: Global,
    /// Where the home bytes of the positions stand, in their order.
    pub(crate) homes: Vec<Home>,
    /// The live changes in their order: where the records of each run stand.
    pub(crate) live: VecDeque<Vec<Home>>,
}

/// Where the records of the runs of a change stand.
fn run_places(alloc: Global, change: &FrameReader<'_>) -> Result<Vec<Home>, AllocError>
    requires { IsFrame change.now.shape change.now.frame }
    ensures { IfOk result (λ homes. homes.items ≡ homes_of_change change.now) }
{
    let width = change.width() as u64;
    let mut homes = Vec::new(alloc);
    let mut place = change.first_record() as u64;
    for k in 0..change.runs() {
        let (position, count) = change.run(k);
        homes.push(Home {
            position,
            place,
            count,
        })?;
        place += count * width;
    }
    Ok(homes)
}

/// Lets the first changes go.
fn drop_first(changes: &mut VecDeque<Vec<Home>>, n: u64)
    ensures { changes.new.items ≡ drop n changes.old.items }
{
    let mut gone = 0;
    while gone < n {
        changes.pop_front();
        gone += 1;
    }
}

/// The runs of all changes, one after the other.
fn joined_runs(alloc: Global, changes: &VecDeque<Vec<Home>>) -> Result<Vec<Home>, AllocError>
    ensures { IfOk result (λ runs. runs.items ≡ flat_map (λ homes. homes.items) changes.now.items) }
{
    let mut runs = Vec::new(alloc);
    for k in 0..changes.len() {
        let change = &changes[k];
        runs.extend_from_slice(change)?;
    }
    Ok(runs)
}

/// The first position and the number of positions of each.
fn extents(alloc: Global, homes: &[Home]) -> Result<Vec<(u64, u64)>, AllocError>
    ensures { IfOk result (λ runs. runs.items ≡ map extent_of homes.now) }
{
    let mut runs = Vec::new(alloc);
    for k in 0..homes.len() {
        let home = homes[k];
        runs.push((home.position, home.count))?;
    }
    Ok(runs)
}

impl Places {
    /// The homes with the runs of the live changes, and where the records of these runs stand.
    pub(crate) fn finish(self) -> Result<(Homes, Vec<Home>), AllocError>
        ensures { IfOk result (λ answer. (shape : Shape) (frames : List Frame) → ArePlaces shape frames self
            → AreHomesOf shape frames answer.0 × (answer.1.items ≡ live_homes shape frames)) }
    {
        let Places { alloc, homes, live } = self;
        let runs = joined_runs(alloc, &live)?;
        let live = extents(alloc, &runs)?;
        Ok((Homes { homes, live }, runs))
    }

    /// Those of no frames. They take no memory.
    pub(crate) fn new(alloc: Global) -> Places
        ensures { (shape : Shape) → ArePlaces shape [] result }
    {
        Places {
            alloc,
            homes: Vec::new(alloc),
            live: VecDeque::new(alloc),
        }
    }

    /// Takes in the next frame, behind those that leave this tally, whichever bytes its records are. Only memory is
    /// refused, and nothing is promised of what stands then.
    pub(crate) fn take(&mut self, frame: &FrameReader<'_>, tally: Tally) -> Result<(), AllocError>
        requires { (frames : List Frame) × MayCome frames self.old tally frame.now }
        ensures { OnOk result ((frames : List Frame) (bytes : List ℕ) → MayCome frames self.old tally frame.now
            → ArePlaces frame.now.shape (frames ++ with_records frame.now.frame bytes ∷ []) self.new) }
    {
        match frame.kind() {
            FrameKind::Group => {
                self.homes.push(Home {
                    position: tally.size,
                    place: frame.first_record() as u64,
                    count: u64::from(frame.records()),
                })?;
            }
            FrameKind::Change => {
                let runs = run_places(self.alloc, frame)?;
                self.live.push_back(runs)?;
            }
            FrameKind::Shrink => cut(&mut self.homes, frame.new_length()),
            FrameKind::Fold => drop_first(&mut self.live, frame.fold_count() - tally.folded),
        }
        Ok(())
    }
}
