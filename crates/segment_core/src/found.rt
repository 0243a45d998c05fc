//! What the frames so far say of the vector. Records are decoded as their home bytes come by, and live changes
//! are laid over them at the end.

ghost use Rattle.std.specs.Prelude.{◌≡◌, ◌≤◌, ◌+◌, ◌-◌, ◌++◌, ◌∷◌, [], ℕ, List, length, drop, OnOk, IfOk, MatchResult, vec_capacity};
ghost use Rattle.std.specs.List.{flat_map};
ghost use Rattle.record_core.specs.Limits.{record_limit};
ghost use Rattle.segment_core.specs.declared.format.Format.{Format};
ghost use Rattle.segment_core.specs.Shape.{shape_of};
ghost use Rattle.segment_core.specs.Frame.{Frame};
ghost use Rattle.segment_core.specs.Vector.{IsVectorOf};
ghost use Rattle.segment_core.specs.Reading.{record_count};
ghost use Rattle.segment_core.specs.Found.{AreInTurn, AreHomesOf, IsFound, StandsNext, IsGrown, IsSame, IsCut, BeginsWithText, IsNoVector, pairs_of};

use crate::fault::ScanFault;
use crate::format::FrameKind;
use crate::frame::{FrameReader, Kept};
use crate::homes::cut;
use crate::notes::Notes;
use decoding::grow;
use laying::lay_live;
use record_core::Record;
use std::alloc::{AllocError, Global};
use std::collections::VecDeque;

mod decoding;
mod laying;

/// Where the home bytes of consecutive positions stand, one record behind the other.
#[derive(Clone, Copy)]
pub struct Home {
    /// The first position.
    pub position: u64,
    /// The place of its first byte in the file.
    pub place: u64,
    /// How many positions there are.
    pub count: u64,
}

/// Where the bytes of a vector stand in its file.
#[derive(Drop)]
pub struct Homes {
    /// The home bytes of the positions, in their order: each position lies in one.
    pub homes: Vec<Home>,
    /// The first position and the number of positions of each run of the live changes, in their order.
    pub live: Vec<(u64, u64)>,
}

/// What the frames so far say of the vector.
#[derive(Drop)]
pub(crate) struct Found<R> {
    alloc: Global,
    /// A record for each position: a blank one where the home bytes are no record.
    records: Vec<R>,
    /// The positions whose home bytes are no record.
    notes: Notes,
    /// Where the home bytes stand.
    homes: Vec<Home>,
    /// The count of the last fold.
    folded: u64,
    /// The changes from that count on, in their order.
    live: VecDeque<Kept>,
}

/// Appends start and count of each run of a change.
fn push_runs(change: &FrameReader<'_>, runs: &mut Vec<(u64, u64)>) -> Result<(), AllocError>
    ensures { OnOk result (runs.new.items ≡ runs.old.items ++ pairs_of change.now) }
{
    for k in 0..change.runs() {
        runs.push(change.run(k))?;
    }
    Ok(())
}

/// Start and count of each run of changes, in their order.
fn runs_of_all(alloc: Global, changes: &VecDeque<Kept>) -> Result<Vec<(u64, u64)>, AllocError>
    ensures { IfOk result (λ runs. runs.items ≡ flat_map pairs_of changes.now.items) }
{
    let mut runs = Vec::new(alloc);
    for k in 0..changes.len() {
        let change = &changes[k];
        push_runs(&change.frame(), &mut runs)?;
    }
    Ok(runs)
}

/// No records, with memory for `room` of them, where it could be had.
fn no_records<R>(alloc: Global, room: usize) -> Vec<R>
    ensures none { result.items ≡ [] }
    ensures room { vec_capacity result ≤ room }
{
    match Vec::with_capacity(alloc, room) {
        Ok(records) => records,
        Err(_) => Vec::new(alloc),
    }
}

impl<R: Record> Found<R> {
    /// What no frames say. It takes no memory but for `room` records, where that can be had.
    pub(crate) fn new(alloc: Global, room: usize) -> Found<R>
        ensures found { (format : Format) → IsFound R.form format [] result }
        ensures room { vec_capacity result.records ≤ room }
    {
        Found {
            alloc,
            records: no_records(alloc, room),
            notes: Notes::new(alloc),
            homes: Vec::new(alloc),
            folded: 0,
            live: VecDeque::new(alloc),
        }
    }

    /// Takes in the next frame. Only memory is refused, and nothing is promised of what stands then.
    pub(crate) fn take(&mut self, frame: &FrameReader<'_>) -> Result<(), AllocError>
        requires { (frames : List Frame) × StandsNext R.form frames self.old frame.now }
        ensures { OnOk result ((frames : List Frame) → StandsNext R.form frames self.old frame.now → IsFound R.form frame.now.shape.format (frames ++ frame.now.frame ∷ []) self.new) }
    {
        match frame.kind() {
            FrameKind::Group => self.take_group(frame),
            FrameKind::Change => {
                let change = frame.keep(self.alloc)?;
                self.live.push_back(change)?;
                Ok(())
            }
            FrameKind::Shrink => {
                self.shrink(frame.new_length());
                Ok(())
            }
            FrameKind::Fold => {
                self.fold(frame.fold_count());
                Ok(())
            }
        }
    }

    /// Takes in a group: its records, and where they stand.
    fn take_group(&mut self, frame: &FrameReader<'_>) -> Result<(), AllocError>
        requires wide { frame.now.shape.width ≡ R.form.width }
        requires few { length self.old.records.items + record_count frame.now.frame ≤ record_limit }
        ensures { OnOk result (IsGrown R.form frame.now self.old self.new) }
    {
        let place = frame.first_record() as u64;
        let count = frame.records();
        self.homes.push(Home {
            position: self.records.len() as u64,
            place,
            count: u64::from(count),
        })?;
        grow(
            frame.record_area(),
            place,
            count as usize,
            &mut self.records,
            &mut self.notes,
        )
    }

    /// Keeps the first records alone.
    fn shrink(&mut self, size: u64)
        requires { (old : ℕ) × (size ≤ old) × AreInTurn 0 self.old.homes.items old }
        ensures { IsCut size self.old self.new }
    {
        self.records.truncate(size as usize);
        self.notes.truncate(size);
        cut(&mut self.homes, size);
    }

    /// The changes below this number stand in their home bytes.
    fn fold(&mut self, count: u64)
        requires { self.old.folded ≤ count }
        ensures folded { self.new.folded ≡ count }
        ensures live { self.new.live.items ≡ drop (count - self.old.folded) self.old.live.items }
        ensures same { IsSame self.old self.new }
    {
        while self.folded < count {
            self.live.pop_front();
            self.folded += 1;
        }
    }

    /// The vector, once a closed gate has ended the frames, and where the records stand: the live changes are laid over
    /// the records, in their order. The fault is that of the least position whose bytes are no record.
    pub(crate) fn finish(self) -> Result<(Vec<R>, Homes), ScanFault>
        requires { (format : Format) × (frames : List Frame) × IsFound R.form format frames self }
        ensures vector { (format : Format) (frames : List Frame) (image : List ℕ) → IsFound R.form format frames self → BeginsWithText (shape_of format R.form) image frames
            → MatchResult result (λ answer. IsVectorOf format R.form image frames answer.0.items) (IsNoVector format R.form image frames) }
        ensures homes { IfOk result (λ answer. (format : Format) (frames : List Frame) → IsFound R.form format frames self → AreHomesOf (shape_of format R.form) frames answer.1) }
    {
        let Found {
            alloc,
            mut records,
            mut notes,
            homes,
            live,
            ..
        } = self;
        lay_live(&live, &mut records, &mut notes)?;
        let Ok(live) = runs_of_all(alloc, &live) else {
            return Err(ScanFault::Memory);
        };
        Ok((records, Homes { homes, live }))
    }
}
