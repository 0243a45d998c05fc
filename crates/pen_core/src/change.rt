//! The begin of a change: other records for runs of positions.

ghost use Rattle.std.specs.Prelude.{◌≡◌, ◌≤◌, ◌<◌, ◌^◌, ◌&&◌, None, Some, List, true, false, length, map, nat_lt, MatchResult, OnOk, IsOk, IfOk, OnErr, IfErr};
ghost use Rattle.std.specs.List.{list_all};
ghost use Rattle.std.specs.Option.{is_some};
ghost use Rattle.segment_core.specs.Frame.{records_of_runs};
ghost use Rattle.segment_core.specs.Raw.{AreCellsOf};
ghost use Rattle.segment_core.specs.Command.{replaced};
ghost use Rattle.segment_core.specs.Written.{joined};
ghost use Rattle.segment_core.specs.Runs.{runs_given, change_len, change_frame};
ghost use Rattle.segment_core.specs.Tally.{are_ascending, are_inside};
ghost use Rattle.pen_core.specs.Pen.{BeginsFrame, IsKept, IsUnchanged, vector_after};
ghost use Rattle.pen_core.specs.Refusals.{first_refusal, IsRefusal, change_lines, one_run, room_for, IsReadied};

use crate::fault::PenFault;
use crate::frame_bytes::{put_change, take_room};
use crate::group::count_records;
use crate::pen::Pen;
use crate::step::PenStep;
use disk_core::Disk;
use record_core::Record;
use segment_core::{Format, GrowthList, Tally};

/// Whether each run has a position, and begins at or behind the end of the one before.
fn runs_ascend(runs: &[(u64, u64)]) -> bool
    ensures { result ≡ (list_all (λ run. nat_lt 0 run.count) (runs_given runs.now) && are_ascending 0 (runs_given runs.now)) }
{
    let mut end: u128 = 0;
    for k in 0..runs.len() {
        let (start, count) = runs[k];
        if count == 0 || u128::from(start) < end {
            return false;
        }
        end = u128::from(start) + u128::from(count);
    }
    true
}

/// Whether the runs end inside a vector of this length.
fn runs_inside(runs: &[(u64, u64)], size: u64) -> bool
    ensures { result ≡ are_inside size (runs_given runs.now) }
{
    for k in 0..runs.len() {
        let (start, count) = runs[k];
        if count > size || start > size - count {
            return false;
        }
    }
    true
}

/// The positions of runs that stand one behind the other inside a vector.
fn count_positions(runs: &[(u64, u64)], size: u64) -> u64
    requires ascending { are_ascending 0 (runs_given runs.now) ≡ true }
    requires inside { are_inside size (runs_given runs.now) ≡ true }
    ensures is { result ≡ records_of_runs (runs_given runs.now) }
    ensures few { result ≤ size }
{
    let mut total: u64 = 0;
    for k in 0..runs.len() {
        total += runs[k].1;
    }
    total
}

impl<D: Disk> Pen<D> {
    /// The bytes of the payload of a change of these runs, if it may be begun.
    fn change_size(&self, runs: &[(u64, u64)]) -> Result<usize, PenFault>
        requires some { 0 < length runs.now }
        requires width { self.now.shape.width < 2 ^ 16 }
        ensures size { IfOk result (λ payload. payload ≡ change_len self.now.shape (runs_given runs.now)) }
        ensures small { IfOk result (λ payload. payload < 2 ^ 32) }
        ensures idle { OnOk result (is_some self.now.job ≡ false) }
        ensures allowed { OnOk result (first_refusal (change_lines self.now (runs_given runs.now)) ≡ None) }
        ensures refused { IfErr result (λ fault. first_refusal (change_lines self.now (runs_given runs.now)) ≡ Some fault) }
        ensures kept { D.keeps self.now.disk → IsKept (D.states self.now.disk) self.now }
    {
        self.ready()?;
        if matches!(self.shape.format, Format::One) && runs.len() > 1 {
            return Err(PenFault::OldFormat);
        }
        if !runs_ascend(runs) {
            return Err(PenFault::Runs);
        }
        if !runs_inside(runs, self.tally.size) {
            return Err(PenFault::OutOfRange);
        }
        let records = count_positions(runs, self.tally.size) as usize;
        let limit = self.shape.format.payload_limit();
        if runs.len() > limit {
            return Err(PenFault::TooLarge);
        }
        let payload = self.shape.format.runs_len(runs.len()) + records * self.shape.width;
        if payload > limit {
            return Err(PenFault::TooLarge);
        }
        if self.is_full(payload) {
            return Err(PenFault::FileFull);
        }
        Ok(payload)
    }

    /// Whether runs of positions, by start and count, may be changed: answers all refusals of such a change, and takes
    /// the room that its frame and its place among the live runs need. A begin of the same runs directly after it isn't
    /// refused.
    ///
    /// Refused, in this order: `Broken`; `Busy`; `OldFormat`, for more than one run in a file of version 1; `Runs`,
    /// where one is empty, or doesn't begin at or behind the end of the one before; `OutOfRange`; `TooLarge`;
    /// `FileFull`; `Memory`.
    pub fn ready_runs(&mut self, runs: &[(u64, u64)]) -> Result<(), PenFault>
        requires some { 0 < length runs.now }
        ensures ready { OnOk result (IsReadied self.new (runs_given runs.now)) }
        ensures allowed { OnOk result (first_refusal (change_lines self.old (runs_given runs.now)) ≡ None) }
        ensures refused { IfErr result (λ fault. IsRefusal (change_lines self.old (runs_given runs.now)) fault) }
        ensures unchanged { IsUnchanged self.old self.new }
        ensures kept { D.keeps self.new.disk → IsKept (D.states self.new.disk) self.new }
    {
        let payload = self.change_size(runs)?;
        if take_room(payload, &mut self.bytes).is_err() {
            return Err(PenFault::Memory);
        }
        if self.homes.live.reserve(runs.len()).is_err() {
            return Err(PenFault::Memory);
        }
        Ok(())
    }

    /// Whether `count` positions from `start` on may be changed, at least one. `ready_runs` says more.
    pub fn ready_change(&mut self, start: u64, count: u64) -> Result<(), PenFault>
        requires some { 0 < count }
        ensures ready { OnOk result (IsReadied self.new (one_run start count)) }
        ensures allowed { OnOk result (first_refusal (change_lines self.old (one_run start count)) ≡ None) }
        ensures refused { IfErr result (λ fault. IsRefusal (change_lines self.old (one_run start count)) fault) }
        ensures unchanged { IsUnchanged self.old self.new }
        ensures kept { D.keeps self.new.disk → IsKept (D.states self.new.disk) self.new }
    {
        self.ready_runs(&[(start, count)])
    }

    /// Begins to change the records of runs of positions, by start and count, to those that the pieces lend, in order,
    /// each piece as one slice. At least one run; the pieces have as many records as the runs.
    ///
    /// Refused as `ready_runs` is, in the same order. Directly after that of the same runs it isn't refused.
    pub fn begin_runs_from<R: Record, G: GrowthList<R>>(
        &mut self,
        runs: &[(u64, u64)],
        pieces: &G,
    ) -> Result<(), PenFault>
        requires width { R.form.width ≡ self.old.shape.width }
        requires some { 0 < length runs.now }
        requires filled { length (joined (G.growths pieces.now)) ≡ records_of_runs (runs_given runs.now) }
        ensures begun { OnOk result (BeginsFrame (change_frame R.form (runs_given runs.now) (G.growths pieces.now)) self.old self.new) }
        ensures next { (records : List R) → AreCellsOf R.form self.old.vector records
            → OnOk result (AreCellsOf R.form (vector_after self.new) (replaced records (runs_given runs.now) (joined (G.growths pieces.now)))) }
        ensures allowed { OnOk result (first_refusal (change_lines self.old (runs_given runs.now)) ≡ None) }
        ensures refused { IfErr result (λ fault. IsRefusal (change_lines self.old (runs_given runs.now)) fault) }
        ensures unchanged { OnErr result (IsUnchanged self.old self.new) }
        ensures kept { D.keeps self.new.disk → IsKept (D.states self.new.disk) self.new }
        ensures sure { IsReadied self.old (runs_given runs.now) → IsOk result }
    {
        let payload = self.change_size(runs)?;
        let format = self.shape.format;
        if put_change::<R, G>(format, runs, pieces, payload, &mut self.bytes).is_err() {
            return Err(PenFault::Memory);
        }
        if self.homes.live.extend_from_slice(runs).is_err() {
            return Err(PenFault::Memory);
        }
        self.next = Tally {
            changes: self.tally.changes + 1,
            ..self.tally
        };
        self.step = Some(PenStep::Body);
        Ok(())
    }

    /// Begins to change the records of runs. `begin_runs_from` says more.
    pub fn begin_runs<R: Record>(
        &mut self,
        runs: &[(u64, u64)],
        pieces: &[&[R]],
    ) -> Result<(), PenFault>
        requires width { R.form.width ≡ self.old.shape.width }
        requires some { 0 < length runs.now }
        requires filled { length (joined (map (λ piece. piece.now) pieces.now)) ≡ records_of_runs (runs_given runs.now) }
        ensures begun { OnOk result (BeginsFrame (change_frame R.form (runs_given runs.now) (map (λ piece. piece.now) pieces.now)) self.old self.new) }
        ensures next { (records : List R) → AreCellsOf R.form self.old.vector records
            → OnOk result (AreCellsOf R.form (vector_after self.new) (replaced records (runs_given runs.now) (joined (map (λ piece. piece.now) pieces.now)))) }
        ensures allowed { OnOk result (first_refusal (change_lines self.old (runs_given runs.now)) ≡ None) }
        ensures refused { IfErr result (λ fault. IsRefusal (change_lines self.old (runs_given runs.now)) fault) }
        ensures unchanged { OnErr result (IsUnchanged self.old self.new) }
        ensures kept { D.keeps self.new.disk → IsKept (D.states self.new.disk) self.new }
        ensures sure { IsReadied self.old (runs_given runs.now) → IsOk result }
    {
        self.begin_runs_from::<R, &[&[R]]>(runs, &pieces)
    }

    /// Begins to change the records from `start` on to those of the pieces, at least one. Directly after `ready_change`
    /// of the same start and count it isn't refused. `begin_runs_from` says more.
    pub fn begin_change<R: Record>(&mut self, start: u64, pieces: &[&[R]]) -> Result<(), PenFault>
        requires width { R.form.width ≡ self.old.shape.width }
        requires some { 0 < length (joined (map (λ piece. piece.now) pieces.now)) }
        ensures begun { OnOk result (
            BeginsFrame (change_frame R.form (one_run start (length (joined (map (λ piece. piece.now) pieces.now)))) (map (λ piece. piece.now) pieces.now)) self.old self.new) }
        ensures next { (records : List R) → AreCellsOf R.form self.old.vector records
            → OnOk result (AreCellsOf R.form (vector_after self.new)
            (replaced records (one_run start (length (joined (map (λ piece. piece.now) pieces.now)))) (joined (map (λ piece. piece.now) pieces.now)))) }
        ensures allowed { OnOk result (first_refusal (change_lines self.old (one_run start (length (joined (map (λ piece. piece.now) pieces.now))))) ≡ None) }
        ensures refused { IfErr result (λ fault. IsRefusal (change_lines self.old (one_run start (length (joined (map (λ piece. piece.now) pieces.now))))) fault) }
        ensures unchanged { OnErr result (IsUnchanged self.old self.new) }
        ensures kept { D.keeps self.new.disk → IsKept (D.states self.new.disk) self.new }
        ensures sure { IsReadied self.old (one_run start (length (joined (map (λ piece. piece.now) pieces.now)))) → IsOk result }
    {
        self.ready()?;
        let Some(count) = count_records::<R, &[&[R]]>(&pieces) else {
            return Err(PenFault::OutOfRange);
        };
        self.begin_runs_from::<R, &[&[R]]>(&[(start, count)], &pieces)
    }
}
