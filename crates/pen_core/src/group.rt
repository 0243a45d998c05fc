//! The begin of a group of growths.

ghost use Rattle.std.specs.Prelude.{◌≡◌, ◌≤◌, ◌<◌, ◌^◌, ◌++◌, ◌+◌, ◌*◌, false, None, Some, List, length, map, OnOk, OnErr, IfOk, IfErr, MatchOption};
ghost use Rattle.std.specs.List.{AllByRecursion};
ghost use Rattle.std.specs.Option.{is_some};
ghost use Rattle.segment_core.specs.Shape.{limit_of};
ghost use Rattle.segment_core.specs.Raw.{AreCellsOf};
ghost use Rattle.segment_core.specs.Written.{group_frame, joined, payload_len};
ghost use Rattle.pen_core.specs.Pen.{BeginsFrame, IsKept, IsUnchanged, vector_after};
ghost use Rattle.pen_core.specs.Refusals.{first_refusal, fold_len, IsRefusal, group_lines};

use crate::fault::PenFault;
use crate::frame_bytes::put_group;
use crate::pen::Pen;
use crate::step::PenStep;
use disk_core::Disk;
use record_core::{GROWTH_HEAD_LEN, RECORD_LIMIT, Record, width_of};
use segment_core::{COUNT_LEN, FRAME_HEAD_LEN, GrowthList, Home, Tally};

/// How many records the growths have, if no vector is too short for them.
pub(crate) fn count_records<R, G: GrowthList<R>>(growths: &G) -> Option<u64>
    ensures { MatchOption result
        (2 ^ 32 < length (joined (G.growths growths.now)))
        (λ n. (n ≡ length (joined (G.growths growths.now))) × (n ≤ 2 ^ 32)) }
{
    let mut total: u64 = 0;
    for k in 0..growths.count() {
        let records = growths.growth(k).len() as u64;
        if records > RECORD_LIMIT - total {
            return None;
        }
        total += records;
    }
    Some(total)
}

impl<D: Disk> Pen<D> {
    /// All refusals of a group of one growth of so many records but that of memory.
    pub fn ready_growth<R: Record>(&self, records: u64) -> Result<(), PenFault>
        ensures whole { OnOk result (self.now.broken ≡ false) }
        ensures allowed { OnOk result (first_refusal (group_lines self.now records (8 + records * R.form.width)) ≡ None) }
        ensures few { OnOk result (self.now.tally.size + records ≤ 2 ^ 32) }
        ensures refused { IfErr result (λ fault. first_refusal (group_lines self.now records (8 + records * R.form.width)) ≡ Some fault) }
    {
        self.ready()?;
        if records > RECORD_LIMIT - self.tally.size {
            return Err(PenFault::OutOfRange);
        }
        let payload = GROWTH_HEAD_LEN as u64 + records * width_of::<R>() as u64;
        if payload > self.shape.format.payload_limit() as u64 {
            return Err(PenFault::TooLarge);
        }
        if self.is_full(payload as usize) {
            return Err(PenFault::FileFull);
        }
        Ok(())
    }

    /// All refusals of growths as one group but that of memory; and how many records they have.
    fn group_records<R: Record, G: GrowthList<R>>(&self, growths: &G) -> Result<u64, PenFault>
        requires { AllByRecursion (λ growth. 0 < length growth) (G.growths growths.now) }
        ensures records { IfOk result (λ n. n ≡ length (joined (G.growths growths.now))) }
        ensures short { OnOk result (self.now.tally.size + length (joined (G.growths growths.now)) ≤ 2 ^ 32) }
        ensures fits { OnOk result (payload_len R.form.width (G.growths growths.now) ≤ limit_of self.now.shape.format) }
        ensures space { OnOk result (self.now.gate + (6 + payload_len R.form.width (G.growths growths.now)) + fold_len self.now.fold < 2 ^ 48) }
        ensures whole { OnOk result (self.now.broken ≡ false) }
        ensures idle { OnOk result (is_some self.now.job ≡ false) }
        ensures allowed { OnOk result (first_refusal (group_lines self.now (length (joined (G.growths growths.now))) (payload_len R.form.width (G.growths growths.now))) ≡ None) }
        ensures refused { IfErr result (λ fault. first_refusal (group_lines self.now (length (joined (G.growths growths.now))) (payload_len R.form.width (G.growths growths.now))) ≡ Some fault) }
        ensures kept { D.keeps self.now.disk → IsKept (D.states self.now.disk) self.now }
    {
        self.ready()?;
        let Some(records) = count_records::<R, G>(growths) else {
            return Err(PenFault::OutOfRange);
        };
        if self.tally.size + records > RECORD_LIMIT {
            return Err(PenFault::OutOfRange);
        }
        let payload = 4 + growths.count() * 4 + records as usize * width_of::<R>();
        let limit = self.shape.format.payload_limit();
        if payload > limit {
            return Err(PenFault::TooLarge);
        }
        if self.is_full(payload) {
            return Err(PenFault::FileFull);
        }
        Ok(records)
    }

    /// Begins to commit growths as one group, of which each lends its records as one slice.
    ///
    /// Refused, in this order: `Broken`; `Busy`; `OutOfRange`, where the vector would have more than 2^32 records;
    /// `TooLarge`, past the limit of the format's payloads; `FileFull`; `Memory`.
    pub fn begin_growths<R: Record, G: GrowthList<R>>(
        &mut self,
        growths: &G,
    ) -> Result<(), PenFault>
        requires width { R.form.width ≡ self.old.shape.width }
        requires some { 0 < length (G.growths growths.now) }
        requires each { AllByRecursion (λ growth. 0 < length growth) (G.growths growths.now) }
        ensures begun { OnOk result (BeginsFrame (group_frame R.form (G.growths growths.now)) self.old self.new) }
        ensures next { (records : List R) → AreCellsOf R.form self.old.vector records
            → OnOk result (AreCellsOf R.form (vector_after self.new) (records ++ joined (G.growths growths.now))) }
        ensures allowed { OnOk result (first_refusal (group_lines self.old (length (joined (G.growths growths.now))) (payload_len R.form.width (G.growths growths.now))) ≡ None) }
        ensures refused { IfErr result (λ fault. IsRefusal (group_lines self.old (length (joined (G.growths growths.now))) (payload_len R.form.width (G.growths growths.now))) fault) }
        ensures unchanged { OnErr result (IsUnchanged self.old self.new) }
        ensures kept { D.keeps self.new.disk → IsKept (D.states self.new.disk) self.new }
    {
        let records = self.group_records::<R, G>(growths)?;
        if self.homes.homes.reserve(1).is_err() {
            return Err(PenFault::Memory);
        }
        let limit = self.shape.format.payload_limit();
        if put_group::<R, G>(growths, limit, &mut self.bytes).is_err() {
            return Err(PenFault::Memory);
        }
        self.homes.homes.push_reserved(Home {
            position: self.tally.size,
            place: self.gate + (FRAME_HEAD_LEN + COUNT_LEN + growths.count() * COUNT_LEN) as u64,
            count: records,
        });
        self.next = Tally {
            size: self.tally.size + records,
            ..self.tally
        };
        self.step = Some(PenStep::Body);
        Ok(())
    }

    /// Begins to commit growths as one group: at least one, and none empty. `begin_growths` says more.
    pub fn begin_group<R: Record>(&mut self, growths: &[&[R]]) -> Result<(), PenFault>
        requires width { R.form.width ≡ self.old.shape.width }
        requires some { 0 < length growths.now }
        requires each { AllByRecursion (λ growth. 0 < length growth) (map (λ growth. growth.now) growths.now) }
        ensures begun { OnOk result (BeginsFrame (group_frame R.form (map (λ growth. growth.now) growths.now)) self.old self.new) }
        ensures next { (records : List R) → AreCellsOf R.form self.old.vector records
            → OnOk result (AreCellsOf R.form (vector_after self.new) (records ++ joined (map (λ growth. growth.now) growths.now))) }
        ensures allowed { OnOk result (
            first_refusal (group_lines self.old (length (joined (map (λ growth. growth.now) growths.now))) (payload_len R.form.width (map (λ growth. growth.now) growths.now))) ≡ None) }
        ensures refused { IfErr result (λ fault.
            IsRefusal (group_lines self.old (length (joined (map (λ growth. growth.now) growths.now))) (payload_len R.form.width (map (λ growth. growth.now) growths.now))) fault) }
        ensures unchanged { OnErr result (IsUnchanged self.old self.new) }
        ensures kept { D.keeps self.new.disk → IsKept (D.states self.new.disk) self.new }
    {
        self.begin_growths::<R, &[&[R]]>(&growths)
    }
}
