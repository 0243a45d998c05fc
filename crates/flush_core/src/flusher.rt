//! The owner of the pen while others grow.

ghost use Rattle.std.specs.Prelude.{◌≡◌, ◌+◌, ◌≤◌, ℕ, List, [], None, Some, MatchOption, length, take, map, slice_get, OnOk, IfErr};
ghost use Rattle.disk_core.specs.State.{now, IsImage};
ghost use Rattle.disk_core.specs.Moments.{clock};
ghost use Rattle.segment_core.specs.Raw.{AreCellsOf};
ghost use Rattle.pen_core.specs.Pen.{vector_after, stage_of};
ghost use Rattle.pen_core.specs.Refusals.{first_refusal, ready_lines};
ghost use Rattle.directory_core.specs.Limits.{place_limit};
ghost use Rattle.record_core.specs.Limits.{record_limit};
ghost use Rattle.directory_core.specs.Chain.{total, IsChained, AreBlocks};
ghost use Rattle.book_core.specs.Marks.{nothing_told};
ghost use Rattle.flush_core.specs.Flusher.{AreRaisedBy, OpensToJob, ToldIsLeft, list_to, tally_with};

use book_core::{Live, Writer};
use directory_core::Pass;
use disk_core::Disk;
use pen_core::{Pen, PenFault, Stage};
use record_core::Record;
use std::alloc::Global;
use std::marker::Model;

/// The owner of the pen while others grow: it finds their growths by a pass of its own, commits them group by group, and
/// raises the mark.
#[derive(Drop)]
pub struct Flusher<R: Record, D: Disk> {
    pub(crate) pen: Pen<D>,
    pub(crate) pass: Pass<R>,
    pub(crate) mark: Writer,
    /// How many records are from before the phase.
    pub(crate) before: u64,
    /// How many growths are in the file or in the group in hand.
    pub(crate) taken: u64,
    /// How many growths the file has whose last sync succeeded.
    pub(crate) settled: u64,
    pub(crate) alloc: Global,
}

impl<R: Record, D: Disk> Model for Flusher<R, D> {
    ghost use Rattle.flush_core.specs.Flusher.{FlusherOf, HasTold, IsFlusher, flusher_of};

    ghost Value = { FlusherOf R D };

    ghost view = { λ f. flusher_of R.form f.pen f.pass f.mark f.before f.taken f.settled };

    ghost invariant = { λ f. IsFlusher (D.keeps f.pen.disk) R.form (flusher_of R.form f.pen f.pass f.mark f.before f.taken f.settled)
        × HasTold (D.keeps f.pen.disk) (D.states f.pen.disk) R.form (flusher_of R.form f.pen f.pass f.mark f.before f.taken f.settled) };
}

impl<R: Record, D: Disk> Flusher<R, D> {
    /// A flusher at the beginning of a phase: its pen has no job in hand, and a vector of `before` records; its pass and
    /// its end of the mark, which was never raised, are those of a phase that begins behind so many records.
    pub fn begin(
        alloc: Global,
        pen: Pen<D>,
        pass: Pass<R>,
        mark: Writer,
        before: u64,
    ) -> Flusher<R, D>
        requires width { R.form.width ≡ pen.shape.width }
        requires idle { pen.job ≡ None }
        requires size { pen.tally.size ≡ before }
        requires knows { pass.entries ≡ [] }
        requires in_limit { before + pass.of.limit ≤ record_limit }
        requires told { (mark.told ≡ nothing_told) × (mark.raises ≡ []) }
        requires list { D.keeps pen.disk → (records : List R) × AreCellsOf R.form pen.vector records × (length records ≡ before) }
        ensures parts { (result.pen ≡ pen) × (result.pass ≡ pass) × (result.mark ≡ mark) }
        ensures counts { (result.before ≡ before) × (result.taken ≡ 0) × (result.settled ≡ 0) }
        ensures opening { (records : List R) → D.keeps pen.disk → AreCellsOf R.form pen.vector records → result.opening ≡ records }
    {
        Flusher {
            pen,
            pass,
            mark,
            before,
            taken: 0,
            settled: 0,
            alloc,
        }
    }

    /// How many growths it knows.
    pub fn known(&self) -> u64
        ensures count { result ≡ length self.now.pass.entries }
        ensures chained { IsChained self.now.pass.entries }
        ensures in_a_frame { AreBlocks R.form.width self.now.pass.entries }
        ensures in_room { (result ≤ self.now.pass.of.room) × (self.now.pass.of.room ≤ place_limit) }
        ensures in_limit { total self.now.pass.entries ≤ self.now.pass.of.limit }
    {
        self.pass.known()
    }

    /// How many records it knows, those from before the phase among them.
    pub fn size(&self) -> u64
        ensures size { result ≡ self.now.before + total self.now.pass.entries }
        ensures in_limit { result ≤ record_limit }
    {
        self.before + self.pass.size()
    }

    /// The records of the growth of that number, lent for the life of the book. `None` where it doesn't know it.
    pub fn growth<'a>(&mut self, live: &'a Live<R>, number: u64) -> Option<&'a [R]>
        requires of { self.old.pass.of ≡ live.now.directory }
        ensures same { self.new ≡ self.old }
        ensures value { MatchOption result
            (length self.old.pass.entries ≤ number)
            (λ records. slice_get (map (λ e. e.records) self.old.pass.entries) number ≡ Some records.now) }
    {
        let entry = live.entry(&mut self.pass, number)?;
        Some(entry.records())
    }

    /// How many growths of the phase are settled: the last sync of their commit has succeeded. The first ones are.
    pub fn settled(&self) -> u64
        ensures count { result ≡ self.now.settled }
        ensures known { result ≤ length self.now.pass.entries }
    {
        self.settled
    }

    /// Whether a log job may be begun: `Broken`, where a call of the disk has failed, and else `Busy`, while one is in hand.
    pub fn ready(&self) -> Result<(), PenFault>
        ensures allowed { OnOk result (first_refusal (ready_lines self.now.pen) ≡ None) }
        ensures refused { IfErr result (λ fault. first_refusal (ready_lines self.now.pen) ≡ Some fault) }
    {
        self.pen.ready()
    }

    /// What is left of the job and of the fold in hand.
    pub fn stage(&self) -> Stage
        ensures { result ≡ stage_of self.now.pen }
    {
        self.pen.stage()
    }

    /// The disk as it stands. Whatever a crash leaves of it opens to the records from before the phase and just the growths
    /// that are settled, or, with a group in hand, just those that are taken. What the mark told stands: whatever a crash has
    /// left since a raise, also inside a call that failed, opens to so many growths at least.
    pub fn disk(&self) -> &D
        ensures disk { result.now ≡ self.now.pen.disk }
        ensures told { D.keeps result.now → ToldIsLeft R.form (D.states result.now) self.now self.now.mark.raises }
        ensures past { AreRaisedBy (clock (D.states result.now)) self.now.mark.raises }
        ensures images { D.keeps result.now → (image : List ℕ) → IsImage (now (D.states result.now)) image → OpensToJob R.form self.now image }
    {
        self.pen.disk()
    }

    /// The disk, and how many growths are settled, also behind a fault of the pen. Whatever a crash leaves of the disk opens
    /// to the records from before the phase and just the growths that are settled, or, with a group in hand, just those that
    /// are taken. What the mark told stands: whatever a crash has left since a raise opens to so many growths at least.
    pub fn into_parts(self) -> (D, u64)
        ensures told { D.keeps result.0 → ToldIsLeft R.form (D.states result.0) self self.mark.raises }
        ensures disk { result.0 ≡ self.pen.disk }
        ensures count { result.1 ≡ self.settled }
        ensures images { D.keeps result.0 → (image : List ℕ) → IsImage (now (D.states result.0)) image → OpensToJob R.form self image }
    {
        let settled = self.settled;
        (self.pen.into_disk(), settled)
    }

    /// The pen and the pass, for what comes behind the phase. The pen's vector has the growths that are settled, and with the
    /// job in hand those that are taken.
    pub fn into_pen(self) -> (Pen<D>, Pass<R>)
        ensures parts { (result.0 ≡ self.pen) × (result.1 ≡ self.pass) }
        ensures file { D.keeps self.pen.disk → AreCellsOf R.form self.pen.vector (list_to self self.settled) × AreCellsOf R.form (vector_after self.pen) (list_to self self.taken) }
        ensures idle { self.pen.job ≡ None → self.taken ≡ self.settled }
        ensures size { self.pen.tally.size ≡ self.before + total (take self.settled self.pass.entries) }
        ensures size_then { (tally_with self.pen.tally self.pen.job).size ≡ self.before + total (take self.taken self.pass.entries) }
        ensures order { (self.settled ≤ self.taken) × (self.taken ≤ length self.pass.entries) }
        ensures width { R.form.width ≡ self.pen.shape.width }
    {
        (self.pen, self.pass)
    }
}
