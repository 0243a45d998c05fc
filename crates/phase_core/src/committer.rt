//! Who commits for all threads of a phase.

ghost use Rattle.std.specs.Prelude.{◌≡◌, ◌+◌, ◌<◌, length, None, true, IsNone, IfOk, IfErr, IfSome, OnOk, MatchResult};
ghost use Rattle.std.specs.Arc.{arc_value};
ghost use Rattle.disk_core.specs.Moments.{clock};
ghost use Rattle.flush_core.specs.Flusher.{AreRaisedBy, IsFlusherOf, ToldIsLeft};
ghost use Rattle.relay_core.specs.Listed.{LeadThrough};
ghost use Rattle.relay_core.specs.Making.{IsFollowed};
ghost use Rattle.phase_core.specs.Listing.{IsListLost};
ghost use Rattle.phase_core.specs.Committing.{GoesOn, IsCallFault, IsUnplanned, HostCommits, HostIsTold};

use crate::listing::list_from;
use book_core::Live;
use disk_core::Disk;
use flush_core::{FlushFault, Flusher, Lane, Tick};
use record_core::Record;
use relay_core::{Call, RelayDisk};
use std::alloc::Global;
use std::sync::Arc;

/// Who commits for all threads of a phase. It makes no call of the file: it lists them, a host makes them, and then it tells
/// the growers what is durable. One thread at a time uses it.
#[derive(Drop)]
pub struct Committer<R: Record, D: Disk> {
    pub(crate) live: Arc<Live<R>, Global>,
    pub(crate) flusher: Flusher<R, RelayDisk<D>>,
    /// The moment of the disk up to which the host has made its calls.
    pub(crate) made: u64,
    ghost of: { IsFlusherOf (D.keeps flusher.pen.disk.inner) (arc_value live) flusher },
    /// Nobody was told anything since.
    ghost past: { AreRaisedBy made flusher.mark.raises },
}

/// Makes the calls of the job in hand.
fn settle_job<R: Record, D: Disk>(flusher: &mut Flusher<R, RelayDisk<D>>) -> Result<(), FlushFault>
    ensures goes_on { GoesOn R.form (λ disk. D.keeps disk.inner) (λ disk. D.states disk.inner) flusher.old flusher.new }
    ensures taken { flusher.new.taken ≡ flusher.old.taken }
    ensures pass { flusher.new.pass ≡ flusher.old.pass }
    ensures idle { OnOk result (flusher.new.pen.job ≡ None) }
    ensures refused { IfErr result IsCallFault }
{
    // What the disk may leave before the first call opens too.
    let _disk = flusher.disk();
    while flusher.tick(Lane::Log)? == Tick::Step {}
    Ok(())
}

/// Begins to commit the next growths that it knows, and answers how many.
fn take<R: Record, D: Disk>(
    flusher: &mut Flusher<R, RelayDisk<D>>,
    live: &Live<R>,
) -> Result<u64, FlushFault>
    requires { IsFlusherOf (D.keeps flusher.old.pen.disk.inner) live.now flusher.old }
    ensures goes_on { GoesOn R.form (λ disk. D.keeps disk.inner) (λ disk. D.states disk.inner) flusher.old flusher.new }
    ensures taken { MatchResult result
        (λ count. flusher.new.taken ≡ flusher.old.taken + count)
        (λ _. flusher.new.taken ≡ flusher.old.taken) }
    ensures some { IfOk result (λ count. flusher.old.taken < length flusher.old.pass.entries → 0 < count) }
    ensures pass { OnOk result (flusher.new.pass ≡ flusher.old.pass) }
{
    let _disk = flusher.disk();
    flusher.take_group(live)
}

/// Learns what was grown.
fn learn<R: Record, D: Disk>(
    flusher: &mut Flusher<R, RelayDisk<D>>,
    live: &Live<R>,
) -> Result<(), FlushFault>
    requires { IsFlusherOf (D.keeps flusher.old.pen.disk.inner) live.now flusher.old }
    ensures goes_on { GoesOn R.form (λ disk. D.keeps disk.inner) (λ disk. D.states disk.inner) flusher.old flusher.new }
    ensures of { IsFlusherOf (D.keeps flusher.new.pen.disk.inner) live.now flusher.new }
    ensures taken { flusher.new.taken ≡ flusher.old.taken }
{
    let _disk = flusher.disk();
    flusher.look(live)?;
    Ok(())
}

/// Learns what was grown, and commits the next growths.
fn commit<R: Record, D: Disk>(
    flusher: &mut Flusher<R, RelayDisk<D>>,
    live: &Live<R>,
) -> Result<u64, FlushFault>
    requires { IsFlusherOf (D.keeps flusher.old.pen.disk.inner) live.now flusher.old }
    ensures goes_on { GoesOn R.form (λ disk. D.keeps disk.inner) (λ disk. D.states disk.inner) flusher.old flusher.new }
    ensures taken { IfOk result (λ count. flusher.new.taken ≡ flusher.old.taken + count) }
    ensures some { IfOk result (λ count. flusher.new.taken < length flusher.new.pass.entries → 0 < count) }
    ensures idle { OnOk result (flusher.new.pen.job ≡ None) }
    ensures refused { IfErr result (λ fault. IsUnplanned fault flusher.old flusher.new) }
{
    learn(flusher, live)?;
    let count = take(flusher, live)?;
    settle_job(flusher)?;
    Ok(count)
}

impl<R: Record, D: Disk> Committer<R, D> {
    ghost use Rattle.phase_core.specs.Committer.{phase_of, disk_of, calls_of};

    /// Who commits for a phase over a file of which the host has made the calls up to that moment.
    pub(crate) fn new(
        live: Arc<Live<R>, Global>,
        flusher: Flusher<R, RelayDisk<D>>,
        made: u64,
    ) -> Committer<R, D>
        requires of { IsFlusherOf (D.keeps flusher.pen.disk.inner) (arc_value live) flusher }
        requires past { AreRaisedBy made flusher.mark.raises }
        ensures parts { (phase_of result ≡ arc_value live) × (result.flusher ≡ flusher) }
        ensures made { result.made ≡ made }
    {
        Committer {
            live,
            flusher,
            made,
        }
    }

    /// Lists the calls that commit what was grown, and answers how many growths they commit: as many as one payload holds, and 0
    /// only where all that are known are taken. Where the host had made all calls before, whatever a crash leaves of its file
    /// while it makes these opens to the growths that were settled then, and maybe to more of the first.
    /// Refused as the flusher is: `Strayed`; `Pen(FileFull)` and `Pen(Memory)`, after which it may be called again;
    /// `Pen(Broken)` and `Pen(Disk)`, where a call has failed.
    pub fn plan(&mut self) -> Result<u64, FlushFault>
        ensures phase { phase_of self.new ≡ phase_of self.old }
        ensures goes_on { GoesOn R.form (λ disk. D.keeps disk.inner) (λ disk. D.states disk.inner) self.old.flusher self.new.flusher }
        ensures taken { IfOk result (λ count. self.new.flusher.taken ≡ self.old.flusher.taken + count) }
        ensures some { IfOk result (λ count. self.new.flusher.taken < length self.new.flusher.pass.entries → 0 < count) }
        ensures idle { OnOk result (self.new.flusher.pen.job ≡ None) }
        ensures made { self.new.made ≡ self.old.made }
        ensures host { D.keeps (disk_of self.new).inner → HostCommits R.form (D.states (disk_of self.old).inner)
            (D.states (disk_of self.new).inner) self.new.made self.old.flusher self.new.flusher }
        ensures refused { IfErr result (λ fault. IsUnplanned fault self.old.flusher self.new.flusher) }
    {
        commit(&mut self.flusher, &self.live)
    }

    /// The calls that the host is to make, in order: those that lead from the file as the host has made it to the file as it
    /// is to be. `None` where one of them was lost: then nothing more can be committed.
    pub fn calls(&self) -> Option<&[Call]>
        ensures are { IfSome result (λ calls. calls.now ≡ calls_of self.now) }
        ensures lead { IfSome result (λ calls.
            D.keeps (disk_of self.now).inner → LeadThrough (D.states (disk_of self.now).inner) self.now.made calls.now) }
        ensures followed { IfSome result (λ calls.
            D.keeps (disk_of self.now).inner → IsFollowed (D.states (disk_of self.now).inner) self.now.made calls.now) }
        ensures told { IfSome result (λ calls. D.keeps (disk_of self.now).inner
            → HostIsTold R.form (D.states (disk_of self.now).inner) self.now.made calls.now self.now.flusher) }
        ensures lost { IsNone result → IsListLost self.now.made (disk_of self.now) }
    {
        list_from(self.flusher.disk(), self.made)
    }

    /// The host has made the calls, and each has succeeded: tells the growers what is durable, and answers how many growths
    /// are. Whatever a crash leaves from then on opens to so many growths at least. `None` where a call was lost.
    pub fn settle(&mut self) -> Option<u64>
        ensures phase { phase_of self.new ≡ phase_of self.old }
        ensures made { IfSome result (λ _. self.new.made ≡ clock (D.states (disk_of self.new).inner)) }
        ensures told { IfSome result (λ count. (count ≡ self.old.flusher.settled) × (self.new.flusher.mark.told.count ≡ count)) }
        ensures only { IfSome result (λ _. self.new.flusher ≡ record self.old.flusher { mark = self.new.flusher.mark }) }
        ensures left { D.keeps (disk_of self.new).inner
            → ToldIsLeft R.form (D.states (disk_of self.new).inner) self.new.flusher self.new.flusher.mark.raises }
        ensures lost { IsNone result → (self.new.flusher ≡ self.old.flusher) × (self.new.made ≡ self.old.made)
            × ((disk_of self.old).lost ≡ true) }
    {
        let moment = self.flusher.disk().moment()?;
        self.flusher.disk().finish();
        self.made = moment;
        let count = self.flusher.raise(&self.live);
        // What the mark told stands.
        let _disk = self.flusher.disk();
        Some(count)
    }
}
