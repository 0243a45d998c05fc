//! A disk that stops working after so many calls.
ghost use Rattle.std.specs.Prelude.{◌≡◌};
ghost use Rattle.disk_core.specs.State.{now};
ghost use Rattle.disk_core.specs.History.{logged_states};

use crate::blow::{Fate, Fuse};
use crate::event::Event;
use crate::log::Log;
use crate::{Blow, Disk, DiskFault};

/// A disk over another, of whose calls so many pass. It keeps the model where the disk below does. Its clock and
/// its count of faults go on from those of the disk below, and count the calls that don't pass, too.
#[derive(Drop)]
pub struct FuseDisk<D: Disk> {
    inner: D,
    fuse: Fuse,
    log: Log<D, Event>,
    ghost latest: { now (logged_states D.states log.items) ≡ now (D.states inner) },
}

impl<D: Disk> FuseDisk<D> {
    ghost use Rattle.disk_core.specs.FuseDisk.{below, fuse_of, states_of, faults_of};

    /// Lets so many calls of `inner` pass, and then blows.
    pub fn new(inner: D, calls: u64, blow: Blow) -> FuseDisk<D>
        ensures states { states_of result ≡ D.states inner }
        ensures faults { faults_of result ≡ D.faults inner }
        ensures keeps { D.keeps inner → D.keeps (below result) }
        ensures below { below result ≡ inner }
        ensures fuse { fuse_of result ≡ Fuse.Whole calls blow }
    {
        let log = Log::new().and(&inner, &Event::Began);
        FuseDisk {
            inner,
            fuse: Fuse::Whole(calls, blow),
            log,
        }
    }

    /// The disk below, as it stands.
    pub fn into_inner(self) -> D
        ensures below { result ≡ below self }
        ensures state { now (D.states result) ≡ now (states_of self) }
    {
        let FuseDisk {
            inner,
            fuse: _,
            log: _,
        } = self;
        inner
    }
}

impl<D: Disk> Disk for FuseDisk<D> {
    ghost use Rattle.std.proofs.Common.{subst, sym};
    ghost use Rattle.std.specs.Prelude.{◌+◌, ◌<◌, ◌≤◌, ◌^◌, ◌∷◌, length, take, slice_range, IfOk, OnOk, OnErr};
    ghost use Rattle.record_core.specs.Bytes.{IsBytes};
    ghost use Rattle.disk_core.specs.State.{IsImage};
    ghost use Rattle.disk_core.specs.Calls.{bytes_of, AddsMoment, Stays, Writes, TearsWrite, Settles};
    ghost use Rattle.disk_core.specs.Moments.{clock};
    ghost use Rattle.disk_core.specs.Fault.{IsCounted};
    ghost use Rattle.disk_core.specs.Fuse.{burnt, fate_of, MatchFate, HasPassed, HasFailed, HasBroken};
    ghost use Rattle.disk_core.specs.FuseDisk.{below, fuse_of, states_of, faults_of};

    ghost states = { states_of };

    ghost faults = { faults_of };

    ghost keeps = { λ disk. D.keeps (below disk) };

    ghost reads_an_image = { λ disk model.
        subst (λ s. IsImage s s.seen) (sym disk.latest) (D.reads_an_image disk.inner model) };

    ghost reads_bytes = { λ disk model.
        subst (λ s. IsBytes s.seen) (sym disk.latest) (D.reads_bytes disk.inner model) };

    fn len(&mut self) -> Result<u64, DiskFault>
        ensures value { D.keeps (below self.new)
            → IfOk result (λ n. n ≡ length (bytes_of (states_of self.old))) }
        ensures same { D.keeps (below self.old) → Stays (states_of self.old) (states_of self.new) }
        ensures past { AddsMoment (states_of self.old) (states_of self.new) }
        ensures time { clock (states_of self.new) ≡ clock (states_of self.old) + 1 }
        ensures cause { IsCounted DiskFault.Length (faults_of self.old) (faults_of self.new) result }
        ensures model { D.keeps (below self.new) → D.keeps (below self.old) }
        ensures goes_on { D.keeps (below self.old)
            → IfOk result (λ n. n ≡ length (bytes_of (states_of self.old))) → D.keeps (below self.new) }

        ensures burns { fuse_of self.new ≡ burnt (fuse_of self.old) }
        ensures reaches { MatchFate (fate_of (fuse_of self.old))
            (HasPassed D.states D.faults DiskFault.Length (below self.old) (below self.new) result)
            (HasFailed (below self.old) (below self.new) result)
            (λ _. HasFailed (below self.old) (below self.new) result) }
    {
        let answer = match self.fuse.burn() {
            Fate::Passes => self.inner.len(),
            _ => Err(DiskFault::Length),
        };
        self.log = self.log.and(&self.inner, &Event::of(&answer));
        answer
    }

    fn read_at(&mut self, at: u64, out: &mut [u8]) -> Result<(), DiskFault>
        requires { D.keeps (below self.old)
            → at + length out.old ≤ length (bytes_of (states_of self.old)) }
        ensures value { D.keeps (below self.new)
            → OnOk result (out.new ≡ slice_range (bytes_of (states_of self.old)) at (at + length out.old)) }
        ensures same { D.keeps (below self.old) → Stays (states_of self.old) (states_of self.new) }
        ensures past { AddsMoment (states_of self.old) (states_of self.new) }
        ensures time { clock (states_of self.new) ≡ clock (states_of self.old) + 1 }
        ensures cause { IsCounted DiskFault.Read (faults_of self.old) (faults_of self.new) result }
        ensures model { D.keeps (below self.new) → D.keeps (below self.old) }
        ensures goes_on { D.keeps (below self.old)
            → OnOk result (out.new ≡ slice_range (bytes_of (states_of self.old)) at (at + length out.old))
            → D.keeps (below self.new) }

        ensures burns { fuse_of self.new ≡ burnt (fuse_of self.old) }
        ensures reaches { MatchFate (fate_of (fuse_of self.old))
            (HasPassed D.states D.faults DiskFault.Read (below self.old) (below self.new) result)
            (HasFailed (below self.old) (below self.new) result)
            (λ _. HasFailed (below self.old) (below self.new) result) }
    {
        let answer = match self.fuse.burn() {
            Fate::Passes => self.inner.read_at(at, out),
            _ => Err(DiskFault::Read),
        };
        self.log = self.log.and(&self.inner, &Event::of(&answer));
        answer
    }

    fn write_at(&mut self, at: u64, bytes: &[u8]) -> Result<(), DiskFault>
        requires inside { D.keeps (below self.old) → at ≤ length (bytes_of (states_of self.old)) }
        requires fits { at + length bytes.now < 2 ^ 64 }
        ensures done { D.keeps (below self.old)
            → OnOk result (Writes at bytes.now (states_of self.old) (states_of self.new)) }
        ensures torn { D.keeps (below self.new)
            → OnErr result (TearsWrite at (length bytes.now) (states_of self.old) (states_of self.new)) }
        ensures past { AddsMoment (states_of self.old) (states_of self.new) }
        ensures time { clock (states_of self.new) ≡ clock (states_of self.old) + 1 }
        ensures cause { IsCounted DiskFault.Write (faults_of self.old) (faults_of self.new) result }
        ensures model { D.keeps (below self.new) → D.keeps (below self.old) }
        ensures goes_on { D.keeps (below self.old) → OnOk result (D.keeps (below self.new)) }

        ensures burns { fuse_of self.new ≡ burnt (fuse_of self.old) }
        ensures reaches { MatchFate (fate_of (fuse_of self.old))
            (HasPassed D.states D.faults DiskFault.Write (below self.old) (below self.new) result)
            (HasFailed (below self.old) (below self.new) result)
            (λ arriving. HasBroken D.states D.faults D.keeps at (take arriving bytes.now)
            (below self.old) (below self.new) result) }
    {
        let answer = match self.fuse.burn() {
            Fate::Passes => self.inner.write_at(at, bytes),
            Fate::Fails => Err(DiskFault::Write),
            Fate::Breaks(arriving) => {
                let count = arriving.min(bytes.len() as u64) as usize;
                let _ = self.inner.write_at(at, &bytes[..count]);
                Err(DiskFault::Write)
            }
        };
        self.log = self.log.and(&self.inner, &Event::of(&answer));
        answer
    }

    fn sync(&mut self) -> Result<(), DiskFault>
        ensures done { D.keeps (below self.old)
            → OnOk result (Settles (states_of self.old) (states_of self.new)) }
        ensures same { D.keeps (below self.old)
            → OnErr result (Stays (states_of self.old) (states_of self.new)) }
        ensures past { AddsMoment (states_of self.old) (states_of self.new) }
        ensures time { clock (states_of self.new) ≡ clock (states_of self.old) + 1 }
        ensures cause { IsCounted DiskFault.Sync (faults_of self.old) (faults_of self.new) result }
        ensures model { D.keeps (below self.new) → D.keeps (below self.old) }
        ensures goes_on { D.keeps (below self.old) → D.keeps (below self.new) }

        ensures burns { fuse_of self.new ≡ burnt (fuse_of self.old) }
        ensures reaches { MatchFate (fate_of (fuse_of self.old))
            (HasPassed D.states D.faults DiskFault.Sync (below self.old) (below self.new) result)
            (HasFailed (below self.old) (below self.new) result)
            (λ _. HasFailed (below self.old) (below self.new) result) }
    {
        let answer = match self.fuse.burn() {
            Fate::Passes => self.inner.sync(),
            _ => Err(DiskFault::Sync),
        };
        self.log = self.log.and(&self.inner, &Event::of(&answer));
        answer
    }
}
