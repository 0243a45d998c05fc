//! A disk in memory, for tests of what a crash may leave.
ghost use Rattle.std.specs.Prelude.{◌≡◌, ◌+◌, [], List, ◌∷◌, IfOk};
ghost use Rattle.record_core.specs.Bytes.{IsBytes};
ghost use Rattle.disk_core.specs.State.{now, settled, IsImage};
ghost use Rattle.disk_core.specs.History.{alone, logged_states};
ghost use Rattle.disk_core.specs.Choice.{IsChosen, pending_count};

use crate::contents::Contents;
use crate::event::Event;
use crate::log::Log;
use crate::{Choice, Disk, DiskFault};
use std::alloc::{AllocError, Global};

/// A disk in memory, which keeps the model.
/// A write fails where memory for it runs out: the bytes stay as they were, and a crash may leave anything in its
/// place from then on. The other calls take no memory and succeed.
#[derive(Drop)]
pub struct RamDisk {
    alloc: Global,
    contents: Contents,
    log: Log<Contents, Event>,
    ghost latest: { now (logged_states alone log.items) ≡ contents },
    ghost readable: { IsImage contents contents.seen },
    ghost bytes: { IsBytes contents.seen },
}

impl RamDisk {
    ghost use Rattle.disk_core.specs.RamDisk.{states_of, faults_of, KeepsSoFar};

    /// An empty disk.
    pub fn new(alloc: Global) -> RamDisk
        ensures states { states_of result ≡ settled [] ∷ [] }
        ensures faults { faults_of result ≡ 0 }
        ensures keeps { KeepsSoFar result }
    {
        RamDisk::from_bytes(alloc, Vec::new(alloc))
    }

    /// A disk with these bytes, all of them synced.
    pub fn from_bytes(alloc: Global, bytes: Vec<u8>) -> RamDisk
        ensures states { states_of result ≡ settled bytes.items ∷ [] }
        ensures faults { faults_of result ≡ 0 }
        ensures keeps { KeepsSoFar result }
    {
        let contents = Contents::settled(alloc, bytes);
        let log = Log::new().and(&contents, &Event::Began);
        RamDisk {
            alloc,
            contents,
            log,
        }
    }

    /// A crash image: the one that `choice` names. The disk stays as it is.
    pub fn image(&self, choice: &Choice) -> Result<Vec<u8>, AllocError>
        ensures chosen { IfOk result (λ image.
            IsChosen choice.now (now (states_of self.now)) image.items) }
        ensures crash_image { IfOk result (λ image. IsImage (now (states_of self.now)) image.items) }
    {
        self.contents.image(self.alloc, *choice)
    }

    /// How many places a crash now may leave as anything, up to the greatest length since the last sync. Takes no
    /// memory.
    pub fn pending(&self) -> u64
        ensures { result ≡ pending_count (now (states_of self.now)) }
    {
        self.contents.pending()
    }
}

impl Disk for RamDisk {
    ghost use Rattle.std.proofs.Common.{subst, sym};
    ghost use Rattle.std.specs.Prelude.{◌<◌, ◌≤◌, ◌^◌, length, slice_range, IsOk, OnOk, OnErr};
    ghost use Rattle.disk_core.specs.Calls.{bytes_of, AddsMoment, Stays, Writes, TearsWrite, Settles};
    ghost use Rattle.disk_core.specs.Moments.{clock};
    ghost use Rattle.disk_core.specs.Fault.{IsCounted};
    ghost use Rattle.disk_core.specs.RamDisk.{states_of, faults_of, KeepsSoFar};

    ghost states = { states_of };

    ghost faults = { faults_of };

    ghost keeps = { KeepsSoFar };

    ghost reads_an_image = { λ disk _. subst (λ s. IsImage s s.seen) (sym disk.latest) disk.readable };

    ghost reads_bytes = { λ disk _. subst (λ s. IsBytes s.seen) (sym disk.latest) disk.bytes };

    fn len(&mut self) -> Result<u64, DiskFault>
        ensures succeeds { IsOk result }
        ensures value { IfOk result (λ n. n ≡ length (bytes_of (states_of self.old))) }
        ensures same { Stays (states_of self.old) (states_of self.new) }
        ensures past { AddsMoment (states_of self.old) (states_of self.new) }
        ensures time { clock (states_of self.new) ≡ clock (states_of self.old) + 1 }
        ensures cause { IsCounted DiskFault.Length (faults_of self.old) (faults_of self.new) result }
    {
        self.log = self.log.and(&self.contents, &Event::Done);
        Ok(self.contents.bytes().len() as u64)
    }

    fn read_at(&mut self, at: u64, out: &mut [u8]) -> Result<(), DiskFault>
        requires { at + length out.old ≤ length (bytes_of (states_of self.old)) }
        ensures succeeds { IsOk result }
        ensures value { out.new ≡ slice_range (bytes_of (states_of self.old)) at (at + length out.old) }
        ensures same { Stays (states_of self.old) (states_of self.new) }
        ensures past { AddsMoment (states_of self.old) (states_of self.new) }
        ensures time { clock (states_of self.new) ≡ clock (states_of self.old) + 1 }
        ensures cause { IsCounted DiskFault.Read (faults_of self.old) (faults_of self.new) result }
    {
        let at = at as usize;
        out.copy_from_slice(&self.contents.bytes()[at..at + out.len()]);
        self.log = self.log.and(&self.contents, &Event::Done);
        Ok(())
    }

    fn write_at(&mut self, at: u64, bytes: &[u8]) -> Result<(), DiskFault>
        requires inside { at ≤ length (bytes_of (states_of self.old)) }
        requires fits { at + length bytes.now < 2 ^ 64 }
        ensures done { OnOk result (Writes at bytes.now (states_of self.old) (states_of self.new)) }
        ensures torn { OnErr result (
            TearsWrite at (length bytes.now) (states_of self.old) (states_of self.new)) }
        ensures bytes_stay { OnErr result (
            bytes_of (states_of self.new) ≡ bytes_of (states_of self.old)) }
        ensures past { AddsMoment (states_of self.old) (states_of self.new) }
        ensures time { clock (states_of self.new) ≡ clock (states_of self.old) + 1 }
        ensures cause { IsCounted DiskFault.Write (faults_of self.old) (faults_of self.new) result }
    {
        match self.contents.write(self.alloc, at as usize, bytes) {
            Ok(()) => {
                self.log = self.log.and(&self.contents, &Event::Done);
                Ok(())
            }
            Err(_) => {
                self.log = self.log.and(&self.contents, &Event::Failed);
                Err(DiskFault::Write)
            }
        }
    }

    fn sync(&mut self) -> Result<(), DiskFault>
        ensures succeeds { IsOk result }
        ensures done { Settles (states_of self.old) (states_of self.new) }
        ensures past { AddsMoment (states_of self.old) (states_of self.new) }
        ensures time { clock (states_of self.new) ≡ clock (states_of self.old) + 1 }
        ensures cause { IsCounted DiskFault.Sync (faults_of self.old) (faults_of self.new) result }
    {
        self.contents.sync();
        self.log = self.log.and(&self.contents, &Event::Done);
        Ok(())
    }
}
