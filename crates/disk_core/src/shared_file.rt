//! A file of the operating system that another process writes.
ghost use Rattle.std.specs.Prelude.{◌≡◌};

use crate::ghost_bytes::GhostBytes;
use crate::log::Log;
use crate::shared_event::SharedEvent;
use crate::shared_truth::Unseen;
use crate::{DiskFault, Shared};
use std::fs::{File, OpenFile, OpenOptions};
use std::io;
use std::os::unix::fs::FileExt;
use std::path::AsPath;
use std::rt::Files;

/// A real file that another process writes, open for reading alone: it takes no lock and makes no change. A read of any
/// length is one call of the system, which goes on from where it did a part. A sync is `fdatasync`, which needs no leave to
/// write; once one has failed, all later ones fail.
///
/// As with `FileDisk`, its meaning is read from two values that take no memory: its calls with their answers, and what no
/// call tells (`SharedTruth`): what the file held at each moment, and how many moments each call lasted. Its contracts hold
/// whatever these are.
///
/// **Its user's premise**, which no proof shows: the machine has one page cache for the file, which all its processes read
/// and write, and a call copies its bytes from the first on. So a byte that is read is one that stood there during the
/// call, none before one in front of it, and `fdatasync` brings to the device what any process has written. A file system
/// over a network, FUSE, and a writer with `O_DIRECT` are outside of it.
#[derive(Drop)]
pub struct SharedFile<F: FileExt + OpenFile + Drop = File> {
    file: F,
    /// Once a sync has failed, the system may have dropped what it could not write, and a later sync would succeed
    /// without it.
    sync_failed: bool,
    unseen: Unseen,
    log: Log<SharedEvent, GhostBytes>,
}

impl<F: FileExt + OpenFile + Drop> SharedFile<F> {
    ghost use Rattle.std.specs.Prelude.{IfOk};
    ghost use Rattle.disk_core.specs.SharedTruth.{SharedTruth};
    ghost use Rattle.disk_core.specs.SharedFile.{shared_truth_of, now_of, HasKept};

    /// Opens the file at `path` for reading. What the system refuses is answered as its error.
    pub fn open<R: Files<File = F>, P: AsPath>(rt: &R, path: P) -> io::Result<SharedFile<F>>
        ensures now { IfOk result (λ file. now_of file ≡ 0) }
        ensures keeps { IfOk result (λ file. HasKept file) }
    {
        let file = OpenOptions::new().read(true).open(rt, path)?;
        Ok(SharedFile::over(file))
    }

    /// Over a file that is open for reading. Its contract holds whatever the file holds, and when.
    pub fn over(file: F) -> SharedFile<F>
        ghost truth: { SharedTruth }
        ensures truth { shared_truth_of result ≡ truth }
        ensures now { now_of result ≡ 0 }
        ensures keeps { HasKept result }
    {
        SharedFile {
            file,
            sync_failed: false,
            unseen: Unseen::any(),
            log: Log::new(),
        }
    }
}

impl<F: FileExt + OpenFile + Drop> Shared for SharedFile<F> {
    ghost use Rattle.disk_core.specs.SharedFile.{held_of, now_of, synced_of, HasKept};

    ghost held = { held_of };

    ghost now = { now_of };

    ghost synced = { synced_of };

    ghost keeps = { HasKept };

    fn read_at(&mut self, at: u64, out: &mut [u8]) -> Result<(), DiskFault> {
        match self.file.read_exact_at(out, at) {
            Ok(()) => {
                self.log = self.log.and(&SharedEvent::Read(at), &GhostBytes::of(out));
                Ok(())
            }
            Err(_) => {
                self.log = self.log.and(&SharedEvent::Failed, &GhostBytes::of(&[]));
                Err(DiskFault::Read)
            }
        }
    }

    fn read_some(&mut self, at: u64, out: &mut [u8]) -> Result<usize, DiskFault> {
        match self.file.read_at(out, at) {
            Ok(count) => {
                self.log = self
                    .log
                    .and(&SharedEvent::Read(at), &GhostBytes::of(&out[..count]));
                Ok(count)
            }
            Err(_) => {
                self.log = self.log.and(&SharedEvent::Failed, &GhostBytes::of(&[]));
                Err(DiskFault::Read)
            }
        }
    }

    fn sync(&mut self) -> Result<(), DiskFault> {
        if !self.sync_failed && self.file.sync_data().is_ok() {
            self.log = self.log.and(&SharedEvent::Synced, &GhostBytes::of(&[]));
            Ok(())
        } else {
            self.sync_failed = true;
            self.log = self.log.and(&SharedEvent::Failed, &GhostBytes::of(&[]));
            Err(DiskFault::Sync)
        }
    }
}
