//! A disk that is a file of the operating system.
ghost use Rattle.std.specs.Prelude.{◌≡◌};
ghost use Rattle.record_core.specs.Bytes.{IsBytes};
ghost use Rattle.disk_core.specs.State.{now, IsImage};
ghost use Rattle.disk_core.specs.File.{file_states, HasAgreed};

use crate::file_event::FileEvent;
use crate::ghost_bytes::GhostBytes;
use crate::log::Log;
use crate::truth::Truth;
use crate::{Disk, DiskFault, Extent};
use std::fs::{self, File, OpenFile, OpenOptions};
use std::io;
use std::os::unix::fs::FileExt;
use std::path::{AsPath, Path};
use std::rt::Files;

/// A disk over a real file, by std's `File`. How long it may become is the file system's to say: a write past that is
/// a fault. It has no buffer of its own: a read or a write of any length is one call of the system. Where that call does a
/// part only, it goes on from there until all is done, and what can't be finished is a fault. A call that is interrupted
/// is made again, whichever it is.
///
/// What a file holds no program can know, so its meaning as a disk is read from two values that take no memory: the
/// calls so far with their answers, and what no call tells (`FileTruth`): the bytes that the file held when it was
/// opened, and those that a failed write left. The contracts of `Disk` hold whatever these are; clauses on bytes, as
/// long as they are bytes, and the answers agree with them. Before the first sync nothing of the file is known to be
/// on the disk.
///
/// What is to hold of files is stated on a function that takes a disk by value, or an open file and a truth, and calls
/// `over`. Inside the proofs of `open` and `make` the truth is that the file held nothing, so what is stated on a
/// function that itself calls them is empty for any other file.
///
/// **Its user's premise**, which no proof shows, is that the file keeps the model. Nobody else writes, shortens or
/// replaces it while the disk is in use, or shortened it before without a sync. A read gives what was written last,
/// and the length is what the writes made it; a write that fails changes nothing outside its range, and leaves a
/// length up to its end. After a sync that succeeded the device has these bytes and the length; a crash leaves them,
/// but for the ranges written since, where it may leave anything, and a length up to the greatest since. Where a
/// sync failed, nobody opens the file again before the system is restarted: it may show what the device doesn't
/// have.
#[derive(Drop)]
pub struct FileDisk<F: FileExt + OpenFile + Drop = File> {
    file: F,
    /// Once a sync has failed the system may have dropped what it could not write, and a later sync would succeed
    /// without it. So all later ones fail.
    sync_failed: bool,
    truth: Truth,
    log: Log<FileEvent, GhostBytes>,
    ghost readable: { HasAgreed truth.facts log.items
        → IsImage (now (file_states truth.facts log.items)) (now (file_states truth.facts log.items)).seen },
    ghost bytes: { HasAgreed truth.facts log.items → IsBytes (now (file_states truth.facts log.items)).seen },
}

impl<F: FileExt + OpenFile + Drop> FileDisk<F> {
    ghost use Rattle.std.specs.Prelude.{[], ◌∷◌, IfOk};
    ghost use Rattle.disk_core.specs.File.{opened};
    ghost use Rattle.disk_core.specs.FileTruth.{FileTruth};
    ghost use Rattle.disk_core.specs.FileDisk.{truth_of, states_of, faults_of, KeepsSoFar};

    /// Opens the file at `path` for reading and writing. Its bytes stay. What the system refuses is answered as its
    /// error: a file that isn't there, a folder, a lack of permission.
    pub fn open<R: Files<File = F>, P: AsPath>(rt: &R, path: P) -> io::Result<FileDisk<F>>
        ensures states { IfOk result (λ disk. states_of disk ≡ opened (truth_of disk).held ∷ []) }
        ensures faults { IfOk result (λ disk. faults_of disk ≡ 0) }
        ensures keeps { IfOk result (λ disk. KeepsSoFar disk) }
    {
        let file = OpenOptions::new().read(true).write(true).open(rt, path)?;
        Ok(FileDisk::over(file))
    }

    /// Opens the file at `path`, and makes an empty one where there is none. Bytes that are there stay. Then its
    /// folder is synced, so that a crash does not take the new name away; where that fails its error is answered, and
    /// the file stays. Where `path` is a symbolic link, the folder is that of the file which it leads to.
    pub fn make<R: Files<File = F> + AllocGlobal, P: AsPath>(
        rt: &R,
        path: P,
    ) -> io::Result<FileDisk<F>>
        ensures states { IfOk result (λ disk. states_of disk ≡ opened (truth_of disk).held ∷ []) }
        ensures faults { IfOk result (λ disk. faults_of disk ≡ 0) }
        ensures keeps { IfOk result (λ disk. KeepsSoFar disk) }
    {
        let file = OpenOptions::new()
            .read(true)
            .write(true)
            .create(true)
            .open(rt, path.path_text())?;
        sync_folder(rt, path.path_text())?;
        Ok(FileDisk::over(file))
    }

    /// A disk over a file that is open for reading and writing. Its contract holds whatever the file held.
    pub fn over(file: F) -> FileDisk<F>
        ghost truth: { FileTruth }
        ensures truth { truth_of result ≡ truth }
        ensures states { states_of result ≡ opened truth.held ∷ [] }
        ensures faults { faults_of result ≡ 0 }
        ensures keeps { IsBytes truth.held → KeepsSoFar result }
    {
        FileDisk {
            file,
            sync_failed: false,
            truth: Truth::any(),
            log: Log::new(),
        }
    }
}

/// Syncs the folder that has the name of the file at `path`. The folder of a link to it need not be that one.
fn sync_folder<R: Files + AllocGlobal>(rt: &R, path: &str) -> io::Result<()> {
    if fs::symlink_metadata(rt, path)?.is_symlink() {
        let file = fs::canonicalize(rt, path)?;
        sync_parent(rt, file.as_path())
    } else {
        sync_parent(rt, Path::new(path))
    }
}

/// Syncs the folder that a path ends in, by `fsync`: a new name is durable only then.
fn sync_parent<R: Files>(rt: &R, path: Path<'_>) -> io::Result<()> {
    let folder = match path.parent() {
        Some(folder) if !folder.as_str().is_empty() => folder,
        _ => Path::new("."),
    };
    File::open(rt, folder)?.sync_all()
}

/// The length of a file. Where the call is interrupted, it is made again.
fn length_of<F: OpenFile>(file: &F) -> io::Result<u64> {
    for _ in 0..u64::MAX {
        match file.metadata() {
            Ok(metadata) => return Ok(metadata.len()),
            Err(error) if error.kind() == io::ErrorKind::Interrupted => {}
            Err(error) => return Err(error),
        }
    }
    Err(io::ErrorKind::Interrupted.into())
}

impl<F: FileExt + OpenFile + Drop> Disk for FileDisk<F> {
    ghost use Rattle.std.specs.Prelude.{◌+◌, ◌<◌, ◌≤◌, ◌^◌, length, OnOk, OnErr};
    ghost use Rattle.disk_core.specs.Calls.{bytes_of, AddsMoment, Writes, TearsWrite, LeavesPending};
    ghost use Rattle.disk_core.specs.Moments.{clock};
    ghost use Rattle.disk_core.specs.Fault.{IsCounted};
    ghost use Rattle.disk_core.specs.FileDisk.{states_of, faults_of, KeepsSoFar};

    ghost states = { states_of };

    ghost faults = { faults_of };

    ghost keeps = { KeepsSoFar };

    ghost reads_an_image = { λ disk agreed. disk.readable agreed };

    ghost reads_bytes = { λ disk agreed. disk.bytes agreed };

    fn len(&mut self) -> Result<u64, DiskFault> {
        match length_of(&self.file) {
            Ok(len) => {
                self.log = self
                    .log
                    .and(&FileEvent::Measured(len), &GhostBytes::of(&[]));
                Ok(len)
            }
            Err(_) => {
                self.log = self.log.and(&FileEvent::Failed, &GhostBytes::of(&[]));
                Err(DiskFault::Length)
            }
        }
    }

    fn read_at(&mut self, at: u64, out: &mut [u8]) -> Result<(), DiskFault> {
        match self.file.read_exact_at(out, at) {
            Ok(()) => {
                self.log = self.log.and(&FileEvent::Read(at), &GhostBytes::of(out));
                Ok(())
            }
            Err(_) => {
                self.log = self.log.and(&FileEvent::Failed, &GhostBytes::of(&[]));
                Err(DiskFault::Read)
            }
        }
    }

    fn write_at(&mut self, at: u64, bytes: &[u8]) -> Result<(), DiskFault>
        requires inside { KeepsSoFar self.old → at ≤ length (bytes_of (states_of self.old)) }
        requires fits { at + length bytes.now < 2 ^ 64 }
        ensures done { KeepsSoFar self.old
            → OnOk result (Writes at bytes.now (states_of self.old) (states_of self.new)) }
        ensures torn { KeepsSoFar self.new
            → OnErr result (TearsWrite at (length bytes.now) (states_of self.old) (states_of self.new)) }
        ensures pending { OnErr result (LeavesPending at (length bytes.now) (states_of self.old) (states_of self.new)) }
        ensures past { AddsMoment (states_of self.old) (states_of self.new) }
        ensures time { clock (states_of self.new) ≡ clock (states_of self.old) + 1 }
        ensures cause { IsCounted DiskFault.Write (faults_of self.old) (faults_of self.new) result }
        ensures model { KeepsSoFar self.new → KeepsSoFar self.old }
        ensures goes_on { KeepsSoFar self.old → OnOk result (KeepsSoFar self.new) }
        ensures goes_on_torn { KeepsSoFar self.old → OnErr result (
            TearsWrite at (length bytes.now) (states_of self.old) (states_of self.new)
            → IsBytes (bytes_of (states_of self.new)) → KeepsSoFar self.new) }
    {
        match self.file.write_all_at(bytes, at) {
            Ok(()) => {
                self.log = self
                    .log
                    .and(&FileEvent::Written(at), &GhostBytes::of(bytes));
                Ok(())
            }
            Err(_) => {
                let len = bytes.len() as u64;
                self.log = self
                    .log
                    .and(&FileEvent::Torn(Extent { at, len }), &GhostBytes::of(&[]));
                Err(DiskFault::Write)
            }
        }
    }

    /// By `fdatasync`: it writes the bytes and, where the length has grown, the length. It leaves out what no read
    /// needs, as the times of the file, so a sync of bytes in place costs no change of the file system's own records.
    fn sync(&mut self) -> Result<(), DiskFault> {
        if !self.sync_failed && self.file.sync_data().is_ok() {
            self.log = self.log.and(&FileEvent::Synced, &GhostBytes::of(&[]));
            Ok(())
        } else {
            self.sync_failed = true;
            self.log = self.log.and(&FileEvent::Failed, &GhostBytes::of(&[]));
            Err(DiskFault::Sync)
        }
    }
}
