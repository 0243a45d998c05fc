//! `create`: where nothing else stands, or over whatever does.

ghost use Rattle.std.specs.Prelude.{◌≡◌, ◌⊎◌, false, true, MatchResult};
ghost use Rattle.files_core.specs.Creating.{IsCreated, IsCreateRefusal};
ghost use Rattle.files_core.specs.Ended.{WritesText};
ghost use Rattle.files_core.specs.Texts.{created_line};
ghost use Rattle.filing_core.specs.Complaints.{IsJustOpened};
ghost use Rattle.filing_core.specs.Commands.{IsCreateRun};

use crate::access::{
    Access, LockedFile, ORDINARY, Opened, keep_name, lock_within, under_lock, withdraw,
};
use crate::ending::status_on;
use crate::filing::Filing;
use crate::noting::NotedDisk;
use crate::place::takeable;
use crate::replacing::Replacement;
use disk_core::Disk;
use files_core::{Ended, FileFault, Progress, create};
use record_core::Record;
use segment_core::Format;
use sentences::{Complaint, Role};
use std::alloc::Global;
use std::fs::File;
use std::io::Write;
use std::rt::Files;
use std::time::Clock;
use text_core::{Status, TextRecord, write_line};
use vault_core::{Vault, VaultFault};

/// How the file is opened: it may be new.
const MAKES: Access = Access::Makes { mode: ORDINARY };

/// Makes a vector as `create` of `files_core` does, but tells of it no more than how that ended: it has no place yet.
fn make<R: Record, D: Disk>(alloc: Global, disk: D, format: Format) -> (D, Result<(), FileFault>)
    ensures { MatchResult result.1
        (λ _. IsCreated R.form D.keeps D.states D.faults format disk result.0)
        (IsCreateRefusal R.form D.keeps D.states D.faults format disk result.0) }
{
    match Vault::<R, D>::create_as(alloc, disk, format) {
        Ok(vault) => (vault.into_disk(), Ok(())),
        Err((disk, fault)) => (disk, Err(FileFault::Vault(VaultFault::Pen(fault)))),
    }
}

/// Writes `created`, where a vector was made.
fn tell_made<W: Write>(writer: &mut W, made: Result<(), FileFault>) -> Ended
    ensures ends { MatchResult made (λ _. (result ≡ Ended.Done) ⊎ (result ≡ Ended.OutputFailed)) (λ fault. result ≡ Ended.Refused fault) }
    ensures writes { WritesText (W.contents writer.old) (W.contents writer.new) created_line result }
{
    match made {
        Ok(()) => Ended::told(write_line(b"created", writer)),
        Err(fault) => Ended::Refused(fault),
    }
}

impl<'a, F: Files<File = File> + Clock + AllocGlobal, P: Progress + Sync> Filing<'a, F, P> {
    /// How a creation ended. Where it was refused, and the file was made for it, that is taken away.
    fn leave(
        &self,
        lock: &LockedFile,
        filed: Result<Status, Complaint>,
    ) -> Result<Status, Complaint>
        ensures { result ≡ filed }
    {
        if filed.is_err() {
            withdraw(self.files, self.file, lock);
        }
        filed
    }

    /// Makes a vector on the disk of a file that was opened, where nothing else stands.
    fn create_on<R: TextRecord, W: Write>(
        &self,
        disk: NotedDisk<'_>,
        format: Format,
        writer: &mut W,
    ) -> Result<Status, Complaint>
        ensures { IsJustOpened disk.entry → IsCreateRun R.form (W.contents writer.old) (W.contents writer.new) result format false }
    {
        match takeable::<R>(disk, format) {
            Ok(disk) => {
                let (disk, ended) = create::<R, NotedDisk<'_>, W>(self.alloc, disk, format, writer);
                status_on::<R>(self.alloc, disk, ended)
            }
            Err((_asked, fault)) => Err(Complaint::Fault(fault)),
        }
    }

    /// Makes a vector on the disk of a file that was emptied.
    fn create_anew<R: TextRecord, W: Write>(
        &self,
        disk: NotedDisk<'_>,
        format: Format,
        writer: &mut W,
    ) -> Result<Status, Complaint>
        ensures { IsJustOpened disk.entry → IsCreateRun R.form (W.contents writer.old) (W.contents writer.new) result format true }
    {
        let (disk, ended) = create::<R, NotedDisk<'_>, W>(self.alloc, disk, format, writer);
        status_on::<R>(self.alloc, disk, ended)
    }

    /// Makes a vector in the locked file, which is emptied first.
    fn create_in<R: TextRecord, W: Write>(
        &self,
        lock: LockedFile,
        format: Format,
        writer: &mut W,
    ) -> Result<Status, Complaint>
        ensures { IsCreateRun R.form (W.contents writer.old) (W.contents writer.new) result format true }
    {
        if let Err(error) = lock.file.set_len(0) {
            return Err(Complaint::NotOpened(Role::File, error));
        }
        let Opened { disk, lock } = under_lock(lock, self.note, Role::File)?;
        let filed = self.create_anew::<R, W>(disk, format, writer);
        self.leave(&lock, filed)
    }

    /// Makes a vector in the place of whatever stands there: in a new file, where that may take the place, so that readers
    /// without a lock go on over the bytes of before, and a crash leaves those or the vector.
    fn create_over<R: TextRecord, W: Write>(
        &self,
        format: Format,
        writer: &mut W,
    ) -> Result<Status, Complaint>
        ensures { IsCreateRun R.form (W.contents writer.old) (W.contents writer.new) result format true }
    {
        let lock = lock_within(self.files, self.file, MAKES, Role::File, self.wait)?;
        let Some(Replacement { opened, names }) = Replacement::of(
            self.files, self.note, self.file, &lock.file,
        ) else {
            return self.create_in::<R, W>(lock, format, writer);
        };
        let Opened {
            disk,
            lock: _new_lock,
        } = opened;
        let (disk, made) = make::<R, NotedDisk<'_>>(self.alloc, disk, format);
        if made.is_err() {
            names.withdraw(self.files);
        } else if let Err(error) = keep_name(self.files, self.file) {
            // What is wanting for this behind the taking of the place, as descriptors, is wanting before it.
            names.withdraw(self.files);
            return Err(Complaint::NotOpened(Role::File, error));
        } else if names.take_place(self.files).is_err() {
            return self.create_in::<R, W>(lock, format, writer);
        } else if let Err(error) = keep_name(self.files, self.file) {
            return Err(Complaint::NotOpened(Role::File, error));
        }
        status_on::<R>(self.alloc, disk, tell_made(writer, made))
    }

    pub(crate) fn create<R: TextRecord, W: Write>(
        &self,
        format: Format,
        over: bool,
        writer: &mut W,
    ) -> Result<Status, Complaint>
        ensures { IsCreateRun R.form (W.contents writer.old) (W.contents writer.new) result format over }
    {
        if over {
            return self.create_over::<R, W>(format, writer);
        }
        let Opened { disk, lock } = self.open(MAKES)?;
        let filed = self.create_on::<R, W>(disk, format, writer);
        self.leave(&lock, filed)
    }
}
