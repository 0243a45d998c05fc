//! `copy` and `upgrade`: the old file is read first, under a lock that others who read share, or beside the command that has it.
//! That lock is let go, and only then the new file is opened, locked and written.

ghost use Rattle.std.specs.Prelude.{◌≡◌, ◌≤◌, ◌^◌, List, length, IfOk, MatchResult};
ghost use Rattle.filing_core.specs.Beside.{IsJustShared};
ghost use Rattle.filing_core.specs.Complaints.{IsJustOpened};
ghost use Rattle.filing_core.specs.Commands.{IsCopyRun, IsNewMade, IsNewUnmade, IsOldRead, IsOldUnread, IsUpgradeRun};

use crate::access::{
    LockedFile, Opened, Readable, open_beside, open_for_copy, vector_len, withdraw,
};
use crate::beside::complaint_of_copy;
use crate::copying::{copy_to, read_beside, read_old};
use crate::ending::{complaint_of, status_of_answer};
use crate::filing::Filing;
use crate::noting::NotedDisk;
use crate::place::{new_place, take_back};
use disk_core::SharedFile;
use files_core::{FileFault, Progress, Watched, write_copied, write_upgraded};
use segment_core::Format;
use sentences::Complaint;
use std::fs::File;
use std::io::Write;
use std::num::NonZeroU32;
use std::rt::Files;
use std::time::Clock;
use text_core::{Status, TextRecord};
use vault_core::{UpgradeFault, VaultFault};

/// A new file that has all records that were copied.
#[derive(Drop)]
struct NewFile {
    /// How many.
    size: u64,
    /// It stands until its command has answered.
    lock: LockedFile,
}

impl<'a, F: Files<File = File> + Clock + AllocGlobal, P: Progress + Sync> Filing<'a, F, P> {
    /// The version of FILE, which is locked, and its records.
    fn read_locked<R: TextRecord>(&self, opened: Opened<'_>) -> Result<(Format, Vec<R>), Complaint>
        ensures read { IsJustOpened opened.entry.disk → MatchResult result (λ found. IsOldRead R.form found.0 found.1.items) (IsOldUnread R.form) }
        ensures few { IfOk result (λ found. length found.1.items ≤ 2 ^ 32) }
    {
        let Opened { disk, lock: _lock } = opened;
        match read_old::<R, Watched<'_, NotedDisk<'_>, P>>(self.alloc, self.watched(disk)) {
            Ok((_disk, format, records)) => Ok((format, records)),
            Err((disk, fault)) => {
                let fault = FileFault::Upgrade(UpgradeFault::Old(fault));
                Err(complaint_of::<R>(self.alloc, disk.into_disk(), fault))
            }
        }
    }

    /// The same of FILE beside the command that has it.
    fn read_shared<R: TextRecord>(&self, file: SharedFile) -> Result<(Format, Vec<R>), Complaint>
        ensures read { IsJustShared file → MatchResult result (λ found. IsOldRead R.form found.0 found.1.items) (IsOldUnread R.form) }
        ensures few { IfOk result (λ found. length found.1.items ≤ 2 ^ 32) }
    {
        let mut file = file;
        match read_beside::<R, SharedFile>(self.alloc, &mut file) {
            Ok(found) => Ok(found),
            Err(fault) => Err(complaint_of_copy(fault)),
        }
    }

    /// The version of FILE, and its records. Behind this it is locked no more.
    fn read_file<R: TextRecord>(&self) -> Result<(Format, Vec<R>), Complaint>
        ensures read { MatchResult result (λ found. IsOldRead R.form found.0 found.1.items) (IsOldUnread R.form) }
        ensures few { IfOk result (λ found. length found.1.items ≤ 2 ^ 32) }
    {
        match open_beside(self.files, self.note, self.file) {
            Ok(Readable::Locked(opened)) => self.read_locked::<R>(opened),
            Ok(Readable::Beside(file)) => self.read_shared::<R>(file),
            Err(complaint) => Err(complaint),
        }
    }

    /// Copies the records of FILE, which has that version, into a new file that was opened, and answers how many.
    fn copy_into<R: TextRecord>(
        &self,
        disk: NotedDisk<'_>,
        lock: &LockedFile,
        own: Format,
        records: Vec<R>,
        format: Option<Format>,
        block: Option<NonZeroU32>,
    ) -> Result<u64, Complaint>
        requires few { length records.items ≤ 2 ^ 32 }
        ensures { IsJustOpened disk.entry → MatchResult result (IsNewMade R.form format block own records.items) (IsNewUnmade R.form format block own records.items) }
    {
        let disk = match new_place::<R>(disk, format) {
            Ok(disk) => disk,
            Err((_asked, fault)) => return Err(Complaint::Fault(fault)),
        };
        let before = vector_len(&lock.file);
        match copy_to::<R, NotedDisk<'_>>(self.alloc, own, records, disk, format, block) {
            Ok(vault) => Ok(vault.len()),
            Err((_disk, fault)) => {
                take_back(&lock.file, before, fault);
                let fault = UpgradeFault::New(VaultFault::Pen(fault));
                Err(Complaint::Fault(FileFault::Upgrade(fault)))
            }
        }
    }

    /// Makes the new file at this path of the records of FILE, which has that version.
    fn make_new<R: TextRecord>(
        &self,
        path: &str,
        own: Format,
        records: Vec<R>,
        format: Option<Format>,
        block: Option<NonZeroU32>,
    ) -> Result<NewFile, Complaint>
        requires few { length records.items ≤ 2 ^ 32 }
        ensures { MatchResult result (λ new. IsNewMade R.form format block own records.items new.size) (IsNewUnmade R.form format block own records.items) }
    {
        let Opened { disk, lock } = open_for_copy(
            self.files, self.note, path, self.file, self.wait,
        )?;
        match self.copy_into::<R>(disk, &lock, own, records, format, block) {
            Ok(size) => Ok(NewFile { size, lock }),
            Err(complaint) => {
                withdraw(self.files, path, &lock);
                Err(complaint)
            }
        }
    }

    pub fn copy<R: TextRecord, W: Write>(
        &self,
        new: &str,
        format: Option<Format>,
        block: Option<NonZeroU32>,
        writer: &mut W,
    ) -> Result<Status, Complaint>
        ensures { IsCopyRun R.form (W.contents writer.old) (W.contents writer.new) result format block }
    {
        let (own, records) = self.read_file::<R>()?;
        let new = self.make_new::<R>(new, own, records, format, block)?;
        Ok(status_of_answer(write_copied(writer, new.size)))
    }

    pub fn upgrade<R: TextRecord, W: Write>(
        &self,
        new: &str,
        writer: &mut W,
    ) -> Result<Status, Complaint>
        ensures { IsUpgradeRun R.form (W.contents writer.old) (W.contents writer.new) result }
    {
        let (own, records) = self.read_file::<R>()?;
        if own == Format::Two {
            return Err(Complaint::Fault(FileFault::Upgrade(UpgradeFault::NotOld)));
        }
        let new = self.make_new::<R>(new, own, records, Some(Format::Two), None)?;
        Ok(status_of_answer(write_upgraded(writer, new.size)))
    }
}
