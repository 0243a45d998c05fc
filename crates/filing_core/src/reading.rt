//! `check`, `list`, `count` and `find`: under a lock that others who read share, or beside the command that has the file.

ghost use Rattle.std.specs.Prelude.{IfErr, IfOk};
ghost use Rattle.std.specs.Option.{option_copied};
ghost use Rattle.files_core.specs.Checking.{IsChecked};
ghost use Rattle.files_core.specs.Listing.{IsWindowListed};
ghost use Rattle.filing_core.specs.Asked.{IsNoWindow, IsWindow};
ghost use Rattle.filing_core.specs.Beside.{IsJustShared, IsLookDone, ReadsBeside, CheckedBeside, ListedBeside, SoughtBeside};
ghost use Rattle.filing_core.specs.Complaints.{IsComplaintOf, IsJustOpened};
ghost use Rattle.filing_core.specs.Commands.{IsCheckRun, IsEngineDone, IsListRun, IsSearchRun, Reads, TellsSought};

use crate::access::{Opened, Readable, open_beside};
use crate::beside::status_of_look;
use crate::ending::status_on;
use crate::filing::Filing;
use crate::noting::NotedDisk;
use crate::releasing::{ReadLock, ReleasingWriter};
use crate::searching::{Sought, search, search_beside};
use crate::setting::bytes_of_word;
use disk_core::SharedFile;
use files_core::{
    FileFault, OpensToWrite, Progress, Watched, Window, check, list, read_record, read_window,
};
use follow_core::{check_beside, list_beside};
use sentences::Complaint;
use std::fs::File;
use std::io::Write;
use std::rt::Files;
use std::thread::Threads;
use std::time::Clock;
use text_core::{Status, TextRecord};

/// The window that two words name.
pub fn window_of(from: Option<&str>, count: Option<&str>) -> Result<Window, FileFault>
    ensures read { IfOk result (IsWindow (option_copied from.entry) (option_copied count.entry)) }
    ensures refused { IfErr result (IsNoWindow (option_copied from.entry) (option_copied count.entry)) }
{
    read_window(bytes_of_word(from), bytes_of_word(count))
}

impl<'a, F: Files<File = File> + Clock + AllocGlobal, P: Progress + Sync> Filing<'a, F, P> {
    fn check_locked<R: TextRecord + OpensToWrite, W: Write>(
        &self,
        opened: Opened<'_>,
        writer: &mut W,
    ) -> Result<Status, Complaint>
        ensures { IsJustOpened opened.entry.disk → IsEngineDone result (IsComplaintOf R.form) (Reads R.form (W.contents writer.old) (W.contents writer.new) result (IsChecked R.form)) }
    {
        let Opened { disk, lock } = opened;
        let disk = self.watched(disk);
        let mut writer = ReleasingWriter::new(writer, ReadLock::of(lock.file));
        let (disk, ended) = check::<R, Watched<'_, NotedDisk<'_>, P>, ReleasingWriter<'_, W>>(
            self.alloc,
            disk,
            &mut writer,
        );
        status_on::<R>(self.alloc, disk.into_disk(), ended)
    }

    fn check_shared<R: TextRecord, W: Write>(
        &self,
        file: SharedFile,
        writer: &mut W,
    ) -> Result<Status, Complaint>
        ensures { IsJustShared file → IsLookDone result (ReadsBeside R.form (CheckedBeside R.form) (W.contents writer.old) (W.contents writer.new)) }
    {
        let mut file = file;
        status_of_look(check_beside::<R, SharedFile, W>(self.alloc, &mut file, writer))
    }

    pub fn check<R: TextRecord + OpensToWrite, W: Write>(
        &self,
        writer: &mut W,
    ) -> Result<Status, Complaint>
        ensures { IsCheckRun R.form (W.contents writer.old) (W.contents writer.new) result }
    {
        match open_beside(self.files, self.note, self.file)? {
            Readable::Locked(opened) => self.check_locked::<R, W>(opened, writer),
            Readable::Beside(file) => self.check_shared::<R, W>(file, writer),
        }
    }

    fn list_locked<R: TextRecord + OpensToWrite, W: Write>(
        &self,
        opened: Opened<'_>,
        window: &Window,
        writer: &mut W,
    ) -> Result<Status, Complaint>
        ensures { IsJustOpened opened.entry.disk → IsEngineDone result (IsComplaintOf R.form) (Reads R.form (W.contents writer.old) (W.contents writer.new) result (IsWindowListed R.form R.spelling.text_of window.now)) }
    {
        let Opened { disk, lock } = opened;
        let mut writer = ReleasingWriter::new(writer, ReadLock::of(lock.file));
        let (disk, ended) = list::<R, Watched<'_, NotedDisk<'_>, P>, ReleasingWriter<'_, W>, P>(
            self.alloc,
            self.watched(disk),
            window,
            self.progress,
            &mut writer,
        );
        status_on::<R>(self.alloc, disk.into_disk(), ended)
    }

    fn list_shared<R: TextRecord, W: Write>(
        &self,
        file: SharedFile,
        window: &Window,
        writer: &mut W,
    ) -> Result<Status, Complaint>
        ensures { IsJustShared file → IsLookDone result (ReadsBeside R.form (ListedBeside R.form R.spelling.text_of window.now) (W.contents writer.old) (W.contents writer.new)) }
    {
        let mut file = file;
        status_of_look(list_beside::<R, SharedFile, W>(
            self.alloc,
            &mut file,
            window.from,
            window.count,
            writer,
        ))
    }

    pub fn list<R: TextRecord + OpensToWrite, W: Write>(
        &self,
        from: Option<&str>,
        count: Option<&str>,
        writer: &mut W,
    ) -> Result<Status, Complaint>
        ensures { IsListRun R.form (W.contents writer.old) (W.contents writer.new) result R.spelling (option_copied from.entry) (option_copied count.entry) }
    {
        let window = window_of(from, count)?;
        let readable = open_beside(self.files, self.note, self.file)?;
        match readable {
            Readable::Locked(opened) => self.list_locked::<R, W>(opened, &window, writer),
            Readable::Beside(file) => self.list_shared::<R, W>(file, &window, writer),
        }
    }

    fn search_locked<R: TextRecord + OpensToWrite, W: Write, E: Threads + Sync>(
        &self,
        rt: &E,
        opened: Opened<'_>,
        sought: Sought,
        wanted: R,
        writer: &mut W,
    ) -> Result<Status, Complaint>
        ensures { IsJustOpened opened.entry.disk → IsEngineDone result (IsComplaintOf R.form) (Reads R.form (W.contents writer.old) (W.contents writer.new) result (TellsSought R.form sought wanted)) }
    {
        let Opened { disk, lock } = opened;
        let disk = self.watched(disk);
        let mut writer = ReleasingWriter::new(writer, ReadLock::of(lock.file));
        let (disk, ended) = search::<R, Watched<'_, NotedDisk<'_>, P>, ReleasingWriter<'_, W>, E>(
            rt,
            self.alloc,
            sought,
            disk,
            wanted,
            &mut writer,
        );
        status_on::<R>(self.alloc, disk.into_disk(), ended)
    }

    fn search_shared<R: TextRecord, W: Write>(
        &self,
        file: SharedFile,
        sought: Sought,
        wanted: R,
        writer: &mut W,
    ) -> Result<Status, Complaint>
        ensures { IsJustShared file → IsLookDone result (ReadsBeside R.form (SoughtBeside R.form sought wanted) (W.contents writer.old) (W.contents writer.new)) }
    {
        let mut file = file;
        status_of_look(search_beside::<R, SharedFile, W>(
            self.alloc, sought, &mut file, wanted, writer,
        ))
    }

    /// `count` and `find`.
    pub fn search<R: TextRecord + OpensToWrite, W: Write, E: Threads + Sync>(
        &self,
        rt: &E,
        sought: Sought,
        record: &str,
        writer: &mut W,
    ) -> Result<Status, Complaint>
        ensures { IsSearchRun R.form (W.contents writer.old) (W.contents writer.new) result R.spelling sought «record».now }
    {
        let wanted = read_record::<R>(record.as_bytes())?;
        let readable = open_beside(self.files, self.note, self.file)?;
        match readable {
            Readable::Locked(opened) => {
                self.search_locked::<R, W, E>(rt, opened, sought, wanted, writer)
            }
            Readable::Beside(file) => self.search_shared::<R, W>(file, sought, wanted, writer),
        }
    }
}
