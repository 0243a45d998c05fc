//! The commands over files: words first, then the input, then the file.

ghost use Rattle.std.specs.Prelude.{◌≡◌, None, IfSome, IfOk, IfErr};
ghost use Rattle.std.specs.Option.{option_copied};
ghost use Rattle.std.specs.NonZero.{non_zero_u32_get};
ghost use Rattle.files_core.specs.Watched.{below};
ghost use Rattle.load_core.specs.Appending.{IsLineBehind};
ghost use Rattle.filing_core.specs.Complaints.{IsComplaintOf, IsJustOpened, IsUnopened};
ghost use Rattle.filing_core.specs.Commands.{IsAppendRun, IsClearRun, IsCommandRun, IsFoldRun, IsLoadRun, IsResizeRun, IsServeRun, IsSetRun};
ghost use Rattle.filing_core.specs.Shown.{IsCommandShown, IsInputShown, IsSetShown};

use crate::access::{Access, Opened, open};
use crate::counting::CountingGate;
use crate::ending::{status_of_append, status_of_serve, status_on};
use crate::noting::{NotedDisk, RefusalNote};
use crate::polling::looks_of;
use crate::searching::Sought;
use crate::serving::pipes_of;
use crate::setting::{bytes_of_word, setting_of};
use files_core::{
    OpensToWrite, Progress, Watched, clear, fold, read_resizing, resize, resize_in_parts, set,
};
use lines_core::Excerpt;
use load_core::{Deck, append, load, read_growth_lines};
use sentences::{Complaint, Role};
use serve_core::serve;
use std::alloc::Global;
use std::fs::File;
use std::io::{Read, Write};
use std::num::NonZeroU32;
use std::rt::Files;
use std::sync::Wait;
use std::thread::Threads;
use std::time::Clock;
use text_core::{Status, TextRecord};
use words_core::FileTask;

/// A command over a file, and who is told how far it is.
#[derive(Drop)]
pub struct Filing<'a, F, P> {
    pub alloc: Global,
    pub files: &'a F,
    /// The file's name.
    pub file: &'a str,
    /// For how many seconds another command is waited for that has the file.
    pub wait: u64,
    pub progress: &'a P,
    /// Where it is noted why the system refused a call of its files.
    pub note: &'a RefusalNote,
}

impl<'a, F: Files<File = File> + Clock + AllocGlobal, P: Progress + Sync> Filing<'a, F, P> {
    pub(crate) fn open(&self, access: Access) -> Result<Opened<'a>, Complaint>
        ensures opened { IfOk result (λ opened. IsJustOpened opened.disk) }
        ensures shut { IfErr result (IsUnopened Role.File) }
    {
        open(
            self.files,
            self.note,
            self.file,
            access,
            Role::File,
            self.wait,
        )
    }

    /// The disk of a file that is read as a whole, told of as it is.
    pub(crate) fn watched<'n>(&self, disk: NotedDisk<'n>) -> Watched<'_, NotedDisk<'n>, P>
        ensures { below result ≡ disk.entry }
    {
        Watched::new(disk, self.progress)
    }

    fn load<R: TextRecord, S: Deck<R> + Drop, I: Read, W: Write, E: Threads + Wait + Sync>(
        &self,
        rt: &E,
        seats: u16,
        reader: &mut I,
        shown: &mut Option<Excerpt>,
        writer: &mut W,
    ) -> Result<Status, Complaint>
        ensures run { IsLoadRun R.form (W.contents writer.old) (W.contents writer.new) result R.spelling (I.remaining reader.old) seats }
        ensures shown { IsInputShown R.spelling (I.remaining reader.old) result shown.new }
    {
        let growths = read_growth_lines::<R, I>(self.alloc, reader, shown)?;
        let Opened { disk, lock: _lock } = self.open(Access::Writes)?;
        let gate = CountingGate::new(self.progress, growths.count() as u64);
        let (disk, appended, ended) = load::<R, S, NotedDisk<'_>, W, CountingGate<'_, P>, E>(
            rt, self.alloc, disk, growths, seats, &gate, writer,
        );
        status_of_append::<R>(self.alloc, disk, appended, ended)
    }

    fn append<R: TextRecord + OpensToWrite, I: Read, W: Write>(
        &self,
        block: NonZeroU32,
        reader: &mut I,
        shown: &mut Option<Excerpt>,
        writer: &mut W,
    ) -> Result<Status, Complaint>
        requires { shown.old ≡ None }
        ensures run { IsAppendRun R.form (W.contents writer.old) (W.contents writer.new) result R.spelling (I.remaining reader.old) (non_zero_u32_get block) }
        ensures shown { IfSome shown.new (IsLineBehind R.spelling (non_zero_u32_get block) (I.remaining reader.old)) }
    {
        let Opened { disk, lock: _lock } = self.open(Access::Writes)?;
        let (disk, appended, ended) = append::<R, NotedDisk<'_>, I, W, P>(
            self.alloc,
            disk,
            reader,
            block,
            self.progress,
            shown,
            writer,
        );
        status_of_append::<R>(self.alloc, disk, appended, ended)
    }

    fn set<R: TextRecord + OpensToWrite, I: Read, W: Write>(
        &self,
        start: &str,
        records: Option<&str>,
        reader: &mut I,
        shown: &mut Option<Excerpt>,
        writer: &mut W,
    ) -> Result<Status, Complaint>
        requires { shown.old ≡ None }
        ensures run { IsSetRun R.form (W.contents writer.old) (W.contents writer.new) result R.spelling start.now (option_copied records.entry) (I.remaining reader.old) }
        ensures shown { IsSetShown R.spelling (option_copied records.entry) (I.remaining reader.old) result shown.new }
    {
        let word = bytes_of_word(records);
        let setting = setting_of::<R, I>(self.alloc, start.as_bytes(), word, reader, shown)?;
        let Opened { disk, lock: _lock } = self.open(Access::Writes)?;
        let (disk, ended) = set::<R, NotedDisk<'_>, W>(self.alloc, disk, &setting, writer);
        status_on::<R>(self.alloc, disk, ended)
    }

    fn resize<R: TextRecord, W: Write>(
        &self,
        len: &str,
        record: &str,
        in_parts: bool,
        writer: &mut W,
    ) -> Result<Status, Complaint>
        ensures { IsResizeRun R.form (W.contents writer.old) (W.contents writer.new) result R.spelling in_parts len.now «record».now }
    {
        let resizing = read_resizing::<R>(len.as_bytes(), record.as_bytes())?;
        let Opened { disk, lock: _lock } = self.open(Access::Writes)?;
        let (disk, ended) = if in_parts {
            resize_in_parts::<R, NotedDisk<'_>, W>(self.alloc, disk, &resizing, writer)
        } else {
            resize::<R, NotedDisk<'_>, W>(self.alloc, disk, &resizing, writer)
        };
        status_on::<R>(self.alloc, disk, ended)
    }

    fn clear<R: TextRecord, W: Write>(&self, writer: &mut W) -> Result<Status, Complaint>
        ensures { IsClearRun R.form (W.contents writer.old) (W.contents writer.new) result }
    {
        let Opened { disk, lock: _lock } = self.open(Access::Writes)?;
        let (disk, ended) = clear::<R, NotedDisk<'_>, W>(self.alloc, disk, writer);
        status_on::<R>(self.alloc, disk, ended)
    }

    fn fold<R: TextRecord, W: Write>(&self, writer: &mut W) -> Result<Status, Complaint>
        ensures { IsFoldRun R.form (W.contents writer.old) (W.contents writer.new) result }
    {
        let Opened { disk, lock: _lock } = self.open(Access::Writes)?;
        let disk = self.watched(disk);
        let (disk, ended) = fold::<R, Watched<'_, NotedDisk<'_>, P>, W>(self.alloc, disk, writer);
        status_on::<R>(self.alloc, disk.into_disk(), ended)
    }

    fn serve<R: TextRecord, W: Write, E: Threads + Wait + Sync>(
        &self,
        rt: &E,
        clients: u16,
        writer: &mut W,
    ) -> Result<Status, Complaint>
        ensures { IsServeRun R.form (W.contents writer.old) (W.contents writer.new) result clients }
    {
        let pipes = pipes_of(self.alloc, self.files, clients)?;
        let Opened { disk, lock: _lock } = self.open(Access::Writes)?;
        let (disk, served, ended) = serve::<R, NotedDisk<'_>, File, File, E>(
            rt, self.alloc, disk, pipes,
        );
        status_of_serve::<R, W>(self.alloc, disk, served, ended, writer)
    }

    /// Does the task. A complaint: it was refused, and nothing of an answer was written. Of a line of the input that is refused
    /// for its form an excerpt is left.
    pub fn run<
        R: TextRecord + OpensToWrite,
        S: Deck<R> + Drop,
        I: Read,
        W: Write,
        E: Threads + Wait + Sync,
    >(
        &self,
        rt: &E,
        task: FileTask<'_>,
        reader: &mut I,
        shown: &mut Option<Excerpt>,
        writer: &mut W,
    ) -> Result<Status, Complaint>
        ensures run { IsCommandRun R.form R.spelling task.entry (I.remaining reader.old) (W.contents writer.old) (W.contents writer.new) result }
        ensures shown { IsCommandShown R.spelling task.entry (I.remaining reader.old) result shown.new }
    {
        *shown = None;
        match task {
            FileTask::Create { format, over } => self.create::<R, W>(format, over, writer),
            FileTask::Load(seats) => self.load::<R, S, I, W, E>(rt, seats, reader, shown, writer),
            FileTask::Append { block, .. } => {
                self.append::<R, I, W>(block, reader, shown, writer)
            }
            FileTask::Check => self.check::<R, W>(writer),
            FileTask::List { from, count } => self.list::<R, W>(from, count, writer),
            FileTask::Follow { what, poll, once } => {
                self.follow::<R, W>(what, looks_of(poll, once), writer)
            }
            FileTask::Count(record) => self.search::<R, W, E>(rt, Sought::Count, record, writer),
            FileTask::Find(record) => self.search::<R, W, E>(rt, Sought::First, record, writer),
            FileTask::Set { start, records } => {
                self.set::<R, I, W>(start, records, reader, shown, writer)
            }
            FileTask::Resize {
                len,
                record,
                in_parts,
            } => self.resize::<R, W>(len, record, in_parts, writer),
            FileTask::Clear => self.clear::<R, W>(writer),
            FileTask::Fold => self.fold::<R, W>(writer),
            FileTask::Upgrade(new) => self.upgrade::<R, W>(new, writer),
            FileTask::Copy { new, format, block } => self.copy::<R, W>(new, format, block, writer),
            FileTask::Serve(seats) => self.serve::<R, W, E>(rt, seats, writer),
        }
    }
}
