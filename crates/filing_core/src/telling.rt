//! What a file has, told without the type of its records.

ghost use Rattle.std.specs.Prelude.{◌≡◌};
ghost use Rattle.filing_core.specs.Beside.{IsJustShared, IsLookDone, SummarizesBeside};
ghost use Rattle.filing_core.specs.Commands.{HasToldStat, IsStatRun};
ghost use Rattle.filing_core.specs.Complaints.{IsJustOpened, IsStatStatus, stat_complaint};

use crate::access::{Opened, Readable, open_beside};
use crate::beside::status_of_look;
use crate::noting::{NotedDisk, RefusalNote};
use crate::releasing::{ReadLock, ReleasingWriter};
use disk_core::SharedFile;
use files_core::{FileFault, Progress, Watched};
use follow_core::stat_beside;
use pen_core::OpenFault;
use sentences::Complaint;
use stat_core::{Form, StatEnded, StatFault, stat};
use std::alloc::Global;
use std::fs::File;
use std::io::Write;
use std::rt::Files;
use std::time::Clock;
use text_core::Status;
use words_core::StatWords;

/// The complaint of a file that has no summary: of a damaged one with the records that its frames before that leave.
fn complaint_of(fault: StatFault) -> Complaint
    ensures { result ≡ stat_complaint fault }
{
    match fault {
        StatFault::Disk(fault) => Complaint::Fault(FileFault::Open(OpenFault::Disk(fault))),
        StatFault::Header(fault) => Complaint::Fault(FileFault::Open(OpenFault::Scan(fault))),
        StatFault::Frame { fault, before } => Complaint::Damaged(
            before.size,
            FileFault::Open(OpenFault::Scan(fault)),
        ),
    }
}

/// How `stat` ended whose engine ended so.
fn status_of(ended: StatEnded) -> Result<Status, Complaint>
    ensures { IsStatStatus ended result }
{
    match ended {
        StatEnded::Done => Ok(Status::Done),
        StatEnded::Unwritten(_) => Ok(Status::OutputFailed),
        StatEnded::Refused(fault) => Err(complaint_of(fault)),
    }
}

/// Writes what the file has that is locked.
fn stat_locked<W: Write, P: Progress>(
    opened: Opened<'_>,
    progress: &P,
    form: Form,
    writer: &mut W,
) -> Result<Status, Complaint>
    ensures { IsJustOpened opened.entry.disk → HasToldStat form (W.contents writer.old) (W.contents writer.new) result }
{
    let Opened { disk, lock } = opened;
    let disk = Watched::new(disk, progress);
    let mut writer = ReleasingWriter::new(writer, ReadLock::of(lock.file));
    let (_disk, ended) = stat::<Watched<'_, NotedDisk<'_>, P>, ReleasingWriter<'_, W>>(
        disk,
        form,
        &mut writer,
    );
    status_of(ended)
}

/// The same beside the command that has the file.
fn stat_shared<W: Write>(
    alloc: Global,
    file: SharedFile,
    form: Form,
    writer: &mut W,
) -> Result<Status, Complaint>
    ensures { IsJustShared file → IsLookDone result (SummarizesBeside form (W.contents writer.old) (W.contents writer.new)) }
{
    let mut file = file;
    status_of_look(stat_beside(alloc, &mut file, form, writer))
}

/// Writes what the file has: under a lock that others who read share, or beside the command that has it. A complaint: it was
/// refused, and nothing of an answer was written.
pub fn tell_stat<W: Write, F: Files<File = File> + Clock + AllocGlobal, P: Progress>(
    files: &F,
    progress: &P,
    note: &RefusalNote,
    words: &StatWords<'_>,
    writer: &mut W,
) -> Result<Status, Complaint>
    ensures { IsStatRun words.now.form (W.contents writer.old) (W.contents writer.new) result }
{
    match open_beside(files, note, words.file)? {
        Readable::Locked(opened) => stat_locked(opened, progress, words.form, writer),
        Readable::Beside(file) => stat_shared(files.alloc(), file, words.form, writer),
    }
}
