//! `stat`: what a file has.

ghost use Rattle.std.specs.Prelude.{◌≡◌, ◌+◌};
ghost use Rattle.disk_core.specs.Calls.{bytes_of};
ghost use Rattle.disk_core.specs.Moments.{clock};
ghost use Rattle.stat_core.specs.Calls.{failed_at, AreCalls};
ghost use Rattle.stat_core.specs.Ended.{IsTold};
ghost use Rattle.stat_core.specs.Window.{OnlyReads};

use crate::fault::StatFault;
use crate::walking::summarize;
use crate::writing::{Form, write_summary};
use disk_core::Disk;
use std::io;
use std::io::Write;

/// How `stat` ended.
#[derive(Drop)]
pub enum StatEnded {
    /// All of its answer was written.
    Done,
    /// The file has no summary. Nothing was written of an answer.
    Refused(StatFault),
    /// The file has a summary, and a write of the answer failed: a part of it may have been written.
    Unwritten(io::Error),
}

/// Writes what the file has. It only reads the disk, which it gives back, and takes as much memory for a long file as
/// for a short one.
pub fn stat<D: Disk, W: Write>(disk: D, form: Form, writer: &mut W) -> (D, StatEnded)
    ensures told { IsTold (D.keeps result.0) (bytes_of (D.states disk)) (AreCalls (clock (D.states disk)) (clock (D.states result.0))) form (W.contents writer.old) (W.contents writer.new) result.1 }
    ensures only_reads { D.keeps result.0 → OnlyReads (D.states disk) (D.states result.0) }
    ensures faults { D.faults result.0 ≡ D.faults disk + failed_at result.1 }
    ensures model { D.keeps result.0 → D.keeps disk }
{
    let mut disk = disk;
    let summary = match summarize(&mut disk) {
        Ok(summary) => summary,
        Err(fault) => return (disk, StatEnded::Refused(fault)),
    };
    match write_summary(&summary, form, writer) {
        Ok(()) => (disk, StatEnded::Done),
        Err(error) => (disk, StatEnded::Unwritten(error)),
    }
}
