//! `count` and `find`, which ask for the same.

ghost use Rattle.std.specs.Prelude.{◌≡◌, ◌≤◌};
ghost use Rattle.disk_core.specs.Calls.{bytes_of};
ghost use Rattle.files_core.specs.Ended.{WritesAnswer};
ghost use Rattle.files_core.specs.Opened.{CommandOnlyReads};
ghost use Rattle.follow_core.specs.Beside.{IsReadBeside};
ghost use Rattle.filing_core.specs.Beside.{SoughtBeside};
ghost use Rattle.filing_core.specs.Commands.{TellsSought};

use disk_core::{Disk, Shared};
use files_core::{Ended, OpensToWrite, count, find};
use follow_core::{LookEnd, count_beside, find_beside};
use std::alloc::Global;
use std::io::Write;
use std::thread::Threads;
use text_core::TextRecord;

/// What is told of the records that equal one.
#[derive(Clone, Copy)]
pub enum Sought {
    /// How many there are.
    Count,
    /// The position of the first.
    First,
}

/// Has the engine of what is sought do its work.
pub fn search<R: TextRecord + OpensToWrite, D: Disk, W: Write, E: Threads + Sync>(
    rt: &E,
    alloc: Global,
    sought: Sought,
    disk: D,
    wanted: R,
    writer: &mut W,
) -> (D, Ended)
    ensures reads { CommandOnlyReads R.form D.keeps D.states D.faults disk result.0 result.1 }
    ensures writes { WritesAnswer (W.contents writer.old) (W.contents writer.new) (TellsSought R.form sought wanted (D.keeps result.0) (bytes_of (D.states disk))) result.1 }
{
    match sought {
        Sought::Count => count(rt, alloc, disk, wanted, writer),
        Sought::First => find(rt, alloc, disk, wanted, writer),
    }
}

/// The same beside the writer of a file.
pub fn search_beside<R: TextRecord, S: Shared, W: Write>(
    alloc: Global,
    sought: Sought,
    file: &mut S,
    wanted: R,
    writer: &mut W,
) -> LookEnd
    ensures read { IsReadBeside R.form (SoughtBeside R.form sought wanted) (S.keeps file.new) (S.held file.old) (S.now file.old) (S.now file.new) (S.synced file.new)
        (W.contents writer.old) (W.contents writer.new) result }
    ensures same { S.held file.new ≡ S.held file.old }
    ensures model { S.keeps file.new → S.keeps file.old }
{
    match sought {
        Sought::Count => count_beside(alloc, file, wanted, writer),
        Sought::First => find_beside(alloc, file, wanted, writer),
    }
}
