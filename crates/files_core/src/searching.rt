//! `count` and `find`: records that are the one wanted. That `==` calls no others equal is a law of `Record`.

ghost use Rattle.std.specs.Prelude.{◌≡◌, ℕ, List, Option, IfOk, IfErr};
ghost use Rattle.std.specs.List.{count_by};
ghost use Rattle.disk_core.specs.Calls.{bytes_of};
ghost use Rattle.disk_core.specs.Fault.{CountsFailures};
ghost use Rattle.disk_core.specs.Moments.{LeavesOnly};
ghost use Rattle.disk_core.specs.State.{now, IsImage};
ghost use Rattle.pen_core.specs.Framing.{IsFramedOn};
ghost use Rattle.pen_core.specs.Opening.{IsOpenRefusal, failed_openings};
ghost use Rattle.pen_core.specs.Typed.{OpensTo};
ghost use Rattle.search_core.specs.Search.{IsFirst};
ghost use Rattle.files_core.specs.Ended.{WritesAnswer};
ghost use Rattle.files_core.specs.Opened.{CommandOnlyReads};
ghost use Rattle.files_core.specs.Searching.{TellsCount, TellsFirst};
ghost use Rattle.files_core.specs.Writable.{ReadsAny};

use crate::ended::Ended;
use crate::fault::FileFault;
use crate::parts::{Part, walk_for_parts};
use crate::writable::OpensToWrite;
use disk_core::Disk;
use pen_core::OpenFault;
use record_core::Record;
use search_core::{Equals, count_equal, first_equal};
use segment_core::Framed;
use std::alloc::Global;
use std::io::Write;
use std::thread::Threads;
use text_core::{TextRecord, write_found, write_number_line};
use vault_core::Vault;

/// How many records are this one of a file whose frames were walked.
fn count_parts<R: Record, D: Disk>(
    alloc: Global,
    disk: &mut D,
    framed: &Framed,
    wanted: R,
) -> Result<u64, OpenFault>
    requires any { ReadsAny R.form }
    requires framed { (size : ℕ) × IsFramedOn (D.keeps disk.old) (bytes_of (D.states disk.old)) size framed.now }
    requires width { framed.now.shape.width ≡ R.form.width }
    ensures counted { IfOk result (λ total. (records : List R) × (D.keeps disk.new → OpensTo R.form (bytes_of (D.states disk.old)) records)
        × (total ≡ count_by (λ r. R.Eq.eq r wanted) records)) }
    ensures refused { D.keeps disk.new → IfErr result (IsOpenRefusal R.form (bytes_of (D.states disk.old))) }
    ensures same { D.keeps disk.new → now (D.states disk.new) ≡ now (D.states disk.old) }
    ensures images { D.keeps disk.new → LeavesOnly (D.states disk.old) (D.states disk.new) (IsImage (now (D.states disk.old))) }
    ensures faults { CountsFailures failed_openings (D.faults disk.old) (D.faults disk.new) result }
    ensures model { D.keeps disk.new → D.keeps disk.old }
{
    let mut part = Part::new(alloc);
    let mut total: u64 = 0;
    let mut done: u64 = 0;
    while done < framed.tally.size {
        part.read(disk, framed, done)?;
        let records = part.records();
        total += count_equal(records, wanted);
        done += records.len() as u64;
    }
    Ok(total)
}

/// The least position of this record in a file whose frames were walked. No part behind it is read.
fn find_in_parts<R: Record, D: Disk>(
    alloc: Global,
    disk: &mut D,
    framed: &Framed,
    wanted: R,
) -> Result<Option<u64>, OpenFault>
    requires any { ReadsAny R.form }
    requires framed { (size : ℕ) × IsFramedOn (D.keeps disk.old) (bytes_of (D.states disk.old)) size framed.now }
    requires width { framed.now.shape.width ≡ R.form.width }
    ensures found { IfOk result (λ found. (records : List R) × (D.keeps disk.new → OpensTo R.form (bytes_of (D.states disk.old)) records)
        × IsFirst (λ r. R.Eq.eq r wanted) records found) }
    ensures refused { D.keeps disk.new → IfErr result (IsOpenRefusal R.form (bytes_of (D.states disk.old))) }
    ensures same { D.keeps disk.new → now (D.states disk.new) ≡ now (D.states disk.old) }
    ensures images { D.keeps disk.new → LeavesOnly (D.states disk.old) (D.states disk.new) (IsImage (now (D.states disk.old))) }
    ensures faults { CountsFailures failed_openings (D.faults disk.old) (D.faults disk.new) result }
    ensures model { D.keeps disk.new → D.keeps disk.old }
{
    let mut part = Part::new(alloc);
    let mut done: u64 = 0;
    while done < framed.tally.size {
        part.read(disk, framed, done)?;
        let records = part.records();
        if let Some(place) = first_equal(records, wanted) {
            return Ok(Some(done + place));
        }
        done += records.len() as u64;
    }
    Ok(None)
}

/// `count`, where the file is read as a whole.
fn count_whole<R: TextRecord, D: Disk, W: Write, E: Threads + Sync>(
    rt: &E,
    alloc: Global,
    disk: D,
    wanted: R,
    writer: &mut W,
) -> (D, Ended)
    ensures reads { CommandOnlyReads R.form D.keeps D.states D.faults disk result.0 result.1 }
    ensures writes { WritesAnswer (W.contents writer.old) (W.contents writer.new) (TellsCount R.form wanted (D.keeps result.0) (bytes_of (D.states disk))) result.1 }
{
    let vault = match Vault::<R, D>::open(alloc, disk) {
        Ok(vault) => vault,
        Err((disk, fault)) => return (disk, Ended::Refused(FileFault::Open(fault))),
    };
    let total = vault.count_where(rt, &Equals { record: wanted });
    let written = write_number_line(writer, total);
    (vault.into_disk(), Ended::told(written))
}

/// `count`, where any bytes are a record.
fn count_framed<R: TextRecord, D: Disk, W: Write, E: Threads + Sync>(
    rt: &E,
    alloc: Global,
    disk: D,
    wanted: R,
    writer: &mut W,
) -> (D, Ended)
    requires { ReadsAny R.form }
    ensures reads { CommandOnlyReads R.form D.keeps D.states D.faults disk result.0 result.1 }
    ensures writes { WritesAnswer (W.contents writer.old) (W.contents writer.new) (TellsCount R.form wanted (D.keeps result.0) (bytes_of (D.states disk))) result.1 }
{
    let mut disk = disk;
    let found = match walk_for_parts::<R, D>(alloc, &mut disk) {
        Ok(found) => found,
        Err(fault) => return (disk, Ended::Refused(FileFault::Open(fault))),
    };
    let Some(framed) = found else {
        return count_whole(rt, alloc, disk, wanted, writer);
    };
    match count_parts(alloc, &mut disk, &framed, wanted) {
        Ok(total) => {
            let written = write_number_line(writer, total);
            (disk, Ended::told(written))
        }
        Err(fault) => (disk, Ended::Refused(FileFault::Open(fault))),
    }
}

/// Writes how many records of the file's vector are this one. Where any bytes are a record it takes memory for a part of them,
/// if groups aren't short, else for all. Refused: `Open`.
pub fn count<R: TextRecord + OpensToWrite, D: Disk, W: Write, E: Threads + Sync>(
    rt: &E,
    alloc: Global,
    disk: D,
    wanted: R,
    writer: &mut W,
) -> (D, Ended)
    ensures reads { CommandOnlyReads R.form D.keeps D.states D.faults disk result.0 result.1 }
    ensures writes { WritesAnswer (W.contents writer.old) (W.contents writer.new) (TellsCount R.form wanted (D.keeps result.0) (bytes_of (D.states disk))) result.1 }
{
    if R::READS_ANY {
        count_framed(rt, alloc, disk, wanted, writer)
    } else {
        count_whole(rt, alloc, disk, wanted, writer)
    }
}

/// `find`, where the file is read as a whole.
fn find_whole<R: TextRecord, D: Disk, W: Write, E: Threads + Sync>(
    rt: &E,
    alloc: Global,
    disk: D,
    wanted: R,
    writer: &mut W,
) -> (D, Ended)
    ensures reads { CommandOnlyReads R.form D.keeps D.states D.faults disk result.0 result.1 }
    ensures writes { WritesAnswer (W.contents writer.old) (W.contents writer.new) (TellsFirst R.form wanted (D.keeps result.0) (bytes_of (D.states disk))) result.1 }
{
    let vault = match Vault::<R, D>::open(alloc, disk) {
        Ok(vault) => vault,
        Err((disk, fault)) => return (disk, Ended::Refused(FileFault::Open(fault))),
    };
    let found = vault.find_first(rt, &Equals { record: wanted });
    let written = write_found(writer, found);
    (vault.into_disk(), Ended::told(written))
}

/// `find`, where any bytes are a record.
fn find_framed<R: TextRecord, D: Disk, W: Write, E: Threads + Sync>(
    rt: &E,
    alloc: Global,
    disk: D,
    wanted: R,
    writer: &mut W,
) -> (D, Ended)
    requires { ReadsAny R.form }
    ensures reads { CommandOnlyReads R.form D.keeps D.states D.faults disk result.0 result.1 }
    ensures writes { WritesAnswer (W.contents writer.old) (W.contents writer.new) (TellsFirst R.form wanted (D.keeps result.0) (bytes_of (D.states disk))) result.1 }
{
    let mut disk = disk;
    let found = match walk_for_parts::<R, D>(alloc, &mut disk) {
        Ok(found) => found,
        Err(fault) => return (disk, Ended::Refused(FileFault::Open(fault))),
    };
    let Some(framed) = found else {
        return find_whole(rt, alloc, disk, wanted, writer);
    };
    match find_in_parts(alloc, &mut disk, &framed, wanted) {
        Ok(place) => {
            let written = write_found(writer, place);
            (disk, Ended::told(written))
        }
        Err(fault) => (disk, Ended::Refused(FileFault::Open(fault))),
    }
}

/// Writes the least position of this record, or `none`. Where any bytes are a record it takes memory for a part of them, if
/// groups aren't short, and reads no part behind the one where it is found. Refused: `Open`.
pub fn find<R: TextRecord + OpensToWrite, D: Disk, W: Write, E: Threads + Sync>(
    rt: &E,
    alloc: Global,
    disk: D,
    wanted: R,
    writer: &mut W,
) -> (D, Ended)
    ensures reads { CommandOnlyReads R.form D.keeps D.states D.faults disk result.0 result.1 }
    ensures writes { WritesAnswer (W.contents writer.old) (W.contents writer.new) (TellsFirst R.form wanted (D.keeps result.0) (bytes_of (D.states disk))) result.1 }
{
    if R::READS_ANY {
        find_framed(rt, alloc, disk, wanted, writer)
    } else {
        find_whole(rt, alloc, disk, wanted, writer)
    }
}
