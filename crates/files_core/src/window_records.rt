//! The records of a window are read by the frames of the file alone.

ghost use Rattle.std.specs.Prelude.{◌≡◌, ◌≤◌, ◌<◌, ◌+◌, ◌++◌, ◌^◌, ℕ, List, length, OnOk, IfOk, IfErr};
ghost use Rattle.disk_core.specs.Calls.{bytes_of};
ghost use Rattle.disk_core.specs.Fault.{CountsFailures};
ghost use Rattle.disk_core.specs.Moments.{LeavesOnly};
ghost use Rattle.disk_core.specs.State.{now, IsImage};
ghost use Rattle.pen_core.specs.Framing.{IsFramedOn};
ghost use Rattle.pen_core.specs.Opening.{IsOpenRefusal, OnlySyncs, failed_openings};
ghost use Rattle.files_core.specs.Listing.{AreRecordsFrom, AreWindowOf};
ghost use Rattle.files_core.specs.Writable.{ReadsAny};

use crate::asked::Window;
use disk_core::Disk;
use pen_core::{OpenFault, read_window, walk_disk};
use record_core::{Record, RecordsFault, read_records, width_of};
use segment_core::{Framed, ScanFault};
use std::alloc::Global;

/// How many records are read at a time.
pub(crate) const PART_LEN: u64 = 65_536;

/// Reads `count` records of a file whose frames were walked, from position `from` on, behind those that are there. `PART_LEN`
/// of them at most. Their bytes come into a list whose memory is used again.
pub(crate) fn read_part<R: Record, D: Disk>(
    disk: &mut D,
    framed: &Framed,
    from: u64,
    count: u64,
    bytes: &mut Vec<u8>,
    records: &mut Vec<R>,
) -> Result<(), OpenFault>
    requires any { ReadsAny R.form }
    requires framed { (size : ℕ) × IsFramedOn (D.keeps disk.old) (bytes_of (D.states disk.old)) size framed.now }
    requires width { framed.now.shape.width ≡ R.form.width }
    requires inside { from + count ≤ framed.now.tally.size }
    requires few { count ≤ 2 ^ 16 }
    ensures read { OnOk result ((read : List R) × (records.new.items ≡ records.old.items ++ read) × (length read ≡ count)
        × (D.keeps disk.new → AreRecordsFrom R.form (bytes_of (D.states disk.old)) from count read)) }
    ensures refused { D.keeps disk.new → IfErr result (IsOpenRefusal R.form (bytes_of (D.states disk.old))) }
    ensures same { D.keeps disk.new → now (D.states disk.new) ≡ now (D.states disk.old) }
    ensures images { D.keeps disk.new → LeavesOnly (D.states disk.old) (D.states disk.new) (IsImage (now (D.states disk.old))) }
    ensures faults { CountsFailures failed_openings (D.faults disk.old) (D.faults disk.new) result }
    ensures model { D.keeps disk.new → D.keeps disk.old }
{
    let Ok(()) = bytes.resize(count as usize * width_of::<R>(), 0) else {
        return Err(OpenFault::Scan(ScanFault::Memory));
    };
    if let Err(fault) = read_window(disk, framed, from, count, bytes) {
        return Err(OpenFault::Disk(fault));
    }
    match read_records(bytes, count as usize, records) {
        Ok(()) => Ok(()),
        Err(RecordsFault::Bad(_)) => unreachable!(),
        Err(RecordsFault::Memory) => Err(OpenFault::Scan(ScanFault::Memory)),
    }
}

/// The same of any number of records, part by part.
fn read_parts<R: Record, D: Disk>(
    alloc: Global,
    disk: &mut D,
    framed: &Framed,
    from: u64,
    count: u64,
) -> Result<Vec<R>, OpenFault>
    requires any { ReadsAny R.form }
    requires framed { (size : ℕ) × IsFramedOn (D.keeps disk.old) (bytes_of (D.states disk.old)) size framed.now }
    requires width { framed.now.shape.width ≡ R.form.width }
    requires inside { from + count ≤ framed.now.tally.size }
    ensures read { IfOk result (λ records. (length records.items ≡ count)
        × (D.keeps disk.new → AreRecordsFrom R.form (bytes_of (D.states disk.old)) from count records.items)) }
    ensures refused { D.keeps disk.new → IfErr result (IsOpenRefusal R.form (bytes_of (D.states disk.old))) }
    ensures same { D.keeps disk.new → now (D.states disk.new) ≡ now (D.states disk.old) }
    ensures images { D.keeps disk.new → LeavesOnly (D.states disk.old) (D.states disk.new) (IsImage (now (D.states disk.old))) }
    ensures faults { CountsFailures failed_openings (D.faults disk.old) (D.faults disk.new) result }
    ensures model { D.keeps disk.new → D.keeps disk.old }
{
    let Ok(mut records) = Vec::with_capacity(alloc, count as usize) else {
        return Err(OpenFault::Scan(ScanFault::Memory));
    };
    let mut bytes = Vec::new(alloc);
    let mut done: u64 = 0;
    while done < count {
        let part = PART_LEN.min(count - done);
        read_part(disk, framed, from + done, part, &mut bytes, &mut records)?;
        done += part;
    }
    Ok(records)
}

/// Reads the records of a window of the file on the disk, whose type is one that any bytes are a record of. It syncs first, so
/// that what it reads is what a crash leaves; then it walks the frames, and reads the records where they stand. Nothing is
/// written. Memory is taken for these records, for a part of `PART_LEN` of them as bytes, and for the homes and runs.
///
/// Refused: `Disk`, at the call that failed; `Scan`, for the file's first fault, or for want of memory.
pub(crate) fn read_window_records<R: Record, D: Disk>(
    alloc: Global,
    disk: &mut D,
    window: &Window,
) -> Result<Vec<R>, OpenFault>
    requires { ReadsAny R.form }
    ensures read { IfOk result (λ records. AreWindowOf R.form window.now (D.keeps disk.new) (bytes_of (D.states disk.old)) records.items) }
    ensures refused { D.keeps disk.new → IfErr result (IsOpenRefusal R.form (bytes_of (D.states disk.old))) }
    ensures only_syncs { D.keeps disk.new → OnlySyncs (D.states disk.old) (D.states disk.new) }
    ensures faults { CountsFailures failed_openings (D.faults disk.old) (D.faults disk.new) result }
    ensures model { D.keeps disk.new → D.keeps disk.old }
{
    let framed = match walk_disk(alloc, disk, width_of::<R>() as u16) {
        Ok(framed) => framed,
        Err(fault) => return Err(fault),
    };
    // Positions past the end have no record.
    let from = window.from.min(framed.tally.size);
    let count = window.count.min(framed.tally.size - from);
    read_parts(alloc, disk, &framed, from, count)
}
