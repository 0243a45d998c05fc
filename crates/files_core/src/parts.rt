//! A file's records part by part, each read over the one before.

ghost use Rattle.std.specs.Prelude.{◌≡◌, ◌≤◌, ◌<◌, ◌+◌, ℕ, length, OnOk, IfOk, IfErr, IfSome};
ghost use Rattle.disk_core.specs.Calls.{bytes_of};
ghost use Rattle.disk_core.specs.Fault.{CountsFailures};
ghost use Rattle.disk_core.specs.Moments.{LeavesOnly};
ghost use Rattle.disk_core.specs.State.{now, settled, IsImage};
ghost use Rattle.pen_core.specs.Framing.{IsFramedOn};
ghost use Rattle.pen_core.specs.Opening.{IsOpenRefusal, OnlySyncs, failed_openings};
ghost use Rattle.files_core.specs.Listing.{AreRecordsFrom};
ghost use Rattle.files_core.specs.Writable.{ReadsAny};

use crate::window_records::{PART_LEN, read_part};
use disk_core::Disk;
use pen_core::{OpenFault, walk_disk};
use record_core::{Record, width_of};
use segment_core::Framed;
use std::alloc::Global;

/// How many homes and runs a file has at most that is read part by part: for each part all of them are looked at, and a read
/// is made for each that has records of it. With more, a file is read faster as a whole.
const MOST_HOMES: usize = 65_536;

/// Walks the frames of the file on the disk, whose type is one that any bytes are a record of, and gives what they leave, if the
/// file is one to be read part by part. It syncs first, so that what is read is what a crash leaves. Nothing is written.
///
/// Refused: `Disk`, at the call that failed; `Scan`, for the file's first fault, or for want of memory.
pub(crate) fn walk_for_parts<R: Record, D: Disk>(
    alloc: Global,
    disk: &mut D,
) -> Result<Option<Framed>, OpenFault>
    requires { ReadsAny R.form }
    ensures framed { IfOk result (λ found. IfSome found (λ framed. (framed.shape.width ≡ R.form.width)
        × ((size : ℕ) × IsFramedOn (D.keeps disk.new) (bytes_of (D.states disk.old)) size framed))) }
    ensures settled { D.keeps disk.new → OnOk result (now (D.states disk.new) ≡ settled (bytes_of (D.states disk.old))) }
    ensures refused { D.keeps disk.new → IfErr result (IsOpenRefusal R.form (bytes_of (D.states disk.old))) }
    ensures only_syncs { D.keeps disk.new → OnlySyncs (D.states disk.old) (D.states disk.new) }
    ensures faults { CountsFailures failed_openings (D.faults disk.old) (D.faults disk.new) result }
    ensures model { D.keeps disk.new → D.keeps disk.old }
{
    let framed = match walk_disk(alloc, disk, width_of::<R>() as u16) {
        Ok(framed) => framed,
        Err(fault) => return Err(fault),
    };
    let homes = framed.homes.homes.len().saturating_add(framed.live.len());
    if homes > MOST_HOMES {
        return Ok(None);
    }
    Ok(Some(framed))
}

/// A part of a file's records.
#[derive(Drop)]
pub(crate) struct Part<R> {
    /// Their bytes.
    bytes: Vec<u8>,
    records: Vec<R>,
}

impl<R: Record> Part<R> {
    /// No records. It takes no memory.
    pub(crate) fn new(alloc: Global) -> Part<R> {
        Part {
            bytes: Vec::new(alloc),
            records: Vec::new(alloc),
        }
    }

    /// Its records.
    pub(crate) fn records(&self) -> &[R]
        ensures { result.now ≡ self.now.records.items }
    {
        &self.records
    }

    /// Reads over it the records from position `from` on of a file whose frames were walked: `PART_LEN`, where as many are left.
    ///
    /// Refused: `Disk`, at the read that failed; `Scan`, for want of memory. Then it may have any records.
    pub(crate) fn read<D: Disk>(
        &mut self,
        disk: &mut D,
        framed: &Framed,
        from: u64,
    ) -> Result<(), OpenFault>
        requires any { ReadsAny R.form }
        requires framed { (size : ℕ) × IsFramedOn (D.keeps disk.old) (bytes_of (D.states disk.old)) size framed.now }
        requires width { framed.now.shape.width ≡ R.form.width }
        requires inside { from < framed.now.tally.size }
        ensures some { OnOk result (0 < length self.new.records.items) }
        ensures inside { OnOk result (from + length self.new.records.items ≤ framed.now.tally.size) }
        ensures read { D.keeps disk.new → OnOk result (AreRecordsFrom R.form (bytes_of (D.states disk.old)) from (length self.new.records.items) self.new.records.items) }
        ensures refused { D.keeps disk.new → IfErr result (IsOpenRefusal R.form (bytes_of (D.states disk.old))) }
        ensures same { D.keeps disk.new → now (D.states disk.new) ≡ now (D.states disk.old) }
        ensures images { D.keeps disk.new → LeavesOnly (D.states disk.old) (D.states disk.new) (IsImage (now (D.states disk.old))) }
        ensures faults { CountsFailures failed_openings (D.faults disk.old) (D.faults disk.new) result }
        ensures model { D.keeps disk.new → D.keeps disk.old }
    {
        let count = PART_LEN.min(framed.tally.size - from);
        self.records.clear();
        read_part(
            disk,
            framed,
            from,
            count,
            &mut self.bytes,
            &mut self.records,
        )
    }
}
