//! A file that is opened to be written: by its frames alone, where any bytes are a record.

ghost use Rattle.std.specs.Prelude.{◌≡◌, Bool, true, false, refl, IfOk, IfErr};
ghost use Rattle.record_core.specs.Bytes.{flagged};
ghost use Rattle.files_core.specs.Opened.{IsNotOpened};
ghost use Rattle.files_core.specs.Writable.{IsWritable, ReadsAny, none_read};

use disk_core::Disk;
use pen_core::{OpenFault, Pen};
use record_core::{Bytes16, Bytes24, Bytes32, Bytes64, Flagged, Pair, Record, width_of};
use std::alloc::Global;

/// A record whose file can be opened to be written.
pub trait OpensToWrite: Record {
    /// Whether any bytes of the width are a record. Then no byte of a file is a bad record.
    const READS_ANY: bool;

    ghost READS_ANY: { Bool };

    ghost reads_any: { READS_ANY ≡ true → ReadsAny Self.Record.form };
}

impl OpensToWrite for u8 {
    const READS_ANY: bool = true;

    ghost READS_ANY = { true };

    ghost reads_any = { λ _ bytes. refl };
}

impl OpensToWrite for u16 {
    const READS_ANY: bool = true;

    ghost READS_ANY = { true };

    ghost reads_any = { λ _ bytes. refl };
}

impl OpensToWrite for u32 {
    const READS_ANY: bool = true;

    ghost READS_ANY = { true };

    ghost reads_any = { λ _ bytes. refl };
}

impl OpensToWrite for u64 {
    const READS_ANY: bool = true;

    ghost READS_ANY = { true };

    ghost reads_any = { λ _ bytes. refl };
}

impl OpensToWrite for i32 {
    const READS_ANY: bool = true;

    ghost READS_ANY = { true };

    ghost reads_any = { λ _ bytes. refl };
}

impl OpensToWrite for i64 {
    const READS_ANY: bool = true;

    ghost READS_ANY = { true };

    ghost reads_any = { λ _ bytes. refl };
}

impl OpensToWrite for Pair {
    const READS_ANY: bool = true;

    ghost READS_ANY = { true };

    ghost reads_any = { λ _ bytes. refl };
}

impl OpensToWrite for Bytes16 {
    const READS_ANY: bool = true;

    ghost READS_ANY = { true };

    ghost reads_any = { λ _ bytes. refl };
}

impl OpensToWrite for Bytes24 {
    const READS_ANY: bool = true;

    ghost READS_ANY = { true };

    ghost reads_any = { λ _ bytes. refl };
}

impl OpensToWrite for Bytes32 {
    const READS_ANY: bool = true;

    ghost READS_ANY = { true };

    ghost reads_any = { λ _ bytes. refl };
}

impl OpensToWrite for Bytes64 {
    const READS_ANY: bool = true;

    ghost READS_ANY = { true };

    ghost reads_any = { λ _ bytes. refl };
}

/// A flag is 0 or 1.
impl OpensToWrite for Flagged {
    const READS_ANY: bool = false;

    ghost READS_ANY = { false };

    ghost reads_any = { none_read flagged };
}

/// Opens a file of records that any bytes are: none is read, since what stands on a disk is bytes.
fn open_unread<R: Record, D: Disk>(alloc: Global, disk: D) -> Result<Pen<D>, (D, OpenFault)>
    requires { ReadsAny R.form }
    ensures opened { IfOk result (IsWritable R.form D.keeps D.states D.faults disk) }
    ensures refused { IfErr result (λ r. IsNotOpened R.form D.keeps D.states D.faults disk r.0 r.1) }
    ensures model { IfErr result (λ r. D.keeps r.0 → D.keeps disk) }
{
    Pen::open_frames(alloc, disk, width_of::<R>() as u16)
}

/// Opens a file whose records have to be read: they are let go at once.
fn open_read<R: Record, D: Disk>(alloc: Global, disk: D) -> Result<Pen<D>, (D, OpenFault)>
    ensures opened { IfOk result (IsWritable R.form D.keeps D.states D.faults disk) }
    ensures refused { IfErr result (λ r. IsNotOpened R.form D.keeps D.states D.faults disk r.0 r.1) }
    ensures model { IfErr result (λ r. D.keeps r.0 → D.keeps disk) }
{
    match Pen::open::<R>(alloc, disk) {
        Ok((pen, _records)) => Ok(pen),
        Err(refused) => Err(refused),
    }
}

/// Opens the file on the disk to write to it, and gives none of its records. Nothing is written. Memory is taken as by
/// `Pen::open_frames`, where any bytes are a record, and else, meanwhile, for all records.
///
/// Refused, with the disk handed back: `Disk`, at the call that failed; `Scan`, for the file's first fault, or for want of
/// memory.
pub fn open_to_write<R: OpensToWrite, D: Disk>(
    alloc: Global,
    disk: D,
) -> Result<Pen<D>, (D, OpenFault)>
    ensures opened { IfOk result (IsWritable R.form D.keeps D.states D.faults disk) }
    ensures refused { IfErr result (λ r. IsNotOpened R.form D.keeps D.states D.faults disk r.0 r.1) }
    ensures model { IfErr result (λ r. D.keeps r.0 → D.keeps disk) }
{
    if R::READS_ANY {
        open_unread::<R, D>(alloc, disk)
    } else {
        open_read::<R, D>(alloc, disk)
    }
}
