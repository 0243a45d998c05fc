//! `create`: a new file.

ghost use Rattle.files_core.specs.Creating.{IsCreated, IsCreateRefusal};
ghost use Rattle.files_core.specs.Ended.{EndsAs, WritesText};
ghost use Rattle.files_core.specs.Texts.{created_line};

use crate::ended::Ended;
use crate::fault::FileFault;
use disk_core::Disk;
use record_core::Record;
use segment_core::Format;
use std::alloc::Global;
use std::io::Write;
use text_core::write_line;
use vault_core::{Vault, VaultFault};

/// Makes an empty file of this version on a disk that has none, and writes `created`. Refused: `Vault`, as
/// `Vault::create_as`: `Memory`, `Disk`, and `Exists`, where nothing is written.
pub fn create<R: Record, D: Disk, W: Write>(
    alloc: Global,
    disk: D,
    format: Format,
    writer: &mut W,
) -> (D, Ended)
    ensures created { EndsAs (IsCreated R.form D.keeps D.states D.faults format disk result.0) (IsCreateRefusal R.form D.keeps D.states D.faults format disk result.0) result.1 }
    ensures writes { WritesText (W.contents writer.old) (W.contents writer.new) created_line result.1 }
{
    match Vault::<R, D>::create_as(alloc, disk, format) {
        Ok(vault) => (
            vault.into_disk(),
            Ended::told(write_line(b"created", writer)),
        ),
        Err((disk, fault)) => (
            disk,
            Ended::Refused(FileFault::Vault(VaultFault::Pen(fault))),
        ),
    }
}
