//! What stands in a file, where a new one may be made, and what a copy that was refused leaves there.

ghost use Rattle.std.specs.Prelude.{false, Some, IfOk, IfErr};
ghost use Rattle.filing_core.specs.Commands.{IsNewTakenBy, IsOccupied, IsTakenBy, MayBeMadeOn};

use crate::access::{known_of, open_to_read};
use crate::noting::NotedDisk;
use files_core::{FileFault, is_vacant};
use pen_core::PenFault;
use segment_core::{Format, empty_file};
use sentences::Standing;
use std::fs::File;
use std::os::unix::fs::FileExt;
use std::rt::Files;
use text_core::TextRecord;
use vault_core::{UpgradeFault, VaultFault};

/// The bytes in front of a file's version: the gate, and what tells that it is a segment file.
const FRONT_LEN: usize = 8;

/// What stands in the file at this path, by its first bytes.
pub fn standing_in<F: Files<File = File>>(files: &F, path: &str) -> Standing {
    let Ok(file) = open_to_read(files, path) else {
        return Standing::Bytes;
    };
    let mut front = [0; FRONT_LEN];
    match known_of(&file) {
        Ok(known) if known.len() == 0 => Standing::Nothing,
        Ok(_) if file.read_exact_at(&mut front, 0).is_ok() => {
            if empty_file(Format::One, 1).starts_with(&front) {
                Standing::Vector
            } else {
                Standing::Bytes
            }
        }
        _ => Standing::Bytes,
    }
}

/// The disk, where nothing stands on it but what a stopped creation of such a file leaves, or where no version is said of one
/// of either. Gives it back with the refusal, too.
fn vacant<'a, R: TextRecord>(
    disk: NotedDisk<'a>,
    format: Option<Format>,
) -> Result<NotedDisk<'a>, (NotedDisk<'a>, PenFault)>
    ensures vacant { IfOk result (MayBeMadeOn R.form format false disk.entry) }
    ensures taken { IfErr result (λ r. IsOccupied R.form format disk.entry r.0 r.1) }
{
    let mut disk = disk;
    match is_vacant::<R, NotedDisk<'_>>(&mut disk, format) {
        Ok(true) => Ok(disk),
        Ok(false) => Err((disk, PenFault::Exists)),
        Err(fault) => Err((disk, PenFault::Disk(fault))),
    }
}

/// The disk, where `create` may make such a file on it: nothing else stands there.
pub fn takeable<'a, R: TextRecord>(
    disk: NotedDisk<'a>,
    format: Format,
) -> Result<NotedDisk<'a>, (NotedDisk<'a>, FileFault)>
    ensures vacant { IfOk result (MayBeMadeOn R.form (Some format) false disk.entry) }
    ensures taken { IfErr result (λ r. IsTakenBy R.form format disk.entry r.0 r.1) }
{
    match vacant::<R>(disk, Some(format)) {
        Ok(disk) => Ok(disk),
        Err((disk, fault)) => Err((disk, FileFault::Vault(VaultFault::Pen(fault)))),
    }
}

/// The disk, where a new file of this version, or where none is said of either, may be made on it.
pub fn new_place<'a, R: TextRecord>(
    disk: NotedDisk<'a>,
    format: Option<Format>,
) -> Result<NotedDisk<'a>, (NotedDisk<'a>, FileFault)>
    ensures vacant { IfOk result (MayBeMadeOn R.form format false disk.entry) }
    ensures taken { IfErr result (λ r. IsNewTakenBy R.form format disk.entry r.0 r.1) }
{
    match vacant::<R>(disk, format) {
        Ok(disk) => Ok(disk),
        Err((disk, fault)) => {
            let fault = UpgradeFault::New(VaultFault::Pen(fault));
            Err((disk, FileFault::Upgrade(fault)))
        }
    }
}

/// Takes away what a copy that was refused has written of its new file: that would look like a vector. A vector of so many bytes
/// that stood there before is left. Where the system doesn't take it away, it stays, and the next one refuses to write over it.
pub fn take_back(file: &File, before: u64, fault: PenFault) {
    if !matches!(fault, PenFault::Exists) {
        let _ = file.set_len(before);
    }
}
