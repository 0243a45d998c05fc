//! `resize` and `clear`: another length.

ghost use Rattle.std.specs.Prelude.{◌≡◌, []};
ghost use Rattle.vault_core.specs.Commands.{resized};
ghost use Rattle.files_core.specs.Changing.{HasWorked, IsCleared, IsClearFault, IsResized, IsResizeFault, IsWorkFault, Replaces};
ghost use Rattle.files_core.specs.Ended.{EndsAs, WritesText};
ghost use Rattle.files_core.specs.Texts.{ok_line};

use crate::asked::Resizing;
use crate::ended::Ended;
use crate::fault::FileFault;
use disk_core::Disk;
use record_core::Record;
use std::alloc::Global;
use std::io::Write;
use text_core::write_line;
use vault_core::Vault;

/// Makes the length of the vector what is asked for, and writes `ok`. Refused: `Open`; then `Vault`, as `Vault::resize`.
pub fn resize<R: Record, D: Disk, W: Write>(
    alloc: Global,
    disk: D,
    asked: &Resizing<R>,
    writer: &mut W,
) -> (D, Ended)
    ensures resized { EndsAs
        (D.keeps result.0 → Replaces R.form D.states (λ was behind. behind ≡ resized asked.now.len asked.now.filler was) disk result.0)
        (IsWorkFault R.form D.keeps D.states D.faults (IsResizeFault R.form D.keeps D.states D.faults asked.now.len asked.now.filler) disk result.0) result.1 }
    ensures written { EndsAs (HasWorked R.form D.keeps D.states D.faults (IsResized R.form D.keeps D.states D.faults asked.now.len asked.now.filler) disk result.0) (λ _. Unit {0}) result.1 }
    ensures model { D.keeps result.0 → D.keeps disk }
    ensures writes { WritesText (W.contents writer.old) (W.contents writer.new) ok_line result.1 }
{
    let mut vault = match Vault::<R, D>::open(alloc, disk) {
        Ok(vault) => vault,
        Err((disk, fault)) => return (disk, Ended::Refused(FileFault::Open(fault))),
    };
    match vault.resize(asked.len, asked.filler) {
        Ok(()) => (vault.into_disk(), Ended::told(write_line(b"ok", writer))),
        Err(fault) => (vault.into_disk(), Ended::Refused(FileFault::Vault(fault))),
    }
}

/// Takes all records away, and writes `ok`. Refused: `Open`; then `Vault`, as `Vault::clear`.
pub fn clear<R: Record, D: Disk, W: Write>(alloc: Global, disk: D, writer: &mut W) -> (D, Ended)
    ensures cleared { EndsAs
        (D.keeps result.0 → Replaces R.form D.states (λ _ behind. behind ≡ []) disk result.0)
        (IsWorkFault R.form D.keeps D.states D.faults (IsClearFault R.form D.keeps D.states D.faults) disk result.0) result.1 }
    ensures written { EndsAs (HasWorked R.form D.keeps D.states D.faults (IsCleared R.form D.keeps D.states D.faults) disk result.0) (λ _. Unit {0}) result.1 }
    ensures model { D.keeps result.0 → D.keeps disk }
    ensures writes { WritesText (W.contents writer.old) (W.contents writer.new) ok_line result.1 }
{
    let mut vault = match Vault::<R, D>::open(alloc, disk) {
        Ok(vault) => vault,
        Err((disk, fault)) => return (disk, Ended::Refused(FileFault::Open(fault))),
    };
    match vault.clear() {
        Ok(()) => (vault.into_disk(), Ended::told(write_line(b"ok", writer))),
        Err(fault) => (vault.into_disk(), Ended::Refused(FileFault::Vault(fault))),
    }
}
