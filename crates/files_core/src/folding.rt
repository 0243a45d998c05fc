//! `fold`: live changes put into their home bytes.

ghost use Rattle.std.specs.Prelude.{◌≡◌, ◌⊎◌, ◌+◌, ◌-◌, None, OnOk, IfOk, IfErr};
ghost use Rattle.std.specs.Io.KnownBytes.{Appends};
ghost use Rattle.disk_core.specs.Fault.{CountsFailures};
ghost use Rattle.disk_core.specs.Calls.{bytes_of};
ghost use Rattle.files_core.specs.Ended.{EndsAs, WritesAnswer};
ghost use Rattle.disk_core.specs.Moments.{LeavesOnly};
ghost use Rattle.segment_core.specs.Scanned.{IsScanOf};
ghost use Rattle.segment_core.specs.declared.vector.Scanned.{Scanned};
ghost use Rattle.pen_core.specs.Opening.{IsOpenRefusal, OnlySyncs, failed_openings};
ghost use Rattle.vault_core.specs.Commands.{failed};
ghost use Rattle.vault_core.specs.Vault.{MayHold, list_of};
ghost use Rattle.files_core.specs.Folding.{IsAllFolded, IsFolded, IsFoldCommandFault, IsFoldingFault, NoneLive, KeepsList, failed_folding};
ghost use Rattle.files_core.specs.Texts.{folded_line};

use crate::checking::{PIECE_LEN, live_changes};
use crate::ended::Ended;
use crate::fault::FileFault;
use disk_core::Disk;
use pen_core::{OpenFault, scan_disk};
use record_core::Record;
use std::alloc::Global;
use std::io;
use std::io::Write;
use text_core::{write_line, write_numbered};
use vault_core::{Vault, VaultFault};

/// How many changes are live in the file on the disk.
fn count_live<R: Record, D: Disk>(alloc: Global, disk: &mut D) -> Result<u64, OpenFault>
    ensures found { IfOk result (λ live. (scanned : Scanned R) × (D.keeps disk.new → IsScanOf R.form (bytes_of (D.states disk.old)) scanned) × (live ≡ scanned.changes - scanned.folded)) }
    ensures refused { D.keeps disk.new → IfErr result (IsOpenRefusal R.form (bytes_of (D.states disk.old))) }
    ensures only_syncs { D.keeps disk.new → OnlySyncs (D.states disk.old) (D.states disk.new) }
    ensures faults { CountsFailures failed_openings (D.faults disk.old) (D.faults disk.new) result }
    ensures model { D.keeps disk.new → D.keeps disk.old }
{
    match scan_disk::<D, R>(alloc, disk, &mut [0; PIECE_LEN]) {
        Ok((scanned, _homes)) => Ok(live_changes(&scanned)),
        Err(fault) => Err(fault),
    }
}

/// Folds all live changes, and settles: where no job was in hand, nothing is live then.
fn fold_vault<R: Record, D: Disk>(vault: &mut Vault<R, D>) -> Result<(), VaultFault>
    ensures images { D.keeps vault.new.pen.disk → LeavesOnly (D.states vault.old.pen.disk) (D.states vault.new.pen.disk) (MayHold R.form vault.old) }
    ensures list { vault.new.blocks ≡ vault.old.blocks }
    ensures sure { D.keeps vault.new.pen.disk → (vault.new.sure ≡ vault.old.sure) ⊎ (vault.new.sure ≡ list_of vault.new) }
    ensures folded { vault.old.pen.job ≡ None → OnOk result (IsAllFolded vault.new.pen) }
    ensures refused { IfErr result (IsFoldingFault vault.old.pen vault.new.pen) }
    ensures faults { CountsFailures failed (D.faults vault.old.pen.disk) (D.faults vault.new.pen.disk) result }
    ensures model { D.keeps vault.new.pen.disk → D.keeps vault.old.pen.disk }
{
    // Whatever a crash leaves now opens to the list.
    let _disk = vault.disk();
    vault.begin_fold()?;
    vault.settle()
}

fn write_folded<W: Write>(writer: &mut W, live: u64) -> io::Result<()>
    ensures { OnOk result (Appends (W.contents writer.old) (W.contents writer.new) (folded_line live)) }
{
    write_numbered(writer, b"folded ", live)?;
    write_line(b"", writer)
}

/// Folds all changes that are live in the file, so that none is then, and writes `folded` and how many they were. The file
/// is read twice: its changes are counted, and it is opened. Refused: `Open`; then `Vault`, as `Vault::begin_fold` and
/// `Vault::settle`.
pub fn fold<R: Record, D: Disk, W: Write>(alloc: Global, disk: D, writer: &mut W) -> (D, Ended)
    ensures stays { EndsAs (D.keeps result.0 → KeepsList R.form D.states disk result.0) (IsFoldCommandFault R.form D.keeps D.states D.faults disk result.0) result.1 }
    ensures none_live { EndsAs (NoneLive D.keeps D.states result.0) (λ _. Unit {0}) result.1 }
    ensures faults { D.faults result.0 ≡ D.faults disk + failed_folding result.1 }
    ensures model { D.keeps result.0 → D.keeps disk }
    ensures writes { WritesAnswer (W.contents writer.old) (W.contents writer.new) (IsFolded R.form (D.keeps result.0) (bytes_of (D.states disk))) result.1 }
{
    let mut disk = disk;
    let live = match count_live::<R, D>(alloc, &mut disk) {
        Ok(live) => live,
        Err(fault) => return (disk, Ended::Refused(FileFault::Open(fault))),
    };
    let mut vault = match Vault::<R, D>::open(alloc, disk) {
        Ok(vault) => vault,
        Err((disk, fault)) => return (disk, Ended::Refused(FileFault::Open(fault))),
    };
    match fold_vault(&mut vault) {
        Ok(()) => (vault.into_disk(), Ended::told(write_folded(writer, live))),
        Err(fault) => (vault.into_disk(), Ended::Refused(FileFault::Vault(fault))),
    }
}
