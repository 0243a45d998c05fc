//! `set`: other records from a position on.

ghost use Rattle.std.specs.Prelude.{◌≡◌, false, List, length, MatchResult};
ghost use Rattle.pen_core.specs.Refusals.{one_run};
ghost use Rattle.vault_core.specs.Touched.{IsTouched};
ghost use Rattle.files_core.specs.Changing.{HasWorked, IsSet, IsSetFault, IsWorkFault, Replaces};
ghost use Rattle.files_core.specs.Ended.{EndsAs, WritesText};
ghost use Rattle.files_core.specs.Given.{given_from};
ghost use Rattle.files_core.specs.Texts.{ok_line};
ghost use Rattle.files_core.specs.Writable.{IsPutFrom, IsNotPut, vault_with};
ghost use Rattle.vault_core.specs.Vault.{IsVault};

use crate::asked::Setting;
use crate::ended::Ended;
use crate::fault::FileFault;
use crate::writable::{OpensToWrite, open_to_write};
use disk_core::Disk;
use pen_core::Pen;
use record_core::Record;
use std::alloc::Global;
use std::io::Write;
use text_core::write_line;
use vault_core::VaultFault;

/// Puts these records in the place of those from `start` on, of whichever list the pen's file has. Where there is none nothing is
/// written.
fn put<R: Record, D: Disk>(pen: &mut Pen<D>, start: u64, records: &[R]) -> Result<(), VaultFault>
    requires whole { pen.old.broken ≡ false }
    requires width { R.form.width ≡ pen.old.shape.width }
    ensures put { (list : List R) → IsVault (D.keeps pen.old.disk) R.form (vault_with R.form pen.old list) → MatchResult result
        (λ _. IsPutFrom R.form D.keeps D.states D.faults start records.now list pen.old pen.new)
        (IsNotPut R.form D.keeps D.states D.faults start records.now list pen.old pen.new) }
    ensures model { D.keeps pen.new.disk → D.keeps pen.old.disk }
{
    if records.is_empty() {
        return Ok(());
    }
    if let Err(fault) = pen.begin_change(start, &[records]) {
        return Err(VaultFault::Pen(fault));
    }
    match pen.settle_log() {
        Ok(()) => Ok(()),
        Err(fault) => Err(VaultFault::Pen(fault)),
    }
}

/// Puts the records that are asked for in the place of those that stand there, as one change, and writes `ok`. Where there is
/// none nothing is written to the file. Refused: `Open`; then `Vault`, as `Vault::change`.
pub fn set<R: OpensToWrite, D: Disk, W: Write>(
    alloc: Global,
    disk: D,
    asked: &Setting<R>,
    writer: &mut W,
) -> (D, Ended)
    ensures set { EndsAs
        (D.keeps result.0 → Replaces R.form D.states (IsTouched (given_from asked.now.start asked.now.records.items) (one_run asked.now.start (length asked.now.records.items))) disk result.0)
        (IsWorkFault R.form D.keeps D.states D.faults (IsSetFault R.form D.keeps D.states D.faults asked.now.start asked.now.records.items) disk result.0) result.1 }
    ensures written { EndsAs (HasWorked R.form D.keeps D.states D.faults (IsSet R.form D.keeps D.states D.faults asked.now.start asked.now.records.items) disk result.0) (λ _. Unit {0}) result.1 }
    ensures model { D.keeps result.0 → D.keeps disk }
    ensures writes { WritesText (W.contents writer.old) (W.contents writer.new) ok_line result.1 }
{
    let mut pen = match open_to_write::<R, D>(alloc, disk) {
        Ok(pen) => pen,
        Err((disk, fault)) => return (disk, Ended::Refused(FileFault::Open(fault))),
    };
    match put(&mut pen, asked.start, asked.records.as_slice()) {
        Ok(()) => (pen.into_disk(), Ended::told(write_line(b"ok", writer))),
        Err(fault) => (pen.into_disk(), Ended::Refused(FileFault::Vault(fault))),
    }
}
