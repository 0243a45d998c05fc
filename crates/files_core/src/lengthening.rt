//! `resize --parts`: a length that one frame doesn't reach.

ghost use Rattle.std.specs.Prelude.{◌≡◌, ◌+◌, ◌≤◌, ◌^◌, false, length, OnOk, IfErr};
ghost use Rattle.vault_core.specs.Upgrading.{IsGreatestPiece};
ghost use Rattle.vault_core.specs.Vault.{list_of};
ghost use Rattle.files_core.specs.Changing.{HasWorked};
ghost use Rattle.files_core.specs.Ended.{EndsAs, WritesText};
ghost use Rattle.files_core.specs.Lengthened.{HasComeNear, IsLengthened, IsLengthenFault, IsLengthenRefusal, StandsWhole};
ghost use Rattle.files_core.specs.Texts.{ok_line};

use crate::asked::Resizing;
use crate::ended::Ended;
use crate::fault::FileFault;
use disk_core::Disk;
use record_core::{RECORD_LIMIT, Record, width_of};
use std::alloc::Global;
use std::io::Write;
use text_core::write_line;
use vault_core::{Vault, VaultFault, greatest_piece};

/// Appends growths of so many copies, as many as a frame takes, until no more than that are missing.
fn come_near<R: Record, D: Disk>(
    vault: &mut Vault<R, D>,
    asked: &Resizing<R>,
    piece: u64,
) -> Result<(), VaultFault>
    requires greatest { IsGreatestPiece vault.old.pen.shape.format R.form.width piece }
    requires within { asked.now.len ≤ 2 ^ 32 }
    ensures near { OnOk result ((came : HasComeNear R.form D.keeps D.states D.faults asked.now.len asked.now.filler vault.old vault.new)
        × (asked.now.len ≤ length (list_of vault.new) + came.piece)) }
    ensures refused { IfErr result (IsLengthenFault R.form D.keeps D.states D.faults asked.now.len asked.now.filler vault.old vault.new) }
{
    // No record is wider than a header tells, so the longest growth has one.
    let _width = width_of::<R>();
    while asked.len.saturating_sub(vault.len()) > piece {
        vault.resize(vault.len() + piece, asked.filler)?;
    }
    Ok(())
}

/// Makes the length of a vault's vector what is asked for.
fn lengthen<R: Record, D: Disk>(
    vault: &mut Vault<R, D>,
    asked: &Resizing<R>,
) -> Result<(), VaultFault>
    requires { vault.old.pen.broken ≡ false }
    ensures done { OnOk result (IsLengthened R.form D.keeps D.states D.faults asked.now.len asked.now.filler vault.old vault.new) }
    ensures refused { IfErr result (IsLengthenFault R.form D.keeps D.states D.faults asked.now.len asked.now.filler vault.old vault.new) }
{
    let piece = greatest_piece::<R>(vault.format());
    if asked.len <= RECORD_LIMIT {
        come_near(vault, asked, piece)?;
    }
    vault.resize(asked.len, asked.filler)
}

/// Makes the length of the vector what is asked for, and writes `ok`. Where it becomes longer by more copies than a frame takes,
/// they are appended as growths of as many as one takes, each a commit of its own, and a last growth of the rest.
///
/// Refused: `Open`; then `Vault`, as `Vault::resize`, but never `TooLarge`. Behind `FileFull`, `Memory` and `Disk` some of the
/// growths may stand; behind another nothing was written.
pub fn resize_in_parts<R: Record, D: Disk, W: Write>(
    alloc: Global,
    disk: D,
    asked: &Resizing<R>,
    writer: &mut W,
) -> (D, Ended)
    ensures resized { EndsAs
        (D.keeps result.0 → StandsWhole R.form D.states asked.now.len asked.now.filler disk result.0)
        (IsLengthenRefusal R.form D.keeps D.states D.faults asked.now.len asked.now.filler disk result.0) result.1 }
    ensures written { EndsAs (HasWorked R.form D.keeps D.states D.faults (IsLengthened R.form D.keeps D.states D.faults asked.now.len asked.now.filler) disk result.0) (λ _. Unit {0}) result.1 }
    ensures model { D.keeps result.0 → D.keeps disk }
    ensures writes { WritesText (W.contents writer.old) (W.contents writer.new) ok_line result.1 }
{
    let mut vault = match Vault::<R, D>::open(alloc, disk) {
        Ok(vault) => vault,
        Err((disk, fault)) => return (disk, Ended::Refused(FileFault::Open(fault))),
    };
    match lengthen(&mut vault, asked) {
        Ok(()) => (vault.into_disk(), Ended::told(write_line(b"ok", writer))),
        Err(fault) => (vault.into_disk(), Ended::Refused(FileFault::Vault(fault))),
    }
}
