//! `copy`: the vector of a file in a new file; and `upgrade`, of a file of version 1 in a new one of version 2.

ghost use Rattle.std.specs.Prelude.{◌≡◌, ◌+◌, ◌-◌, OnOk, List, length, ℕ};
ghost use Rattle.std.specs.Io.KnownBytes.{Appends};
ghost use Rattle.disk_core.specs.Calls.{bytes_of};
ghost use Rattle.disk_core.specs.Moments.{clock};
ghost use Rattle.pen_core.specs.Opening.{AreCallsDone, OnlySyncs};
ghost use Rattle.files_core.specs.Ended.{EndsAs, WritesAnswer};
ghost use Rattle.files_core.specs.Texts.{copied_line, upgraded_line};
ghost use Rattle.files_core.specs.Upgraded.{AreCallsBefore, HasCopied, IsCopyCommandFault, IsUpgraded, IsUpgradeRefusal, failed_upgrading};

use crate::ended::Ended;
use crate::fault::FileFault;
use disk_core::Disk;
use record_core::{Record, width_of};
use segment_core::Format;
use std::alloc::Global;
use std::io;
use std::io::Write;
use std::num::NonZeroU32;
use text_core::{write_line, write_numbered};
use vault_core::{copy, greatest_piece, upgrade};

/// Writes what `upgrade` answers: how many records the new file has.
pub fn write_upgraded<W: Write>(writer: &mut W, size: u64) -> io::Result<()>
    ensures { OnOk result (Appends (W.contents writer.old) (W.contents writer.new) (upgraded_line size)) }
{
    write_numbered(writer, b"upgraded size ", size)?;
    write_line(b"", writer)
}

/// The same of `copy`.
pub fn write_copied<W: Write>(writer: &mut W, size: u64) -> io::Result<()>
    ensures { OnOk result (Appends (W.contents writer.old) (W.contents writer.new) (copied_line size)) }
{
    write_numbered(writer, b"copied size ", size)?;
    write_line(b"", writer)
}

/// Copies the vector of the file on the old disk into a new file on the new one, of this version or of its own, in growths of
/// `block` records, or of as many as it takes, and writes `copied size` and how many records it has. Gives back the old disk
/// and the new one. Refused: `Upgrade`, as `copy` is.
pub fn copy_file<R: Record, D: Disk, N: Disk, W: Write>(
    alloc: Global,
    old: D,
    new: N,
    format: Option<Format>,
    block: Option<NonZeroU32>,
    writer: &mut W,
) -> (D, N, Ended)
    ensures old_stays { D.keeps result.0 → OnlySyncs (D.states old) (D.states result.0) }
    ensures old_model { D.keeps result.0 → D.keeps old }
    ensures old_calls { (len : ℕ) × (D.keeps result.0 → len ≡ length (bytes_of (D.states old))) × EndsAs
        (AreCallsDone len (clock (D.states result.0) - clock (D.states old)))
        (AreCallsBefore len (clock (D.states result.0) - clock (D.states old))) result.2 }
    ensures old_faults { D.faults result.0 ≡ D.faults old + failed_upgrading result.2 }
    ensures copied { EndsAs
        ((text : List ℕ) × HasCopied R.form D.keeps D.states N.keeps N.states N.faults old new result.0 result.1 format block text)
        (IsCopyCommandFault R.form D.keeps D.states N.keeps N.states N.faults old new result.0 result.1 format block) result.2 }
    ensures writes { WritesAnswer (W.contents writer.old) (W.contents writer.new) (HasCopied R.form D.keeps D.states N.keeps N.states N.faults old new result.0 result.1 format block) result.2 }
{
    match copy::<R, D, N>(alloc, old, new, format, block) {
        Ok((old, vault)) => {
            let written = write_copied(writer, vault.len());
            (old, vault.into_disk(), Ended::told(written))
        }
        Err((old, new, fault)) => (old, new, Ended::Refused(FileFault::Upgrade(fault))),
    }
}

/// Copies the vector of the file of version 1 on the old disk into a new file of version 2 on the new one, in the longest
/// growths that it takes, and writes `upgraded size` and how many records it has. Gives back the old disk and the new one.
/// Refused: `Upgrade`, as `upgrade` is.
pub fn upgrade_file<R: Record, D: Disk, N: Disk, W: Write>(
    alloc: Global,
    old: D,
    new: N,
    writer: &mut W,
) -> (D, N, Ended)
    ensures old_stays { D.keeps result.0 → OnlySyncs (D.states old) (D.states result.0) }
    ensures old_model { D.keeps result.0 → D.keeps old }
    ensures old_calls { (len : ℕ) × (D.keeps result.0 → len ≡ length (bytes_of (D.states old))) × EndsAs
        (AreCallsDone len (clock (D.states result.0) - clock (D.states old)))
        (AreCallsBefore len (clock (D.states result.0) - clock (D.states old))) result.2 }
    ensures old_faults { D.faults result.0 ≡ D.faults old + failed_upgrading result.2 }
    ensures upgraded { EndsAs
        ((text : List ℕ) × IsUpgraded R.form D.keeps D.states N.keeps N.states N.faults old new result.0 result.1 text)
        (IsUpgradeRefusal R.form D.keeps D.states N.keeps N.states N.faults old new result.0 result.1) result.2 }
    ensures writes { WritesAnswer (W.contents writer.old) (W.contents writer.new) (IsUpgraded R.form D.keeps D.states N.keeps N.states N.faults old new result.0 result.1) result.2 }
{
    // No record is wider than a header tells, so a piece has one.
    let _width = width_of::<R>();
    match upgrade::<R, D, N>(alloc, old, new, greatest_piece::<R>(Format::Two)) {
        Ok((old, vault)) => {
            let written = write_upgraded(writer, vault.len());
            (old, vault.into_disk(), Ended::told(written))
        }
        Err((old, new, fault)) => (old, new, Ended::Refused(FileFault::Upgrade(fault))),
    }
}
