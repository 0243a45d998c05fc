//! Copies: the vector of a file in a new file, and upgrades, which are those of a file of version 1 in one of version 2.

ghost use Rattle.std.specs.Prelude.{◌≡◌, ◌↔◌, ◌+◌, ◌*◌, ◌-◌, ◌≤◌, ◌<◌, ◌^◌, ℕ, length, Ok, Err, IfOk, IfErr, MatchResult};
ghost use Rattle.disk_core.specs.Fault.{CountsFailures};
ghost use Rattle.disk_core.specs.State.{now};
ghost use Rattle.disk_core.specs.Calls.{bytes_of};
ghost use Rattle.disk_core.specs.Moments.{LeavesOnly, clock};
ghost use Rattle.segment_core.specs.declared.format.Format.TheVariants.{One, Two};
ghost use Rattle.segment_core.specs.Shape.{limit_of, shape_of};
ghost use Rattle.segment_core.specs.Raw.{AreCellsOf};
ghost use Rattle.pen_core.specs.Births.{IsNew, IsEmpty};
ghost use Rattle.pen_core.specs.Opening.{OnlySyncs};
ghost use Rattle.pen_core.specs.Pen.{IsKept, failed_calls};
ghost use Rattle.vault_core.specs.Upgrading.{AreOldCalls, HasWritten, IsCopied, IsCopyFault, IsCopyOfFile, IsCopyStop, IsFileOfFormat, IsGreatestPiece, IsPieceOfCopy, IsUpgradeFault, OpensToCopied};
ghost use Rattle.vault_core.specs.Upgrading.{failed_of_old, format_of_copy, growth_count};
ghost use Rattle.vault_core.specs.Vault.{list_of};

use crate::blocks::Blocks;
use crate::fault::VaultFault;
use crate::vault::Vault;
use disk_core::Disk;
use pen_core::{OpenFault, Pen, PenFault};
use record_core::{GROWTH_HEAD_LEN, Record, width_of};
use segment_core::Format;
use std::alloc::Global;
use std::num::NonZeroU32;
use thiserror::Error;

/// Why a file wasn't upgraded or copied, in the order in which it is tested.
#[derive(Clone, Copy, Debug, PartialEq, Eq, Error)]
pub enum UpgradeFault {
    /// The old file wasn't opened.
    #[error("old {0}")]
    Old(OpenFault),
    /// The old file has version 2, and was to be upgraded.
    #[error("not version 1")]
    NotOld,
    /// The new file wasn't made or written: a piece is past the longest payload; then as a creation, and as a commit.
    #[error("new {0}")]
    New(VaultFault),
}

/// How many records one growth in a file of that version has at most.
pub fn greatest_piece<R: Record>(format: Format) -> u64
    ensures { IsGreatestPiece format R.form.width result }
{
    (format.payload_limit() - GROWTH_HEAD_LEN) as u64 / width_of::<R>() as u64
}

/// The version of a copy: the one that is asked for, or that of the old file.
pub fn format_of(asked: Option<Format>, own: Format) -> Format
    ensures { result ≡ format_of_copy asked own }
{
    match asked {
        Some(format) => format,
        None => own,
    }
}

/// How many records the growths of a copy have: so many, or the most.
pub fn piece_of<R: Record>(block: Option<NonZeroU32>, format: Format) -> u64
    ensures is { IsPieceOfCopy block format R.form.width result }
    ensures some { 1 ≤ result }
{
    // No record is wider than a header tells, so the longest growth has one.
    let _width = width_of::<R>();
    match block {
        Some(piece) => u64::from(piece.get()),
        None => greatest_piece::<R>(format),
    }
}

/// Commits the records as growths of `piece` records each, the last one maybe shorter, on a pen over an empty file.
fn write_growths<R: Record, D: Disk>(
    pen: &mut Pen<D>,
    records: &[R],
    format: Format,
    piece: u64,
) -> Result<(), PenFault>
    requires some { 1 ≤ piece }
    requires fits { 8 + piece * R.form.width ≤ limit_of format }
    requires few { length records.now ≤ 2 ^ 32 }
    requires new { IsNew (shape_of format R.form) pen.old }
    requires empty { D.keeps pen.old.disk → IsEmpty pen.old }
    requires kept { D.keeps pen.old.disk → IsKept (D.states pen.old.disk) pen.old }
    ensures written { IfOk result (λ _. HasWritten format R.form piece records.now (growth_count piece (length records.now)) pen.new) }
    ensures cells { D.keeps pen.new.disk → IfOk result (λ _. AreCellsOf R.form pen.new.vector records.now) }
    ensures images { D.keeps pen.new.disk → LeavesOnly (D.states pen.old.disk) (D.states pen.new.disk) (OpensToCopied R.form piece records.now) }
    ensures refused { IfErr result (λ fault. IsCopyStop R.form (D.keeps pen.new.disk) (now (D.states pen.new.disk)) piece records.now (clock (D.states pen.new.disk) - clock (D.states pen.old.disk)) fault) }
    ensures time { IfOk result (λ _. clock (D.states pen.new.disk) ≡ clock (D.states pen.old.disk) + growth_count piece (length records.now) * 4) }
    ensures faults { CountsFailures failed_calls (D.faults pen.old.disk) (D.faults pen.new.disk) result }
    ensures model { D.keeps pen.new.disk → D.keeps pen.old.disk }
{
    for growth in records.chunks(piece as usize) {
        pen.begin_group(&[growth])?;
        pen.settle_log()?;
    }
    Ok(())
}

/// Copies these records into a new file of that version on the disk, as `copy` does the vector of a file. Refused, with the
/// disk handed back: `TooLarge`, where a piece is past the longest payload; then as `Vault::create_as` and each commit.
pub fn copied_to<R: Record, D: Disk>(
    alloc: Global,
    records: Vec<R>,
    disk: D,
    format: Format,
    piece: u64,
) -> Result<Vault<R, D>, (D, PenFault)>
    requires some { 1 ≤ piece }
    requires few { length records.items ≤ 2 ^ 32 }
    ensures { IsCopied format R.form D.keeps D.states D.faults piece records.items disk result }
{
    if piece > greatest_piece::<R>(format) {
        return Err((disk, PenFault::TooLarge));
    }
    let Ok(blocks) = Blocks::of(alloc, records) else {
        return Err((disk, PenFault::Memory));
    };
    let mut pen = Pen::create_as(alloc, disk, width_of::<R>() as u16, format)?;
    if let Err(fault) = write_growths::<R, D>(
        &mut pen,
        blocks.as_slice()[0].as_slice(),
        format,
        piece,
    ) {
        return Err((pen.into_disk(), fault));
    }
    // Whatever a crash leaves now opens to the whole vector.
    let _disk = pen.disk();
    Ok(Vault {
        pen,
        blocks,
        parts: Vec::new(alloc),
        alloc,
    })
}

/// Copies the vector of the file on the old disk into a new file on the new one, which has this version, or that of the old
/// file: as growths of `piece` records each, or of as many as a frame takes. The last one may be shorter, and the empty
/// vector has none. It gives the old disk back and the vault of the new file, which has nothing in hand: no change, fold or
/// shrink of the old file is copied. Beside the vector it takes memory for one growth.
///
/// Nothing is written to the old disk. From the new disk's first sync on, where it succeeded and there was no file, each
/// image that a crash may leave is no file yet, or opens to the first so many growths; after `Ok` each opens to the whole
/// vector. One that was stopped is begun again on a disk with no file.
///
/// Refused, in this order, with both disks handed back: `Old`, as `Vault::open`; `New(TooLarge)`, where a piece is past the
/// longest payload, with no call of the new disk; then `New` as `Vault::create_as` and each commit: `Memory`, `Disk`,
/// `Exists` and `FileFull`. It never answers `NotOld`.
pub fn copy<R: Record, D: Disk, E: Disk>(
    alloc: Global,
    old: D,
    new: E,
    format: Option<Format>,
    piece: Option<NonZeroU32>,
) -> Result<(D, Vault<R, E>), (D, E, UpgradeFault)>
    ensures old_stays { MatchResult result
        (λ r. D.keeps r.0 → OnlySyncs (D.states old) (D.states r.0))
        (λ r. D.keeps r.0 → OnlySyncs (D.states old) (D.states r.0)) }
    ensures copied { IfOk result (λ r. IsCopyOfFile R.form (D.keeps r.0) (bytes_of (D.states old)) format piece E.keeps E.states E.faults (list_of r.1) new (Ok r.1)) }
    ensures refused { IfErr result (λ r. IsCopyFault R.form (D.keeps r.0) (bytes_of (D.states old)) format piece E.keeps E.states E.faults new r.1 r.2) }
    ensures old_calls { MatchResult result
        (λ r. (len : ℕ) × (D.keeps r.0 → len ≡ length (bytes_of (D.states old))) × AreOldCalls len UpgradeFault.NotOld (clock (D.states r.0) - clock (D.states old)))
        (λ r. (len : ℕ) × (D.keeps r.0 → len ≡ length (bytes_of (D.states old))) × AreOldCalls len r.2 (clock (D.states r.0) - clock (D.states old))) }
    ensures old_faults { MatchResult result
        (λ r. D.faults r.0 ≡ D.faults old)
        (λ r. D.faults r.0 ≡ D.faults old + failed_of_old r.2) }
    ensures old_model { MatchResult result (λ r. D.keeps r.0 → D.keeps old) (λ r. D.keeps r.0 → D.keeps old) }
{
    let (source, records) = match Pen::open::<R>(alloc, old) {
        Ok(opened) => opened,
        Err((old, fault)) => return Err((old, new, UpgradeFault::Old(fault))),
    };
    // No vector is longer than its blocks may be.
    let _size = source.len();
    let format = format_of(format, source.format());
    let piece = piece_of::<R>(piece, format);
    match copied_to(alloc, records, new, format, piece) {
        Ok(vault) => Ok((source.into_disk(), vault)),
        Err((new, fault)) => Err((
            source.into_disk(),
            new,
            UpgradeFault::New(VaultFault::Pen(fault)),
        )),
    }
}

/// Copies the vector of the version 1 file on the old disk into a new file of version 2 on the new one, as growths of
/// `piece` records each, at least 1. `copy` says more.
///
/// Refused as `copy` is, but behind `Old`: `NotOld`, where the old file has version 2.
pub fn upgrade<R: Record, D: Disk, E: Disk>(
    alloc: Global,
    old: D,
    new: E,
    piece: u64,
) -> Result<(D, Vault<R, E>), (D, E, UpgradeFault)>
    requires { 1 ≤ piece }
    ensures old_stays { MatchResult result
        (λ r. D.keeps r.0 → OnlySyncs (D.states old) (D.states r.0))
        (λ r. D.keeps r.0 → OnlySyncs (D.states old) (D.states r.0)) }
    ensures upgraded { IfOk result (λ r. (D.keeps r.0 → IsFileOfFormat One R.form (bytes_of (D.states old)) (list_of r.1))
        × IsCopied Two R.form E.keeps E.states E.faults piece (list_of r.1) new (Ok r.1)) }
    ensures refused { IfErr result (λ r. IsUpgradeFault R.form (D.keeps r.0) (bytes_of (D.states old)) E.keeps E.states E.faults piece new r.1 r.2) }
    ensures old_calls { MatchResult result
        (λ r. (len : ℕ) × (D.keeps r.0 → len ≡ length (bytes_of (D.states old))) × AreOldCalls len UpgradeFault.NotOld (clock (D.states r.0) - clock (D.states old)))
        (λ r. (len : ℕ) × (D.keeps r.0 → len ≡ length (bytes_of (D.states old))) × AreOldCalls len r.2 (clock (D.states r.0) - clock (D.states old))) }
    ensures old_faults { MatchResult result
        (λ r. D.faults r.0 ≡ D.faults old)
        (λ r. D.faults r.0 ≡ D.faults old + failed_of_old r.2) }
    ensures old_model { MatchResult result (λ r. D.keeps r.0 → D.keeps old) (λ r. D.keeps r.0 → D.keeps old) }
{
    let (pen, records) = match Pen::open::<R>(alloc, old) {
        Ok(opened) => opened,
        Err((old, fault)) => return Err((old, new, UpgradeFault::Old(fault))),
    };
    // No vector is longer than its blocks may be.
    let _size = pen.len();
    if pen.format() == Format::Two {
        return Err((pen.into_disk(), new, UpgradeFault::NotOld));
    }
    match copied_to(alloc, records, new, Format::Two, piece) {
        Ok(vault) => Ok((pen.into_disk(), vault)),
        Err((new, fault)) => Err((
            pen.into_disk(),
            new,
            UpgradeFault::New(VaultFault::Pen(fault)),
        )),
    }
}
