//! What `copy` and `upgrade` read of the old file, and how its records come into the new one.

ghost use Rattle.std.specs.Prelude.{◌≡◌, ◌+◌, ◌≤◌, ◌^◌, ℕ, List, length, IfOk, IfErr, MatchResult};
ghost use Rattle.disk_core.specs.Calls.{bytes_of};
ghost use Rattle.pen_core.specs.Opening.{IsOpenRefusal, OnlySyncs, failed_openings};
ghost use Rattle.vault_core.specs.Upgrading.{IsCopied, IsFileOfFormat, IsPieceOfCopy, format_of_copy};
ghost use Rattle.filing_core.specs.Copying.{HadRecords, MayBeUnread};

use beside_core::LookFault;
use disk_core::{Disk, Shared};
use follow_core::read_vector;
use pen_core::{OpenFault, Pen, PenFault};
use record_core::{RECORD_LIMIT, Record};
use segment_core::Format;
use std::alloc::Global;
use std::num::NonZeroU32;
use vault_core::{Vault, copied_to, format_of, piece_of};

/// The disk of a file that was opened, the file's version, and its records. Refused as `Pen::open` is.
pub fn read_old<R: Record, D: Disk>(
    alloc: Global,
    disk: D,
) -> Result<(D, Format, Vec<R>), (D, OpenFault)>
    ensures read { IfOk result (λ r. D.keeps r.0 → IsFileOfFormat r.1 R.form (bytes_of (D.states disk)) r.2.items) }
    ensures few { IfOk result (λ r. length r.2.items ≤ 2 ^ 32) }
    ensures refused { IfErr result (λ r. D.keeps r.0 → IsOpenRefusal R.form (bytes_of (D.states disk)) r.1) }
    ensures stays { MatchResult result
        (λ r. D.keeps r.0 → OnlySyncs (D.states disk) (D.states r.0))
        (λ r. D.keeps r.0 → OnlySyncs (D.states disk) (D.states r.0)) }
    ensures faults { MatchResult result
        (λ r. D.faults r.0 ≡ D.faults disk)
        (λ r. D.faults r.0 ≡ D.faults disk + failed_openings r.1) }
{
    match Pen::open::<R>(alloc, disk) {
        Ok((pen, records)) => {
            // No vector has more records than a file.
            let _size = pen.len();
            let format = pen.format();
            Ok((pen.into_disk(), format, records))
        }
        Err((disk, fault)) => Err((disk, fault)),
    }
}

/// The version of a file that is read beside its writer, and its records at one moment of the call.
pub fn read_beside<R: Record, S: Shared>(
    alloc: Global,
    file: &mut S,
) -> Result<(Format, Vec<R>), LookFault>
    ensures read { MatchResult result
        (λ found. HadRecords R.form (S.keeps file.new) (S.held file.old) (S.now file.old) (S.now file.new) (S.synced file.new) found.0 found.1.items)
        (MayBeUnread R.form (S.keeps file.new) (S.held file.old) (S.now file.old) (S.now file.new)) }
    ensures few { IfOk result (λ found. length found.1.items ≤ 2 ^ 32) }
    ensures same { S.held file.new ≡ S.held file.old }
    ensures model { S.keeps file.new → S.keeps file.old }
{
    let (records, mark) = match read_vector::<R, S>(alloc, file) {
        Ok(found) => found,
        Err(fault) => return Err(fault),
    };
    // No file of a pen has more.
    if records.len() as u64 > RECORD_LIMIT {
        return Err(LookFault::TooFar);
    }
    Ok((mark.shape().format, records))
}

/// Copies the records of a file of that version into a new file on a disk, of the version that is asked for or the same, in
/// growths of so many records or of the most. Refused as `copied_to` is.
pub fn copy_to<R: Record, D: Disk>(
    alloc: Global,
    own: Format,
    records: Vec<R>,
    disk: D,
    format: Option<Format>,
    block: Option<NonZeroU32>,
) -> Result<Vault<R, D>, (D, PenFault)>
    requires few { length records.items ≤ 2 ^ 32 }
    ensures { (piece : ℕ) × IsPieceOfCopy block (format_of_copy format own) R.form.width piece
        × IsCopied (format_of_copy format own) R.form D.keeps D.states D.faults piece records.items disk result }
{
    let format = format_of(format, own);
    let piece = piece_of::<R>(block, format);
    copied_to(alloc, records, disk, format, piece)
}
