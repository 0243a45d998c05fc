//! What is sound of a damaged file.

ghost use Rattle.std.specs.Prelude.{◌≡◌, ◌⊎◌, ◌≤◌, ◌<◌, ◌+◌, ◌^◌, ◌++◌, length, take, MatchOption, IfOk, IfErr};
ghost use Rattle.disk_core.specs.Fault.{CountsFailures};
ghost use Rattle.disk_core.specs.Calls.{bytes_of};
ghost use Rattle.disk_core.specs.Moments.{LeavesOnly};
ghost use Rattle.disk_core.specs.State.{now, IsImage};
ghost use Rattle.segment_core.specs.Fault.{damaged};
ghost use Rattle.segment_core.specs.Scanned.{IsScanOf};
ghost use Rattle.segment_core.specs.declared.vector.Scanned.{Scanned};
ghost use Rattle.pen_core.specs.Opening.{IsOpenRefusal, failed_openings};
ghost use Rattle.pen_core.specs.declared.fault.OpenFault.TheVariants as faults;
ghost use Rattle.files_core.specs.SoundFront.{IsNoCutOf, IsSoundFront, IsFrontRefusal};

use crate::checking::PIECE_LEN;
use disk_core::Disk;
use pen_core::{OpenFault, scan_front};
use record_core::Record;
use segment_core::{CLOSED_GATE, Cause, ScanFault};
use std::alloc::Global;

/// Where the whole frames end of so many bytes that are refused for being cut short.
fn end_of_frames(fault: OpenFault, len: u64) -> Option<u64>
    ensures { MatchOption result (IsNoCutOf len fault) (λ end. (end ≤ len) × (end + 1 < 2 ^ 64)
        × ((fault ≡ faults.Scan (damaged end Cause.NoGate)) ⊎ (fault ≡ faults.Scan (damaged end Cause.ShortFrame)))) }
{
    match fault {
        OpenFault::Scan(
            ScanFault::Damaged {
                at,
                cause: Cause::NoGate | Cause::ShortFrame,
            },
        ) if at <= len && at < u64::MAX => Some(at),
        _ => None,
    }
}

/// How many records the first bytes of the disk have, so many, with a tail behind them.
fn count_front<R: Record, D: Disk>(
    alloc: Global,
    disk: &mut D,
    len: u64,
    tail: &[u8],
) -> Result<u64, OpenFault>
    requires length { D.keeps disk.old → len ≤ length (bytes_of (D.states disk.old)) }
    requires fits { len + length tail.now < 2 ^ 64 }
    ensures found { D.keeps disk.new → IfOk result (λ n. (scanned : Scanned R) × IsScanOf R.form (take len (bytes_of (D.states disk.old)) ++ tail.now) scanned × (n ≡ length scanned.records.items)) }
    ensures refused { D.keeps disk.new → IfErr result (IsOpenRefusal R.form (take len (bytes_of (D.states disk.old)) ++ tail.now)) }
    ensures same { D.keeps disk.new → now (D.states disk.new) ≡ now (D.states disk.old) }
    ensures images { D.keeps disk.new → LeavesOnly (D.states disk.old) (D.states disk.new) (IsImage (now (D.states disk.old))) }
    ensures faults { CountsFailures failed_openings (D.faults disk.old) (D.faults disk.new) result }
    ensures model { D.keeps disk.new → D.keeps disk.old }
{
    match scan_front::<D, R>(alloc, disk, len, tail, &mut [0; PIECE_LEN]) {
        Ok(scanned) => Ok(scanned.records.as_slice().len() as u64),
        Err(fault) => Err(fault),
    }
}

/// How many records are sound of a file that is damaged at `at`: those of the frames that stand whole before it. The disk is
/// only read. Refused: where these are no file, as a scan of them, or by a call of the disk.
pub fn sound_front<R: Record, D: Disk>(
    alloc: Global,
    disk: &mut D,
    at: u64,
) -> Result<u64, OpenFault>
    ensures sound { D.keeps disk.new → IfOk result (IsSoundFront R.form (bytes_of (D.states disk.old)) at) }
    ensures refused { D.keeps disk.new → IfErr result (IsFrontRefusal R.form (bytes_of (D.states disk.old)) at) }
    ensures same { D.keeps disk.new → now (D.states disk.new) ≡ now (D.states disk.old) }
    ensures images { D.keeps disk.new → LeavesOnly (D.states disk.old) (D.states disk.new) (IsImage (now (D.states disk.old))) }
    ensures faults { CountsFailures failed_openings (D.faults disk.old) (D.faults disk.new) result }
    ensures model { D.keeps disk.new → D.keeps disk.old }
{
    let len = match disk.len() {
        Ok(len) => len.min(at),
        Err(fault) => return Err(OpenFault::Disk(fault)),
    };
    let fault = match count_front::<R, D>(alloc, disk, len, &[]) {
        Ok(count) => return Ok(count),
        Err(fault) => fault,
    };
    let Some(end) = end_of_frames(fault, len) else {
        return Err(fault);
    };
    match count_front::<R, D>(alloc, disk, end, &[CLOSED_GATE]) {
        Ok(count) => Ok(count),
        Err(fault) => Err(fault),
    }
}
