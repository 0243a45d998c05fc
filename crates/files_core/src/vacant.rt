//! Whether a file may be made where something stands.

ghost use Rattle.std.specs.Prelude.{◌≡◌, ◌↔◌, ◌≤◌, length, IsTrue, IfOk};
ghost use Rattle.disk_core.specs.Fault.{CountsFailures};
ghost use Rattle.disk_core.specs.Calls.{bytes_of};
ghost use Rattle.disk_core.specs.Moments.{LeavesOnly};
ghost use Rattle.disk_core.specs.State.{now, IsImage};
ghost use Rattle.files_core.specs.Vacant.{IsZeroOrOf, IsVacant, IsVacantFor};

use disk_core::{Disk, DiskFault};
use record_core::{Record, width_of};
use segment_core::{EMPTY_FILE_LEN, Format, empty_file};

/// Whether each byte is 0, or the one that stands there in `made`.
fn is_zero_or_of(made: &[u8], bytes: &[u8]) -> bool
    requires { length bytes.now ≤ length made.now }
    ensures { IsTrue result ↔ IsZeroOrOf made.now bytes.now }
{
    for (at, byte) in bytes.iter().enumerate() {
        if *byte != 0 && *byte != made[at] {
            return false;
        }
    }
    true
}

/// Whether the bytes are what a stopped creation of a file of this version leaves.
fn is_front_of(format: Format, width: u16, bytes: &[u8]) -> bool
    requires { length bytes.now ≤ 12 }
    ensures { IsTrue result ↔ IsVacant (record { format = format; width = width }) bytes.now }
{
    is_zero_or_of(&empty_file(format, width), bytes)
}

/// The same, or where no version is said of a file of either.
fn is_front(format: Option<Format>, width: u16, bytes: &[u8]) -> bool
    requires { length bytes.now ≤ 12 }
    ensures { IsTrue result ↔ IsVacantFor format width bytes.now }
{
    match format {
        Some(format) => is_front_of(format, width, bytes),
        None => is_front_of(Format::One, width, bytes) || is_front_of(Format::Two, width, bytes),
    }
}

/// Whether nothing stands on the disk but what a stopped creation of such a file leaves, or where no version is said of one of
/// either: no more bytes than an empty file has, each of them 0 or the one that it gets. Anything else is somebody's, and a
/// creation would write over a part of it. The disk is only read.
pub fn is_vacant<R: Record, D: Disk>(
    disk: &mut D,
    format: Option<Format>,
) -> Result<bool, DiskFault>
    ensures vacant { D.keeps disk.new → IfOk result (λ vacant. IsTrue vacant ↔ IsVacantFor format R.form.width (bytes_of (D.states disk.old))) }
    ensures same { D.keeps disk.new → now (D.states disk.new) ≡ now (D.states disk.old) }
    ensures images { D.keeps disk.new → LeavesOnly (D.states disk.old) (D.states disk.new) (IsImage (now (D.states disk.old))) }
    ensures faults { CountsFailures (λ _. 1) (D.faults disk.old) (D.faults disk.new) result }
    ensures model { D.keeps disk.new → D.keeps disk.old }
{
    let len = disk.len()?;
    if len > EMPTY_FILE_LEN as u64 {
        return Ok(false);
    }
    let mut bytes = [0; EMPTY_FILE_LEN];
    let front = &mut bytes[..len as usize];
    disk.read_at(0, front)?;
    Ok(is_front(format, width_of::<R>() as u16, front))
}
