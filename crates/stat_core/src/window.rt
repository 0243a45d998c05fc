//! The part of a file that is in memory.

ghost use Rattle.std.specs.Prelude.{◌≡◌, ◌≤◌, ◌<◌, ◌+◌, ◌-◌, length, min, IfOk, IfErr};
ghost use Rattle.disk_core.specs.Fault.{CountsFailures};
ghost use Rattle.disk_core.specs.Calls.{bytes_of};
ghost use Rattle.disk_core.specs.Moments.{clock};
ghost use Rattle.segment_core.specs.FrameHead.{front_len};
ghost use Rattle.stat_core.specs.Window.{HoldsWindow, IsWithin, OnlyReads};

use disk_core::{Disk, DiskFault};
use segment_core::FRONT_LEN;

/// The bytes of a read at most.
pub(crate) const WINDOW_LEN: usize = 65_536;

/// Which part of the file a buffer holds.
#[derive(Clone, Copy)]
pub(crate) struct ByteWindow {
    /// The place of its first byte.
    pub(crate) start: u64,
    /// Its bytes.
    pub(crate) len: u64,
}

/// How many bytes from `at` on are looked at, in a file of so many.
pub(crate) fn front_len(at: u64, bytes: u64) -> u64
    ensures { result ≡ min front_len (bytes - at) }
{
    (FRONT_LEN as u64).min(bytes.saturating_sub(at))
}

/// Lets the buffer hold what stands at `at`, by one read where it doesn't yet.
pub(crate) fn slide<D: Disk>(
    disk: &mut D,
    buffer: &mut [u8],
    window: ByteWindow,
    at: u64,
    bytes: u64,
) -> Result<ByteWindow, DiskFault>
    requires length { D.keeps disk.old → bytes ≡ length (bytes_of (D.states disk.old)) }
    requires inside { at ≤ bytes }
    requires room { front_len ≤ length buffer.old }
    requires within { (window.len ≤ length buffer.old) × (window.start + window.len ≤ bytes) }
    requires holds { D.keeps disk.old → HoldsWindow (bytes_of (D.states disk.old)) buffer.old window }
    ensures within { IfOk result (IsWithin (length buffer.old) at bytes) }
    ensures holds { D.keeps disk.new → IfOk result (HoldsWindow (bytes_of (D.states disk.old)) buffer.new) }
    ensures only_reads { D.keeps disk.new → OnlyReads (D.states disk.old) (D.states disk.new) }
    ensures calls { clock (D.states disk.new) ≤ clock (D.states disk.old) + 1 }
    ensures made { clock (D.states disk.old) ≤ clock (D.states disk.new) }
    ensures cause { IfErr result (λ fault. fault ≡ DiskFault.Read) }
    ensures faults { CountsFailures (λ _. 1) (D.faults disk.old) (D.faults disk.new) result }
    ensures model { D.keeps disk.new → D.keeps disk.old }
{
    if window.start <= at && at + front_len(at, bytes) <= window.start + window.len {
        return Ok(window);
    }
    let len = (buffer.len() as u64).min(bytes - at);
    disk.read_at(at, &mut buffer[..len as usize])?;
    Ok(ByteWindow { start: at, len })
}
