//! The walk over the frames of a file.

ghost use Rattle.std.specs.Prelude.{◌≡◌, ◌≤◌, ◌<◌, ◌+◌, ◌-◌, ◌^◌, ℕ, List, length, drop, MatchOption, MatchResult, IfOk, IfErr};
ghost use Rattle.disk_core.specs.Fault.{CountsFailures};
ghost use Rattle.disk_core.specs.Calls.{bytes_of, Stays};
ghost use Rattle.disk_core.specs.Moments.{clock};
ghost use Rattle.segment_core.specs.Fault.{IsSound};
ghost use Rattle.stat_core.specs.Calls.{failed_in, AreCalls};
ghost use Rattle.stat_core.specs.Next.{IsNextOutline, IsSized};
ghost use Rattle.stat_core.specs.Summary.{tally_in, AreFew};
ghost use Rattle.stat_core.specs.Walked.{IsSummaryOf, IsStatRefusal, TellsFrames};
ghost use Rattle.stat_core.specs.Window.{HoldsWindow, IsWithin, OnlyReads};

use crate::fault::StatFault;
use crate::outline::{Outline, read_outline};
use crate::summary::Summary;
use crate::window::{ByteWindow, WINDOW_LEN, front_len, slide};
use disk_core::Disk;
use segment_core::{HEADER_LEN, ScanFault, Shape};

/// The frame at the gate of the summary so far, as the buffer shows it.
fn next_outline(
    buffer: &[u8],
    window: ByteWindow,
    shape: Shape,
    summary: Summary,
) -> Result<Option<(Outline, u64)>, ScanFault>
    requires wide { 0 < shape.width }
    requires inside { summary.gate ≤ summary.bytes }
    requires within { IsWithin (length buffer.now) summary.gate summary.bytes window }
    ensures sized { IfOk result (λ next. MatchOption next (Unit {0}) (IsSized shape (tally_in summary) (summary.bytes - summary.gate))) }
    ensures next { (image : List ℕ) → length image ≡ summary.bytes → HoldsWindow image buffer.now window
        → IsNextOutline shape summary.gate (tally_in summary) (drop summary.gate image) result }
{
    let at = (summary.gate - window.start) as usize;
    let len = front_len(summary.gate, summary.bytes) as usize;
    let left = summary.bytes - summary.gate;
    let front = &buffer[at..at + len];
    read_outline(front, left, summary.gate, shape, summary.tally())
}

/// Counts the frames behind the header, up to the gate that ends them.
fn walk<D: Disk>(disk: &mut D, shape: Shape, bytes: u64) -> Result<Summary, StatFault>
    requires wide { (0 < shape.width) × (shape.width < 2 ^ 16) }
    requires long { 11 ≤ bytes }
    requires length { D.keeps disk.old → bytes ≡ length (bytes_of (D.states disk.old)) }
    requires sound { D.keeps disk.old → IsSound shape.width shape.format (bytes_of (D.states disk.old)) }
    ensures few { IfOk result AreFew }
    ensures is { D.keeps disk.new → MatchResult result (IsSummaryOf (bytes_of (D.states disk.old))) (IsStatRefusal (bytes_of (D.states disk.old))) }
    ensures only_reads { D.keeps disk.new → OnlyReads (D.states disk.old) (D.states disk.new) }
    ensures calls { (before : ℕ) → before + 2 ≡ clock (D.states disk.old) → AreCalls before (clock (D.states disk.new)) result }
    ensures faults { CountsFailures failed_in (D.faults disk.old) (D.faults disk.new) result }
    ensures model { D.keeps disk.new → D.keeps disk.old }
{
    let mut buffer = [0; WINDOW_LEN];
    let mut window = ByteWindow { start: 0, len: 0 };
    let mut summary = Summary::begun(shape, bytes);
    loop {
        window = match slide(disk, &mut buffer, window, summary.gate, bytes) {
            Ok(window) => window,
            Err(fault) => return Err(StatFault::Disk(fault)),
        };
        match next_outline(&buffer, window, shape, summary) {
            Ok(Some((outline, payload_len))) => {
                summary = summary.grown(shape, outline, payload_len);
            }
            Ok(None) => return Ok(summary),
            Err(fault) => {
                return Err(StatFault::Frame {
                    fault,
                    before: summary,
                });
            }
        }
    }
}

/// The shape that the header of a file of so many bytes tells.
fn read_header<D: Disk>(disk: &mut D, bytes: u64) -> Result<Shape, StatFault>
    requires length { D.keeps disk.old → bytes ≡ length (bytes_of (D.states disk.old)) }
    ensures wide { IfOk result (λ shape. (0 < shape.width) × (shape.width < 2 ^ 16) × (11 ≤ bytes)) }
    ensures is { D.keeps disk.new → MatchResult result (λ shape. IsSound shape.width shape.format (bytes_of (D.states disk.old))) (IsStatRefusal (bytes_of (D.states disk.old))) }
    ensures same { D.keeps disk.old → Stays (D.states disk.old) (D.states disk.new) }
    ensures time { clock (D.states disk.new) ≡ clock (D.states disk.old) + 1 }
    ensures calls { (before : ℕ) → before + 1 ≡ clock (D.states disk.old) → IfErr result (λ fault. AreCalls before (clock (D.states disk.new)) (Err fault)) }
    ensures faults { CountsFailures failed_in (D.faults disk.old) (D.faults disk.new) result }
    ensures model { D.keeps disk.new → D.keeps disk.old }
{
    let mut header = [0; HEADER_LEN];
    let len = (HEADER_LEN as u64).min(bytes) as usize;
    if let Err(fault) = disk.read_at(0, &mut header[..len]) {
        return Err(StatFault::Disk(fault));
    }
    match Shape::read(&header[..len]) {
        Ok(shape) => Ok(shape),
        Err(fault) => Err(StatFault::Header(fault)),
    }
}

/// Counts the frames of the file on the disk, by the first bytes of each.
fn read_frames<D: Disk>(disk: &mut D) -> Result<Summary, StatFault>
    ensures few { IfOk result AreFew }
    ensures is { D.keeps disk.new → MatchResult result (IsSummaryOf (bytes_of (D.states disk.old))) (IsStatRefusal (bytes_of (D.states disk.old))) }
    ensures only_reads { D.keeps disk.new → OnlyReads (D.states disk.old) (D.states disk.new) }
    ensures calls { AreCalls (clock (D.states disk.old)) (clock (D.states disk.new)) result }
    ensures faults { CountsFailures failed_in (D.faults disk.old) (D.faults disk.new) result }
    ensures model { D.keeps disk.new → D.keeps disk.old }
{
    let bytes = match disk.len() {
        Ok(bytes) => bytes,
        Err(fault) => return Err(StatFault::Disk(fault)),
    };
    match read_header(disk, bytes) {
        Ok(shape) => walk(disk, shape, bytes),
        Err(fault) => Err(fault),
    }
}

/// Counts the frames of the file on the disk. It only reads: the length, the header, and of each frame the first
/// bytes, through a buffer of 65,536 bytes that takes in many small frames at a time; what lies in a payload behind
/// its first number is passed over. So no type of records is needed, memory is the same for any file, and a file of
/// large frames is read in small part.
///
/// What is told of an unsound file is its first fault in the order of `docs/file/format.md`, as far as these bytes show
/// it. Not seen are: a length of a growth or of a run that is 0, or such lengths that don't add up to the records
/// that fill the payload; runs in another order or outside the vector (`Runs`, and `Range` of a change); more records
/// than a vector may have (`TooLong`); and a record that is none (`BadRecord`).
///
/// Refused: `Disk`, where a call failed; `Header`; `Frame`, with the frames before it. It makes three calls of the disk, and
/// at most one more for each frame.
pub fn summarize<D: Disk>(disk: &mut D) -> Result<Summary, StatFault>
    ensures few { IfOk result AreFew }
    ensures is { D.keeps disk.new → MatchResult result (IsSummaryOf (bytes_of (D.states disk.old))) (IsStatRefusal (bytes_of (D.states disk.old))) }
    ensures frames { D.keeps disk.new → TellsFrames (bytes_of (D.states disk.old)) result }
    ensures only_reads { D.keeps disk.new → OnlyReads (D.states disk.old) (D.states disk.new) }
    ensures calls { AreCalls (clock (D.states disk.old)) (clock (D.states disk.new)) result }
    ensures faults { CountsFailures failed_in (D.faults disk.old) (D.faults disk.new) result }
    ensures model { D.keeps disk.new → D.keeps disk.old }
{
    read_frames(disk)
}
