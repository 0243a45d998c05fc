//! `stat` beside a writer.

ghost use Rattle.std.specs.Prelude.{◌≡◌, ◌≤◌, ◌<◌, ◌+◌, ◌-◌, ◌^◌, ℕ, List, length, IfOk, IfErr, IfSome, MatchResult};
ghost use Rattle.disk_core.specs.Shared.{InTurn, WasThere};
ghost use Rattle.segment_core.specs.declared.format.Shape.{Shape};
ghost use Rattle.segment_core.specs.Frame.{Frame, text};
ghost use Rattle.stat_core.specs.Summary.{summary_of_frames, AreFew};
ghost use Rattle.beside_core.specs.Fault.{IsNoDamage};
ghost use Rattle.beside_core.specs.PensFile.{IsPensFile};
ghost use Rattle.follow_core.specs.Beside.{WereOnce, IsSummarizedBeside};
ghost use Rattle.follow_core.specs.Counted.{CountsFirst, CountsAll, CountsOn};

use crate::ended::LookEnd;
use beside_core::{Bookmark, LookFault};
use disk_core::Shared;
use segment_core::{CLOSED_GATE, FRONT_LEN, GATE_LIMIT, OPEN_GATE, ScanFault, Shape};
use stat_core::{Form, Summary, write_summary};
use std::alloc::Global;
use std::io::Write;

/// The bytes of a read at most. It takes in many short frames.
const PIECE_LEN: usize = 65_536;

/// The byte of the gate at this place, by a call of its own.
fn read_gate<S: Shared>(file: &mut S, gate: u64) -> Result<u8, LookFault>
    ensures there { S.keeps file.new → IfOk result (WasThere (S.held file.old) (S.now file.old) (S.now file.new) gate) }
    ensures cause { IfErr result IsNoDamage }
    ensures same { S.held file.new ≡ S.held file.old }
    ensures time { S.now file.old ≤ S.now file.new }
    ensures model { S.keeps file.new → S.keeps file.old }
{
    let mut byte = [CLOSED_GATE; 1];
    match file.read_at(gate, &mut byte) {
        Ok(()) => Ok(byte[0]),
        Err(fault) => Err(LookFault::Disk(fault)),
    }
}

/// The summary with the frame more whose gate stands at its own. Its first bytes are read behind that, and no fold writes
/// over them. `None`: the gate is closed.
fn count_frame<S: Shared>(
    file: &mut S,
    shape: Shape,
    summary: Summary,
) -> Result<Option<Summary>, LookFault>
    requires few { AreFew summary }
    requires wide { 0 < shape.width }
    requires placed { summary.gate < 2 ^ 48 }
    ensures counted { S.keeps file.new → (frames : ℕ → List Frame) → IsPensFile shape (S.held file.old) frames → CountsFirst shape (frames (S.now file.old)) summary
        → MatchResult result (CountsOn shape frames (S.now file.old) (S.now file.new) summary) IsNoDamage }
    ensures few { IfOk result (λ next. IfSome next AreFew) }
    ensures later { IfOk result (λ next. IfSome next (λ more. (summary.gate < more.gate) × (more.gate < 2 ^ 49))) }
    ensures same { S.held file.new ≡ S.held file.old }
    ensures time { S.now file.old ≤ S.now file.new }
    ensures model { S.keeps file.new → S.keeps file.old }
{
    match read_gate(file, summary.gate) {
        Ok(OPEN_GATE) => {}
        Ok(_) => return Ok(None),
        Err(fault) => return Err(fault),
    }
    let mut front = [0u8; FRONT_LEN];
    match file.read_at(summary.gate, &mut front) {
        Ok(()) => {}
        Err(fault) => return Err(LookFault::Disk(fault)),
    }
    match summary.with_front(shape, &front) {
        Ok(next) => Ok(next),
        Err(fault) => Err(LookFault::Scan(fault)),
    }
}

/// The summary with the frame more whose gate stands at its own, in a piece that was read from `start` on. No fold writes
/// over its first bytes. `None`: the gate isn't open there, or the piece ends before these do.
fn count_next(
    piece: &[u8],
    start: u64,
    shape: Shape,
    summary: Summary,
) -> Result<Option<Summary>, ScanFault>
    requires few { AreFew summary }
    requires wide { 0 < shape.width }
    requires placed { summary.gate < 2 ^ 48 }
    requires behind { start ≤ summary.gate }
    ensures counted { (held : ℕ → List ℕ) (frames : ℕ → List Frame) (from to : ℕ) → IsPensFile shape held frames → (read : InTurn held from to start piece.now)
        → CountsFirst shape (frames (read.moments (summary.gate - start))) summary
        → MatchResult result (λ next. IfSome next (CountsFirst shape (frames (read.moments (summary.gate - start))))) (λ _. ⊥) }
    ensures few { IfOk result (λ next. IfSome next AreFew) }
    ensures later { IfOk result (λ next. IfSome next (λ more. (summary.gate < more.gate) × (more.gate < 2 ^ 49))) }
{
    let at = (summary.gate - start) as usize;
    let Some(front) = piece.get(at..at + FRONT_LEN) else {
        return Ok(None);
    };
    if front[0] != OPEN_GATE {
        return Ok(None);
    }
    summary.with_front(shape, front)
}

/// The summary with the frames more whose first bytes stand whole in the piece, which was read from its gate on.
fn count_in(piece: &[u8], shape: Shape, summary: Summary) -> Result<Summary, ScanFault>
    requires few { AreFew summary }
    requires wide { 0 < shape.width }
    requires placed { summary.gate < 2 ^ 49 }
    ensures counted { (held : ℕ → List ℕ) (frames : ℕ → List Frame) (from to : ℕ) → IsPensFile shape held frames → InTurn held from to summary.gate piece.now
        → CountsFirst shape (frames from) summary → MatchResult result (CountsFirst shape (frames to)) (λ _. ⊥) }
    ensures few { IfOk result AreFew }
    ensures later { IfOk result (λ more. (summary.gate ≤ more.gate) × (more.gate < 2 ^ 49)) }
{
    let start = summary.gate;
    let mut summary = summary;
    while summary.gate < GATE_LIMIT {
        match count_next(piece, start, shape, summary) {
            Ok(Some(more)) => summary = more,
            Ok(None) => return Ok(summary),
            Err(fault) => return Err(fault),
        }
    }
    Ok(summary)
}

/// The same of the piece that one read gives from its gate on. A read that fails, as one that is interrupted, gives none: the
/// call behind it says whether the file can be read.
fn count_piece<S: Shared>(
    file: &mut S,
    buffer: &mut [u8],
    shape: Shape,
    summary: Summary,
) -> Result<Summary, LookFault>
    requires few { AreFew summary }
    requires wide { 0 < shape.width }
    requires placed { summary.gate < 2 ^ 49 }
    ensures counted { S.keeps file.new → (frames : ℕ → List Frame) → IsPensFile shape (S.held file.old) frames → CountsFirst shape (frames (S.now file.old)) summary
        → MatchResult result (CountsFirst shape (frames (S.now file.new))) IsNoDamage }
    ensures few { IfOk result AreFew }
    ensures later { IfOk result (λ more. (summary.gate ≤ more.gate) × (more.gate < 2 ^ 49)) }
    ensures same { S.held file.new ≡ S.held file.old }
    ensures time { S.now file.old ≤ S.now file.new }
    ensures model { S.keeps file.new → S.keeps file.old }
{
    let Ok(count) = file.read_some(summary.gate, buffer) else {
        return Ok(summary);
    };
    match count_in(&buffer[..count], shape, summary) {
        Ok(more) => Ok(more),
        Err(fault) => Err(LookFault::Scan(fault)),
    }
}

/// The same, with those behind it whose first bytes one read more gives.
fn count_on<S: Shared>(
    file: &mut S,
    buffer: &mut [u8],
    shape: Shape,
    summary: Summary,
) -> Result<Option<Summary>, LookFault>
    requires few { AreFew summary }
    requires wide { 0 < shape.width }
    requires placed { summary.gate < 2 ^ 48 }
    ensures counted { S.keeps file.new → (frames : ℕ → List Frame) → IsPensFile shape (S.held file.old) frames → CountsFirst shape (frames (S.now file.old)) summary
        → MatchResult result (CountsOn shape frames (S.now file.old) (S.now file.new) summary) IsNoDamage }
    ensures few { IfOk result (λ next. IfSome next AreFew) }
    ensures later { IfOk result (λ next. IfSome next (λ more. (summary.gate < more.gate) × (more.gate < 2 ^ 49))) }
    ensures same { S.held file.new ≡ S.held file.old }
    ensures time { S.now file.old ≤ S.now file.new }
    ensures model { S.keeps file.new → S.keeps file.old }
{
    match count_frame(file, shape, summary) {
        Ok(Some(more)) => match count_piece(file, buffer, shape, more) {
            Ok(more) => Ok(Some(more)),
            Err(fault) => Err(fault),
        },
        Ok(None) => Ok(None),
        Err(fault) => Err(fault),
    }
}

/// Counts the frames up to a gate that is read closed behind all other reads.
fn count_frames<S: Shared>(file: &mut S, shape: Shape) -> Result<Summary, LookFault>
    requires wide { (0 < shape.width) × (shape.width < 2 ^ 16) }
    ensures counted { S.keeps file.new → (frames : ℕ → List Frame) → IsPensFile shape (S.held file.old) frames
        → MatchResult result (CountsAll shape frames (S.now file.old) (S.now file.new)) IsNoDamage }
    ensures ends { IfOk result (λ summary. summary.bytes ≡ summary.gate + 1) }
    ensures same { S.held file.new ≡ S.held file.old }
    ensures time { S.now file.old ≤ S.now file.new }
    ensures model { S.keeps file.new → S.keeps file.old }
{
    let mut buffer = [0; PIECE_LEN];
    let mut summary = Summary::begun(shape, 0);
    loop {
        if summary.gate >= GATE_LIMIT {
            return Err(LookFault::TooFar);
        }
        match count_on(file, &mut buffer, shape, summary) {
            Ok(Some(more)) => summary = more,
            Ok(None) => {
                let bytes = summary.gate + 1;
                return Ok(Summary { bytes, ..summary });
            }
            Err(fault) => return Err(fault),
        }
    }
}

/// The summary of the frames of one moment of the call, as of a file that ends with their closed gate. They stand on the
/// device.
fn summarize_beside<S: Shared>(alloc: Global, file: &mut S) -> Result<Summary, LookFault>
    ensures read { S.keeps file.new → (shape : Shape) (frames : ℕ → List Frame) → IsPensFile shape (S.held file.old) frames
        → MatchResult result (λ summary. WereOnce frames (S.now file.old) (S.now file.new) (S.synced file.new) (λ at. summary ≡ summary_of_frames shape (length (text shape at) + 1) at)) IsNoDamage }
    ensures same { S.held file.new ≡ S.held file.old }
    ensures time { S.now file.old ≤ S.now file.new }
    ensures model { S.keeps file.new → S.keeps file.old }
{
    let mark = match Bookmark::first(alloc, file) {
        Ok(mark) => mark,
        Err(fault) => return Err(fault),
    };
    let summary = match count_frames(file, mark.shape()) {
        Ok(summary) => summary,
        Err(fault) => return Err(fault),
    };
    match file.sync() {
        Ok(()) => Ok(summary),
        Err(fault) => Err(LookFault::Disk(fault)),
    }
}

/// Writes what the frames of the file are, as they are at one moment of the call. The header and the first bytes of each
/// frame are read, so no type of records is needed, and memory is the same for any file.
///
/// The length of the file is told as that of the frames and their closed gate: what stands behind that is being written, or
/// was left behind.
pub fn stat_beside<S: Shared, W: Write>(
    alloc: Global,
    file: &mut S,
    form: Form,
    writer: &mut W,
) -> LookEnd
    ensures read { IsSummarizedBeside form (S.keeps file.new) (S.held file.old) (S.now file.old) (S.now file.new) (S.synced file.new)
        (W.contents writer.old) (W.contents writer.new) result }
    ensures same { S.held file.new ≡ S.held file.old }
    ensures time { S.now file.old ≤ S.now file.new }
    ensures model { S.keeps file.new → S.keeps file.old }
{
    match summarize_beside(alloc, file) {
        Ok(summary) => LookEnd::told(write_summary(&summary, form, writer)),
        Err(fault) => LookEnd::Refused(fault),
    }
}
