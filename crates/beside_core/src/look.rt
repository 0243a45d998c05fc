//! The bytes of the frames that stand behind a gate.

ghost use Rattle.std.specs.Prelude.{◌≡◌, ◌+◌, ◌≤◌, ◌<◌, ◌^◌, ℕ, max, length, OnOk, IfOk, IfErr};
ghost use Rattle.segment_core.specs.Frame.{frame_head_len};
ghost use Rattle.segment_core.specs.Fault.{payload_len_in};
ghost use Rattle.segment_core.specs.Reading.{IsFaulty};
ghost use Rattle.beside_core.specs.Fault.{IsNoDamage, HasSeen};
ghost use Rattle.beside_core.specs.Look.{ReadBehind, LooksFrom};

use crate::fault::LookFault;
use disk_core::{DiskFault, Shared};
use segment_core::{
    CLOSED_GATE, FRAME_HEAD_LEN, FrameHead, GATE_LIMIT, OPEN_GATE, ScanFault, Shape, Unread,
};
use std::alloc::Global;

/// So many bytes a look reads by one call, beyond a frame that is longer.
const PIECE_LEN: usize = 1 << 16;

/// Reads so many bytes from this place on, behind those in `out`, by one call.
pub(crate) fn take<S: Shared>(
    file: &mut S,
    at: u64,
    count: usize,
    out: &mut Vec<u8>,
) -> Result<(), LookFault>
    ensures taken { OnOk result (ReadBehind (S.keeps file.new) (S.held file.old) (S.now file.old) (S.now file.new) at out.old.items out.new.items) }
    ensures long { OnOk result (length out.new.items ≡ length out.old.items + count) }
    ensures same { S.held file.new ≡ S.held file.old }
    ensures time { S.now file.old ≤ S.now file.new }
    ensures settles_none { S.synced file.new ≡ S.synced file.old }
    ensures cause { IfErr result IsNoDamage }
    ensures model { S.keeps file.new → S.keeps file.old }
{
    let start = out.len();
    let Some(end) = start.checked_add(count) else {
        return Err(LookFault::Memory);
    };
    if out.resize(end, 0).is_err() {
        return Err(LookFault::Memory);
    }
    match file.read_at(at, &mut out[start..]) {
        Ok(()) => Ok(()),
        Err(fault) => Err(LookFault::Disk(fault)),
    }
}

/// Reads a piece from this place on, behind the bytes in `out`, by one call: at least a byte.
fn take_piece<S: Shared>(file: &mut S, at: u64, out: &mut Vec<u8>) -> Result<(), LookFault>
    ensures taken { OnOk result (ReadBehind (S.keeps file.new) (S.held file.old) (S.now file.old) (S.now file.new) at out.old.items out.new.items) }
    ensures some { OnOk result (length out.old.items < length out.new.items) }
    ensures short { OnOk result (length out.new.items ≤ length out.old.items + 65536) }
    ensures same { S.held file.new ≡ S.held file.old }
    ensures time { S.now file.old ≤ S.now file.new }
    ensures settles_none { S.synced file.new ≡ S.synced file.old }
    ensures cause { IfErr result IsNoDamage }
    ensures model { S.keeps file.new → S.keeps file.old }
{
    let start = out.len();
    let Some(end) = start.checked_add(PIECE_LEN) else {
        return Err(LookFault::Memory);
    };
    if out.resize(end, 0).is_err() {
        return Err(LookFault::Memory);
    }
    match file.read_some(at, &mut out[start..]) {
        Ok(0) => Err(LookFault::Disk(DiskFault::Read)),
        Ok(count) => {
            out.truncate(start + count);
            Ok(())
        }
        Err(fault) => Err(LookFault::Disk(fault)),
    }
}

/// Reads behind the bytes in `text`, which stand from this place on, those that it lacks up to so many.
fn take_to<S: Shared>(
    file: &mut S,
    at: u64,
    end: usize,
    text: &mut Vec<u8>,
) -> Result<(), LookFault>
    requires { at + length text.now.items < 2 ^ 64 }
    ensures taken { OnOk result (ReadBehind (S.keeps file.new) (S.held file.old) (S.now file.old) (S.now file.new) (at + length text.old.items) text.old.items text.new.items) }
    ensures long { OnOk result (length text.new.items ≡ max (length text.old.items) end) }
    ensures same { S.held file.new ≡ S.held file.old }
    ensures time { S.now file.old ≤ S.now file.new }
    ensures settles_none { S.synced file.new ≡ S.synced file.old }
    ensures cause { IfErr result IsNoDamage }
    ensures model { S.keeps file.new → S.keeps file.old }
{
    let have = text.len();
    if end <= have {
        return Ok(());
    }
    take(file, at + have as u64, end - have, text)
}

/// Reads a piece behind the bytes in `text`, which stand from this place on, if it has no more than so many.
fn take_beyond<S: Shared>(
    file: &mut S,
    at: u64,
    count: usize,
    text: &mut Vec<u8>,
) -> Result<(), LookFault>
    requires inside { count ≤ length text.now.items }
    requires placed { at + length text.now.items < 2 ^ 64 }
    ensures taken { OnOk result (ReadBehind (S.keeps file.new) (S.held file.old) (S.now file.old) (S.now file.new) (at + length text.old.items) text.old.items text.new.items) }
    ensures some { OnOk result (count < length text.new.items) }
    ensures short { OnOk result (length text.new.items ≤ max (length text.old.items) (count + 65536)) }
    ensures same { S.held file.new ≡ S.held file.old }
    ensures time { S.now file.old ≤ S.now file.new }
    ensures settles_none { S.synced file.new ≡ S.synced file.old }
    ensures cause { IfErr result IsNoDamage }
    ensures model { S.keeps file.new → S.keeps file.old }
{
    if count < text.len() {
        return Ok(());
    }
    take_piece(file, at + count as u64, text)
}

/// The length of the payload, as the head of a frame tells it.
pub(crate) fn payload_len(head: &[u8], gate: u64, shape: Shape) -> Result<usize, ScanFault>
    requires head { length head.now ≡ frame_head_len }
    requires placed { gate < 2 ^ 48 }
    ensures is { IfOk result (λ len. len ≡ payload_len_in head.now) }
    ensures small { IfOk result (λ len. len < 2 ^ 32) }
    ensures faulty { IfErr result (IsFaulty shape gate head.now) }
{
    if let Err(Unread::Fault(fault)) = FrameHead::read(head, FRAME_HEAD_LEN as u64, gate, shape) {
        return Err(fault);
    }
    Ok(u32::from_le_bytes([head[2], head[3], head[4], head[5]]) as usize)
}

/// Reads the frames that stand from this gate on, up to one that is closed, whose place is answered with the bytes. They
/// are read by pieces, from the first on: so a frame's bytes were read behind its open gate, and the closed one behind all.
/// What a piece has behind that one is nothing yet.
pub(crate) fn look<S: Shared>(
    alloc: Global,
    file: &mut S,
    shape: Shape,
    at: u64,
) -> Result<(u64, Vec<u8>), LookFault>
    ensures looked { S.keeps file.new → LooksFrom shape (S.held file.old) (S.now file.old) (S.now file.new) at result }
    ensures seen { S.keeps file.new → IfErr result (λ fault. (p : ℕ) × HasSeen shape (S.held file.old) (S.now file.old) (S.now file.new) p fault) }
    ensures placed { IfOk result (λ found. (found.0 < 2 ^ 48) × (at + length found.1.items ≡ found.0 + 1)) }
    ensures same { S.held file.new ≡ S.held file.old }
    ensures time { S.now file.old ≤ S.now file.new }
    ensures settles_none { S.synced file.new ≡ S.synced file.old }
    ensures model { S.keeps file.new → S.keeps file.old }
{
    let mut text = Vec::new(alloc);
    let mut gate = at;
    let mut walked = 0;
    'frames: loop {
        if gate >= GATE_LIMIT {
            return Err(LookFault::TooFar);
        }
        take_beyond(file, at, walked, &mut text)?;
        if text[walked] != OPEN_GATE {
            text.truncate(walked);
            match text.push(CLOSED_GATE) {
                Ok(()) => return Ok((gate, text)),
                Err(_) => return Err(LookFault::Memory),
            }
        }
        take_to(file, at, walked + FRAME_HEAD_LEN, &mut text)?;
        let len = match payload_len(&text[walked..walked + FRAME_HEAD_LEN], gate, shape) {
            Ok(len) => len,
            Err(fault) => return Err(LookFault::Scan(fault)),
        };
        walked += FRAME_HEAD_LEN + len;
        gate += (FRAME_HEAD_LEN + len) as u64;
        take_to(file, at, walked, &mut text)?;
    }
}
