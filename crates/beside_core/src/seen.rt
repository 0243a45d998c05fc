//! The records that the bytes of a file show, from its first one on.

ghost use Rattle.std.specs.Prelude.{◌≡◌, ◌<◌, ◌++◌, [], Some, None, drop, MatchResult};
ghost use Rattle.segment_core.specs.Frame.{header, header_len};
ghost use Rattle.segment_core.specs.Fault.{header_fault};
ghost use Rattle.segment_core.specs.Shape.{format_in};
ghost use Rattle.beside_core.specs.Bookmark.{LiesBehind};
ghost use Rattle.beside_core.specs.Seen.{HasHeader, IsSeen, IsUnseen, AnswersInTurn};

use crate::bookmark::Bookmark;
use crate::decoding::decode;
use crate::fault::LookFault;
use crate::replay::replay;
use record_core::{Record, width_of};
use segment_core::{GATE_LIMIT, HEADER_LEN, ScanFault, Shape};
use std::alloc::Global;

/// The vector that the bytes of a file show.
#[derive(Drop)]
pub struct Seen<R> {
    pub records: Vec<R>,
    /// How many frames stand before the gate that ends them.
    pub frames: u64,
    /// At that gate.
    pub next: Bookmark,
}

/// Behind the header that begins these bytes, if it is that of a file of these records.
fn begin<R: Record>(bytes: &[u8]) -> Result<Bookmark, ScanFault>
    ensures { MatchResult result (HasHeader R.form bytes.now) (λ fault. header_fault R.form.width bytes.now ≡ Some fault) }
{
    let shape = Shape::read(bytes)?;
    if shape.width != width_of::<R>() {
        return Err(ScanFault::Width(shape.width as u16));
    }
    Ok(Bookmark::behind_header(shape))
}

/// What the bytes show, whoever read them.
fn replay_bytes<R: Record>(alloc: Global, bytes: &[u8]) -> Result<Seen<R>, LookFault>
    ensures { MatchResult result (IsSeen R.form bytes.now) (IsUnseen R.form bytes.now) }
{
    let mark = match begin::<R>(bytes) {
        Ok(mark) => mark,
        Err(fault) => return Err(LookFault::Scan(fault)),
    };
    if bytes.len() as u64 > GATE_LIMIT {
        return Err(LookFault::TooFar);
    }
    let (laid, next, frames) = replay::<R>(alloc, &bytes[HEADER_LEN..], mark)?;
    let records = decode(alloc, &laid.tail, 0)?;
    Ok(Seen {
        records,
        frames,
        next,
    })
}

/// The vector that the bytes of a file show, from its first one on: its frames are replayed, and what stands behind the
/// first gate that isn't open is nothing. Of bytes that were read while a pen
/// wrote, each where it stood and none before one in front of it, it is the vector of one moment of the reading: so no
/// home byte that a fold wrote meanwhile counts, and no such file is called damaged. Refused as by `Bookmark::first` and
/// `go_on`, but without a call of the file: bytes that end too early are `Scan`, as `NoGate` or `ShortFrame` at the frame
/// that isn't whole, or as `Unborn` or `NotSegment` inside the header; then more may be read. `TooFar`: more than 2^48
/// bytes.
pub fn records_seen<R: Record>(alloc: Global, bytes: &[u8]) -> Result<Seen<R>, LookFault>
    ensures answer { MatchResult result (IsSeen R.form bytes.now) (IsUnseen R.form bytes.now) }
    ensures in_turn { AnswersInTurn R.form bytes.now result }
{
    replay_bytes(alloc, bytes)
}
