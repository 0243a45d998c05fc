//! One frame of an image, and its fields.

ghost use Rattle.std.specs.Prelude.{◌≡◌, ◌≤◌, ◌<◌, ◌+◌, ◌*◌, ◌-◌, ◌/◌, ◌^◌, ℕ, Some, length, drop, slice_index, slice_get, IfOk};
ghost use Rattle.segment_core.specs.Shape.{version_of};
ghost use Rattle.segment_core.specs.Frame.{Frame, Shrink, Fold, frame_head_len, kind_of, payload_of, frame_text};
ghost use Rattle.segment_core.specs.Kind.{kind_byte};
ghost use Rattle.segment_core.specs.Layout.{u32_at, u64_at, frame_in};
ghost use Rattle.segment_core.specs.Reading.{IsNext, BeginsWith, lengths_of, runs_of, record_bytes_of, record_count, head_len};

use crate::fault::{Cause, damaged};
use crate::format::{
    COUNT_LEN, FRAME_HEAD_LEN, FRONT_LEN, Format, FrameKind, SHRINK_PAYLOAD_LEN, Shape,
};
use crate::frame_head::{FrameHead, Unread, u32_at, u64_at};
use payload::{counts, run_at};
use std::alloc::{AllocError, Global};
use std::marker::Model;

pub(crate) mod payload;

/// A whole open frame of an image.
#[derive(Drop)]
pub struct FrameReader<'a> {
    at: usize,
    kind: FrameKind,
    payload: &'a [u8],
    /// The growths of a group, or the runs of a change.
    heads: usize,
    records: usize,
    shape: Shape,
}

impl<'a> Model for FrameReader<'a> {
    ghost use Rattle.segment_core.specs.Reading.{Seen, IsRead};
    ghost use Rattle.segment_core.specs.Layout.{frame_in};
    ghost use Rattle.segment_core.specs.Kind.{kind_byte};

    ghost Value = { Seen };

    ghost view = { λ r. record { at = r.at; shape = r.shape; frame = frame_in r.shape (kind_byte r.kind) r.payload.now } };

    ghost invariant = { λ r. IsRead r.at r.shape r.heads r.records r.payload.now (frame_in r.shape (kind_byte r.kind) r.payload.now) };
}

/// A change that was read, with bytes of its own.
#[derive(Drop)]
pub(crate) struct Kept {
    at: usize,
    payload: Vec<u8>,
    runs: usize,
    records: usize,
    shape: Shape,
}

impl Model for Kept {
    ghost use Rattle.segment_core.specs.Reading.{Seen, IsRead};
    ghost use Rattle.segment_core.specs.Layout.{frame_in};

    ghost Value = { Seen };

    ghost view = { λ k. record { at = k.at; shape = k.shape; frame = frame_in k.shape 2 k.payload.items } };

    ghost invariant = { λ k. IsRead k.at k.shape k.runs k.records k.payload.items (frame_in k.shape 2 k.payload.items) };
}

impl Kept {
    /// The frame.
    pub(crate) fn frame(&self) -> FrameReader<'_>
        ensures { result ≡ self.now }
    {
        FrameReader {
            at: self.at,
            kind: FrameKind::Change,
            payload: &self.payload,
            heads: self.runs,
            records: self.records,
            shape: self.shape,
        }
    }
}

impl<'a> FrameReader<'a> {
    ghost use Rattle.std.specs.Prelude.{IfSome, IfNone};
    ghost use Rattle.record_core.specs.Cells.{cell};
    ghost use Rattle.segment_core.specs.declared.format.Format.{Format};

    /// The frame whose gate is at this place of an image, in a file of this version whose records have this
    /// width in bytes. `None`: no whole open frame of a known kind and the right form begins there.
    pub fn new(bytes: &'a [u8], at: u64, version: u8, width: u16) -> Option<FrameReader<'a>>
        ensures found { IfSome result (λ frame. (version_of frame.shape.format ≡ version) × (frame.at ≡ at) × (frame.shape.width ≡ width) × BeginsWith frame.shape (drop at bytes.now) frame.frame) }
        ensures none { IfNone result ((format : Format) → version_of format ≡ version → (frame : Frame) → BeginsWith (record { format = format; width = width }) (drop at bytes.now) frame → ⊥) }
    {
        let format = Format::from_version(version)?;
        if width == 0 || bytes.len() as u64 <= at {
            return None;
        }
        let at = at as usize;
        let shape = Shape {
            format,
            width: width as usize,
        };
        match read_frame(&bytes[at..], at, shape) {
            Ok(frame) => frame,
            Err(_) => None,
        }
    }

    /// The place of its gate.
    pub fn at(&self) -> u64
        ensures { result ≡ self.now.at }
    {
        self.at as u64
    }

    pub fn kind(&self) -> FrameKind
        ensures { kind_byte result ≡ kind_of self.now.frame }
    {
        self.kind
    }

    /// The bytes of one record.
    pub(crate) fn width(&self) -> usize
        ensures { result ≡ self.now.shape.width }
    {
        self.shape.width
    }

    /// The bytes of its payload.
    pub fn payload_len(&self) -> u32
        ensures { result ≡ length (payload_of self.now.shape.format self.now.frame) }
    {
        self.payload.len() as u32
    }

    /// How many growths it has: of a group, one at least.
    pub fn count(&self) -> u32
        ensures { result ≡ length (lengths_of self.now.frame) }
    {
        match self.kind {
            FrameKind::Group => self.heads as u32,
            _ => 0,
        }
    }

    /// The records of growth `k`, counted from 0.
    pub fn length(&self, k: u32) -> u32
        requires { k < length (lengths_of self.now.frame) }
        ensures { result ≡ slice_index (lengths_of self.now.frame) k }
    {
        u32_at(self.payload, COUNT_LEN + k as usize * COUNT_LEN)
    }

    /// How many runs of positions it replaces: of a change, one at least, and in version 1 one.
    pub fn runs(&self) -> u32
        ensures { result ≡ length (runs_of self.now.frame) }
    {
        match self.kind {
            FrameKind::Change => self.heads as u32,
            _ => 0,
        }
    }

    /// The first position of run `k`, counted from 0, and how many positions it has.
    pub fn run(&self, k: u32) -> (u64, u64)
        requires { k < length (runs_of self.now.frame) }
        ensures run { slice_get (runs_of self.now.frame) k ≡ Some (record { start = result.0; count = result.1 }) }
        ensures small { result.1 < 2 ^ 32 }
    {
        let (start, count) = run_at(self.payload, self.shape, k as usize);
        (start, count as u64)
    }

    /// The first position that a change replaces.
    pub fn start(&self) -> u64
        requires { 0 < length (runs_of self.now.frame) }
        ensures { (count : ℕ) × (slice_get (runs_of self.now.frame) 0 ≡ Some (record { start = result; count = count })) }
    {
        let (start, _) = self.run(0);
        start
    }

    /// The length that a shrink leaves, in records.
    pub fn new_length(&self) -> u64
        requires { kind_of self.now.frame ≡ 3 }
        ensures { self.now.frame ≡ Shrink result }
    {
        u64_at(self.payload, 0)
    }

    /// How many changes of the file stand in their home bytes, as a fold says.
    pub fn fold_count(&self) -> u64
        requires { kind_of self.now.frame ≡ 4 }
        ensures { self.now.frame ≡ Fold result }
    {
        u64_at(self.payload, 0)
    }

    /// How many records it has.
    pub fn records(&self) -> u32
        ensures { result ≡ record_count self.now.frame }
    {
        self.records as u32
    }

    /// The bytes of record `k` of the frame, counted from 0.
    pub fn record_bytes(&self, k: u32) -> &'a [u8]
        requires { k < record_count self.now.frame }
        ensures { result.now ≡ cell self.now.shape.width (record_bytes_of self.now.frame) k }
    {
        let width = self.shape.width;
        let at = k as usize * width;
        &self.record_area()[at..at + width]
    }

    /// The bytes of all its records.
    pub fn record_area(&self) -> &'a [u8]
        ensures bytes { result.now ≡ record_bytes_of self.now.frame }
        ensures filled { length result.now ≡ record_count self.now.frame * self.now.shape.width }
    {
        &self.payload[self.head_len()..]
    }

    /// The bytes of its payload before those of its records.
    fn head_len(&self) -> usize
        ensures is { result ≡ head_len self.now.shape.format self.now.frame }
        ensures inside { result ≤ length (payload_of self.now.shape.format self.now.frame) }
    {
        match self.kind {
            FrameKind::Group => COUNT_LEN + self.heads * COUNT_LEN,
            FrameKind::Change => self.shape.format.runs_len(self.heads),
            FrameKind::Shrink | FrameKind::Fold => SHRINK_PAYLOAD_LEN,
        }
    }

    /// Where its payload stands in the image.
    pub(crate) fn payload_at(&self) -> u64
        ensures { result ≡ self.now.at + frame_head_len }
    {
        (self.at + FRAME_HEAD_LEN) as u64
    }

    /// Where its first record stands in the image.
    pub(crate) fn first_record(&self) -> usize
        ensures is { result ≡ self.now.at + frame_head_len + head_len self.now.shape.format self.now.frame }
        ensures placed { result + length (record_bytes_of self.now.frame) < 2 ^ 64 }
    {
        self.at + FRAME_HEAD_LEN + self.head_len()
    }

    /// The bytes of the frame, its gate among them.
    pub fn len(&self) -> usize
        ensures is { result ≡ length (frame_text self.now.shape.format self.now.frame) }
        ensures placed { self.now.at + result < 2 ^ 64 }
    {
        FRAME_HEAD_LEN + self.payload.len()
    }

    /// The same change, with bytes of its own.
    pub(crate) fn keep(&self, alloc: Global) -> Result<Kept, AllocError>
        requires { kind_of self.now.frame ≡ 2 }
        ensures { IfOk result (λ kept. kept ≡ self.now) }
    {
        Ok(Kept {
            at: self.at,
            payload: Vec::from_slice(alloc, self.payload)?,
            runs: self.heads,
            records: self.records,
            shape: self.shape,
        })
    }
}

/// Reads the frame whose gate is the first of these bytes, which stand at `at` of an image. `None`: the gate
/// is closed.
pub fn read_frame(bytes: &[u8], at: usize, shape: Shape) -> Result<Option<FrameReader<'_>>, Unread>
    requires wide { 0 < shape.width }
    requires place { at + length bytes.now < 2 ^ 64 }
    ensures { IsNext shape at bytes.now result }
{
    let front = &bytes[..bytes.len().min(FRONT_LEN)];
    let found = match FrameHead::read(front, bytes.len() as u64, at as u64, shape) {
        Ok(found) => found,
        Err(unread) => return Err(unread),
    };
    let Some(head) = found else {
        return Ok(None);
    };
    let payload = &bytes[FRAME_HEAD_LEN..FRAME_HEAD_LEN + head.payload_len as usize];
    let Some((heads, records)) = counts(payload, head.kind, head.number, shape) else {
        return Err(Unread::Fault(damaged((at + FRAME_HEAD_LEN) as u64, Cause::Layout)));
    };
    Ok(Some(FrameReader {
        at,
        kind: head.kind,
        payload,
        heads,
        records,
        shape,
    }))
}
