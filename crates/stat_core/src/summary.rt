//! What the frames of a file are, by number.

ghost use Rattle.std.specs.Prelude.{◌≡◌, ◌<◌, ◌+◌, ◌-◌, ◌^◌};
ghost use Rattle.stat_core.specs.Outline.{outline_len};
ghost use Rattle.stat_core.specs.Summary.{begun, grown, tally_in, AreFew};

use crate::outline::{HEAD_LEN, Outline};
use segment_core::{HEADER_LEN, Shape, Tally};

/// What a file has. Places and lengths are in bytes.
#[derive(Clone, Copy, Debug)]
pub struct Summary {
    /// The version of the file, 1 or 2.
    pub version: u8,
    /// The bytes of one record.
    pub width: u16,
    /// The length of the file.
    pub bytes: u64,
    /// How many frames are groups of growths.
    pub groups: u64,
    /// How many frames are changes.
    pub changes: u64,
    /// How many frames are shrinks: those that a `resize` to fewer records and a `clear` write.
    pub shrinks: u64,
    /// How many frames are folds.
    pub folds: u64,
    /// How many growths the groups have.
    pub growths: u64,
    /// How many records the growths have, also those that a shrink has let go.
    pub records: u64,
    /// How many records the vector has.
    pub size: u64,
    /// The count of the last fold, 0 where there is none: changes below it stand in their home bytes.
    pub folded: u64,
    /// The place of the gate that ends the frames.
    pub gate: u64,
}

impl Summary {
    /// That of a file of this shape and length with no frame.
    pub fn begun(shape: Shape, bytes: u64) -> Summary
        requires { shape.width < 2 ^ 16 }
        ensures { result ≡ begun shape bytes }
    {
        Summary {
            version: shape.format.version(),
            width: shape.width as u16,
            bytes,
            groups: 0,
            changes: 0,
            shrinks: 0,
            folds: 0,
            growths: 0,
            records: 0,
            size: 0,
            folded: 0,
            gate: HEADER_LEN as u64,
        }
    }

    /// How many frames stand before the gate.
    pub fn frames(&self) -> u64
        ensures { self.now.groups + self.now.changes + self.now.shrinks + self.now.folds < 2 ^ 64 → result ≡ self.now.groups + self.now.changes + self.now.shrinks + self.now.folds }
    {
        self.groups
            .saturating_add(self.changes)
            .saturating_add(self.shrinks)
            .saturating_add(self.folds)
    }

    /// How many changes are behind the last fold, so that they don't stand in their home bytes yet.
    pub fn live(&self) -> u64
        ensures { result ≡ self.now.changes - self.now.folded }
    {
        self.changes.saturating_sub(self.folded)
    }

    /// How many bytes stand behind the gate. They mean nothing.
    pub fn behind(&self) -> u64
        ensures { result ≡ self.now.bytes - (self.now.gate + 1) }
    {
        self.bytes.saturating_sub(self.gate).saturating_sub(1)
    }

    /// What the frames leave.
    pub(crate) fn tally(&self) -> Tally
        ensures { result ≡ tally_in self.now }
    {
        Tally {
            size: self.size,
            changes: self.changes,
            folded: self.folded,
        }
    }

    /// That with one frame more, whose payload has so many bytes.
    pub(crate) fn grown(self, shape: Shape, outline: Outline, payload_len: u64) -> Summary
        requires few { AreFew self }
        requires wide { 0 < shape.width }
        requires len { payload_len ≡ outline_len shape outline }
        requires fits { self.gate + 6 + payload_len < 2 ^ 64 }
        ensures { result ≡ grown shape self outline }
    {
        let gate = self.gate + HEAD_LEN + payload_len;
        match outline {
            Outline::Group { growths, records } => Summary {
                groups: self.groups + 1,
                growths: self.growths + growths,
                records: self.records + records,
                size: self.size + records,
                gate,
                ..self
            },
            Outline::Change { .. } => Summary {
                changes: self.changes + 1,
                gate,
                ..self
            },
            Outline::Shrink { size } => Summary {
                shrinks: self.shrinks + 1,
                size,
                gate,
                ..self
            },
            Outline::Fold { count } => Summary {
                folds: self.folds + 1,
                folded: count,
                gate,
                ..self
            },
        }
    }
}
