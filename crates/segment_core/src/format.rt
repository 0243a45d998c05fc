//! The numbers of the format.

ghost use Rattle.std.specs.Prelude.{◌≡◌, ◌≤◌, ◌<◌, ◌^◌, IfSome, IfNone, false};
ghost use Rattle.segment_core.specs.Frame as frames;

use record_core::PAYLOAD_LIMIT;

/// A version of the file. A change has one run in the first, and any number of them in the second, whose
/// frames may be longer too; nothing else differs.
#[derive(Clone, Copy, Debug, PartialEq, Eq)]
pub enum Format {
    /// Version 1.
    One = 1,
    /// Version 2.
    Two = 2,
}

/// What the header of a file says.
#[derive(Clone, Copy)]
pub struct Shape {
    /// The version.
    pub format: Format,
    /// The bytes of one record.
    pub width: usize,
}

impl Format {
    ghost use Rattle.segment_core.specs.Shape.{version_of, limit_of};
    ghost use Rattle.segment_core.specs.Fault.{is_version};

    /// The format whose version this byte is.
    pub fn from_version(version: u8) -> Option<Format>
        ensures known { IfSome result (λ format. version_of format ≡ version) }
        ensures unknown { IfNone result (is_version version ≡ false) }
    {
        match version {
            1 => Some(Format::One),
            2 => Some(Format::Two),
            _ => None,
        }
    }

    /// Its version byte.
    pub fn version(self) -> u8
        ensures { result ≡ version_of self }
    {
        self as u8
    }

    /// The bytes of a frame's payload at most.
    pub fn payload_limit(self) -> usize
        ensures is { result ≡ limit_of self }
        ensures small { result ≤ 2 ^ 24 }
    {
        match self {
            Format::One => PAYLOAD_LIMIT,
            Format::Two => 16 * PAYLOAD_LIMIT,
        }
    }

    /// The bytes of a number that version 1 leaves out.
    pub(crate) fn number_len(self) -> usize
        ensures { result ≡ frames.number_len self }
    {
        match self {
            Format::One => 0,
            Format::Two => COUNT_LEN,
        }
    }

    /// The bytes of a change's payload before its records, where it has so many runs.
    pub fn runs_len(self, runs: usize) -> usize
        requires { runs < 2 ^ 32 }
        ensures { result ≡ frames.runs_len self runs }
    {
        let number = self.number_len();
        number + runs * (START_LEN + number)
    }
}

/// A gate that is open. Every other byte is a closed one.
pub const OPEN_GATE: u8 = 0x01;

/// The gate as it is written closed.
pub const CLOSED_GATE: u8 = 0x00;

/// The bytes of the header: a gate, the magic, the version and the width.
pub const HEADER_LEN: usize = 11;

/// The bytes of an empty file: the header, and a closed gate.
pub const EMPTY_FILE_LEN: usize = 12;

/// Gates stand below this place.
pub const GATE_LIMIT: u64 = 1 << 48;

/// The bytes of a frame before its payload: the gate, the kind and the payload's length.
pub const FRAME_HEAD_LEN: usize = 6;

/// The bytes of a frame that `FrameHead::read` looks at: its head, and the longest number that begins a payload.
pub const FRONT_LEN: usize = 14;

/// The bytes of the first position of a run.
pub const START_LEN: usize = 8;

/// The bytes of a number of growths, of runs, or of records.
pub const COUNT_LEN: usize = 4;

/// The bytes of a shrink's payload.
pub const SHRINK_PAYLOAD_LEN: usize = 8;

/// The bytes of a fold's payload.
pub const FOLD_PAYLOAD_LEN: usize = 8;

/// What a frame is.
#[derive(Clone, Copy)]
pub enum FrameKind {
    /// Growths that were committed together.
    Group = 1,
    /// Other records for positions of the vector.
    Change = 2,
    /// A new length, below the one before.
    Shrink = 3,
    /// How many changes stand in their home bytes.
    Fold = 4,
}

impl FrameKind {
    ghost use Rattle.segment_core.specs.Kind.{kind_byte};
    ghost use Rattle.segment_core.specs.Fault.{is_kind};

    /// The kind that this byte stands for.
    pub(crate) fn from_byte(byte: u8) -> Option<FrameKind>
        ensures known { IfSome result (λ kind. kind_byte kind ≡ byte) }
        ensures unknown { IfNone result (is_kind byte ≡ false) }
    {
        match byte {
            1 => Some(FrameKind::Group),
            2 => Some(FrameKind::Change),
            3 => Some(FrameKind::Shrink),
            4 => Some(FrameKind::Fold),
            _ => None,
        }
    }
}
