//! One frame of an image.

ghost use Rattle.std.specs.Prelude.{◌≡◌, ◌≢◌, length};
ghost use Rattle.segment_core.specs.Kind.{kind_byte};
ghost use Rattle.segment_core.specs.Reading.{lengths_of};
ghost use Rattle.cvec_c.specs.Frame.{IsFrameTold, IsNoFrame};

use c_core::Refusal;
use segment_core::{FRAME_HEAD_LEN, FrameKind, FrameReader};

/// What a frame has, and where.
#[repr(C)]
#[derive(Clone, Copy)]
pub struct CvecFrame {
    /// The place of its first record. Of a frame that has none it is that of the next gate.
    pub first_record: u64,
    /// The place of the next gate.
    pub next: u64,
    /// The bytes of its payload.
    pub payload_len: u32,
    /// The growths of a group, 0 for any other frame.
    pub growths: u32,
    /// Its records.
    pub records: u32,
    /// 1 for a group, 2 for a change, 3 for a shrink, 4 for a fold.
    pub kind: u8,
}

/// How many growths it has: none where it is no group.
fn growths_of(frame: &FrameReader<'_>) -> u32
    ensures { result ≡ length (lengths_of frame.now.frame) }
{
    match frame.kind() {
        FrameKind::Group => frame.count(),
        FrameKind::Change | FrameKind::Shrink | FrameKind::Fold => 0,
    }
}

/// Its number.
fn kind_code(kind: FrameKind) -> u8
    ensures { result ≡ kind_byte kind }
{
    kind as u8
}

/// Answers 0 where a whole open frame of a file of this version and width has its gate there, and tells what it has; else
/// 12, and `fields` stays.
#[unsafe(no_mangle)]
pub extern "C" fn cvec_image_frame(
    image: &[u8],
    at: u64,
    version: u8,
    width: u16,
    fields: &mut CvecFrame,
) -> u32
    ensures done { result ≡ 0 → IsFrameTold image.now at version width fields.new }
    ensures none { result ≢ 0 → (result ≡ 12) × (fields.new ≡ fields.old) × IsNoFrame image.now at version width }
{
    let Some(frame) = FrameReader::new(image, at, version, width) else {
        return Refusal::NoFrame.code();
    };
    let next = at + FRAME_HEAD_LEN as u64 + u64::from(frame.payload_len());
    *fields = CvecFrame {
        first_record: next - u64::from(frame.records()) * u64::from(width),
        next,
        payload_len: frame.payload_len(),
        growths: growths_of(&frame),
        records: frame.records(),
        kind: kind_code(frame.kind()),
    };
    0
}
