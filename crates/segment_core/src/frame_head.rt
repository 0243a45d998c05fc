//! The head of a frame: the gate, the kind and the payload's length; and the number that begins the payload.

ghost use Rattle.std.specs.Prelude.{◌≡◌, ◌≤◌, ◌<◌, ◌+◌, ◌^◌, ◌++◌, ◌∷◌, ℕ, List, Some, Err, false, length, min, vec_len, vec_capacity, OnOk, IsOk, IfOk, IfSome, MatchOption};
ghost use Rattle.std.specs.Int.{w32, to_le_bytes};
ghost use Rattle.segment_core.specs.Kind.{kind_byte};
ghost use Rattle.segment_core.specs.Frame.{frame_head_len, open_gate};
ghost use Rattle.segment_core.specs.Layout.{u32_at, u64_at};
ghost use Rattle.segment_core.specs.declared.format.Shape.{Shape};
ghost use Rattle.segment_core.specs.Fault.{is_closed, first_line, frame_lines};
ghost use Rattle.segment_core.specs.FrameHead.{front_len, IsFrontOf, Shows, FitsNumber, FitsIn, first_number, IsNextHead};

use crate::fault::{Cause, ScanFault, damaged};
use crate::format::{
    COUNT_LEN, FRAME_HEAD_LEN, Format, FrameKind, OPEN_GATE, SHRINK_PAYLOAD_LEN, Shape,
};
use std::alloc::AllocError;

/// What the first bytes of a whole frame tell of it.
#[derive(Clone, Copy)]
pub struct FrameHead {
    pub kind: FrameKind,
    /// The bytes of its payload.
    pub payload_len: u64,
    /// The number that begins its payload: how many growths a group has, how many runs a change has (in version 1, where
    /// no such number stands, it is 1), the length that a shrink leaves, the count of a fold.
    pub number: u64,
}

/// Why no frame was read behind an open gate.
#[derive(Clone, Copy)]
pub enum Unread {
    /// The bytes end before the frame does, and so far nothing is wrong with it.
    Short,
    /// The first fault that the frame has by itself.
    Fault(ScanFault),
}

impl Unread {
    /// The first fault of the frame whose gate is at `at`, of which so many bytes are there and no byte follows them.
    pub fn fault(self, at: u64, left: u64) -> ScanFault
        ensures { (shape : Shape) (bytes : List ℕ) → length bytes ≡ left → IsNextHead shape at bytes (Err self)
            → (is_closed bytes ≡ false) × (first_line (frame_lines shape at bytes) ≡ Some result) }
    {
        match self {
            Unread::Short if left == 0 => damaged(at, Cause::NoGate),
            Unread::Short => damaged(at, Cause::ShortFrame),
            Unread::Fault(fault) => fault,
        }
    }
}

/// The number whose four bytes begin at `at`.
#[tactic(auto, unfolding(crate::specs::Layout::u32_at))]
pub(crate) fn u32_at(bytes: &[u8], at: usize) -> u32
    requires { at + 4 ≤ length bytes.now }
    ensures { result ≡ u32_at bytes.now at }
{
    let mut word = [0u8; 4];
    word.copy_from_slice(&bytes[at..at + 4]);
    u32::from_le_bytes(word)
}

/// The number whose eight bytes begin at `at`.
#[tactic(auto, unfolding(crate::specs::Layout::u64_at))]
pub(crate) fn u64_at(bytes: &[u8], at: usize) -> u64
    requires { at + 8 ≤ length bytes.now }
    ensures { result ≡ u64_at bytes.now at }
{
    let mut word = [0u8; 8];
    word.copy_from_slice(&bytes[at..at + 8]);
    u64::from_le_bytes(word)
}

/// The count that begins the payload of a frame, if the payload is long enough for one.
fn count_in(front: &[u8], payload_len: u64) -> Option<u64>
    requires { frame_head_len + min 8 payload_len ≤ length front.now }
    ensures shown { (payload : List ℕ) → length payload ≡ payload_len → Shows front.now payload → IfSome result (λ n. n ≡ u32_at payload 0) }
    ensures fits { MatchOption result (payload_len < 4) (λ n. (4 ≤ payload_len) × (n < 2 ^ 32)) }
{
    if payload_len < COUNT_LEN as u64 {
        return None;
    }
    Some(u64::from(u32_at(front, FRAME_HEAD_LEN)))
}

/// The number that begins the payload of a frame of this kind. `None`: no payload of this length has the form of the kind.
fn number_in(front: &[u8], kind: FrameKind, payload_len: u64, format: Format) -> Option<u64>
    requires { frame_head_len + min 8 payload_len ≤ length front.now }
    ensures shown { (payload : List ℕ) → length payload ≡ payload_len → Shows front.now payload → IfSome result (λ n. n ≡ first_number format kind payload) }
    ensures fits { MatchOption result ((n : ℕ) → FitsNumber format kind payload_len n → ⊥) (FitsNumber format kind payload_len) }
{
    match kind {
        FrameKind::Group => count_in(front, payload_len),
        FrameKind::Change => match format {
            Format::One => Some(1),
            Format::Two => count_in(front, payload_len),
        },
        FrameKind::Shrink | FrameKind::Fold if payload_len == SHRINK_PAYLOAD_LEN as u64 => Some(
            u64_at(front, FRAME_HEAD_LEN),
        ),
        FrameKind::Shrink | FrameKind::Fold => None,
    }
}

impl FrameHead {
    /// What is told of the frame whose gate is the first of these bytes, at `at` of a file of which so many bytes are left
    /// from there on. The bytes are the first of those, `FRONT_LEN` where there are as many. `None`: the gate is closed.
    pub fn read(front: &[u8], left: u64, at: u64, shape: Shape) -> Result<Option<FrameHead>, Unread>
        requires enough { length front.now ≡ min front_len left }
        requires place { at + left < 2 ^ 64 }
        ensures fits { IfOk result (λ next. MatchOption next (Unit {0}) (FitsIn shape.format left)) }
        ensures next { (bytes : List ℕ) → IsFrontOf bytes front.now left → IsNextHead shape at bytes result }
    {
        if front.is_empty() {
            return Err(Unread::Short);
        }
        if front[0] != OPEN_GATE {
            return Ok(None);
        }
        if left < FRAME_HEAD_LEN as u64 {
            return Err(Unread::Short);
        }
        let Some(kind) = FrameKind::from_byte(front[1]) else {
            return Err(Unread::Fault(damaged(at + 1, Cause::Kind(front[1]))));
        };
        let payload_len = u64::from(u32_at(front, 2));
        if payload_len > shape.format.payload_limit() as u64 {
            return Err(Unread::Fault(damaged(at + 2, Cause::TooLarge)));
        }
        if left < FRAME_HEAD_LEN as u64 + payload_len {
            return Err(Unread::Short);
        }
        let Some(number) = number_in(front, kind, payload_len, shape.format) else {
            return Err(Unread::Fault(damaged(at + FRAME_HEAD_LEN as u64, Cause::Layout)));
        };
        Ok(Some(FrameHead {
            kind,
            payload_len,
            number,
        }))
    }
}

/// Appends the head of a frame, its gate open.
pub(crate) fn append_head(
    kind: FrameKind,
    payload_len: usize,
    file: &mut Vec<u8>,
) -> Result<(), AllocError>
    requires { payload_len < 2 ^ 32 }
    ensures text { OnOk result (file.new.items ≡ file.old.items ++ open_gate ∷ kind_byte kind ∷ to_le_bytes w32 payload_len) }
    ensures capacity { vec_capacity file.old ≤ vec_capacity file.new }
    ensures room { vec_len file.old + frame_head_len ≤ vec_capacity file.old → IsOk result }
{
    file.push(OPEN_GATE)?;
    file.push(kind as u8)?;
    file.extend_from_slice(&(payload_len as u32).to_le_bytes())
}
