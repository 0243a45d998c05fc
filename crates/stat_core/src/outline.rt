//! What the first bytes of a frame tell of it.

ghost use Rattle.std.specs.Prelude.{◌≡◌, ◌≤◌, ◌<◌, ◌+◌, ◌*◌, ◌^◌, ℕ, List, false, length, min, MatchOption, MatchResult, IfSome, IfOk};
ghost use Rattle.segment_core.specs.Kind.{kind_byte};
ghost use Rattle.segment_core.specs.Layout.{is_layout, is_group_layout, is_change_layout, count_in, run_count_in};
ghost use Rattle.segment_core.specs.FrameHead.{front_len, IsFrontOf, FitsNumber, first_number};
ghost use Rattle.stat_core.specs.Next.{IsNextOutline, IsOrderFault, IsOutlineOf, IsSized};
ghost use Rattle.stat_core.specs.Outline.{MayStand, outline_len};

use segment_core::{
    COUNT_LEN, Cause, FRAME_HEAD_LEN, FrameHead, FrameKind, ScanFault, Shape, Tally,
};

/// The bytes of a frame before its payload.
pub(crate) const HEAD_LEN: u64 = FRAME_HEAD_LEN as u64;

/// What the first bytes of a frame tell of it.
#[derive(Clone, Copy)]
pub(crate) enum Outline {
    /// How many growths it has, and how many records these have.
    Group { growths: u64, records: u64 },
    /// How many runs it replaces, and how many records these have.
    Change { runs: u64, records: u64 },
    /// The length that it leaves, in records.
    Shrink { size: u64 },
    /// How many changes of the file stand in their home bytes.
    Fold { count: u64 },
}

/// How many records fill what a payload has behind its first bytes, if they fill it.
fn records_in(payload_len: u64, head_len: u64, width: usize) -> Option<u64>
    requires wide { 0 < width }
    ensures { MatchOption result
        ((records : ℕ) → head_len ≤ payload_len → head_len + records * width ≡ payload_len → ⊥)
        (λ records. head_len + records * width ≡ payload_len) }
{
    if payload_len < head_len {
        return None;
    }
    let filled = payload_len - head_len;
    if filled % width as u64 == 0 {
        Some(filled / width as u64)
    } else {
        None
    }
}

/// What is told of a group by the count of growths that begins its payload.
fn read_group(growths: u64, payload_len: u64, shape: Shape) -> Option<Outline>
    requires wide { 0 < shape.width }
    requires few { growths < 2 ^ 32 }
    ensures shown { (payload : List ℕ) → length payload ≡ payload_len → growths ≡ count_in payload → MatchOption result
        (is_group_layout shape.width payload ≡ false)
        (IsOutlineOf shape 1 payload) }
    ensures sized { IfSome result (λ outline. outline_len shape outline ≡ payload_len) }
{
    if growths == 0 {
        return None;
    }
    let head_len = (growths + 1) * COUNT_LEN as u64;
    let records = records_in(payload_len, head_len, shape.width)?;
    Some(Outline::Group { growths, records })
}

/// What is told of a change by the count of runs that begins its payload.
fn read_change(runs: u64, payload_len: u64, shape: Shape) -> Option<Outline>
    requires wide { 0 < shape.width }
    requires few { runs < 2 ^ 32 }
    ensures shown { (payload : List ℕ) → length payload ≡ payload_len → runs ≡ run_count_in shape.format payload → MatchOption result
        (is_change_layout shape payload ≡ false)
        (IsOutlineOf shape 2 payload) }
    ensures sized { IfSome result (λ outline. outline_len shape outline ≡ payload_len) }
{
    if runs == 0 {
        return None;
    }
    let head_len = shape.format.runs_len(runs as usize) as u64;
    let records = records_in(payload_len, head_len, shape.width)?;
    Some(Outline::Change { runs, records })
}

/// What the head of a frame tells of it. `None`: its payload doesn't have the form of its kind.
fn read_payload(head: FrameHead, shape: Shape) -> Option<Outline>
    requires wide { 0 < shape.width }
    requires fits { FitsNumber shape.format head.kind head.payload_len head.number }
    ensures sized { IfSome result (λ outline. outline_len shape outline ≡ head.payload_len) }
    ensures shown { (payload : List ℕ) → length payload ≡ head.payload_len → head.number ≡ first_number shape.format head.kind payload → MatchOption result
        (is_layout shape (kind_byte head.kind) payload ≡ false)
        (IsOutlineOf shape (kind_byte head.kind) payload) }
{
    match head.kind {
        FrameKind::Group => read_group(head.number, head.payload_len, shape),
        FrameKind::Change => read_change(head.number, head.payload_len, shape),
        FrameKind::Shrink => Some(Outline::Shrink { size: head.number }),
        FrameKind::Fold => Some(Outline::Fold { count: head.number }),
    }
}

/// Whether a frame may come now, as far as that is told.
fn check_order(outline: Outline, tally: Tally, at: u64) -> Result<(), ScanFault>
    requires { at + 6 < 2 ^ 64 }
    ensures { MatchResult result
        (λ _. MayStand tally outline)
        (IsOrderFault at tally outline) }
{
    match outline {
        Outline::Shrink { size } if tally.size < size => {
            Err(damaged(at + HEAD_LEN, Cause::Range))
        }
        Outline::Shrink { .. } if tally.folded < tally.changes => {
            Err(damaged(at, Cause::Unfolded))
        }
        Outline::Fold { count } if count < tally.folded || tally.changes < count => {
            Err(damaged(at + HEAD_LEN, Cause::FoldCount))
        }
        _ => Ok(()),
    }
}

/// What is told of the frame whose gate is the first of these bytes, at `at` of a file of which so many bytes are left
/// from there on. `None`: the gate is closed. Such a frame comes with the bytes of its payload.
pub(crate) fn read_outline(
    front: &[u8],
    left: u64,
    at: u64,
    shape: Shape,
    tally: Tally,
) -> Result<Option<(Outline, u64)>, ScanFault>
    requires wide { 0 < shape.width }
    requires enough { length front.now ≡ min front_len left }
    requires place { at + left < 2 ^ 64 }
    ensures sized { IfOk result (λ next. MatchOption next (Unit {0}) (IsSized shape tally left)) }
    ensures next { (bytes : List ℕ) → IsFrontOf bytes front.now left → IsNextOutline shape at tally bytes result }
{
    let found = match FrameHead::read(front, left, at, shape) {
        Ok(found) => found,
        Err(unread) => return Err(unread.fault(at, left)),
    };
    let Some(head) = found else {
        return Ok(None);
    };
    let Some(outline) = read_payload(head, shape) else {
        return Err(damaged(at + HEAD_LEN, Cause::Layout));
    };
    match check_order(outline, tally, at) {
        Ok(()) => Ok(Some((outline, head.payload_len))),
        Err(fault) => Err(fault),
    }
}

/// The fault of a cause that was found at this place.
fn damaged(at: u64, cause: Cause) -> ScanFault
    ensures { result ≡ ScanFault.Damaged at cause }
{
    ScanFault::Damaged { at, cause }
}
