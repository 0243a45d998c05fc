//! A group is appended.

ghost use Rattle.std.specs.Prelude.{◌≡◌, ◌≢◌, ◌<◌, ◌+◌, ◌*◌, ◌^◌, ◌++◌, ◌∷◌, [], None, Some, ◌⊎◌, length, take, drop, IfOk, OnOk, MatchOption};
ghost use Rattle.c_core.specs.Kind.{kind_of, AtKind, OfKind};
ghost use Rattle.c_core.specs.Refusal.{code_of};
ghost use Rattle.record_core.specs.Cells.{AreReadAgain};
ghost use Rattle.segment_core.specs.declared.format.Format.{Format};
ghost use Rattle.segment_core.specs.Frame.{frame_text};
ghost use Rattle.segment_core.specs.Written.{group_frame};
ghost use Rattle.cvec_c.specs.Append.{first_refusal, append_lines, append_len, AppendsTo, AppendsBytes, AnswersFor};

use crate::stat::CvecStat;
use c_core::{Kind, Refusal, of_kind, records_of};
use record_core::{GROWTH_HEAD_LEN, RECORD_LIMIT, Record, width_of};
use segment_core::{CLOSED_GATE, FRAME_HEAD_LEN, Format, GATE_LIMIT, append_group};
use std::alloc::{AllocError, Global};

/// The bytes that stand in a frame before the records of its one growth.
const HEAD_LEN: u64 = (FRAME_HEAD_LEN + GROWTH_HEAD_LEN) as u64;

/// Why so many records can't be appended, whatever memory there is.
fn refusal<R: Record>(stat: &CvecStat, records: u64, room: u64) -> Option<Refusal>
    ensures { result ≡ first_refusal (append_lines R.form.width stat.now records room) }
{
    let Some(format) = Format::from_version(stat.version) else {
        return Some(Refusal::Version);
    };
    let width = width_of::<R>() as u64;
    if u64::from(stat.width) != width {
        return Some(Refusal::Width);
    }
    if records == 0 {
        return Some(Refusal::Empty);
    }
    if stat.size > RECORD_LIMIT || records > RECORD_LIMIT - stat.size {
        return Some(Refusal::OutOfRange);
    }
    let bytes = records * width;
    if GROWTH_HEAD_LEN as u64 + bytes > format.payload_limit() as u64 {
        return Some(Refusal::TooLarge);
    }
    if stat.gate >= GATE_LIMIT || stat.gate + HEAD_LEN + bytes >= GATE_LIMIT {
        return Some(Refusal::FileFull);
    }
    if HEAD_LEN + bytes + 1 > room {
        return Some(Refusal::NoRoom);
    }
    None
}

/// The frame of a group of one growth, and the next gate.
fn frame_of<R: Record>(alloc: Global, records: &[R]) -> Result<Vec<u8>, AllocError>
    requires { 8 + length records.now * R.form.width < 2 ^ 32 }
    ensures text { IfOk result (λ bytes. (format : Format) → bytes.items ≡ frame_text format (group_frame R.form (records.now ∷ [])) ++ 0 ∷ []) }
    ensures read_again { OnOk result (AreReadAgain R.form records.now) }
    ensures len { IfOk result (λ bytes. length bytes.items ≡ append_len R.form.width (length records.now)) }
{
    let mut bytes = Vec::new(alloc);
    let growths = [records];
    let group: &[&[R]] = &growths;
    let Ok(()) = append_group::<R, &[&[R]]>(&group, u32::MAX as usize, &mut bytes) else {
        return Err(AllocError);
    };
    bytes.push(CLOSED_GATE)?;
    Ok(bytes)
}

/// Answers 0 where so many records may be appended, and writes the frame of their group and the next gate over the front
/// of `out`; `next` is what is told of the file with them. Else it answers why not: of the tests the first that fails, or
/// that memory was refused. What isn't told of stays.
fn append<R: Record>(
    alloc: Global,
    stat: &CvecStat,
    records: &[R],
    out: &mut [u8],
    next: &mut CvecStat,
) -> u32
    ensures answer { MatchOption (first_refusal (append_lines R.form.width stat.now (length records.now) (length out.old)))
        ((result ≡ 0) ⊎ (result ≡ 6))
        (λ refusal. result ≡ code_of refusal) }
    ensures done { result ≡ 0 → AppendsTo R.form stat.now records.now (take (append_len R.form.width (length records.now)) out.new) next.new }
    ensures rest { drop (append_len R.form.width (length records.now)) out.new ≡ drop (append_len R.form.width (length records.now)) out.old }
    ensures refused { result ≢ 0 → (out.new ≡ out.old) × (next.new ≡ next.old) }
{
    let count = records.len() as u64;
    if let Some(refusal) = refusal::<R>(stat, count, out.len() as u64) {
        return refusal.code();
    }
    let Ok(bytes) = frame_of(alloc, records) else {
        return Refusal::Memory.code();
    };
    let len = bytes.len();
    out[..len].copy_from_slice(&bytes);
    *next = CvecStat {
        size: stat.size + count,
        frames: stat.frames.saturating_add(1),
        gate: stat.gate + (len as u64 - 1),
        ..*stat
    };
    0
}

/// Appends the records that these bytes are, as `append` says. Bytes that are no records are refused so where every test is passed,
/// which count as many records as are whole.
fn append_bytes<R: Record>(
    alloc: Global,
    stat: &CvecStat,
    bytes: &[u8],
    out: &mut [u8],
    next: &mut CvecStat,
) -> u32
    ensures answer { AnswersFor stat.now bytes.now (length out.old) result R R.form }
    ensures done { result ≡ 0 → AppendsBytes stat.now bytes.now out.new next.new R R.form }
    ensures rest { drop (15 + length bytes.now) out.new ≡ drop (15 + length bytes.now) out.old }
    ensures refused { result ≢ 0 → (out.new ≡ out.old) × (next.new ≡ next.old) }
{
    let count = bytes.len() / width_of::<R>();
    if let Some(refusal) = refusal::<R>(stat, count as u64, out.len() as u64) {
        return refusal.code();
    }
    match records_of::<R>(alloc, bytes) {
        Ok(records) => append(alloc, stat, &records, out, next),
        Err(refusal) => refusal.code(),
    }
}

/// Appends records of this kind, as `append_bytes` says.
fn append_kind(
    alloc: Global,
    kind: Kind,
    stat: &CvecStat,
    bytes: &[u8],
    out: &mut [u8],
    next: &mut CvecStat,
) -> u32
    ensures answer { AtKind (AnswersFor stat.now bytes.now (length out.old) result) kind }
    ensures done { result ≡ 0 → AtKind (AppendsBytes stat.now bytes.now out.new next.new) kind }
    ensures rest { drop (15 + length bytes.now) out.new ≡ drop (15 + length bytes.now) out.old }
    ensures refused { result ≢ 0 → (out.new ≡ out.old) × (next.new ≡ next.old) }
{
    of_kind!(kind, append_bytes(alloc, stat, bytes, out, next))
}

/// Appends records of the type of this number, as `append_bytes` says. 64: no type has this number.
#[unsafe(no_mangle)]
pub extern "C" fn cvec_image_append(
    alloc: Global,
    kind: u32,
    stat: &CvecStat,
    records: &[u8],
    out: &mut [u8],
    next: &mut CvecStat,
) -> u32
    ensures answer { MatchOption (kind_of kind) (result ≡ code_of Refusal.NotSo) (AtKind (AnswersFor stat.now records.now (length out.old) result)) }
    ensures done { result ≡ 0 → OfKind (AppendsBytes stat.now records.now out.new next.new) kind }
    ensures rest { drop (15 + length records.now) out.new ≡ drop (15 + length records.now) out.old }
    ensures refused { result ≢ 0 → (out.new ≡ out.old) × (next.new ≡ next.old) }
{
    match Kind::of_number(kind) {
        Some(kind) => append_kind(alloc, kind, stat, records, out, next),
        None => Refusal::NotSo.code(),
    }
}
