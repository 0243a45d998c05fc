//! The fields of a payload, and whether it has the form of its kind.

ghost use Rattle.std.specs.Prelude.{◌≡◌, ◌≤◌, ◌<◌, ◌+◌, ◌*◌, ◌-◌, ◌/◌, ◌^◌, Some, true, false, length, drop, sum, slice_get, nat_lt, MatchOption};
ghost use Rattle.std.specs.List.{list_all};
ghost use Rattle.segment_core.specs.Frame.{number_len, runs_len, records_of_runs};
ghost use Rattle.segment_core.specs.Kind.{kind_byte};
ghost use Rattle.segment_core.specs.Layout.{u32_at, u64_at, numbers_in, count_in, lengths_in, number_at, run_count_in, runs_in, frame_in, is_group_layout, is_change_layout, is_layout};
ghost use Rattle.segment_core.specs.Reading.{lengths_of, runs_of, record_count};
ghost use Rattle.segment_core.specs.FrameHead.{FitsNumber, first_number};

use crate::format::{COUNT_LEN, Format, FrameKind, START_LEN, Shape};
use crate::frame_head::{u32_at, u64_at};

/// Run `k` of a change's payload: its start, and how many positions it has.
pub(super) fn run_at(payload: &[u8], shape: Shape, k: usize) -> (u64, usize)
    requires wide { 0 < shape.width }
    requires counted { k < run_count_in shape.format payload.now }
    requires inside { runs_len shape.format (run_count_in shape.format payload.now) ≤ length payload.now }
    requires small { length payload.now ≤ 2 ^ 24 }
    ensures run { slice_get (runs_in shape payload.now) k ≡ Some (record { start = result.0; count = result.1 }) }
    ensures small { result.1 < 2 ^ 32 }
{
    let number = shape.format.number_len();
    let at = number + k * (START_LEN + number);
    (
        u64_at(payload, at),
        count_at(payload, shape, at + START_LEN),
    )
}

/// The number of positions of a run of a change's payload. In version 1 it doesn't stand there: the one run has
/// all records.
fn count_at(payload: &[u8], shape: Shape, at: usize) -> usize
    requires wide { 0 < shape.width }
    requires inside { at + number_len shape.format ≤ length payload.now }
    requires started { 8 ≤ length payload.now }
    ensures { result ≡ number_at shape.format ((length payload.now - 8) / shape.width) payload.now at }
{
    match shape.format {
        Format::One => (payload.len() - START_LEN) / shape.width,
        Format::Two => u32_at(payload, at) as usize,
    }
}

/// The sum of the lengths that stand behind the count of growths, if each is above 0.
fn sum_of_lengths(payload: &[u8], growths: usize) -> Option<usize>
    requires inside { 4 + growths * 4 ≤ length payload.now }
    requires small { length payload.now ≤ 2 ^ 24 }
    ensures { MatchOption result
        (list_all (nat_lt 0) (numbers_in growths (drop 4 payload.now)) ≡ false)
        (λ records. (list_all (nat_lt 0) (numbers_in growths (drop 4 payload.now)) ≡ true) × (records ≡ sum (numbers_in growths (drop 4 payload.now)))) }
{
    let mut records = 0;
    for k in 0..growths {
        let length = u32_at(payload, COUNT_LEN + k * COUNT_LEN) as usize;
        if length == 0 {
            return None;
        }
        records += length;
    }
    Some(records)
}

/// How many growths and how many records a group's payload that begins with this count of growths has, if it has the
/// form of one.
fn group_counts(payload: &[u8], growths: usize, width: usize) -> Option<(usize, usize)>
    requires small { length payload.now ≤ 2 ^ 24 }
    requires counted { 4 ≤ length payload.now }
    requires few { growths < 2 ^ 32 }
    requires is { growths ≡ count_in payload.now }
    ensures { MatchOption result
        (is_group_layout width payload.now ≡ false)
        (λ counts. (is_group_layout width payload.now ≡ true) × (counts.0 ≡ count_in payload.now) × (counts.1 ≡ sum (lengths_in payload.now))) }
{
    if growths == 0 || payload.len() < COUNT_LEN + growths * COUNT_LEN {
        return None;
    }
    let records = sum_of_lengths(payload, growths)?;
    let filled = records.checked_mul(width)?;
    if filled == payload.len() - (COUNT_LEN + growths * COUNT_LEN) {
        Some((growths, records))
    } else {
        None
    }
}

/// The sum of the counts of the first runs, if each is above 0.
fn sum_of_runs(payload: &[u8], shape: Shape, runs: usize) -> Option<usize>
    requires wide { 0 < shape.width }
    requires counted { runs ≡ run_count_in shape.format payload.now }
    requires inside { runs_len shape.format runs ≤ length payload.now }
    requires small { length payload.now ≤ 2 ^ 24 }
    ensures { MatchOption result
        (list_all (λ run. nat_lt 0 run.count) (runs_in shape payload.now) ≡ false)
        (λ records. (list_all (λ run. nat_lt 0 run.count) (runs_in shape payload.now) ≡ true) × (records ≡ records_of_runs (runs_in shape payload.now))) }
{
    let mut records = 0;
    for k in 0..runs {
        let (_, count) = run_at(payload, shape, k);
        if count == 0 {
            return None;
        }
        records += count;
    }
    Some(records)
}

/// How many runs and how many records a change's payload of so many runs has, if it has the form of one.
fn change_counts(payload: &[u8], runs: usize, shape: Shape) -> Option<(usize, usize)>
    requires wide { 0 < shape.width }
    requires small { length payload.now ≤ 2 ^ 24 }
    requires counted { number_len shape.format ≤ length payload.now }
    requires few { runs < 2 ^ 32 }
    requires is { runs ≡ run_count_in shape.format payload.now }
    ensures { MatchOption result
        (is_change_layout shape payload.now ≡ false)
        (λ counts. (is_change_layout shape payload.now ≡ true) × (counts.0 ≡ run_count_in shape.format payload.now) × (counts.1 ≡ records_of_runs (runs_in shape payload.now))) }
{
    if runs == 0 || payload.len() < shape.format.runs_len(runs) {
        return None;
    }
    let records = sum_of_runs(payload, shape, runs)?;
    let filled = records.checked_mul(shape.width)?;
    if filled == payload.len() - shape.format.runs_len(runs) {
        Some((runs, records))
    } else {
        None
    }
}

/// How many growths or runs, and how many records, a payload of this kind has that begins with this number, if it has
/// the form of one.
#[tactic(auto, using(crate::proofs::Reader::heads_of_change))]
pub(super) fn counts(
    payload: &[u8],
    kind: FrameKind,
    number: u64,
    shape: Shape,
) -> Option<(usize, usize)>
    requires wide { 0 < shape.width }
    requires small { length payload.now ≤ 2 ^ 24 }
    requires fits { FitsNumber shape.format kind (length payload.now) number }
    requires is { number ≡ first_number shape.format kind payload.now }
    ensures { MatchOption result
        (is_layout shape (kind_byte kind) payload.now ≡ false)
        (λ counts. (is_layout shape (kind_byte kind) payload.now ≡ true)
        × (counts.0 ≡ length (lengths_of (frame_in shape (kind_byte kind) payload.now)) + length (runs_of (frame_in shape (kind_byte kind) payload.now)))
        × (counts.1 ≡ record_count (frame_in shape (kind_byte kind) payload.now))) }
{
    match kind {
        FrameKind::Group => group_counts(payload, number as usize, shape.width),
        FrameKind::Change => change_counts(payload, number as usize, shape),
        FrameKind::Shrink | FrameKind::Fold => Some((0, 0)),
    }
}
