//! The frames of a change, of a shrink and of a fold.

ghost use Rattle.std.specs.Prelude.{◌≡◌, ◌≤◌, ◌<◌, ◌+◌, ◌^◌, ◌++◌, length, vec_len, vec_capacity, OnOk, IsOk};
ghost use Rattle.record_core.specs.Cells.{AreReadAgain};
ghost use Rattle.segment_core.specs.Shape.{shape_of};
ghost use Rattle.segment_core.specs.Frame.{Shrink, Fold, frame_head_len, number_text, number_len, run_text, runs_text, records_of_runs, frame_text};
ghost use Rattle.segment_core.specs.Frame as frames;
ghost use Rattle.segment_core.specs.Written.{joined};
ghost use Rattle.segment_core.specs.Runs.{runs_given, change_len, change_frame};

use crate::format::{FOLD_PAYLOAD_LEN, Format, FrameKind, SHRINK_PAYLOAD_LEN};
use crate::frame_head::append_head;
use crate::group::append_growths;
use crate::growth_list::GrowthList;
use record_core::Record;
use std::alloc::AllocError;

/// Appends a number that version 1 leaves out.
fn append_number(format: Format, number: u32, file: &mut Vec<u8>) -> Result<(), AllocError>
    ensures text { OnOk result (file.new.items ≡ file.old.items ++ number_text format number) }
    ensures capacity { vec_capacity file.old ≤ vec_capacity file.new }
    ensures room { vec_len file.old + number_len format ≤ vec_capacity file.old → IsOk result }
{
    match format {
        Format::One => Ok(()),
        Format::Two => file.extend_from_slice(&number.to_le_bytes()),
    }
}

/// Appends a run.
fn append_run(format: Format, start: u64, count: u32, file: &mut Vec<u8>) -> Result<(), AllocError>
    ensures text { OnOk result (file.new.items ≡ file.old.items ++ run_text format (record { start = start; count = count })) }
    ensures capacity { vec_capacity file.old ≤ vec_capacity file.new }
    ensures room { vec_len file.old + (8 + number_len format) ≤ vec_capacity file.old → IsOk result }
{
    file.extend_from_slice(&start.to_le_bytes())?;
    append_number(format, count, file)
}

/// Appends what stands before the records of a change.
fn append_runs(format: Format, runs: &[(u64, u64)], file: &mut Vec<u8>) -> Result<(), AllocError>
    requires runs { length runs.now < 2 ^ 32 }
    requires records { records_of_runs (runs_given runs.now) < 2 ^ 32 }
    ensures text { OnOk result (file.new.items ≡ file.old.items ++ runs_text format (runs_given runs.now)) }
    ensures capacity { vec_capacity file.old ≤ vec_capacity file.new }
    ensures room { vec_len file.old + frames.runs_len format (length runs.now) ≤ vec_capacity file.old → IsOk result }
{
    append_number(format, runs.len() as u32, file)?;
    for k in 0..runs.len() {
        let (start, count) = runs[k];
        append_run(format, start, count as u32, file)?;
    }
    Ok(())
}

/// Appends the frame of a change whose payload has this length, behind an open gate: the records of the pieces, in
/// order, for those of the runs. In version 1 it has one run. Where there is room for it no memory is taken, and the
/// call succeeds; after a refusal a part of the frame may stand behind the old bytes.
pub fn append_change<R: Record, G: GrowthList<R>>(
    format: Format,
    runs: &[(u64, u64)],
    pieces: &G,
    payload_len: usize,
    file: &mut Vec<u8>,
) -> Result<(), AllocError>
    requires filled { length (joined (G.growths pieces.now)) ≡ records_of_runs (runs_given runs.now) }
    requires len { payload_len ≡ change_len (shape_of format R.form) (runs_given runs.now) }
    requires small { payload_len < 2 ^ 32 }
    ensures text { OnOk result (file.new.items ≡ file.old.items ++ frame_text format (change_frame R.form (runs_given runs.now) (G.growths pieces.now))) }
    ensures read_again { OnOk result (AreReadAgain R.form (joined (G.growths pieces.now))) }
    ensures capacity { vec_capacity file.old ≤ vec_capacity file.new }
    ensures room { vec_len file.old + (frame_head_len + payload_len) ≤ vec_capacity file.old → IsOk result }
{
    append_head(FrameKind::Change, payload_len, file)?;
    append_runs(format, runs, file)?;
    append_growths::<R, G>(pieces, file)
}

/// Appends the frame of a shrink to `n` records, behind an open gate. It is the same in each format. Where there is
/// room for it no memory is taken, and the call succeeds.
pub fn append_shrink(n: u64, file: &mut Vec<u8>) -> Result<(), AllocError>
    ensures text { OnOk result ((format : Format) → file.new.items ≡ file.old.items ++ frame_text format (Shrink n)) }
    ensures capacity { vec_capacity file.old ≤ vec_capacity file.new }
    ensures room { vec_len file.old + (frame_head_len + 8) ≤ vec_capacity file.old → IsOk result }
{
    append_head(FrameKind::Shrink, SHRINK_PAYLOAD_LEN, file)?;
    file.extend_from_slice(&n.to_le_bytes())
}

/// Appends the frame of a fold of so many changes, behind an open gate. It is the same in each format. Where there is
/// room for it no memory is taken, and the call succeeds.
pub fn append_fold(count: u64, file: &mut Vec<u8>) -> Result<(), AllocError>
    ensures text { OnOk result ((format : Format) → file.new.items ≡ file.old.items ++ frame_text format (Fold count)) }
    ensures capacity { vec_capacity file.old ≤ vec_capacity file.new }
    ensures room { vec_len file.old + (frame_head_len + 8) ≤ vec_capacity file.old → IsOk result }
{
    append_head(FrameKind::Fold, FOLD_PAYLOAD_LEN, file)?;
    file.extend_from_slice(&count.to_le_bytes())
}
