//! The bytes of a job: its frame behind an open gate, and the next gate, closed.

ghost use Rattle.std.specs.Prelude.{◌≡◌, ◌≤◌, ◌<◌, ◌+◌, ◌^◌, ◌++◌, ◌∷◌, [], length, OnOk, IsOk, vec_capacity};
ghost use Rattle.record_core.specs.Cells.{AreReadAgain};
ghost use Rattle.segment_core.specs.declared.format.Format.{Format};
ghost use Rattle.segment_core.specs.Shape.{shape_of};
ghost use Rattle.segment_core.specs.Frame.{Shrink, Fold, records_of_runs, frame_text};
ghost use Rattle.segment_core.specs.Written.{group_frame, joined};
ghost use Rattle.segment_core.specs.Runs.{runs_given, change_len, change_frame};
ghost use Rattle.pen_core.specs.Refusals.{room_for};

use record_core::Record;
use segment_core::{
    CLOSED_GATE, FRAME_HEAD_LEN, Format, GroupFault, GrowthList, SHRINK_PAYLOAD_LEN, append_change,
    append_fold, append_group, append_shrink,
};
use std::alloc::AllocError;

/// Takes the memory of a frame with this payload, and of the gate behind it.
pub(crate) fn take_room(payload: usize, bytes: &mut Vec<u8>) -> Result<(), AllocError>
    requires { payload < 2 ^ 32 }
    ensures items { bytes.new.items ≡ [] }
    ensures room { OnOk result (room_for payload ≤ vec_capacity bytes.new) }
    ensures sure { room_for payload ≤ vec_capacity bytes.old → IsOk result }
{
    bytes.clear();
    bytes.reserve(FRAME_HEAD_LEN + payload + 1)
}

/// The frame of a group whose payload has at most so many bytes, and the next gate. It is the same in each format.
pub(crate) fn put_group<R: Record, G: GrowthList<R>>(
    growths: &G,
    limit: usize,
    bytes: &mut Vec<u8>,
) -> Result<(), GroupFault>
    requires room { 4 ≤ limit }
    requires small { limit < 2 ^ 32 }
    ensures text { OnOk result ((format : Format) → bytes.new.items ≡ frame_text format (group_frame R.form (G.growths growths.now)) ++ 0 ∷ []) }
    ensures read_again { OnOk result (AreReadAgain R.form (joined (G.growths growths.now))) }
{
    bytes.clear();
    append_group::<R, G>(growths, limit, bytes)?;
    match bytes.push(CLOSED_GATE) {
        Ok(()) => Ok(()),
        Err(_) => Err(GroupFault::Memory),
    }
}

/// The frame of a change whose payload has this length, and the next gate.
pub(crate) fn put_change<R: Record, G: GrowthList<R>>(
    format: Format,
    runs: &[(u64, u64)],
    pieces: &G,
    payload: usize,
    bytes: &mut Vec<u8>,
) -> Result<(), AllocError>
    requires filled { length (joined (G.growths pieces.now)) ≡ records_of_runs (runs_given runs.now) }
    requires len { payload ≡ change_len (shape_of format R.form) (runs_given runs.now) }
    requires small { payload < 2 ^ 32 }
    ensures text { OnOk result (bytes.new.items ≡ frame_text format (change_frame R.form (runs_given runs.now) (G.growths pieces.now)) ++ 0 ∷ []) }
    ensures read_again { OnOk result (AreReadAgain R.form (joined (G.growths pieces.now))) }
    ensures sure { room_for payload ≤ vec_capacity bytes.old → IsOk result }
{
    take_room(payload, bytes)?;
    append_change::<R, G>(format, runs, pieces, payload, bytes)?;
    bytes.push(CLOSED_GATE)?;
    Ok(())
}

/// The frame of a shrink, and the next gate.
pub(crate) fn put_shrink(n: u64, bytes: &mut Vec<u8>) -> Result<(), AllocError>
    ensures text { OnOk result ((format : Format) → bytes.new.items ≡ frame_text format (Shrink n) ++ 0 ∷ []) }
{
    take_room(SHRINK_PAYLOAD_LEN, bytes)?;
    append_shrink(n, bytes)?;
    bytes.push(CLOSED_GATE)?;
    Ok(())
}

/// The frame of a fold of so many changes, and the next gate. It is the same in each format.
pub(crate) fn put_fold(count: u64, bytes: &mut Vec<u8>) -> Result<(), AllocError>
    ensures text { OnOk result ((format : Format) → bytes.new.items ≡ frame_text format (Fold count) ++ 0 ∷ []) }
{
    bytes.clear();
    append_fold(count, bytes)?;
    bytes.push(CLOSED_GATE)?;
    Ok(())
}
