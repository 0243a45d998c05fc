//! The frame of a group.

ghost use Rattle.std.specs.Prelude.{◌≡◌, ◌≤◌, ◌<◌, ◌+◌, ◌*◌, ◌^◌, ◌++◌, length, map, vec_len, vec_capacity, Some, OnOk, IsOk, MatchResult, MatchOption};
ghost use Rattle.std.specs.List.{flat_map};
ghost use Rattle.std.specs.Int.{w32, to_le_bytes};
ghost use Rattle.record_core.specs.Cells.{AreReadAgain};
ghost use Rattle.segment_core.specs.declared.format.Format.{Format};
ghost use Rattle.segment_core.specs.Frame.{frame_text};
ghost use Rattle.segment_core.specs.Written.{group_frame, joined, payload_len, IsGroupRefused};

use crate::fault::GroupFault;
use crate::format::{COUNT_LEN, FrameKind};
use crate::frame_head::append_head;
use crate::growth_list::GrowthList;
use record_core::{Record, append_records, width_of};
use std::alloc::AllocError;

/// The bytes of the group's payload, if they are at most `limit`.
pub(crate) fn payload_size<R: Record, G: GrowthList<R>>(group: &G, limit: usize) -> Option<usize>
    requires room { 4 ≤ limit }
    requires small { limit < 2 ^ 32 }
    ensures { MatchOption result
        (limit < payload_len R.form.width (G.growths group.now))
        (λ len. (len ≡ payload_len R.form.width (G.growths group.now)) × (len ≤ limit)) }
{
    let width = width_of::<R>();
    let mut len = COUNT_LEN;
    for k in 0..group.count() {
        let records = group.growth(k).len();
        // Past the limit already, and the product below might not fit.
        if records > limit {
            return None;
        }
        len += COUNT_LEN + records * width;
        if len > limit {
            return None;
        }
    }
    Some(len)
}

/// Appends the lengths of the growths.
fn append_lengths<R: Record, G: GrowthList<R>>(
    group: &G,
    file: &mut Vec<u8>,
) -> Result<(), AllocError>
    requires { payload_len R.form.width (G.growths group.now) < 2 ^ 32 }
    ensures { OnOk result (file.new.items ≡ file.old.items ++ flat_map (to_le_bytes w32) (map length (G.growths group.now))) }
{
    for k in 0..group.count() {
        file.extend_from_slice(&(group.growth(k).len() as u32).to_le_bytes())?;
    }
    Ok(())
}

/// Appends the records of the growths. Where there is room for them no memory is taken, and the call succeeds.
pub(crate) fn append_growths<R: Record, G: GrowthList<R>>(
    group: &G,
    file: &mut Vec<u8>,
) -> Result<(), AllocError>
    requires { length (joined (G.growths group.now)) * R.form.width < 2 ^ 32 }
    ensures bytes { OnOk result (file.new.items ≡ file.old.items ++ flat_map R.form.bytes_of (joined (G.growths group.now))) }
    ensures read_again { OnOk result (AreReadAgain R.form (joined (G.growths group.now))) }
    ensures capacity { vec_capacity file.old ≤ vec_capacity file.new }
    ensures room { vec_len file.old + length (joined (G.growths group.now)) * R.form.width ≤ vec_capacity file.old → IsOk result }
{
    for k in 0..group.count() {
        append_records(group.growth(k), file)?;
    }
    Ok(())
}

/// Appends the frame whose payload has this length.
fn append_frame<R: Record, G: GrowthList<R>>(
    group: &G,
    len: usize,
    file: &mut Vec<u8>,
) -> Result<(), AllocError>
    requires len { len ≡ payload_len R.form.width (G.growths group.now) }
    requires small { len < 2 ^ 32 }
    ensures text { OnOk result ((format : Format) → file.new.items ≡ file.old.items ++ frame_text format (group_frame R.form (G.growths group.now))) }
    ensures read_again { OnOk result (AreReadAgain R.form (joined (G.growths group.now))) }
{
    append_head(FrameKind::Group, len, file)?;
    file.extend_from_slice(&(group.count() as u32).to_le_bytes())?;
    append_lengths::<R, G>(group, file)?;
    append_growths::<R, G>(group, file)
}

/// Appends the frame of a group, behind an open gate. It is the same in each format. `TooLarge` comes where its
/// payload has more than `limit` bytes, and then nothing was appended. After `Memory` a part of the frame may
/// stand behind the old bytes.
pub fn append_group<R: Record, G: GrowthList<R>>(
    group: &G,
    limit: usize,
    file: &mut Vec<u8>,
) -> Result<(), GroupFault>
    requires room { 4 ≤ limit }
    requires small { limit < 2 ^ 32 }
    ensures text { OnOk result ((format : Format) → file.new.items ≡ file.old.items ++ frame_text format (group_frame R.form (G.growths group.now))) }
    ensures read_again { OnOk result (AreReadAgain R.form (joined (G.growths group.now))) }
    ensures fits { MatchResult result
        (λ _. payload_len R.form.width (G.growths group.now) ≤ limit)
        (IsGroupRefused R.form.width limit (G.growths group.now)) }
    ensures too_large { result ≡ Err GroupFault.TooLarge → file.new.items ≡ file.old.items }
{
    let Some(len) = payload_size::<R, G>(group, limit) else {
        return Err(GroupFault::TooLarge);
    };
    match append_frame::<R, G>(group, len, file) {
        Ok(()) => Ok(()),
        Err(_) => Err(GroupFault::Memory),
    }
}
