//! Images that a crash may leave, made and recognized.
ghost use Rattle.std.specs.Prelude.{◌≡◌, ◌||◌, length, nat_le, slice_index, false, IfOk, IsTrue, ◌↔◌, List, ℕ};
ghost use Rattle.disk_core.specs.State.{is_within, made_of, IsImage};
ghost use Rattle.disk_core.specs.Choice.{IsChosen, pending_byte, pending_count};

use crate::{Choice, Extent, PendingBytes};
use std::alloc::{AllocError, Global};

/// The image that `choice` names, of a disk where a read gives `seen`, which had `synced` on it at the last sync,
/// was written at `pending` since, and was at most `greatest` bytes long.
pub(crate) fn chosen_image(
    alloc: Global,
    choice: Choice,
    seen: &[u8],
    synced: &[u8],
    pending: &[Extent],
    greatest: u64,
) -> Result<Vec<u8>, AllocError>
    ensures { IfOk result (λ image.
        IsChosen choice (made_of seen.now synced.now pending.now greatest) image.items) }
{
    let length = choice.length.between(synced.len() as u64, greatest) as usize;
    let mut image = Vec::with_capacity(alloc, length)?;
    let mut below = 0;
    for place in 0..length {
        let free = is_free(synced, pending, place);
        image.push(byte_at(choice.pending, seen, synced, place, free, below))?;
        if free {
            below += 1;
        }
    }
    Ok(image)
}

/// How many places a crash may leave as anything, of a disk that had `synced` on it at the last sync, was written at
/// `pending` since, and was at most `greatest` bytes long.
pub(crate) fn count_pending(synced: &[u8], pending: &[Extent], greatest: u64) -> u64
    ensures { (seen : List ℕ) → result ≡ pending_count (made_of seen synced.now pending.now greatest) }
{
    let mut count = 0;
    for place in 0..greatest {
        if is_free(synced, pending, place as usize) {
            count += 1;
        }
    }
    count
}

/// Whether a crash may leave `image` of a disk that had `synced` on it at the last sync, was written at `pending`
/// since, and was at most `greatest` bytes long.
pub fn is_crash_image(synced: &[u8], pending: &[Extent], greatest: u64, image: &[u8]) -> bool
    ensures { (seen : List ℕ)
        → IsTrue result ↔ IsImage (made_of seen synced.now pending.now greatest) image.now }
{
    if image.len() < synced.len() || image.len() as u64 > greatest {
        return false;
    }
    for place in 0..synced.len() {
        if image[place] != synced[place] && !is_within(pending, place as u64) {
            return false;
        }
    }
    true
}

/// Whether a crash may leave any byte at this place.
fn is_free(synced: &[u8], pending: &[Extent], place: usize) -> bool
    ensures { result ≡ (nat_le (length synced.now) place || is_within pending.now place) }
{
    place >= synced.len() || is_within(pending, place as u64)
}

/// Whether one of the extents has this place.
fn is_within(extents: &[Extent], place: u64) -> bool
    ensures { result ≡ is_within extents.now place }
{
    extents.iter().any(|extent| extent.has_place(place))
}

/// The byte at a place that is free or not, with so many free places below it.
fn byte_at(
    choice: PendingBytes,
    seen: &[u8],
    synced: &[u8],
    place: usize,
    free: bool,
    below: u64,
) -> u8
    ensures pending { IsTrue free
        → result ≡ pending_byte choice (slice_index synced.now place) (slice_index seen.now place) below }
    ensures kept { free ≡ false → result ≡ slice_index synced.now place }
{
    let old = synced.get(place).copied().unwrap_or(0);
    let new = seen.get(place).copied().unwrap_or(0);
    if free {
        choice.byte(old, new, below)
    } else {
        old
    }
}
