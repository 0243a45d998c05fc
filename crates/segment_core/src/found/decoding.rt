//! Records that are decoded as their home bytes come by.

ghost use Rattle.std.specs.Prelude.{◌≡◌, ◌≢◌, ◌≤◌, ◌<◌, ◌+◌, ◌*◌, ◌^◌, ℕ, List, Some, length, OnOk, IfOk, vec_len, vec_capacity};
ghost use Rattle.record_core.specs.Limits.{record_limit};
ghost use Rattle.segment_core.specs.Vector.{place_among};
ghost use Rattle.segment_core.specs.Notes.{noted};
ghost use Rattle.segment_core.specs.Found.{StandsAt, IsDecoded, IsLaid};

use crate::notes::Notes;
use record_core::{Record, width_of};
use std::alloc::AllocError;
use std::mem::replace;

/// The record of a position, whose bytes stand at this place; a blank one where they are no record, which is
/// noted.
#[inline(always)]
pub(super) fn decode<R: Record>(
    bytes: &[u8],
    position: u64,
    place: u64,
    notes: &mut Notes,
) -> Result<R, AllocError>
    requires { length bytes.now ≡ R.form.width }
    ensures decoded { IfOk result (λ r. (image : List ℕ) → StandsAt image place bytes.now → IsDecoded R.form image place (Some r) (noted notes.new position)) }
    ensures others { OnOk result ((q : ℕ) → q ≢ position → noted notes.new q ≡ noted notes.old q) }
{
    match R::take(bytes) {
        Some(record) => {
            notes.forget(position);
            Ok(record)
        }
        None => {
            notes.note(position, place)?;
            Ok(R::blank())
        }
    }
}

/// Appends the records of these bytes up to the first that is none, as long as nothing is noted, and answers how
/// many they are. The loop touches nothing but the bytes and the records, so that numbers are copied many at once.
fn grow_sound<R: Record>(area: &[u8], count: usize, records: &mut Vec<R>, notes: &Notes) -> usize
    requires filled { length area.now ≡ count * R.form.width }
    requires room { vec_len records.old + count ≤ vec_capacity records.old }
    ensures inside { result ≤ count }
    ensures longer { length records.new.items ≡ length records.old.items + result }
    ensures room { vec_len records.new + count ≤ vec_capacity records.new + result }
    ensures laid { (image : List ℕ) (place : ℕ) → StandsAt image place area.now
        → IsLaid R.form image (place_among R.form.width place (length records.old.items) result) records.old.items notes.now records.new.items notes.now }
{
    if !notes.is_empty() {
        return 0;
    }
    let width = width_of::<R>();
    // Held here, so that the loop keeps its length in a register.
    let alloc = *records.allocator();
    let mut grown = replace(records, Vec::new(alloc));
    let mut sound = 0;
    while sound < count {
        let at = sound * width;
        let Some(record) = R::take(&area[at..at + width]) else {
            break;
        };
        grown.push_reserved(record);
        sound += 1;
    }
    *records = grown;
    sound
}

/// Appends the `count` records of these bytes, which stand at this place.
pub(super) fn grow<R: Record>(
    area: &[u8],
    place: u64,
    count: usize,
    records: &mut Vec<R>,
    notes: &mut Notes,
) -> Result<(), AllocError>
    requires filled { length area.now ≡ count * R.form.width }
    requires placed { place + length area.now < 2 ^ 64 }
    requires few { length records.old.items + count ≤ record_limit }
    ensures longer { OnOk result (length records.new.items ≡ length records.old.items + count) }
    ensures laid { OnOk result ((image : List ℕ) → StandsAt image place area.now
        → IsLaid R.form image (place_among R.form.width place (length records.old.items) count) records.old.items notes.old records.new.items notes.new) }
{
    let width = width_of::<R>();
    let start = records.len();
    records.reserve(count)?;
    let sound = grow_sound(area, count, records, notes);
    for k in sound..count {
        let at = k * width;
        let position = (start + k) as u64;
        let record = decode(&area[at..at + width], position, place + at as u64, notes)?;
        records.push_reserved(record);
    }
    Ok(())
}
