//! Live changes that are laid over the records.

ghost use Rattle.std.specs.Prelude.{◌≡◌, ◌<◌, ◌+◌, ◌*◌, ◌^◌, ◌⊎◌, ℕ, List, None, length, OnOk, MatchResult, ◌≤◌};
ghost use Rattle.std.specs.List.{AllByRecursion};
ghost use Rattle.segment_core.specs.Vector.{place_among, place_in_runs};
ghost use Rattle.segment_core.specs.Reading.{runs_of, record_bytes_of};
ghost use Rattle.segment_core.specs.Notes.{noted};
ghost use Rattle.segment_core.specs.Found.{StandsAt, first_record_of, IsLaid, IsInside, AreLaid, IsLeastNoted};

use super::decoding::decode;
use crate::fault::{Cause, ScanFault};
use crate::frame::{FrameReader, Kept};
use crate::notes::Notes;
use record_core::{Record, width_of};
use std::alloc::AllocError;
use std::collections::VecDeque;

/// Writes the `count` records of these bytes, which stand at this place, over those from `start` on.
fn lay<R: Record>(
    area: &[u8],
    place: u64,
    start: usize,
    count: usize,
    records: &mut [R],
    notes: &mut Notes,
) -> Result<(), AllocError>
    requires filled { length area.now ≡ count * R.form.width }
    requires placed { place + length area.now < 2 ^ 64 }
    requires inside { start + count ≤ length records.old }
    ensures { OnOk result ((image : List ℕ) → StandsAt image place area.now
        → IsLaid R.form image (place_among R.form.width place start count) records.old notes.old records.new notes.new) }
{
    let width = width_of::<R>();
    for k in 0..count {
        let at = k * width;
        let position = (start + k) as u64;
        let record = decode(&area[at..at + width], position, place + at as u64, notes)?;
        records[start + k] = record;
    }
    Ok(())
}

/// Writes the records of a change over those of its positions.
fn lay_change<R: Record>(
    change: &FrameReader<'_>,
    records: &mut [R],
    notes: &mut Notes,
) -> Result<(), AllocError>
    requires wide { change.now.shape.width ≡ R.form.width }
    requires inside { IsInside (length records.old) change.now }
    ensures { OnOk result ((image : List ℕ) → StandsAt image (first_record_of change.now) (record_bytes_of change.now.frame)
        → IsLaid R.form image (λ i. place_in_runs R.form.width i (first_record_of change.now) (runs_of change.now.frame)) records.old notes.old records.new notes.new) }
{
    let width = width_of::<R>();
    let area = change.record_area();
    let place = change.first_record();
    let mut at = 0;
    for k in 0..change.runs() {
        let (start, count) = change.run(k);
        let end = at + count as usize * width;
        lay(
            &area[at..end],
            (place + at) as u64,
            start as usize,
            count as usize,
            records,
            notes,
        )?;
        at = end;
    }
    Ok(())
}

/// Writes the records of changes over those of their positions, one change after the other.
fn lay_all<R: Record>(
    changes: &VecDeque<Kept>,
    records: &mut [R],
    notes: &mut Notes,
) -> Result<(), AllocError>
    requires wide { AllByRecursion (λ change. change.shape.width ≡ R.form.width) changes.now.items }
    requires inside { AllByRecursion (IsInside (length records.old)) changes.now.items }
    ensures { OnOk result (AreLaid R.form changes.now.items records.old notes.old records.new notes.new) }
{
    for k in 0..changes.len() {
        let change = &changes[k];
        lay_change(&change.frame(), records, notes)?;
    }
    Ok(())
}

/// The same; the fault is that of the least position whose bytes are no record then.
pub(super) fn lay_live<R: Record>(
    changes: &VecDeque<Kept>,
    records: &mut [R],
    notes: &mut Notes,
) -> Result<(), ScanFault>
    requires wide { AllByRecursion (λ change. change.shape.width ≡ R.form.width) changes.now.items }
    requires inside { AllByRecursion (IsInside (length records.old)) changes.now.items }
    ensures { MatchResult result
        (λ _. AreLaid R.form changes.now.items records.old notes.old records.new notes.new × ((i : ℕ) → i < length records.new → noted notes.new i ≡ None))
        (λ fault. (AreLaid R.form changes.now.items records.old notes.old records.new notes.new × IsLeastNoted (length records.new) notes.new fault) ⊎ (fault ≡ ScanFault.Memory)) }
{
    let Ok(()) = lay_all(changes, records, notes) else {
        return Err(ScanFault::Memory);
    };
    match notes.least(records.len() as u64) {
        None => Ok(()),
        Some((_, place)) => Err(ScanFault::Damaged {
            at: place,
            cause: Cause::BadRecord,
        }),
    }
}
