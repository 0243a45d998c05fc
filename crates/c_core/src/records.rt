//! Records that come as their bytes, and go so.

ghost use Rattle.std.specs.Prelude.{◌≡◌, ◌≤◌, ◌<◌, ◌⊎◌, MatchOption, IfOk, IfErr, length};
ghost use Rattle.record_core.specs.Cells.{AreRecords};
ghost use Rattle.c_core.specs.Records.{AreNone, AreWritten, IsRecord, IsNoRecord};

use crate::refusal::Refusal;
use record_core::{Record, RecordsFault, put_records, read_records, width_of};
use std::alloc::Global;

// ---- in

/// The records that these bytes are. `NoRecord`: they are none; else memory was refused.
#[tactic(auto, using(crate::proofs::NoRecords::not_whole, crate::proofs::NoRecords::one_is_bad))]
pub fn records_of<R: Record>(alloc: Global, bytes: &[u8]) -> Result<Vec<R>, Refusal>
    ensures are { IfOk result (λ records. AreRecords R.form bytes.now records.items) }
    ensures none { IfErr result (λ refusal. (refusal ≡ Refusal.Memory) ⊎ ((refusal ≡ Refusal.NoRecord) × AreNone R.form bytes.now)) }
{
    let width = width_of::<R>();
    let count = bytes.len() / width;
    if bytes.len() % width != 0 {
        return Err(Refusal::NoRecord);
    }
    let mut records = Vec::new(alloc);
    match read_records(bytes, count, &mut records) {
        Ok(()) => Ok(records),
        Err(RecordsFault::Bad(_)) => Err(Refusal::NoRecord),
        Err(RecordsFault::Memory) => Err(Refusal::Memory),
    }
}

/// The one record that these bytes are. `None`: they are none, or of another width.
pub fn record_of<R: Record>(bytes: &[u8]) -> Option<R>
    ensures { MatchOption result (IsNoRecord R.form bytes.now) (IsRecord R.form bytes.now) }
{
    if bytes.len() != width_of::<R>() {
        return None;
    }
    R::take(bytes)
}

// ---- out

/// Writes the bytes of the records from position `from` on over the front of `out`, as far as both reach, and answers of how many.
pub fn write_from<R: Record>(records: &[R], from: u64, out: &mut [u8]) -> u64
    ensures written { AreWritten R.form records.now from out.old out.new result }
    ensures some { (result ≡ 0) → (length records.now ≤ from) ⊎ (length out.old < R.form.width) }
{
    if from >= records.len() as u64 {
        return 0;
    }
    let rest = &records[from as usize..];
    let width = width_of::<R>();
    let count = rest.len().min(out.len() / width);
    put_records(&rest[..count], &mut out[..count * width]);
    count as u64
}
