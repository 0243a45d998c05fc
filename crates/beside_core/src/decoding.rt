//! Bytes as records.

ghost use Rattle.std.specs.Prelude.{◌≡◌, ◌<◌, ◌+◌, ◌*◌, ◌^◌, ℕ, length};
ghost use Rattle.beside_core.specs.Since.{DecodesTail};

use crate::fault::LookFault;
use record_core::{Record, RecordsFault, read_records, width_of};
use std::alloc::Global;

/// The records of these bytes, which stand at this position of a vector and behind it.
pub(crate) fn decode<R: Record>(
    alloc: Global,
    bytes: &[u8],
    position: u64,
) -> Result<Vec<R>, LookFault>
    requires filled { (count : ℕ) × (length bytes.now ≡ count * R.form.width) }
    requires placed { position + length bytes.now < 2 ^ 64 }
    ensures { DecodesTail R.form position bytes.now result }
{
    let mut records = Vec::new(alloc);
    match read_records(bytes, bytes.len() / width_of::<R>(), &mut records) {
        Ok(()) => Ok(records),
        Err(RecordsFault::Bad(i)) => Err(LookFault::NoRecord(position + i as u64)),
        Err(RecordsFault::Memory) => Err(LookFault::Memory),
    }
}
