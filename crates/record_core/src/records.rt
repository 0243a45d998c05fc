//! Lists of records as bytes, one record behind the other.

ghost use Rattle.std.specs.Prelude.{◌≡◌, ◌≤◌, ◌<◌, ◌+◌, ◌*◌, ◌^◌, ◌++◌, ℕ, List, None, length, vec_len, vec_capacity, OnOk, OnErr, IfErr, IsOk};
ghost use Rattle.std.specs.List.{flat_map};
ghost use Rattle.record_core.specs.Cells.{AreRecords, AreReadAgain, HasRead, IsFirstBad, FirstBad, IsBad, ComesAfter};

use crate::record::{Record, width_of};
use std::alloc::AllocError;
use std::mem::replace;
use thiserror::Error;

/// Why bytes could not be read as records.
#[derive(Debug, Drop, Error)]
pub enum RecordsFault {
    /// The bytes of this record, counted from 0, are no record: the first such.
    #[error("the bytes of record {0} are no record")]
    Bad(usize),
    /// A growth of memory was refused.
    #[error("out of memory")]
    Memory,
}

/// Writes the records behind one another over bytes that they fill.
pub fn put_records<R: Record>(records: &[R], out: &mut [u8])
    requires { length out.old ≡ length records.now * R.form.width }
    ensures bytes { out.new ≡ flat_map R.form.bytes_of records.now }
    ensures cells { AreRecords R.form out.new records.now }
    ensures read_again { AreReadAgain R.form records.now }
{
    let width = width_of::<R>();
    for i in 0..records.len() {
        let at = i * width;
        records[i].put(&mut out[at..at + width]);
    }
}

/// Appends the bytes of the records. Where there is room for them, no memory is taken, and the call
/// succeeds; after a refusal nothing has changed.
pub fn append_records<R: Record>(records: &[R], out: &mut Vec<u8>) -> Result<(), AllocError>
    requires { vec_len out.old + length records.now * R.form.width < 2 ^ 64 }
    ensures bytes { OnOk result (out.new.items ≡ out.old.items ++ flat_map R.form.bytes_of records.now) }
    ensures read_again { OnOk result (AreReadAgain R.form records.now) }
    ensures cells { OnOk result (AreRecords R.form (flat_map R.form.bytes_of records.now) records.now) }
    ensures room { vec_len out.old + length records.now * R.form.width ≤ vec_capacity out.old → IsOk result }
    ensures capacity { vec_capacity out.old ≤ vec_capacity out.new }
    ensures err { OnErr result (out.new.items ≡ out.old.items) }
{
    let start = out.len();
    out.resize(start + records.len() * width_of::<R>(), 0)?;
    put_records(records, &mut out[start..]);
    Ok(())
}

/// Appends the records of these bytes up to the first that is none, and answers how many they are. There is room for all
/// of them. The loop touches nothing but the bytes and the records, so that numbers are copied many at once.
fn read_sound<R: Record>(bytes: &[u8], count: usize, records: &mut Vec<R>) -> usize
    requires filled { length bytes.now ≡ count * R.form.width }
    requires room { vec_len records.old + count ≤ vec_capacity records.old }
    ensures inside { result ≤ count }
    ensures read { (read : List R) × (records.new.items ≡ records.old.items ++ read) × HasRead R.form bytes.now result read }
    ensures stopped { result < count → IsFirstBad R.form bytes.now count result }
    ensures capacity { vec_capacity records.old ≤ vec_capacity records.new }
{
    let width = width_of::<R>();
    // Held here, so that the loop keeps its length in a register.
    let alloc = *records.allocator();
    let mut grown = replace(records, Vec::new(alloc));
    let mut sound = 0;
    while sound < count {
        let at = sound * width;
        let Some(record) = R::take(&bytes[at..at + width]) else {
            break;
        };
        grown.push_reserved(record);
        sound += 1;
    }
    *records = grown;
    sound
}

/// Appends the `count` records that these bytes are. Whatever is answered, the records from before stand
/// first; behind them stand those that were read before the refusal. Where there is room for all of them, no
/// memory is taken and none is refused.
pub fn read_records<R: Record>(
    bytes: &[u8],
    count: usize,
    records: &mut Vec<R>,
) -> Result<(), RecordsFault>
    requires { length bytes.now ≡ count * R.form.width }
    ensures ok { OnOk result ((read : List R) × (records.new.items ≡ records.old.items ++ read) × (length read ≡ count) × AreRecords R.form bytes.now read) }
    ensures bad { IfErr result (FirstBad R.form bytes.now count) }
    ensures room { vec_len records.old + count ≤ vec_capacity records.old → IfErr result IsBad }
    ensures capacity { vec_capacity records.old ≤ vec_capacity records.new }
    ensures kept { (read : List R) × (records.new.items ≡ records.old.items ++ read) × HasRead R.form bytes.now (length read) read × IfErr result (ComesAfter (length read)) }
{
    let Ok(()) = records.reserve(count) else {
        return Err(RecordsFault::Memory);
    };
    let sound = read_sound(bytes, count, records);
    if sound < count {
        return Err(RecordsFault::Bad(sound));
    }
    Ok(())
}
