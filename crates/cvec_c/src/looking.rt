//! The records that the bytes of a file show which another process writes.

ghost use Rattle.std.specs.Prelude.{◌≡◌, ◌≢◌, MatchOption};
ghost use Rattle.c_core.specs.Kind.{kind_of, AtKind, OfKind};
ghost use Rattle.c_core.specs.Refusal.{code_of};
ghost use Rattle.cvec_c.specs.Look.{ShowsBytes, LookToldOf};

use crate::fault::{CvecFault, refusal_of_look};
use crate::stat::CvecStat;
use beside_core::records_seen;
use c_core::{Kind, Refusal, of_kind, write_from};
use record_core::Record;
use std::alloc::Global;

/// Answers 0 where the bytes of a file show a vector, from its first one on, and writes the bytes of its records from position `from`
/// on over the front of `out`, as far as both reach; `count` says of how many, and `stat` what the vector is. Else it tells why they
/// show none. What isn't told of stays. A file that another process writes meanwhile is read from its first byte on to its end, none
/// before one in front of it: then it is the vector of one moment of the reading, and the file isn't called damaged.
fn look_bytes<R: Record>(
    alloc: Global,
    bytes: &[u8],
    from: u64,
    out: &mut [u8],
    count: &mut u64,
    stat: &mut CvecStat,
    fault: &mut CvecFault,
) -> u32
    ensures done { result ≡ 0 → ShowsBytes bytes.now from out.old out.new count.new stat.new R R.form × (fault.new ≡ fault.old) }
    ensures refused { result ≢ 0 → LookToldOf bytes.now result fault.new R R.form × (out.new ≡ out.old) × (count.new ≡ count.old) × (stat.new ≡ stat.old) }
{
    match records_seen::<R>(alloc, bytes) {
        Ok(seen) => {
            *count = write_from(seen.records.as_slice(), from, out);
            *stat = CvecStat::of_seen(&seen);
            0
        }
        Err(refusal) => {
            *fault = CvecFault::of_look(refusal);
            refusal_of_look(refusal).code()
        }
    }
}

/// Looks at the bytes of a file of records of this kind, as `look_bytes` says.
fn look_kind(
    alloc: Global,
    kind: Kind,
    bytes: &[u8],
    from: u64,
    out: &mut [u8],
    count: &mut u64,
    stat: &mut CvecStat,
    fault: &mut CvecFault,
) -> u32
    ensures done { result ≡ 0 → AtKind (ShowsBytes bytes.now from out.old out.new count.new stat.new) kind × (fault.new ≡ fault.old) }
    ensures refused { result ≢ 0 → AtKind (LookToldOf bytes.now result fault.new) kind × (out.new ≡ out.old) × (count.new ≡ count.old) × (stat.new ≡ stat.old) }
{
    of_kind!(
        kind,
        look_bytes(alloc, bytes, from, out, count, stat, fault)
    )
}

/// Looks at the bytes of a file of records of the type of this number, as `look_bytes` says. 64: no type has this number.
#[unsafe(no_mangle)]
pub extern "C" fn cvec_image_look(
    alloc: Global,
    kind: u32,
    bytes: &[u8],
    from: u64,
    out: &mut [u8],
    count: &mut u64,
    stat: &mut CvecStat,
    fault: &mut CvecFault,
) -> u32
    ensures done { result ≡ 0 → OfKind (ShowsBytes bytes.now from out.old out.new count.new stat.new) kind × (fault.new ≡ fault.old) }
    ensures refused { result ≢ 0 → MatchOption (kind_of kind) ((result ≡ code_of Refusal.NotSo) × (fault.new ≡ fault.old)) (AtKind (LookToldOf bytes.now result fault.new)) × (out.new ≡ out.old) × (count.new ≡ count.old) × (stat.new ≡ stat.old) }
{
    match Kind::of_number(kind) {
        Some(kind) => look_kind(alloc, kind, bytes, from, out, count, stat, fault),
        None => Refusal::NotSo.code(),
    }
}
