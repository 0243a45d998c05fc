//! An image is read: what it holds, and its records as their bytes.

ghost use Rattle.std.specs.Prelude.{◌≡◌, ◌≢◌, MatchOption};
ghost use Rattle.c_core.specs.Kind.{kind_of, AtKind, OfKind};
ghost use Rattle.c_core.specs.Refusal.{code_of};
ghost use Rattle.cvec_c.specs.Reading.{ReadsBytes};
ghost use Rattle.cvec_c.specs.Stat.{ToldOf};

use crate::fault::CvecFault;
use crate::stat::CvecStat;
use c_core::{Kind, Refusal, of_kind, write_from};
use record_core::Record;
use segment_core::scan;
use std::alloc::Global;

/// Answers 0 where the image has a vector, and writes the bytes of its records from position `from` on over the front of `out`, as
/// far as both reach; `count` says of how many, and `stat` what the image holds. Else it tells why it has none. What isn't told of
/// stays.
fn read_bytes<R: Record>(
    alloc: Global,
    image: &[u8],
    from: u64,
    out: &mut [u8],
    count: &mut u64,
    stat: &mut CvecStat,
    fault: &mut CvecFault,
) -> u32
    ensures done { result ≡ 0 → ReadsBytes image.now from out.old out.new count.new stat.new R R.form × (fault.new ≡ fault.old) }
    ensures refused { result ≢ 0 → ToldOf image.now result fault.new R R.form × (out.new ≡ out.old) × (count.new ≡ count.old) × (stat.new ≡ stat.old) }
{
    match scan::<R>(alloc, image) {
        Ok(scanned) => {
            *count = write_from(scanned.records.as_slice(), from, out);
            *stat = CvecStat::of(&scanned);
            0
        }
        Err(refusal) => {
            *fault = CvecFault::of(refusal);
            Refusal::of_scan(refusal).code()
        }
    }
}

/// Reads an image of records of this kind, as `read_bytes` says.
fn read_kind(
    alloc: Global,
    kind: Kind,
    image: &[u8],
    from: u64,
    out: &mut [u8],
    count: &mut u64,
    stat: &mut CvecStat,
    fault: &mut CvecFault,
) -> u32
    ensures done { result ≡ 0 → AtKind (ReadsBytes image.now from out.old out.new count.new stat.new) kind × (fault.new ≡ fault.old) }
    ensures refused { result ≢ 0 → AtKind (ToldOf image.now result fault.new) kind × (out.new ≡ out.old) × (count.new ≡ count.old) × (stat.new ≡ stat.old) }
{
    of_kind!(
        kind,
        read_bytes(alloc, image, from, out, count, stat, fault)
    )
}

/// Reads an image of records of the type of this number, as `read_bytes` says; with no room it only checks it. 64: no type has this
/// number.
#[unsafe(no_mangle)]
pub extern "C" fn cvec_image_read(
    alloc: Global,
    kind: u32,
    image: &[u8],
    from: u64,
    out: &mut [u8],
    count: &mut u64,
    stat: &mut CvecStat,
    fault: &mut CvecFault,
) -> u32
    ensures done { result ≡ 0 → OfKind (ReadsBytes image.now from out.old out.new count.new stat.new) kind × (fault.new ≡ fault.old) }
    ensures refused { result ≢ 0 → MatchOption (kind_of kind) ((result ≡ code_of Refusal.NotSo) × (fault.new ≡ fault.old)) (AtKind (ToldOf image.now result fault.new)) × (out.new ≡ out.old) × (count.new ≡ count.old) × (stat.new ≡ stat.old) }
{
    match Kind::of_number(kind) {
        Some(kind) => read_kind(alloc, kind, image, from, out, count, stat, fault),
        None => Refusal::NotSo.code(),
    }
}
