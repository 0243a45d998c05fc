//! Where the records of an image stand.

ghost use Rattle.std.specs.Prelude.{◌≡◌, ◌≢◌, ◌≤◌, ◌<◌, List, length, take, MatchOption, MatchResult};
ghost use Rattle.segment_core.specs.Fault.{IsRefused};
ghost use Rattle.c_core.specs.Kind.{kind_of, AtKind, OfKind};
ghost use Rattle.c_core.specs.Refusal.{code_of};
ghost use Rattle.cvec_c.specs.Homes.{HasHomes, as_homes, TellsHomes, NeedsRoom};
ghost use Rattle.cvec_c.specs.Stat.{ToldOf};

use crate::fault::CvecFault;
use crate::stat::CvecStat;
use c_core::{Kind, Refusal, of_kind};
use record_core::Record;
use segment_core::{Home, ScanFault, Scanner};
use std::alloc::Global;

/// Where the home bytes of consecutive positions stand, one record behind the other.
#[repr(C)]
#[derive(Clone, Copy)]
pub struct CvecHome {
    /// The first position.
    pub position: u64,
    /// The place of its first byte in the file.
    pub place: u64,
    /// How many positions there are.
    pub count: u64,
}

/// What the image holds and the homes of its positions, or its first fault.
fn homes_of<R: Record>(alloc: Global, image: &[u8]) -> Result<(CvecStat, Vec<Home>), ScanFault>
    ensures { MatchResult result (λ found. (records : List R) × HasHomes R.form image.now records found.0 found.1.items) (IsRefused R.form image.now) }
{
    let mut scanner = Scanner::<R>::of_length(alloc, image.len() as u64);
    // What it refuses is answered at the end again.
    let _ = scanner.feed(image);
    match scanner.end_with() {
        Ok((scanned, homes)) => Ok((CvecStat::of(&scanned), homes.homes)),
        Err(fault) => Err(fault),
    }
}

/// Copies the homes over the front of `out`.
fn copy_homes(homes: &[Home], out: &mut [CvecHome])
    requires { length homes.now ≤ length out.old }
    ensures { as_homes (take (length homes.now) out.new) ≡ homes.now }
{
    for k in 0..homes.len() {
        let home = homes[k];
        out[k] = CvecHome {
            position: home.position,
            place: home.place,
            count: home.count,
        };
    }
}

/// Answers 0 where the image has a vector, and tells what it holds and the homes of its positions, as many as `count`
/// says; 11 where they are more than `out` has room for. Else it tells why it has none. What isn't told of stays.
fn homes<R: Record>(
    alloc: Global,
    image: &[u8],
    out: &mut [CvecHome],
    count: &mut u64,
    stat: &mut CvecStat,
    fault: &mut CvecFault,
) -> u32
    ensures done { result ≡ 0 → TellsHomes image.now out.new count.new stat.new R R.form × (fault.new ≡ fault.old) }
    ensures no_room { result ≡ 11 → (length out.old < count.new) × NeedsRoom image.now count.new R R.form }
    ensures unchanged { result ≡ 11 → (out.new ≡ out.old) × (stat.new ≡ stat.old) × (fault.new ≡ fault.old) }
    ensures refused { result ≢ 0 → result ≢ 11 → ToldOf image.now result fault.new R R.form × (out.new ≡ out.old) × (count.new ≡ count.old) × (stat.new ≡ stat.old) }
{
    match homes_of::<R>(alloc, image) {
        Ok((found, homes)) => {
            *count = homes.len() as u64;
            if homes.len() > out.len() {
                return Refusal::NoRoom.code();
            }
            copy_homes(&homes, out);
            *stat = found;
            0
        }
        Err(refusal) => {
            *fault = CvecFault::of(refusal);
            Refusal::of_scan(refusal).code()
        }
    }
}

/// Tells where the records of an image stand, of this kind, as `homes` says.
fn homes_kind(
    alloc: Global,
    kind: Kind,
    image: &[u8],
    out: &mut [CvecHome],
    count: &mut u64,
    stat: &mut CvecStat,
    fault: &mut CvecFault,
) -> u32
    ensures done { result ≡ 0 → AtKind (TellsHomes image.now out.new count.new stat.new) kind × (fault.new ≡ fault.old) }
    ensures no_room { result ≡ 11 → (length out.old < count.new) × AtKind (NeedsRoom image.now count.new) kind }
    ensures unchanged { result ≡ 11 → (out.new ≡ out.old) × (stat.new ≡ stat.old) × (fault.new ≡ fault.old) }
    ensures refused { result ≢ 0 → result ≢ 11 → AtKind (ToldOf image.now result fault.new) kind × (out.new ≡ out.old) × (count.new ≡ count.old) × (stat.new ≡ stat.old) }
{
    of_kind!(kind, homes(alloc, image, out, count, stat, fault))
}

/// Tells where the records of an image stand, of the type of this number, as `homes` says. 64: no type has this number.
#[unsafe(no_mangle)]
pub extern "C" fn cvec_image_homes(
    alloc: Global,
    kind: u32,
    image: &[u8],
    out: &mut [CvecHome],
    count: &mut u64,
    stat: &mut CvecStat,
    fault: &mut CvecFault,
) -> u32
    ensures done { result ≡ 0 → OfKind (TellsHomes image.now out.new count.new stat.new) kind × (fault.new ≡ fault.old) }
    ensures no_room { result ≡ 11 → (length out.old < count.new) × OfKind (NeedsRoom image.now count.new) kind }
    ensures unchanged { result ≡ 11 → (out.new ≡ out.old) × (stat.new ≡ stat.old) × (fault.new ≡ fault.old) }
    ensures refused { result ≢ 0 → result ≢ 11 → MatchOption (kind_of kind) ((result ≡ code_of Refusal.NotSo) × (fault.new ≡ fault.old)) (AtKind (ToldOf image.now result fault.new)) × (out.new ≡ out.old) × (count.new ≡ count.old) × (stat.new ≡ stat.old) }
{
    match Kind::of_number(kind) {
        Some(kind) => homes_kind(alloc, kind, image, out, count, stat, fault),
        None => Refusal::NotSo.code(),
    }
}
