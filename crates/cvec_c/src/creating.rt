//! A file that is made.

ghost use Rattle.std.specs.Prelude.{◌≡◌, ◌≢◌, length, take, drop, MatchOption};
ghost use Rattle.c_core.specs.Kind.{kind_of, AtKind, OfKind};
ghost use Rattle.c_core.specs.Refusal.{code_of};
ghost use Rattle.cvec_c.specs.Append.{first_refusal};
ghost use Rattle.cvec_c.specs.Empty.{empty_lines, Creates};

use crate::stat::CvecStat;
use c_core::{Kind, Refusal, of_kind};
use record_core::{Record, width_of};
use segment_core::{EMPTY_FILE_LEN, Format, HEADER_LEN, empty_file};

/// Answers 0, and writes an empty file of this version over the front of `out`; `stat` is what is told of it. Else it
/// answers which test fails first, and nothing changes.
fn empty<R: Record>(version: u8, out: &mut [u8], stat: &mut CvecStat) -> u32
    ensures answer { MatchOption (first_refusal (empty_lines version (length out.old))) (result ≡ 0) (λ refusal. result ≡ code_of refusal) }
    ensures done { result ≡ 0 → Creates (take 12 out.new) stat.new R R.form }
    ensures rest { drop 12 out.new ≡ drop 12 out.old }
    ensures refused { result ≢ 0 → (out.new ≡ out.old) × (stat.new ≡ stat.old) }
{
    let Some(format) = Format::from_version(version) else {
        return Refusal::Version.code();
    };
    if out.len() < EMPTY_FILE_LEN {
        return Refusal::NoRoom.code();
    }
    let width = width_of::<R>() as u16;
    out[..EMPTY_FILE_LEN].copy_from_slice(&empty_file(format, width));
    *stat = CvecStat {
        size: 0,
        frames: 0,
        changes: 0,
        folded: 0,
        gate: HEADER_LEN as u64,
        width,
        version,
    };
    0
}

/// Makes a file of records of this kind, as `empty` says.
fn empty_kind(kind: Kind, version: u8, out: &mut [u8], stat: &mut CvecStat) -> u32
    ensures answer { MatchOption (first_refusal (empty_lines version (length out.old))) (result ≡ 0) (λ refusal. result ≡ code_of refusal) }
    ensures done { result ≡ 0 → AtKind (Creates (take 12 out.new) stat.new) kind }
    ensures rest { drop 12 out.new ≡ drop 12 out.old }
    ensures refused { result ≢ 0 → (out.new ≡ out.old) × (stat.new ≡ stat.old) }
{
    of_kind!(kind, empty(version, out, stat))
}

/// Makes a file of records of the type of this number, as `empty` says. 64: no type has this number.
#[unsafe(no_mangle)]
pub extern "C" fn cvec_image_empty(
    kind: u32,
    version: u8,
    out: &mut [u8],
    stat: &mut CvecStat,
) -> u32
    ensures answer { MatchOption (kind_of kind) (result ≡ code_of Refusal.NotSo) (λ _. MatchOption (first_refusal (empty_lines version (length out.old))) (result ≡ 0) (λ refusal. result ≡ code_of refusal)) }
    ensures done { result ≡ 0 → OfKind (Creates (take 12 out.new) stat.new) kind }
    ensures rest { drop 12 out.new ≡ drop 12 out.old }
    ensures refused { result ≢ 0 → (out.new ≡ out.old) × (stat.new ≡ stat.old) }
{
    match Kind::of_number(kind) {
        Some(kind) => empty_kind(kind, version, out, stat),
        None => Refusal::NotSo.code(),
    }
}
