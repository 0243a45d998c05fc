//! The vector of an image, or its first fault.

ghost use Rattle.std.specs.Prelude.{◌≡◌, List, MatchResult};
ghost use Rattle.segment_core.specs.declared.format.Format.{Format};
ghost use Rattle.segment_core.specs.Frame.{Frame};
ghost use Rattle.segment_core.specs.Fault.{IsRefused};
ghost use Rattle.segment_core.specs.Scanned.{IsScanOf};
ghost use Rattle.segment_core.specs.Vector.{HasVector};

use crate::fault::ScanFault;
use crate::scanner::Scanner;
use record_core::Record;
use std::alloc::Global;

/// What an image holds.
#[derive(Drop)]
pub struct Scanned<R> {
    /// The version of the file.
    pub version: u8,
    /// The bytes of one record.
    pub width: u16,
    /// The vector.
    pub records: Vec<R>,
    /// How many frames stand before the closed gate.
    pub frames: u64,
    /// How many of them are changes.
    pub changes: u64,
    /// The count of the last fold, 0 where there is none: changes below it stand in their home bytes.
    pub folded: u64,
    /// The place of the closed gate.
    pub gate: u64,
}

/// Reads the vector of an image, in one pass over its bytes. Where the image has no vector, its first fault is
/// answered, in the order of `docs/file/format.md`; `Memory` may come in place of any answer once the header is
/// read.
pub fn scan<R: Record>(alloc: Global, bytes: &[u8]) -> Result<Scanned<R>, ScanFault>
    ensures answer { MatchResult result (IsScanOf R.form bytes.now) (IsRefused R.form bytes.now) }
    // An image has one vector at most, and one that has a vector is refused for want of memory alone.
    ensures only { (format : Format) (frames : List Frame) (records : List R) → HasVector format R.form bytes.now frames records
        → MatchResult result (λ scanned. scanned.records.items ≡ records) (λ fault. fault ≡ ScanFault.Memory) }
{
    read_vector(alloc, bytes)
}

fn read_vector<R: Record>(alloc: Global, bytes: &[u8]) -> Result<Scanned<R>, ScanFault>
    ensures { MatchResult result (IsScanOf R.form bytes.now) (IsRefused R.form bytes.now) }
{
    let mut scanner = Scanner::of_length(alloc, bytes.len() as u64);
    match scanner.feed(bytes) {
        Ok(()) => scanner.end(),
        Err(fault) => Err(fault),
    }
}
