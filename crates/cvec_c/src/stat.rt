//! What is told of an image that has a vector.

ghost use Rattle.std.specs.Prelude.{◌≡◌};
ghost use Rattle.cvec_c.specs.Stat.{stat_of};
ghost use Rattle.cvec_c.specs.Look.{stat_of_seen};

use beside_core::Seen;
use record_core::{Record, width_of};
use segment_core::Scanned;

/// What an image holds.
#[repr(C)]
#[derive(Clone, Copy)]
pub struct CvecStat {
    /// The records of the vector.
    pub size: u64,
    /// The frames before the closed gate.
    pub frames: u64,
    /// How many of them are changes.
    pub changes: u64,
    /// The count of the last fold, 0 where there is none: changes below it stand in their home bytes.
    pub folded: u64,
    /// The place of the closed gate.
    pub gate: u64,
    /// The bytes of one record.
    pub width: u16,
    /// The version of the file.
    pub version: u8,
}

impl CvecStat {
    /// What is told of what a scan found.
    pub(crate) fn of<R>(scanned: &Scanned<R>) -> CvecStat
        ensures { result ≡ stat_of scanned.now }
    {
        CvecStat {
            size: scanned.records.len() as u64,
            frames: scanned.frames,
            changes: scanned.changes,
            folded: scanned.folded,
            gate: scanned.gate,
            width: scanned.width,
            version: scanned.version,
        }
    }

    /// What is told of what bytes show.
    pub(crate) fn of_seen<R: Record>(seen: &Seen<R>) -> CvecStat
        ensures { result ≡ stat_of_seen R.form seen.now }
    {
        let tally = seen.next.tally();
        CvecStat {
            size: seen.records.len() as u64,
            frames: seen.frames,
            changes: tally.changes,
            folded: tally.folded,
            gate: seen.next.gate(),
            width: width_of::<R>() as u16,
            version: seen.next.shape().format.version(),
        }
    }
}
