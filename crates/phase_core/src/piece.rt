//! Where the records of a list stand in memory, as a host is told.

ghost use Rattle.std.specs.Prelude.{◌≡◌, replicate, MatchResult};
ghost use Rattle.std.specs.Ptr.{as_ptr};
ghost use Rattle.block_core.specs.Length.{IsBlockRefusal};
ghost use Rattle.phase_core.specs.Telling.{IsToldOf, StandAt};

use block_core::{Fresh, FreshFault};
use record_core::Record;
use std::alloc::Global;

/// Where records of a list stand in memory, one behind the other.
#[repr(C)]
#[derive(Clone, Copy)]
pub struct Piece {
    /// The position of the first of them in the list.
    pub start: u64,
    /// Where that one stands. It stays there, as it is, until the phase has ended.
    pub at: *const u8,
    /// How many there are.
    pub len: u64,
}

impl Piece {
    /// That these records stand in the list from that position on.
    pub(crate) fn of<R>(start: u64, records: &[R]) -> Piece
        ensures { IsToldOf start records.entry result }
    {
        Piece {
            start,
            at: place_of(records),
            len: records.len() as u64,
        }
    }
}

/// A block of so many blank records, and where they stand: a host writes them there, before they are grown by. Refused as
/// `Fresh::new` is.
pub fn lend_block<R: Record>(alloc: Global, count: u64) -> Result<(Fresh<R>, *const u8), FreshFault>
    ensures { MatchResult result
        (λ lent. (lent.0 ≡ replicate count R.blank_value) × StandAt lent.0 lent.1)
        (IsBlockRefusal R.form.width count) }
{
    let block = Fresh::new(alloc, count)?;
    let place = place_of(block.records());
    Ok((block, place))
}

/// Where the first of these records stands.
fn place_of<R>(records: &[R]) -> *const u8
    ensures { result ≡ as_ptr records.entry }
{
    records.as_ptr() as *const u8
}
