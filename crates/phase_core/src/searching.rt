//! Searches of what a seat knows.

ghost use Rattle.std.specs.Prelude.{◌≡◌, ◌⊎◌, ◌<◌, ◌≤◌, ◌^◌, length, drop, slice_get, Some};
ghost use Rattle.std.specs.List.{count_by};
ghost use Rattle.book_core.specs.Lists.{IsSeatOf, seat_list};
ghost use Rattle.phase_core.specs.Grower.{IsFoundFrom, equals};

use book_core::{Live, Seat};
use record_core::Record;

/// How many of these records equal this one.
fn count_in<R: Record>(records: &[R], sought: R) -> u64
    requires few { length records.now ≤ 2 ^ 32 }
    ensures { result ≡ count_by (equals R.Eq.eq sought) records.now }
{
    let mut count: u64 = 0;
    for record in records {
        if *record == sought {
            count += 1;
        }
    }
    count
}

/// The first place among these records that has this one. How many they are, where none has.
fn place_in<R: Record>(records: &[R], sought: R) -> u64
    requires few { length records.now ≤ 2 ^ 32 }
    ensures { IsFoundFrom records.now sought 0 result }
{
    for k in 0..records.len() {
        if records[k] == sought {
            return k as u64;
        }
    }
    records.len() as u64
}

/// How many of the records that a seat knows equal this one.
pub(crate) fn count_equal<R: Record>(live: &Live<R>, seat: &mut Seat<R>, sought: R) -> u64
    requires of { IsSeatOf live.now seat.old }
    ensures same { seat.new ≡ seat.old }
    ensures count { result ≡ count_by (equals R.Eq.eq sought) (seat_list live.now seat.old) }
{
    let _size = live.size(seat);
    let mut left = live.pieces_from(seat, 0);
    let mut count: u64 = 0;
    while let Some(piece) = left.next_piece() {
        count += count_in(piece, sought);
    }
    count
}

/// The first position from `from` on whose record equals this one. How many records the seat knows, where none does.
pub(crate) fn find_equal<R: Record>(live: &Live<R>, seat: &mut Seat<R>, sought: R, from: u64) -> u64
    requires of { IsSeatOf live.now seat.old }
    ensures same { seat.new ≡ seat.old }
    ensures found { IsFoundFrom (seat_list live.now seat.old) sought from result }
{
    let size = live.size(seat);
    let mut left = live.pieces_from(seat, from);
    let mut at = from;
    while let Some(piece) = left.next_piece() {
        let place = place_in(piece, sought);
        at += place;
        if place < piece.len() as u64 {
            return at;
        }
    }
    size
}
