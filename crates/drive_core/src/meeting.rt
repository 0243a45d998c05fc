//! Two seats of one row.

ghost use Rattle.std.specs.Prelude.{◌≡◌, ◌<◌, length, slice_get, Some};
ghost use Rattle.book_core.specs.Lists.{Seated};
ghost use Rattle.drive_core.specs.Ties.{AreSeatsOf, MeetsIn};

use book_core::{Live, Seat};
use record_core::Record;

/// One seat learns what another knows, which is as it was.
pub(crate) fn meet_in<R: Record>(
    live: &Live<R>,
    seats: &mut Vec<Seat<R>>,
    mine: usize,
    theirs: usize,
)
    requires of { AreSeatsOf live.now seats.old.items }
    requires inside { (mine < length seats.old.items) × (theirs < length seats.old.items) }
    ensures of { AreSeatsOf live.now seats.new.items }
    ensures meets { (m t : Seated R) → slice_get seats.old.items mine ≡ Some m → slice_get seats.old.items theirs ≡ Some t → MeetsIn seats.old.items seats.new.items mine m t }
{
    if mine == theirs {
        return;
    }
    if mine < theirs {
        let (front, back) = seats.split_at_mut(theirs);
        live.meet(&mut front[mine], &mut back[0]);
    } else {
        let (front, back) = seats.split_at_mut(mine);
        live.meet(&mut back[0], &mut front[theirs]);
    }
}
