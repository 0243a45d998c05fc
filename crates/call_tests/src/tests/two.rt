//! A book with two seats.

ghost use Rattle.std.specs.Prelude.{IfSome};
ghost use Rattle.book_core.specs.Lists.{IsSeatOf};
ghost use Rattle.book_core.specs.Beginning.{AreNewSeats};

use book_core::{Begun, Live, Seat};
use std::alloc::Global;

/// A book and its two seats.
#[derive(Drop)]
pub(super) struct Two {
    pub(super) live: Live<u64>,
    pub(super) first: Seat<u64>,
    pub(super) second: Seat<u64>,
    ghost of: { IsSeatOf live first × IsSeatOf live second },
}

/// The last two of a book's new seats.
fn last_two(live: &Live<u64>, seats: &mut Vec<Seat<u64>>) -> Option<(Seat<u64>, Seat<u64>)>
    requires { AreNewSeats live.now.directory live.now.mark seats.old.items }
    ensures { IfSome result (λ two. IsSeatOf live.now two.0 × IsSeatOf live.now two.1) }
{
    let second = live.take_seat(seats)?;
    let first = live.take_seat(seats)?;
    Some((first, second))
}

/// A book over no records, with that room and two seats.
pub(super) fn begin_two(alloc: Global, room: u64) -> Option<Two> {
    let Ok(begun) = Live::begin(alloc, Vec::new(alloc), room, 2) else {
        return None;
    };
    let Begun {
        live,
        mut seats,
        ..
    } = begun;
    match last_two(&live, &mut seats) {
        Some((first, second)) => Some(Two {
            live,
            first,
            second,
        }),
        None => None,
    }
}
