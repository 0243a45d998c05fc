//! A phase that grows to the limit.

ghost use Rattle.book_core.specs.Lists.{IsSeatOf};

use super::{COUNT, LONGEST, REST};
use crate::Nought;
use book_core::{Begun, GrowFault, Live, Seat};
use record_core::RECORD_LIMIT;
use std::alloc::Global;
use std::sync::Wait;

/// Grows to the limit but for `REST` records.
fn nearly_fill<E: Wait>(
    rt: &E,
    live: &Live<Nought>,
    seat: &mut Seat<Nought>,
) -> Result<(), GrowFault>
    requires { IsSeatOf live.now seat.old }
    ensures { IsSeatOf live.now seat.new }
{
    for _ in 0..COUNT {
        live.grow_by(rt, seat, LONGEST as u64, Nought)?;
    }
    Ok(())
}

/// What growths are told that would pass the limit, that come to it, and that come behind it.
#[derive(Clone, Copy, Debug, PartialEq, Eq)]
struct AtLimit {
    past: Option<GrowFault>,
    /// Number, start and length.
    last: Option<[u64; 3]>,
    one: Option<GrowFault>,
    /// Whether a growth to the length that there is makes none.
    is_same: bool,
    least: Option<GrowFault>,
}

/// Grows past the limit, to it, and behind it.
fn grow_past<E: Wait>(rt: &E, live: &Live<Nought>, seat: &mut Seat<Nought>) -> Option<AtLimit>
    requires { IsSeatOf live.now seat.old }
{
    nearly_fill(rt, live, seat).ok()?;
    let past = live.grow_by(rt, seat, REST as u64 + 1, Nought).err();
    let last = live.grow_by(rt, seat, REST as u64, Nought).ok();
    let one = live.push_back(rt, seat, Nought).err();
    let same = live.grow_to_at_least(rt, seat, RECORD_LIMIT, Nought);
    let least = live
        .grow_to_at_least(rt, seat, RECORD_LIMIT + 1, Nought)
        .err();
    Some(AtLimit {
        past,
        last: last.map(|receipt| [receipt.number, receipt.start, receipt.len]),
        one,
        is_same: same == Ok(None),
        least,
    })
}

/// The same by the seat of a new book.
fn grow_to_the_limit<E: Wait>(rt: &E, alloc: Global) -> Option<AtLimit> {
    match Live::<Nought>::begin(alloc, Vec::new(alloc), 4_098, 1) {
        Ok(
            Begun {
                live,
                mut seats,
                ..
            },
        ) => {
            let mut seat = live.take_seat(&mut seats)?;
            grow_past(rt, &live, &mut seat)
        }
        Err(_) => None,
    }
}

#[test]
fn a_growth_past_the_limit_is_too_long(rt: HostRuntime) {
    let told = grow_to_the_limit(&rt, rt.alloc());
    let want = AtLimit {
        past: Some(GrowFault::TooLong),
        last: Some([4_096, 4_294_934_528, 32_768]),
        one: Some(GrowFault::TooLong),
        is_same: true,
        least: Some(GrowFault::TooLong),
    };
    assert_eq!(rt; told, Some(want));
}
