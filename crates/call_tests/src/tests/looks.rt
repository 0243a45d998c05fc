//! That a look takes steps by what is new alone.
//!
//! A seat that knows 100,000 growths looks a million times with nothing new, and 100,000 times with one growth that is
//! new. By what is known these would take 10^10 steps and more, which no test's time holds.

ghost use Rattle.book_core.specs.Lists.{IsSeatOf};

use super::two::{Two, begin_two};
use book_core::{Live, Seat};
use std::alloc::Global;
use std::sync::Wait;

const KNOWN: u64 = 100_000;

const LOOKS: u64 = 1_000_000;

const NEW: u64 = 100_000;

/// Grows by single records, as many as are to be known.
fn grow_known<E: Wait>(rt: &E, live: &Live<u64>, first: &mut Seat<u64>) -> Option<()>
    requires { IsSeatOf live.now first.old }
    ensures { IsSeatOf live.now first.new }
{
    for number in 0..KNOWN {
        live.push_back(rt, first, number).ok()?;
    }
    Some(())
}

/// Looks where nothing is new.
fn look_again(live: &Live<u64>, second: &mut Seat<u64>) -> Option<()>
    requires { IsSeatOf live.now second.old }
    ensures { IsSeatOf live.now second.new }
{
    for _turn in 0..LOOKS {
        live.look(second).ok()?;
    }
    Some(())
}

/// Looks behind each growth.
fn look_behind_each<E: Wait>(
    rt: &E,
    live: &Live<u64>,
    first: &mut Seat<u64>,
    second: &mut Seat<u64>,
) -> Option<()>
    requires { IsSeatOf live.now first.old × IsSeatOf live.now second.old }
    ensures { IsSeatOf live.now second.new }
{
    for number in 0..NEW {
        live.push_back(rt, first, number).ok()?;
        live.look(second).ok()?;
    }
    Some(())
}

/// The size that the second seat knows behind the growths of the first and its looks.
fn look_by_both<E: Wait>(
    rt: &E,
    live: &Live<u64>,
    first: &mut Seat<u64>,
    second: &mut Seat<u64>,
) -> Option<u64>
    requires { IsSeatOf live.now first.old × IsSeatOf live.now second.old }
{
    grow_known(rt, live, first)?;
    look_again(live, second)?;
    look_behind_each(rt, live, first, second)?;
    live.look(second).ok()
}

/// The same by the seats of a new book.
fn look_in<E: Wait>(rt: &E, alloc: Global) -> Option<u64> {
    let Two {
        live,
        mut first,
        mut second,
    } = begin_two(alloc, KNOWN + NEW)?;
    look_by_both(rt, &live, &mut first, &mut second)
}

#[test]
fn a_look_takes_steps_by_what_is_new(rt: HostRuntime) {
    let size = look_in(&rt, rt.alloc());
    assert_eq!(rt; size, Some(KNOWN + NEW));
}
