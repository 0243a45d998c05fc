//! What is lent, and what a snapshot has, stays while another thread grows.

ghost use Rattle.book_core.specs.Lists.{IsSeatOf};

use super::two::{Two, begin_two};
use book_core::{Live, Seat, Snapshot};
use std::alloc::Global;
use std::sync::Wait;
use std::thread;
use std::thread::Threads;

/// Makes so many growths of one record. Whether all are made.
fn put_many<E: Wait>(rt: &E, live: &Live<u64>, seat: &mut Seat<u64>, count: u64) -> bool
    requires { IsSeatOf live.now seat.old }
{
    for k in 0..count {
        if live.push_back(rt, seat, k).is_err() {
            return false;
        }
    }
    true
}

/// Makes 100 of them.
fn put_hundred<E: Wait>(rt: &E, live: &Live<u64>, seat: Seat<u64>) -> bool
    requires { IsSeatOf live.now seat }
{
    let mut seat = seat;
    put_many(rt, live, &mut seat, 100)
}

/// The sum of the records by position.
fn sum_by_position(snapshot: &Snapshot<'_, u64>) -> u64 {
    let mut sum: u64 = 0;
    for i in 0..snapshot.len() {
        sum = sum.wrapping_add(snapshot.get(i).copied().unwrap_or(0));
    }
    sum
}

/// A snapshot of a growth of three records of 7.
fn snapshot_of_three<'a, E: Wait>(
    rt: &E,
    live: &'a Live<u64>,
    seat: &mut Seat<u64>,
) -> Option<Snapshot<'a, u64>>
    requires { IsSeatOf live.now seat.old }
    ensures { IsSeatOf live.now seat.new }
{
    live.grow_by(rt, seat, 3, 7).ok()?;
    live.snapshot(seat).ok()
}

/// What two threads sum of one snapshot of three records of 7 while a third makes 100 growths; and what a look finds then.
fn read_beside_growth<E: Threads + Wait + Sync>(
    rt: &E,
    live: &Live<u64>,
    first: &mut Seat<u64>,
    second: Seat<u64>,
) -> Option<[u64; 3]>
    requires { IsSeatOf live.now first.old × IsSeatOf live.now second }
{
    match snapshot_of_three(rt, live, first) {
        Some(snapshot) => {
            let (one, other) = read_beside(rt, &snapshot, live, second);
            Some([one, other, live.look(first).unwrap_or(0)])
        }
        None => None,
    }
}

/// What two threads sum of that snapshot while a third makes 100 growths, which a look finds.
fn read_beside<E: Threads + Wait + Sync>(
    rt: &E,
    snapshot: &Snapshot<'_, u64>,
    live: &Live<u64>,
    second: Seat<u64>,
) -> (u64, u64)
    requires { IsSeatOf live.now second }
{
    let (_, sums) = thread::join(
        rt,
        move || -> bool
            requires { IsSeatOf live.now second }
        { put_hundred(rt, live, second) },
        move || thread::join(
            rt,
            move || sum_by_position(snapshot),
            move || sum_by_position(snapshot),
        ),
    );
    sums
}

/// The same of the seats of a book.
fn read_two<E: Threads + Wait + Sync>(rt: &E, alloc: Global) -> Option<[u64; 3]> {
    let Two {
        live,
        mut first,
        second,
    } = begin_two(alloc, 101)?;
    read_beside_growth(rt, &live, &mut first, second)
}

#[test]
fn two_threads_read_a_snapshot_beside_growth(rt: HostRuntime) {
    let read = read_two(&rt, rt.alloc());
    assert_eq!(rt; read, Some([21, 21, 103]));
}

/// Makes 100 growths in another thread. Whether all are made.
fn put_beside<E: Threads + Wait + Sync>(rt: &E, live: &Live<u64>, seat: Seat<u64>) -> bool
    requires { IsSeatOf live.now seat }
{
    let (grown, ()) = thread::join(
        rt,
        move || -> bool
            requires { IsSeatOf live.now seat }
        { put_hundred(rt, live, seat) },
        || (),
    );
    grown
}

/// A slice that was lent before another thread made 100 growths, and is read behind them.
fn keep_piece<E: Threads + Wait + Sync>(
    rt: &E,
    live: &Live<u64>,
    first: &mut Seat<u64>,
    second: Seat<u64>,
) -> Option<[u64; 3]>
    requires { IsSeatOf live.now first.old × IsSeatOf live.now second }
{
    let _ = live.grow_slice(rt, first, &[4, 5, 6]);
    let piece = live.piece(first, 0);
    match (piece, put_beside(rt, live, second)) {
        (Some([one, two, three]), true) => Some([*one, *two, *three]),
        _ => None,
    }
}

/// The same of the seats of a book.
fn keep_of_two<E: Threads + Wait + Sync>(rt: &E, alloc: Global) -> Option<[u64; 3]> {
    let Two {
        live,
        mut first,
        second,
    } = begin_two(alloc, 101)?;
    keep_piece(rt, &live, &mut first, second)
}

#[test]
fn what_is_lent_stays_while_another_thread_grows(rt: HostRuntime) {
    let kept = keep_of_two(&rt, rt.alloc());
    assert_eq!(rt; kept, Some([4, 5, 6]));
}
