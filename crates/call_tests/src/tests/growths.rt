//! Growths by each call, appenders, and what seats read of them.

ghost use Rattle.std.specs.Prelude.{◌≡◌, IfSome};
ghost use Rattle.book_core.specs.Lists.{IsSeatOf};

use super::two::{Two, begin_two};
use block_core::Fresh;
use book_core::{Appender, GrowFault, Live, Receipt, Seat};
use std::alloc::Global;
use std::sync::Wait;

/// The start and the length of a growth.
fn range_of(receipt: Receipt) -> [u64; 2] {
    [receipt.start, receipt.len]
}

/// The ranges that stand behind three records: of a growth to 5, of one record and of two copies; and whether a second
/// growth to 5 makes none.
fn fill_up_and_grow<E: Wait>(
    rt: &E,
    live: &Live<u64>,
    seat: &mut Seat<u64>,
) -> Option<([[u64; 2]; 3], bool)>
    requires { IsSeatOf live.now seat.old }
{
    live.grow_by(rt, seat, 3, 1).ok()?;
    let filled = live.grow_to_at_least(rt, seat, 5, 9).ok()??;
    let again = live.grow_to_at_least(rt, seat, 5, 9).ok()?;
    let one = live.push_back(rt, seat, 4).ok()?;
    let copies = live.grow_by(rt, seat, 2, 8).ok()?;
    Some(([filled, one, copies].map(range_of), again.is_none()))
}

/// The same by the first seat of a book.
fn grow_first<E: Wait>(rt: &E, alloc: Global) -> Option<([[u64; 2]; 3], bool)> {
    let Two {
        live,
        mut first,
        ..
    } = begin_two(alloc, 8)?;
    fill_up_and_grow(rt, &live, &mut first)
}

#[test]
fn growths_stand_behind_one_another(rt: HostRuntime) {
    let grown = grow_first(&rt, rt.alloc());
    assert_eq!(rt; grown, Some(([[3, 2], [5, 1], [6, 2]], true)));
}

/// What a growth of a block is refused for.
fn grow_block<E: Wait>(
    rt: &E,
    alloc: Global,
    live: &Live<u64>,
    seat: &mut Seat<u64>,
) -> Option<Option<GrowFault>>
    requires { IsSeatOf live.now seat.old }
    ensures { IsSeatOf live.now seat.new }
{
    let fresh = Fresh::from_slice(alloc, &[7]).ok()?;
    match live.grow(rt, seat, fresh) {
        Ok(_) => Some(None),
        Err((_, fault)) => Some(Some(fault)),
    }
}

/// What the four growth calls are refused for once the book is closed.
fn grow_closed<E: Wait>(
    rt: &E,
    alloc: Global,
    live: &Live<u64>,
    seat: &mut Seat<u64>,
) -> Option<[Option<GrowFault>; 4]>
    requires { IsSeatOf live.now seat.old }
{
    live.close(rt);
    Some([
        grow_block(rt, alloc, live, seat)?,
        live.push_back(rt, seat, 1).err(),
        live.grow_by(rt, seat, 2, 1).err(),
        live.grow_to_at_least(rt, seat, 9, 1).err(),
    ])
}

/// The same by the first seat of a book.
fn close_first<E: Wait>(rt: &E, alloc: Global) -> Option<[Option<GrowFault>; 4]> {
    let Two {
        live,
        mut first,
        ..
    } = begin_two(alloc, 8)?;
    grow_closed(rt, alloc, &live, &mut first)
}

#[test]
fn a_closed_book_refuses_each_growth(rt: HostRuntime) {
    let closed = close_first(&rt, rt.alloc());
    assert_eq!(rt; closed, Some([Some(GrowFault::Closed); 4]));
}

/// The sizes that two seats know behind [1, 2] of the first and [3] of the second, before the first meets the second
/// and after.
fn meet_after_two<E: Wait>(
    rt: &E,
    live: &Live<u64>,
    first: &mut Seat<u64>,
    second: &mut Seat<u64>,
) -> Option<[u64; 4]>
    requires { IsSeatOf live.now first.old × IsSeatOf live.now second.old }
    ensures { IsSeatOf live.now first.new }
{
    live.grow_slice(rt, first, &[1, 2]).ok()?;
    live.push_back(rt, second, 3).ok()?;
    let before = [live.size(first), live.size(second)];
    live.meet(first, second);
    Some([before[0], before[1], live.size(first), live.size(second)])
}

/// The records at four positions, and how many pieces there are and stand from a position on.
fn read_each(live: &Live<u64>, seat: &mut Seat<u64>) -> ([Option<u64>; 4], [u64; 2])
    requires { IsSeatOf live.now seat.old }
{
    let zeroth = live.get(seat, 0).copied();
    let first = live.get(seat, 1).copied();
    let second = live.get(seat, 2).copied();
    let third = live.get(seat, 3).copied();
    let pieces = live.pieces(seat).left();
    let behind = live.pieces_from(seat, 2).left();
    ([zeroth, first, second, third], [pieces, behind])
}

/// These sizes, and what the first seat then reads.
fn meet_and_read<E: Wait>(
    rt: &E,
    live: &Live<u64>,
    first: &mut Seat<u64>,
    second: &mut Seat<u64>,
) -> Option<([u64; 4], ([Option<u64>; 4], [u64; 2]))>
    requires { IsSeatOf live.now first.old × IsSeatOf live.now second.old }
{
    let sizes = meet_after_two(rt, live, first, second)?;
    Some((sizes, read_each(live, first)))
}

/// The same by the seats of a book.
fn meet_of_two<E: Wait>(rt: &E, alloc: Global) -> Option<([u64; 4], ([Option<u64>; 4], [u64; 2]))> {
    let Two {
        live,
        mut first,
        mut second,
    } = begin_two(alloc, 8)?;
    meet_and_read(rt, &live, &mut first, &mut second)
}

#[test]
fn a_seat_reads_what_it_meets(rt: HostRuntime) {
    let met = meet_of_two(&rt, rt.alloc());
    let read = ([Some(1), Some(2), Some(3), None], [2, 1]);
    assert_eq!(rt; met, Some(([2, 3, 3, 3], read)));
}

/// Pushes 0, 1, .. 6.
fn push_seven<E: Wait>(rt: &E, live: &Live<u64>, appender: &mut Appender<u64>) -> Option<()>
    requires { IsSeatOf live.now appender.old.seat }
    ensures { IsSeatOf live.now appender.new.seat }
{
    for v in 0..7 {
        appender.push(rt, live, v).ok()?;
    }
    Some(())
}

/// Pushes them by an appender of three. The seat.
fn append_seven<E: Wait>(
    rt: &E,
    alloc: Global,
    live: &Live<u64>,
    seat: Seat<u64>,
) -> Option<Seat<u64>>
    requires { IsSeatOf live.now seat }
    ensures { IfSome result (λ seat. IsSeatOf live.now seat) }
{
    let mut appender = Appender::new(alloc, seat, 3).ok()?;
    push_seven(rt, live, &mut appender)?;
    let (seat, _) = appender.finish(rt, live).ok()?;
    Some(seat)
}

/// The records that a snapshot of a seat has.
fn records_of(alloc: Global, live: &Live<u64>, seat: &mut Seat<u64>) -> Option<Vec<u64>>
    requires { IsSeatOf live.now seat.old }
{
    let snapshot = live.snapshot(seat).ok()?;
    snapshot.iter().copied().collect(alloc).ok()
}

/// Whether a snapshot then has just these.
fn appends_seven<E: Wait>(rt: &E, alloc: Global, live: &Live<u64>, seat: Seat<u64>) -> Option<bool>
    requires { IsSeatOf live.now seat }
{
    let mut seat = append_seven(rt, alloc, live, seat)?;
    let records = records_of(alloc, live, &mut seat)?;
    Some(records.as_slice() == [0, 1, 2, 3, 4, 5, 6].as_slice())
}

/// The same by the first seat of a book.
fn has_seven<E: Wait>(rt: &E, alloc: Global) -> Option<bool> {
    let Two { live, first, .. } = begin_two(alloc, 8)?;
    appends_seven(rt, alloc, &live, first)
}

#[test]
fn records_are_grown_by_in_blocks(rt: HostRuntime) {
    let has = has_seven(&rt, rt.alloc());
    assert_eq!(rt; has, Some(true));
}
