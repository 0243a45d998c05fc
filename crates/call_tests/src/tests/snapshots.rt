//! A snapshot takes in what its seat has learnt since, and finds many records at once.

ghost use Rattle.std.specs.Prelude.{OnOk};
ghost use Rattle.book_core.specs.Lists.{IsSeatOf};
ghost use Rattle.book_core.specs.Snapshots.{ShowsSeat};

use super::two::{Two, begin_two};
use book_core::{GrowFault, Live, Seat, Snapshot};
use std::alloc::Global;
use std::sync::Wait;

/// Learns what all seats have grown, and adds it to what the snapshot shows.
fn show_more(
    live: &Live<u64>,
    seat: &mut Seat<u64>,
    shown: &mut Snapshot<'_, u64>,
) -> Result<(), GrowFault>
    requires of { IsSeatOf live.now seat.old }
    requires shows { ShowsSeat live.now seat.old shown.old }
    ensures { OnOk result (ShowsSeat live.now seat.new shown.new) }
{
    live.look(seat)?;
    shown.update(seat)
}

/// How many records and pieces a snapshot of two records has, once a growth of three by the other seat was added; and what it
/// has at four places.
fn find_behind_two<E: Wait>(
    rt: &E,
    live: &Live<u64>,
    first: &mut Seat<u64>,
    second: &mut Seat<u64>,
) -> Option<(u64, usize, [Option<u64>; 4])>
    requires { IsSeatOf live.now first.old × IsSeatOf live.now second.old }
{
    live.grow_slice(rt, first, &[4, 5]).ok()?;
    let mut snapshot = live.snapshot(first).ok()?;
    live.grow_slice(rt, second, &[6, 7, 8]).ok()?;
    show_more(live, first, &mut snapshot).ok()?;
    let mut found = [None; 4];
    snapshot.get_many(&[4, 0, 5, 2], &mut found);
    let records = found.map(|it| it.copied());
    Some((snapshot.len(), snapshot.pieces().len(), records))
}

/// The same by the seats of a book.
fn find_in_new<E: Wait>(rt: &E, alloc: Global) -> Option<(u64, usize, [Option<u64>; 4])> {
    let Two {
        live,
        mut first,
        mut second,
    } = begin_two(alloc, 8)?;
    find_behind_two(rt, &live, &mut first, &mut second)
}

#[test]
fn a_snapshot_takes_in_what_is_new(rt: HostRuntime) {
    let found = find_in_new(&rt, rt.alloc());
    let records = [Some(8), Some(4), None, Some(6)];
    assert_eq!(rt; found, Some((5, 2, records)));
}
