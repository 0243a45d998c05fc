//! No growth is published behind a close that has returned: it waits for those that are under way.
//!
//! No clause says so. Threads grow without a pause while one closes the book, which looks until then, and so knows nearly all of
//! their growths. What it finds behind the close is what they made in all.

ghost use Rattle.book_core.specs.Beginning.{AreNewSeats};

use super::waiting::{Seated, seat_all};
use book_core::{Live, Seat};
use disk_core::RamDisk;
use std::alloc::{AllocGlobal, Global};
use std::sync::Wait;
use std::sync::atomic::{AtomicU64, Ordering};
use std::test::Fail;
use std::thread;
use std::thread::{Scope, Threads};
use vault_core::Vault;

/// How many threads grow.
const GROWERS: u16 = 3;

/// More growths than they make before a close.
const ROOM: u64 = 1 << 18;

/// How many phases there are, of which each looks more often than the one before it.
const PHASES: u64 = 300;

/// Grows by a record, again and again, until the book is closed. How many growths that were.
fn grow_on<E: Wait>(rt: &E, own: &mut Seated) -> u64 {
    for made in 0..ROOM {
        if own.live.push_back(rt, &mut own.seat, 7).is_err() {
            return made;
        }
    }
    ROOM
}

/// Starts a thread for each seat, which adds to `made` how many growths it makes. Whether the system started all.
fn start_growers<'s, 'e, E: Wait + Sync + 'e>(
    scope: &'s Scope<'s, &'e ()>,
    rt: &'e E,
    seats: Vec<Seated<'e>>,
    made: &'e AtomicU64,
) -> bool {
    for own in seats {
        let started = scope.spawn(move || {
            let mut own = own;
            made.fetch_add(grow_on(rt, &mut own), Ordering::SeqCst);
        });
        if started.is_err() {
            return false;
        }
    }
    true
}

/// Closes the book behind so many looks. How many growths of one record there are then.
fn close_behind<E: Wait>(rt: &E, own: &mut Seated, looks: u64) -> Option<u64> {
    for _ in 0..looks {
        let _ = own.live.look(&mut own.seat);
    }
    own.live.close(rt);
    own.live.look(&mut own.seat).ok()
}

/// Closes the book beside growers, whose growths are counted. How many it found when it had closed it.
fn close_beside<E: Threads + Wait + Sync>(
    rt: &E,
    alloc: Global,
    live: &Live<u64>,
    seats: Vec<Seat<u64>>,
    looks: u64,
    made: &AtomicU64,
) -> Option<u64>
    requires { AreNewSeats live.now.directory live.now.mark seats.items }
{
    let Ok(all) = seat_all(alloc, live, seats) else {
        return None;
    };
    let mut growers = all;
    let own = growers.pop()?;
    thread::scope(thread::scope_env(), rt, move |scope| -> Option<u64> {
        let mut own = own;
        let started = start_growers(scope, rt, growers, made);
        let found = close_behind(rt, &mut own, looks);
        if started { found } else { None }
    })
}

/// How many growths a close of a new phase found, and how many were made.
fn close_new<E: Threads + Wait + AllocGlobal + Sync>(rt: &E, looks: u64) -> Option<(u64, u64)> {
    let alloc = rt.alloc();
    let Ok(vault) = Vault::<u64, RamDisk>::create(alloc, RamDisk::new(alloc)) else {
        return None;
    };
    let Ok((live, _flusher, seats)) = vault.share(ROOM, GROWERS + 1) else {
        return None;
    };
    let made = AtomicU64::new(0);
    let found = close_beside(rt, alloc, &live, seats, looks, &made)?;
    Some((found, made.load(Ordering::SeqCst)))
}

#[test]
fn a_close_waits_for_growths_under_way(rt: HostRuntime) -> Result<(), Fail> {
    for phase in 0..PHASES {
        let (found, made) = close_new(&rt, phase).ok_or("no phase, or a thread wasn't started")?;
        assert_eq!(rt; found, made);
    }
    Ok(())
}
