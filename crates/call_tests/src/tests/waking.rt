//! A flusher that sleeps is woken by a growth of each call, and by a close; and it wakes who waits for the growth, also
//! where its disk stops.

ghost use Rattle.book_core.specs.Lists.{IsSeatOf};
ghost use Rattle.flush_core.specs.Flusher.{IsFlusherOf};

use book_core::{Live, Receipt, Seat};
use disk_core::{Blow, Disk, FuseDisk, RamDisk};
use flush_core::Flusher;
use std::alloc::Global;
use std::sync::Wait;
use std::test::Fail;
use std::thread;
use std::thread::Threads;
use std::time::{Clock, Duration};
use vault_core::Vault;

/// How many growths each call makes.
const ROUNDS: u64 = 20;

/// A phase with one seat, and who commits its growths.
#[derive(Drop)]
struct OneSeat<D: Disk> {
    live: Live<u64>,
    seat: Seat<u64>,
    flusher: Flusher<u64, D>,
    ghost of: { IsSeatOf live seat },
    ghost commits: { IsFlusherOf (D.keeps flusher.pen.disk) live flusher },
}

/// A phase over a new file.
fn begin<D: Disk + Drop>(alloc: Global, disk: D) -> Option<OneSeat<D>> {
    let Ok(vault) = Vault::<u64, D>::create(alloc, disk) else {
        return None;
    };
    let Ok((live, flusher, mut seats)) = vault.share(2 * ROUNDS, 1) else {
        return None;
    };
    let seat = live.take_seat(&mut seats)?;
    Some(OneSeat {
        live,
        seat,
        flusher,
    })
}

/// Grows by this call, once the flusher has had time to go to sleep.
fn grow_late<E: Wait + Clock>(
    rt: &E,
    live: &Live<u64>,
    seat: &mut Seat<u64>,
    size: u64,
    fills: bool,
) -> Option<Receipt>
    requires { IsSeatOf live.now seat.old }
    ensures { IsSeatOf live.now seat.new }
{
    thread::sleep(rt, Duration::from_millis(2));
    if fills {
        live.grow_to_at_least(rt, seat, size, 7).ok()?
    } else {
        live.push_back(rt, seat, 7).ok()
    }
}

/// Grows by one record so, and waits until that is settled. The number of growths that then are.
fn grow_settled<E: Wait + Clock>(
    rt: &E,
    live: &Live<u64>,
    seat: &mut Seat<u64>,
    size: u64,
    fills: bool,
) -> Option<u64>
    requires { IsSeatOf live.now seat.old }
    ensures { IsSeatOf live.now seat.new }
{
    let receipt = grow_late(rt, live, seat, size, fills)?;
    live.await_receipt(rt, seat, &receipt).ok()
}

/// Makes all growths, by each call in turn, up to the first that isn't settled. How many were.
fn grow_in_turn<E: Wait + Clock>(rt: &E, live: &Live<u64>, seat: Seat<u64>) -> u64
    requires { IsSeatOf live.now seat }
{
    let mut seat = seat;
    for k in 0..2 * ROUNDS {
        let size = k.wrapping_add(1);
        if grow_settled(rt, live, &mut seat, size, k % 2 == 1) != Some(size) {
            return k;
        }
    }
    2 * ROUNDS
}

/// The same, and closes the book, once the flusher has had time to go to sleep.
fn grow_and_close<E: Wait + Clock>(rt: &E, live: &Live<u64>, seat: Seat<u64>) -> u64
    requires { IsSeatOf live.now seat }
{
    let settled = grow_in_turn(rt, live, seat);
    thread::sleep(rt, Duration::from_millis(2));
    live.close(rt);
    settled
}

/// How many growths are settled once the book is closed.
pub(super) fn serve<D: Disk + Drop, E: Wait>(
    rt: &E,
    live: &Live<u64>,
    flusher: Flusher<u64, D>,
) -> Option<u64>
    requires { IsFlusherOf (D.keeps flusher.pen.disk) live.now flusher }
{
    let mut flusher = flusher;
    flusher.serve(rt, live).ok()?;
    Some(flusher.settled())
}

/// What two threads come to, of which one commits what the other grows.
fn serve_and_grow<D: Disk + Send + Drop, E: Threads + Wait + Clock + Sync>(
    rt: &E,
    served: OneSeat<D>,
) -> (Option<u64>, u64) {
    let OneSeat {
        live,
        seat,
        flusher,
    } = served;
    let live = &live;
    thread::join(
        rt,
        move || -> Option<u64>
            requires { IsFlusherOf (D.keeps flusher.pen.disk) live.now flusher }
        { serve(rt, live, flusher) },
        move || -> u64
            requires { IsSeatOf live.now seat }
        { grow_and_close(rt, live, seat) },
    )
}

#[test]
fn each_growth_and_a_close_wake_the_flusher(rt: HostRuntime) -> Result<(), Fail> {
    let served = begin(rt.alloc(), RamDisk::new(rt.alloc())).ok_or("no phase")?;
    let ended = serve_and_grow(&rt, served);
    assert_eq!(rt; ended, (Some(2 * ROUNDS), 2 * ROUNDS));
    Ok(())
}

/// Of so many calls behind the creation, each four settle a growth.
#[test]
fn who_waits_is_woken_where_the_disk_stops(rt: HostRuntime) -> Result<(), Fail> {
    for calls in 0..16u64 {
        let disk = FuseDisk::new(RamDisk::new(rt.alloc()), calls.wrapping_add(8), Blow::Stop);
        let served = begin(rt.alloc(), disk).ok_or("no phase")?;
        let ended = serve_and_grow(&rt, served);
        assert_eq!(rt; ended, (None, calls / 4));
    }
    Ok(())
}
