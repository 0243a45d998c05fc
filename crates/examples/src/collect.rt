//! Results that a pool of threads collects in one vector: each thread counts, for each number of its share, the steps
//! that the Collatz sequence takes from it to 1.

ghost use Rattle.concurrent_vector.specs.Lists.{IsSeatOf};
ghost use Rattle.concurrent_vector.specs.Beginning.{AreNewSeats};

use concurrent_vector::{Appender, Begun, Fault, Live, Pair, Seat};
use std::alloc::Global;
use std::sync::Wait;
use std::thread::Threads;
use std::{io, thread};

const THREADS: u16 = 4;

/// How many numbers are one thread's share.
const SHARE: u64 = 10_000;

/// How many results are one growth.
const BLOCK: u64 = 256;

/// How many steps it takes from `n` to 1, where these are below 1,000.
fn steps(n: u64) -> i64 {
    let mut at = n;
    for count in 0..1000 {
        if at <= 1 {
            return count;
        }
        at = if at % 2 == 0 {
            at / 2
        } else {
            at.wrapping_mul(3).wrapping_add(1)
        };
    }
    1000
}

/// One thread: pushes a result for each number of its share, which its seat's id chooses.
fn work<E: Wait>(rt: &E, alloc: Global, live: &Live<Pair>, seat: Seat<Pair>) -> Result<(), Fault>
    requires { IsSeatOf live.now seat }
{
    let first = (seat.id() as u64).wrapping_mul(SHARE).wrapping_add(1);
    let mut results = Appender::new(alloc, seat, BLOCK)?;
    for k in 0..SHARE {
        let key = first.wrapping_add(k);
        let value = steps(key);
        results.push(rt, live, Pair { key, value })?;
    }
    results.finish(rt, live)?;
    Ok(())
}

/// How many results there are, and the one with the most steps; of several, that of the least number.
fn longest(live: &Live<Pair>, seat: &mut Seat<Pair>) -> Result<(u64, Pair), Fault>
    requires { IsSeatOf live.now seat.old }
{
    live.look(seat)?;
    let results = live.snapshot(seat)?;
    let mut most = Pair { key: 0, value: -1 };
    for result in results.iter() {
        if (most.value, result.key) < (result.value, most.key) {
            most = *result;
        }
    }
    Ok((results.len(), most))
}

/// A thread for each seat, until all have ended.
fn fill<E: Threads + Wait + Sync>(
    rt: &E,
    alloc: Global,
    live: &Live<Pair>,
    seats: Vec<Seat<Pair>>,
) -> Result<(), Fault>
    requires { AreNewSeats live.now.directory live.now.mark seats.items }
{
    let ended = thread::map_vec(
        rt,
        seats,
        &|seat: Seat<Pair>| -> Result<(), Fault>
            requires { IsSeatOf live.now seat }
        { work(rt, alloc, live, seat) },
    )?;
    for one in ended {
        one?;
    }
    Ok(())
}

/// Runs the pool in a phase, and reads what it collected by one more seat.
fn collect_in<E: Threads + Wait + Sync>(
    rt: &E,
    alloc: Global,
    live: &Live<Pair>,
    mut seats: Vec<Seat<Pair>>,
) -> Result<(u64, Pair), Fault>
    requires { AreNewSeats live.now.directory live.now.mark seats.items }
{
    let mut reader = live.take_seat(&mut seats).ok_or(Fault::Memory)?;
    fill(rt, alloc, live, seats)?;
    longest(live, &mut reader)
}

/// Collects in a phase without a file.
fn collect<E: Threads + Wait + Sync>(rt: &E, alloc: Global) -> Result<(u64, Pair), Fault> {
    let room = (THREADS as u64).saturating_mul(SHARE.div_ceil(BLOCK));
    let Begun { live, seats, .. } = Live::begin(alloc, Vec::new(alloc), room, THREADS + 1)?;
    collect_in(rt, alloc, &live, seats)
}

/// Writes how many results there are, and the one with the most steps.
pub fn tell<E: Threads + Wait + Print + Sync>(rt: &E, alloc: Global) -> io::Result<()> {
    match collect(rt, alloc) {
        Ok((count, Pair { key, value })) => println!(rt;
            "{count} results, {key} takes {value} steps"
        ),
        Err(fault) => println!(rt; "{fault}"),
    }
}
