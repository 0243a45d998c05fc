//! A store of samples in a file: threads append batches to it, each once the one before is durable, and read the newest
//! samples meanwhile. At the end the seats and the flusher come back, and are the store again. Started again, also after it was
//! killed, the program goes on behind what stands. A further word is the file.

ghost use Rattle.std.specs.Prelude.{All, IfOk};
ghost use Rattle.concurrent_vector.specs.Lists.{IsSeatOf};
ghost use Rattle.concurrent_vector.specs.Beginning.{AreNewSeats};
ghost use Rattle.concurrent_vector.specs.Flusher.{IsFlusherOf};
ghost use Rattle.concurrent_vector.specs.Gathering.{AreOfPhase};

use crate::sample::Sample;
use concurrent_vector::{
    Disk, Fault, FileDisk, Flusher, Format, GROWTH_LIMIT, Live, OpenFault, ScanFault, Seat, Vault,
    gather,
};
use std::alloc::{AllocGlobal, Global};
use std::fs::File;
use std::rt::Files;
use std::snapshot::Snapshot;
use std::sync::atomic::AtomicU64;
use std::sync::atomic::Ordering::SeqCst;
use std::sync::{OnceLock, Wait};
use std::thread::{Promise, Threads};
use std::{io, thread};

/// How many sensors there are, how many batches each appends, and how many samples are one batch.
const SENSORS: u16 = 3;

const BATCHES: u64 = 20;

const BATCH: u64 = 50;

/// How many samples are one window.
const WINDOW: u64 = 200;

/// Appends a sensor's batches, each once the one before is durable, and looks at the newest samples behind each, while the
/// others append. Counts those of its batches that stood among whole ones: all, for a growth is there whole or not at all.
fn sense<E: Wait>(
    rt: &E,
    live: &Live<Sample>,
    seat: &mut Seat<Sample>,
    whole: &AtomicU64,
) -> Result<(), Fault>
    requires { IsSeatOf live.now seat.old }
    ensures { IsSeatOf live.now seat.new }
{
    let sensor = u32::from(seat.id());
    for batch in 0..BATCHES {
        let value = batch as i64;
        let receipt = live.grow_by(rt, seat, BATCH, Sample { sensor, value })?;
        live.await_receipt(rt, seat, &receipt)?;
        live.look(seat)?;
        let store = live.snapshot(seat)?;
        let newest = store.len().saturating_sub(WINDOW)..store.len();
        let is_mine = |i: &u64| store.get(*i).is_some_and(|sample| sample.sensor == sensor);
        if newest.filter(is_mine).count() as u64 % BATCH == 0 {
            whole.fetch_add(1, SeqCst);
        }
    }
    Ok(())
}

/// A thread for each seat, and then the flusher may end. The seats come back, unless one of the sensors was refused.
fn work<E: Threads + Wait + Sync>(
    rt: &E,
    live: &Live<Sample>,
    seats: Vec<Seat<Sample>>,
    whole: &AtomicU64,
) -> Result<Vec<Seat<Sample>>, Fault>
    requires { AreNewSeats live.now.directory live.now.mark seats.items }
    ensures { IfOk result (λ back. All (IsSeatOf live.now) back.items) }
{
    let mut seats = seats;
    let refused = OnceLock::new();
    thread::for_each_mut(
        rt,
        seats.as_mut_slice(),
        SENSORS as usize,
        &|_, seat: &mut Seat<Sample>|
            requires { IsSeatOf live.now seat.old }
            ensures { IsSeatOf live.entry.now seat.new }
        {
            if let Err(fault) = sense(rt, live, seat, whole) {
                let _ = refused.set(rt, fault);
            }
        },
    );
    live.close(rt);
    refused.into_inner().map_or(Ok(seats), Err)
}

/// What is promised of seats that come back from a thread: they are of the `Live` that they were used with.
#[derive(Drop)]
struct ComeBack(Snapshot<Live<Sample>>);

impl Promise<Result<Vec<Seat<Sample>>, Fault>> for ComeBack {
    ghost use Rattle.std.specs.Prelude.{All, IfOk};
    ghost use Rattle.concurrent_vector.specs.Lists.{IsSeatOf};

    ghost kept_by = { λ promise result. IfOk result (λ seats. All (IsSeatOf promise.0.value) seats.items) };
}

/// Lets the sensors work, and commits what they append in this thread, which runs already: no sensor waits for a thread
/// that the system may refuse. Then all parts of the phase are back.
fn serve<E: Threads + Wait + Sync, D: Disk + Drop>(
    rt: &E,
    live: &Live<Sample>,
    flusher: Flusher<Sample, D>,
    seats: Vec<Seat<Sample>>,
    whole: &AtomicU64,
) -> Result<(Vec<Seat<Sample>>, Flusher<Sample, D>), Fault>
    requires flusher { IsFlusherOf (D.keeps flusher.pen.disk) live.now flusher }
    requires seats { AreNewSeats live.now.directory live.now.mark seats.items }
    ensures { IfOk result (λ back. AreOfPhase (D.keeps back.1.pen.disk) live.now back.0.items back.1) }
{
    thread::scope(
        thread::scope_env(),
        rt,
        move |scope| -> Result<(Vec<Seat<Sample>>, Flusher<Sample, D>), Fault>
            requires { IsFlusherOf (D.keeps flusher.pen.disk) live.now flusher × AreNewSeats live.now.directory live.now.mark seats.items }
            ensures { IfOk result (λ back. AreOfPhase (D.keeps back.1.pen.disk) live.entry.now back.0.items back.1) }
        {
            let mut flusher = flusher;
            let working = scope.spawn_with(
                ComeBack(Snapshot::of(live)),
                move || -> Result<Vec<Seat<Sample>>, Fault>
                    requires { AreNewSeats live.now.directory live.now.mark seats.items }
                    ensures { IfOk result (λ seats. All (IsSeatOf live.entry.now) seats.items) }
                { work(rt, live, seats, whole) },
            )?;
            flusher.serve(rt, live)?;
            Ok((working.join(rt)?, flusher))
        },
    )
}

/// Lets the sensors append to the store, and has it back.
fn grow_store<E: Threads + Wait + Sync, D: Disk + Drop>(
    rt: &E,
    alloc: Global,
    store: Vault<Sample, D>,
    whole: &AtomicU64,
) -> Result<Vault<Sample, D>, Fault> {
    let (live, flusher, seats) = store.share(GROWTH_LIMIT, SENSORS)?;
    let (seats, flusher) = serve(rt, &live, flusher, seats, whole)?;
    Ok(gather(alloc, live, seats, flusher)?)
}

/// Opens the store and appends to it. How many samples were there, and how many batches are new in it, of which each stood
/// among whole ones.
fn grow<E: Threads + Wait + Sync, D: Disk + Drop>(
    rt: &E,
    alloc: Global,
    disk: D,
) -> Result<(u64, u64), Fault> {
    let store = open(alloc, disk)?;
    let before = store.len();
    let whole = AtomicU64::new(0);
    let store = grow_store(rt, alloc, store, &whole)?;
    let new = store.len().saturating_sub(before) / BATCH;
    Ok((before, new.min(whole.load(SeqCst))))
}

/// The store in the file, a new one where there is none.
fn open<D: Disk + Drop>(alloc: Global, disk: D) -> Result<Vault<Sample, D>, Fault> {
    match Vault::open(alloc, disk) {
        Err((disk, OpenFault::Scan(ScanFault::Unborn))) => Ok(Vault::create_as(
            alloc,
            disk,
            Format::Two,
        )?),
        opened => Ok(opened?),
    }
}

/// Writes how many samples were in the file, and how many batches are new.
pub fn tell<E: Threads + Wait + Print + Files<File = File> + AllocGlobal + Sync>(
    rt: &E,
    alloc: Global,
    words: &[String],
) -> io::Result<()> {
    let Some(path) = words.first() else {
        return println!(rt; "which file?");
    };
    match grow(rt, alloc, FileDisk::make(rt, path.as_str())?) {
        Ok((before, new)) => println!(rt; "{before} samples were there, {new} batches are new"),
        Err(fault) => println!(rt; "{fault}"),
    }
}
