//! The server: a thread for each client, and the caller's, which commits what they grow.

ghost use Rattle.std.specs.Prelude.{◌≡◌, ℕ, ◌<◌, ◌≤◌, List, length, vec_len, vec_capacity, IfOk, IfErr, OnOk};
ghost use Rattle.disk_core.specs.Fault.{CountsFailures};
ghost use Rattle.disk_core.specs.State.{IsImage, now};
ghost use Rattle.pen_core.specs.Opening.{IsAtRest};
ghost use Rattle.directory_core.specs.Known.{KnowsAll};
ghost use Rattle.directory_core.specs.Limits.{growth_limit};
ghost use Rattle.book_core.specs.Beginning.{AreNewSeats, seat_limit};
ghost use Rattle.flush_core.specs.Flusher.{IsFlusherOf, OpensToJob};
ghost use Rattle.vault_core.specs.Vault.{list_of};
ghost use Rattle.vault_core.specs.Sharing.{Shares, IsShareFault};
ghost use Rattle.serve_core.specs.Serving.{IsLeft, IsServeRefusal, IsOpenedFrom, HasFlushed, ComesBack, IsPhaseLeft, outcome_of, serve_failures};
ghost use Rattle.serve_core.specs.Clients.{AreBegun, IsServerRoom, LeavesClients, TakesClientsIn};

use crate::away::Away;
use crate::client::{Pipes, Start};
use crate::fault::ServeFault;
use crate::homing::{come_home, take_clients_in};
use crate::starting::start_all;
use book_core::{Live, Seat};
use directory_core::{GROWTH_LIMIT, PLACE_LIMIT};
use disk_core::Disk;
use flush_core::{FlushFault, Flusher};
use pen_core::PenFault;
use record_core::Record;
use std::alloc::Global;
use std::io::{Read, Write};
use std::snapshot::Snapshot;
use std::sync::Wait;
use std::thread;
use std::thread::{Scope, Threads};
use vault_core::{Vault, VaultFault};

/// What has been served.
#[derive(Clone, Copy)]
pub struct Served {
    /// So many growths of this server, the first of those that clients made, stand in the file.
    pub growths: u64,
}

/// Commits what clients grow, until the phase is closed.
fn flush_all<R: Record, D: Disk, E: Wait>(
    rt: &E,
    live: &Live<R>,
    flusher: &mut Flusher<R, D>,
) -> Result<(), FlushFault>
    requires { IsFlusherOf (D.keeps flusher.old.pen.disk) live.now flusher.old }
    ensures flushed { HasFlushed R.form D.keeps D.states D.faults live.now flusher.old flusher.new result }
    ensures all { OnOk result (KnowsAll flusher.new.pass) }
    ensures images { D.keeps flusher.new.pen.disk → (image : List ℕ) → IsImage (now (D.states flusher.new.pen.disk)) image → OpensToJob R.form flusher.new image }
{
    let flushed = flusher.serve(rt, live);
    // What the disk may leave then opens to what the flusher has in the file.
    let _disk = flusher.disk();
    flushed
}

/// What comes of clients, where that came of their flusher, which knows so many growths. Whether just they made those is told.
fn outcome(flushed: Result<(), FlushFault>, made_all: bool, known: u64) -> Result<(), ServeFault>
    ensures { result ≡ outcome_of flushed made_all known }
{
    match flushed {
        Ok(()) if made_all => Ok(()),
        Ok(()) => Err(ServeFault::Flush(FlushFault::Strayed(known))),
        Err(fault) => Err(ServeFault::Flush(fault)),
    }
}

/// Commits what these clients grow, whose threads run, until all have ended, and takes their seats in. A growth has strayed
/// where they didn't make just as many as are known.
fn serve_clients<R: Record, D: Disk, I: Read + Drop, W: Write + Drop, E: Threads + Wait>(
    rt: &E,
    live: &Live<R>,
    flusher: &mut Flusher<R, D>,
    pipes: &Snapshot<Vec<Pipes<I, W>>>,
    away: Vec<Away<R, I, W>>,
    room: Vec<Seat<R>>,
) -> Result<(), ServeFault>
    requires of { IsFlusherOf (D.keeps flusher.old.pen.disk) live.now flusher.old }
    requires begun { AreBegun live.now pipes.now.value.items away.items × (vec_len away ≡ vec_len pipes.now.value) }
    requires room { (vec_len room ≡ 0) × (vec_len away ≤ vec_capacity room) }
    ensures back { ComesBack R.form D.keeps D.states D.faults live.now flusher.old flusher.new result }
    ensures clients { TakesClientsIn R.form D.keeps D.states live.now I.remaining W.contents pipes.now.value.items flusher.new result }
{
    let flushed = flush_all(rt, live, flusher);
    let seats = come_home(rt, live, pipes, away, room);
    let made_all = take_clients_in(live, flusher, pipes, seats);
    outcome(flushed, made_all, flusher.known())
}

/// Starts the threads of all clients, and commits in this one what they grow.
fn run_all<
    's,
    'e,
    R: Record + 'e,
    D: Disk,
    I: Read + Send + Drop + 'e,
    W: Write + Send + Drop + 'e,
    E: Threads + Wait + Sync + 'e,
>(
    scope: &'s Scope<'s, &'e ()>,
    rt: &'e E,
    alloc: Global,
    start: &'e Start,
    live: &'e Live<R>,
    flusher: &mut Flusher<R, D>,
    seats: Vec<Seat<R>>,
    pipes: Vec<Pipes<I, W>>,
    room: Vec<Away<R, I, W>>,
) -> Result<(), ServeFault>
    requires of { IsFlusherOf (D.keeps flusher.old.pen.disk) live.now flusher.old }
    requires new { AreNewSeats live.now.directory live.now.mark seats.items }
    requires as_many { vec_len seats ≡ vec_len pipes }
    requires room { (vec_len room ≡ 0) × (vec_len pipes ≤ vec_capacity room) }
    ensures back { ComesBack R.form D.keeps D.states D.faults live.now flusher.old flusher.new result }
    ensures clients { TakesClientsIn R.form D.keeps D.states live.now I.remaining W.contents pipes.items flusher.new result }
{
    let given = Snapshot::of(&pipes);
    let mut seats = seats;
    let mut away = room;
    // Held until it is known whether each client has a thread.
    let mut all_run = start.all_run.lock(rt);
    let started = start_all(scope, rt, alloc, start, live, &mut seats, pipes, &mut away);
    *all_run = started;
    drop(all_run);
    if started {
        serve_clients(rt, live, flusher, &given, away, seats)
    } else {
        Err(ServeFault::Thread)
    }
}

/// Talks with all clients, each in a thread of its own, and commits in this one what they grow, until all have ended. No
/// client is served before all have a thread: else one without might wait for the end of another that waits for it. Where
/// one can't be started the flusher comes back as it was, once the others have ended.
fn run_phase<
    R: Record,
    D: Disk + Drop,
    I: Read + Send + Drop,
    W: Write + Send + Drop,
    E: Threads + Wait + Sync,
>(
    rt: &E,
    alloc: Global,
    live: &Live<R>,
    flusher: Flusher<R, D>,
    seats: Vec<Seat<R>>,
    pipes: Vec<Pipes<I, W>>,
    room: Vec<Away<R, I, W>>,
) -> (Flusher<R, D>, Result<(), ServeFault>)
    requires of { IsFlusherOf (D.keeps flusher.pen.disk) live.now flusher }
    requires new { AreNewSeats live.now.directory live.now.mark seats.items }
    requires as_many { vec_len seats ≡ vec_len pipes }
    requires room { (vec_len room ≡ 0) × (vec_len pipes ≤ vec_capacity room) }
    ensures back { ComesBack R.form D.keeps D.states D.faults live.now flusher result.0 result.1 }
    ensures clients { TakesClientsIn R.form D.keeps D.states live.now I.remaining W.contents pipes.items result.0 result.1 }
{
    let waiting = Start::of(pipes.len());
    let start = &waiting;
    thread::scope(
        thread::scope_env(),
        rt,
        move |scope| -> (Flusher<R, D>, Result<(), ServeFault>)
            requires { IsFlusherOf (D.keeps flusher.pen.disk) live.now flusher × AreNewSeats live.now.directory live.now.mark seats.items × (vec_len seats ≡ vec_len pipes)
                × (vec_len room ≡ 0) × (vec_len pipes ≤ vec_capacity room) }
            ensures back { ComesBack R.form D.keeps D.states D.faults live.entry.now flusher result.0 result.1 }
            ensures clients { TakesClientsIn R.form D.keeps D.states live.entry.now I.remaining W.contents pipes.items result.0 result.1 }
        {
            let mut flusher = flusher;
            let served = run_all(
                scope,
                rt,
                alloc,
                start,
                live,
                &mut flusher,
                seats,
                pipes,
                room,
            );
            (flusher, served)
        },
    )
}

/// Lets a flusher go: its disk, and how many growths it has settled.
fn disk_of<R: Record, D: Disk>(flusher: Flusher<R, D>) -> (D, u64)
    ensures disk { result.0 ≡ flusher.pen.disk }
    ensures count { result.1 ≡ flusher.settled }
    ensures known { result.1 ≤ length flusher.pass.entries }
    ensures images { D.keeps result.0 → (image : List ℕ) → IsImage (now (D.states result.0)) image → OpensToJob R.form flusher image }
{
    let settled = flusher.settled();
    let (disk, _) = flusher.into_parts();
    (disk, settled)
}

/// Serves a client with each of the seats, where there is memory for them.
fn serve_seats<
    R: Record,
    D: Disk + Drop,
    I: Read + Send + Drop,
    W: Write + Send + Drop,
    E: Threads + Wait + Sync,
>(
    rt: &E,
    alloc: Global,
    live: &Live<R>,
    flusher: Flusher<R, D>,
    seats: Vec<Seat<R>>,
    pipes: Vec<Pipes<I, W>>,
) -> (Flusher<R, D>, Result<(), ServeFault>)
    requires of { IsFlusherOf (D.keeps flusher.pen.disk) live.now flusher }
    requires new { AreNewSeats live.now.directory live.now.mark seats.items }
    requires as_many { vec_len seats ≡ vec_len pipes }
    ensures back { ComesBack R.form D.keeps D.states D.faults live.now flusher result.0 result.1 }
    ensures clients { TakesClientsIn R.form D.keeps D.states live.now I.remaining W.contents pipes.items result.0 result.1 }
{
    match Vec::with_capacity(alloc, pipes.len()) {
        Ok(room) => run_phase(rt, alloc, live, flusher, seats, pipes, room),
        Err(_) => {
            let fault = VaultFault::Pen(PenFault::Memory);
            (flusher, Err(ServeFault::Share(fault)))
        }
    }
}

/// Serves a client with each of the seats, and counts what is settled then. Gives the disk back.
fn serve_phase<
    R: Record,
    D: Disk + Drop,
    I: Read + Send + Drop,
    W: Write + Send + Drop,
    E: Threads + Wait + Sync,
>(
    rt: &E,
    alloc: Global,
    begun: (Live<R>, Flusher<R, D>, Vec<Seat<R>>),
    pipes: Vec<Pipes<I, W>>,
) -> (D, Served, Result<(), ServeFault>)
    requires of { IsFlusherOf (D.keeps begun.1.pen.disk) begun.0 begun.1 }
    requires new { AreNewSeats begun.0.directory begun.0.mark begun.2.items }
    requires as_many { vec_len begun.2 ≡ vec_len pipes }
    ensures { (phase : IsPhaseLeft R.form D.keeps D.states D.faults begun.0 begun.1 result.0 result.1.growths result.2)
        × TakesClientsIn R.form D.keeps D.states begun.0 I.remaining W.contents pipes.items phase.flusher result.2 }
{
    let (live, flusher, seats) = begun;
    let (flusher, served) = serve_seats(rt, alloc, &live, flusher, seats, pipes);
    let (disk, growths) = disk_of(flusher);
    (disk, Served { growths }, served)
}

/// Begins a phase with as much room as a directory has, or, where the system has no addresses for the passes of that, with
/// as much as any phase.
fn share_widest<R: Record, D: Disk>(
    vault: Vault<R, D>,
    seats: u16,
) -> Result<(Live<R>, Flusher<R, D>, Vec<Seat<R>>), (Vault<R, D>, VaultFault)>
    ensures shares { IfOk result (λ r. Shares (D.keeps vault.pen.disk) vault r.0.directory.room seats r.0 r.1) }
    ensures room { IfOk result (λ r. IsServerRoom r.0.directory.room) }
    ensures new { IfOk result (λ r. (length r.2.items ≡ seats) × AreNewSeats r.0.directory r.0.mark r.2.items) }
    ensures may { OnOk result ((0 < seats) × (seats ≤ seat_limit)) }
    ensures refused { IfErr result (λ r. (r.0 ≡ vault) × IsShareFault vault growth_limit seats r.1) }
{
    let (vault, fault) = match vault.share_wide(PLACE_LIMIT, seats) {
        Ok(begun) => return Ok(begun),
        Err(refused) => refused,
    };
    match fault {
        VaultFault::Pen(PenFault::Memory) => vault.share(GROWTH_LIMIT, seats),
        fault => Err((vault, fault)),
    }
}

/// Begins a phase over a vault that was just opened, and serves a client at each pair of pipes in it. Gives the disk back.
fn serve_vault<
    R: Record,
    D: Disk + Drop,
    I: Read + Send + Drop,
    W: Write + Send + Drop,
    E: Threads + Wait + Sync,
>(
    rt: &E,
    alloc: Global,
    vault: Vault<R, D>,
    pipes: Vec<Pipes<I, W>>,
) -> (D, Served, Result<(), ServeFault>)
    requires { IsAtRest R.form.width (length (list_of vault)) vault.pen }
    ensures left { (disk : D) → IsOpenedFrom R.form D.keeps D.states disk vault → D.keeps result.0 → IsLeft R.form D.states disk result.0 result.1.growths result.2 }
    ensures clients { (disk : D) → IsOpenedFrom R.form D.keeps D.states disk vault → D.keeps result.0 → LeavesClients R.form D.states I.remaining W.contents pipes.items disk result.0 result.1.growths result.2 }
    ensures refused { IfErr result.2 (IsServeRefusal R.form D.keeps D.states (vec_len pipes) result.0 result.1.growths) }
    ensures faults { CountsFailures serve_failures (D.faults vault.pen.disk) (D.faults result.0) result.2 }
    ensures model { D.keeps result.0 → D.keeps vault.pen.disk }
{
    let count = pipes.len().min(u16::MAX as usize) as u16;
    match share_widest(vault, count) {
        Ok(begun) => serve_phase(rt, alloc, begun, pipes),
        Err((vault, fault)) => (
            vault.into_disk(),
            Served { growths: 0 },
            Err(ServeFault::Share(fault)),
        ),
    }
}

/// Opens the file on the disk and serves a client at each pair of pipes, until all of them have ended. Each growth that a
/// client was told of is then settled, unless the file refused. Gives the disk back.
///
/// What is settled is what the clients grew, in the order of each. What a client was told as settled stands, whatever comes.
///
/// The calling thread commits, and each client has a thread of its own before any of them is served. So nobody waits for
/// a thread that the system refused: `Thread` is answered instead, and no request was read.
///
/// Refused, in this order: `Open`; `Share`; `Thread`; `Flush`, with `Strayed` also where a growth was settled that no client
/// made.
pub fn serve<
    R: Record,
    D: Disk + Drop,
    I: Read + Send + Drop,
    W: Write + Send + Drop,
    E: Threads + Wait + Sync,
>(rt: &E, alloc: Global, disk: D, pipes: Vec<Pipes<I, W>>) -> (D, Served, Result<(), ServeFault>)
    ensures left { D.keeps result.0 → IsLeft R.form D.states disk result.0 result.1.growths result.2 }
    ensures clients { D.keeps result.0 → LeavesClients R.form D.states I.remaining W.contents pipes.items disk result.0 result.1.growths result.2 }
    ensures refused { IfErr result.2 (IsServeRefusal R.form D.keeps D.states (vec_len pipes) result.0 result.1.growths) }
    ensures faults { CountsFailures serve_failures (D.faults disk) (D.faults result.0) result.2 }
    ensures model { D.keeps result.0 → D.keeps disk }
{
    match Vault::<R, D>::open(alloc, disk) {
        Ok(vault) => serve_vault(rt, alloc, vault, pipes),
        Err((disk, fault)) => (disk, Served { growths: 0 }, Err(ServeFault::Open(fault))),
    }
}
