//! A growth phase of many threads: one for each grower, and one that commits what they put.

ghost use Rattle.std.specs.Prelude.{◌≡◌, ◌≢◌, ◌+◌, ◌<◌, ◌≤◌, [], Some, None, map, length, vec_len, vec_capacity, IfOk, IfErr, IfSome};
ghost use Rattle.book_core.specs.Beginning.{AreNewSeats};
ghost use Rattle.flush_core.specs.Flusher.{IsFlusherOf};
ghost use Rattle.flush_core.specs.Serving.{Serves};
ghost use Rattle.crew_core.specs.Crewing.{AllHeed, AreSent, AreHome, HasCome, HasGrown, HasCrewed, IsCrewFault, crew_room};
ghost use Rattle.crew_core.specs.Leaving.{LeavesGrowths};

use crate::grower::Grower;
use crate::leaving::with_all_known;
use crate::sent::{Grows, Sent};
use crate::source::{Gate, Source};
use book_core::{GrowFault, Live, Receipt, Seat};
use disk_core::Disk;
use flush_core::Flusher;
use pen_core::PenFault;
use record_core::Record;
use std::alloc::{AllocError, Global};
use std::sync::Wait;
use std::sync::atomic::{AtomicU64, Ordering};
use std::thread;
use std::thread::Threads;
use vault_core::{Gathering, Vault, VaultFault, gather};

/// What came of a crew: the vault, the receipts of each grower's growths, and its fault, if it had one.
#[derive(Drop)]
pub struct Crewed<R: Record, D: Disk> {
    pub vault: Vault<R, D>,
    pub receipts: Vec<Vec<Receipt>>,
    pub faults: Vec<Option<GrowFault>>,
}

/// Why a crew gave no vault.
#[derive(Drop)]
pub enum CrewFault<R: Record, D: Disk> {
    /// The phase wasn't begun.
    Share(Vault<R, D>, VaultFault),
    /// It wasn't ended.
    Gather(Gathering<R, D>),
}

/// Growers that have come home.
#[derive(Drop)]
struct Returned<R: Record> {
    seats: Vec<Seat<R>>,
    receipts: Vec<Vec<Receipt>>,
    faults: Vec<Option<GrowFault>>,
}

/// The rows that a crew needs, empty, with room for all growers.
#[derive(Drop)]
struct Rows<R: Record, S: Source<R>, G: Gate> {
    sent: Vec<Sent<R, S, G>>,
    receipts: Vec<Vec<Receipt>>,
    faults: Vec<Option<GrowFault>>,
    growers: usize,
    ghost none_sent: { (vec_len sent ≡ 0) × (growers ≤ vec_capacity sent) },
    ghost no_receipts: { (vec_len receipts ≡ 0) × (growers ≤ vec_capacity receipts) },
    ghost no_faults: { (vec_len faults ≡ 0) × (growers ≤ vec_capacity faults) },
}

impl<R: Record, S: Source<R>, G: Gate> Rows<R, S, G> {
    fn take(alloc: Global, growers: usize) -> Result<Rows<R, S, G>, AllocError>
        ensures { IfOk result (λ rows. rows.growers ≡ growers) }
    {
        Ok(Rows {
            sent: Vec::with_capacity(alloc, growers)?,
            receipts: Vec::with_capacity(alloc, growers)?,
            faults: Vec::with_capacity(alloc, growers)?,
            growers,
        })
    }
}

/// For how many growths a source wants room.
fn room_of<R: Record, S: Source<R>>(source: &S) -> u64
    ensures { result ≡ crew_room (S.count_of source.now) (S.growers_of source.now) }
{
    let mut room: u64 = 0;
    for grower in 0..source.growers() {
        room += source.count(grower) as u64;
    }
    room.max(1)
}

/// A number that no grower has.
const NOBODY: u64 = 1 << 16;

/// What a grower's thread runs. The one whose thread couldn't be started comes home as it is, and no other does.
fn run<R: Record, S: Source<R>, G: Gate, E: Wait>(
    rt: &E,
    alloc: Global,
    live: &Live<R>,
    source: &S,
    gate: &G,
    unstarted: u64,
    id: u16,
    grower: Grower<R>,
) -> Grower<R>
    requires id { (grower.seat.id ≡ id) × (id < S.growers_of source.now) }
    requires none { (grower.seat.made ≡ []) × (grower.fault ≡ None) }
    requires grown { HasGrown R.form.width live.now (S.count_of source.now id) (S.block_of source.now id) id grower.seat grower.receipts.items None }
    ensures come { HasCome R.form.width live.now (S.count_of source.now id) (S.block_of source.now id) (G.may_stop gate.now id) (G.has_let gate.now id) (G.was_told gate.now id) id result.seat result.receipts.items result.fault }
    ensures none { unstarted ≡ id → (result.fault ≡ Some GrowFault.Memory) × (result.receipts.items ≡ []) }
    ensures own { unstarted ≢ id → IfSome result.fault (λ _. G.has_let gate.now id (length result.receipts.items)) }
{
    if unstarted == id as u64 {
        let Grower { seat, receipts, .. } = grower;
        return Grower {
            seat,
            receipts,
            fault: Some(GrowFault::Memory),
        };
    }
    grower.grow_on(rt, alloc, live, source, gate)
}

/// Waits for those that were sent out, of which the last one is the first grower.
fn come_home<R: Record, S: Source<R>, G: Gate, E: Threads>(
    rt: &E,
    _live: &Live<R>,
    _source: &S,
    _gate: &G,
    sent: Vec<Sent<R, S, G>>,
    seats: Vec<Seat<R>>,
    receipts: Vec<Vec<Receipt>>,
    faults: Vec<Option<GrowFault>>,
) -> Returned<R>
    requires sent { AreSent _live.now _source.now _gate.now (vec_len sent) sent.items }
    requires none { (vec_len seats ≡ 0) × (vec_len receipts ≡ 0) × (vec_len faults ≡ 0) }
    requires room { (vec_len sent ≤ vec_capacity seats) × (vec_len sent ≤ vec_capacity receipts) × (vec_len sent ≤ vec_capacity faults) }
    ensures { AreHome R.form.width _live.now (S.count_of _source.now) (S.block_of _source.now) (G.may_stop _gate.now) (G.has_let _gate.now) (G.was_told _gate.now) (vec_len sent) result.seats.items (map (λ its. its.items) result.receipts.items) result.faults.items }
{
    let mut sent = sent;
    let mut seats = seats;
    let mut receipts = receipts;
    let mut faults = faults;
    for _ in 0..sent.len() {
        let Grower {
            seat,
            receipts: its,
            fault,
        } = sent.take_last().join(rt);
        seats.push_reserved(seat);
        receipts.push_reserved(its);
        faults.push_reserved(fault);
    }
    Returned {
        seats,
        receipts,
        faults,
    }
}

/// Sends out the growers of these seats, each in a thread of its own, and waits until all are home.
fn grow_all<R: Record, S: Source<R>, G: Gate, E: Threads + Wait + Sync>(
    rt: &E,
    alloc: Global,
    live: &Live<R>,
    source: &S,
    gate: &G,
    seats: Vec<Seat<R>>,
    rows: Rows<R, S, G>,
) -> Returned<R>
    requires seats { AreNewSeats live.now.directory live.now.mark seats.items }
    requires growers { (vec_len seats ≡ S.growers_of source.now) × (rows.growers ≡ vec_len seats) }
    ensures { AreHome R.form.width live.now (S.count_of source.now) (S.block_of source.now) (G.may_stop gate.now) (G.has_let gate.now) (G.was_told gate.now) (vec_len seats) result.seats.items (map (λ its. its.items) result.receipts.items) result.faults.items }
{
    let nobody = AtomicU64::new(NOBODY);
    let unstarted = &nobody;
    thread::scope(
        thread::scope_env(),
        rt,
        move |scope| -> Returned<R>
            requires { AreNewSeats live.now.directory live.now.mark seats.items × (vec_len seats ≡ S.growers_of source.now) × (rows.growers ≡ vec_len seats) }
            ensures { AreHome R.form.width live.entry.now (S.count_of source.entry.now) (S.block_of source.entry.now) (G.may_stop gate.entry.now) (G.has_let gate.entry.now) (G.was_told gate.entry.now) (vec_len seats) result.seats.items (map (λ its. its.items) result.receipts.items) result.faults.items }
        {
            let rows = rows;
            let Rows {
                mut sent,
                receipts,
                faults,
                growers,
            } = rows;
            let mut seats = seats;
            for _ in 0..growers {
                let seat = seats.take_last();
                let id = seat.id();
                let grower = Grower::new(alloc, seat);
                let started = scope.spawn_with(
                    Grows::of(live, source, gate, id),
                    move || -> Grower<R>
                        requires { (grower.seat.id ≡ id) × (id < S.growers_of source.now) × (grower.seat.made ≡ []) × (grower.fault ≡ None) × HasGrown R.form.width live.now (S.count_of source.now id) (S.block_of source.now id) id grower.seat grower.receipts.items None }
                        ensures { HasCome R.form.width live.entry.now (S.count_of source.entry.now id) (S.block_of source.entry.now id) (G.may_stop gate.entry.now id) (G.has_let gate.entry.now id) (G.was_told gate.entry.now id) id result.seat result.receipts.items result.fault }
                    {
                        run(
                            rt,
                            alloc,
                            live,
                            source,
                            gate,
                            unstarted.load(Ordering::SeqCst),
                            id,
                            grower,
                        )
                    },
                );
                match started {
                    Ok(handle) => sent.push_reserved(Sent::away(live, source, gate, id, handle)),
                    Err(back) => {
                        unstarted.store(id as u64, Ordering::SeqCst);
                        let grower = (back.value)();
                        sent.push_reserved(Sent::home(live, source, gate, id, grower));
                    }
                }
            }
            come_home(rt, live, source, gate, sent, seats, receipts, faults)
        },
    )
}

/// The phase of a crew: the growers grow, one more thread commits, and the book is closed once all are home. Where the
/// thread that commits can't be started, this one commits after that.
fn run_phase<R: Record, D: Disk + Send + Drop, S: Source<R>, G: Gate, E: Threads + Wait + Sync>(
    rt: &E,
    alloc: Global,
    live: &Live<R>,
    flusher: Flusher<R, D>,
    source: &S,
    gate: &G,
    seats: Vec<Seat<R>>,
    rows: Rows<R, S, G>,
) -> (Flusher<R, D>, Returned<R>)
    requires flusher { IsFlusherOf (D.keeps flusher.pen.disk) live.now flusher }
    requires seats { AreNewSeats live.now.directory live.now.mark seats.items }
    requires growers { (vec_len seats ≡ S.growers_of source.now) × (rows.growers ≡ vec_len seats) }
    ensures flusher { IsFlusherOf (D.keeps result.0.pen.disk) live.now result.0 }
    ensures served { Serves R.form D.keeps D.states flusher result.0 }
    ensures home { AreHome R.form.width live.now (S.count_of source.now) (S.block_of source.now) (G.may_stop gate.now) (G.has_let gate.now) (G.was_told gate.now) (vec_len seats) result.1.seats.items (map (λ its. its.items) result.1.receipts.items) result.1.faults.items }
{
    thread::join(
        rt,
        move || -> Flusher<R, D>
            requires { IsFlusherOf (D.keeps flusher.pen.disk) live.now flusher }
            ensures of { IsFlusherOf (D.keeps result.pen.disk) live.entry.now result }
            ensures served { Serves R.form D.keeps D.states flusher result }
        { serve(rt, live, flusher) },
        move || -> Returned<R>
            requires { AreNewSeats live.now.directory live.now.mark seats.items × (vec_len seats ≡ S.growers_of source.now) × (rows.growers ≡ vec_len seats) }
            ensures { AreHome R.form.width live.entry.now (S.count_of source.entry.now) (S.block_of source.entry.now) (G.may_stop gate.entry.now) (G.has_let gate.entry.now) (G.was_told gate.entry.now) (vec_len seats) result.seats.items (map (λ its. its.items) result.receipts.items) result.faults.items }
        {
            let home = grow_all(rt, alloc, live, source, gate, seats, rows);
            live.close(rt);
            home
        },
    )
}

/// Commits what the growers put, until the book is closed.
fn serve<R: Record, D: Disk, E: Wait>(
    rt: &E,
    live: &Live<R>,
    flusher: Flusher<R, D>,
) -> Flusher<R, D>
    requires { IsFlusherOf (D.keeps flusher.pen.disk) live.now flusher }
    ensures of { IsFlusherOf (D.keeps result.pen.disk) live.now result }
    ensures served { Serves R.form D.keeps D.states flusher result }
{
    let mut flusher = flusher;
    let _ = flusher.serve(rt, live);
    flusher
}

/// Runs a growth phase with one thread for each grower of the source, and one more that commits what they put, and gives
/// back the vault and the receipts. A grower grows by the source's blocks, one after the other: before each it asks the
/// gate, and after it it tells the gate the receipt. It stops where the gate says no, or at its first fault; one whose
/// thread can't be started has the fault `Memory`.
///
/// Refused: `Share`, as `share` is, for a room of all blocks of the source and a seat for each grower; `Gather`, as `gather`
/// is, and the flusher then knows all that the seats know.
pub fn crew<R: Record, D: Disk + Send + Drop, S: Source<R>, G: Gate, E: Threads + Wait + Sync>(
    rt: &E,
    alloc: Global,
    vault: Vault<R, D>,
    source: &S,
    gate: &G,
) -> Result<Crewed<R, D>, CrewFault<R, D>>
    ensures crewed { IfOk result (λ crewed. HasCrewed R.form D.keeps D.states (S.count_of source.now) (S.block_of source.now) (G.may_stop gate.now) (S.growers_of source.now) vault crewed.vault (map (λ its. its.items) crewed.receipts.items) crewed.faults.items) }
    ensures heeds { IfOk result (λ crewed. AllHeed (G.has_let gate.now) (G.was_told gate.now) (S.growers_of source.now) (map (λ its. its.items) crewed.receipts.items) crewed.faults.items) }
    ensures refused { IfErr result (IsCrewFault R.form D.keeps D.states vault (crew_room (S.count_of source.now) (S.growers_of source.now)) (S.growers_of source.now)) }
    ensures leaves { IfErr result (LeavesGrowths (S.count_of source.now) (S.block_of source.now) (S.growers_of source.now)) }
{
    let growers = source.growers();
    let room = room_of::<R, S>(source);
    if let Err(fault) = vault.check_share(room, growers) {
        return Err(CrewFault::Share(vault, fault));
    }
    let Ok(rows) = Rows::take(alloc, growers as usize) else {
        return Err(CrewFault::Share(vault, VaultFault::Pen(PenFault::Memory)));
    };
    let (live, flusher, seats) = match vault.share(room, growers) {
        Ok(begun) => begun,
        Err((vault, fault)) => return Err(CrewFault::Share(vault, fault)),
    };
    let (flusher, home) = run_phase(rt, alloc, &live, flusher, source, gate, seats, rows);
    let Returned {
        seats,
        receipts,
        faults,
    } = home;
    match gather(alloc, live, seats, flusher) {
        Ok(vault) => Ok(Crewed {
            vault,
            receipts,
            faults,
        }),
        Err(gathering) => Err(CrewFault::Gather(with_all_known(gathering))),
    }
}
