//! A crew whose disk fails hands back the parts of its phase. The flusher takes in every seat, and each image then opens
//! to the first growths, each whole, all that is settled among them.

ghost use Rattle.std.specs.Prelude.{All, IfOk, IfSome};
ghost use Rattle.book_core.specs.Lists.{IsSeatOf};
ghost use Rattle.flush_core.specs.Flusher.{IsFlusherOf};
ghost use Rattle.vault_core.specs.Gathering.{AreOfPhase};

use book_core::{Live, Seat};
use crew_core::{CrewFault, Lists, OpenGate, crew};
use disk_core::{Blow, Choice, Disk, FuseDisk, ImageLength, PendingBytes, RamDisk};
use flush_core::Flusher;
use segment_core::{Format, scan};
use std::alloc::{AllocError, Global};
use std::sync::Wait;
use std::test::Fail;
use std::thread::Threads;
use vault_core::{Gathering, Vault};

/// How many growths each of the two growers makes, of two equal records that no other growth has.
const GROWTHS: u64 = 12;

/// What the two growers make.
fn growths_of_two(alloc: Global) -> Result<Vec<Vec<Vec<u64>>>, AllocError> {
    let mut lists = Vec::new(alloc);
    for grower in 0..2u64 {
        lists.push(growths_of(alloc, grower)?)?;
    }
    Ok(lists)
}

/// What one of them makes.
fn growths_of(alloc: Global, grower: u64) -> Result<Vec<Vec<u64>>, AllocError> {
    let mut blocks = Vec::new(alloc);
    for serial in 0..GROWTHS {
        let record = grower.wrapping_mul(GROWTHS).wrapping_add(serial);
        blocks.push(Vec::from_slice(alloc, &[record, record])?)?;
    }
    Ok(blocks)
}

/// The last of a phase's seats.
fn take_seat(live: &Live<u64>, seats: &mut Vec<Seat<u64>>) -> Option<Seat<u64>>
    requires { All (IsSeatOf live.now) seats.old.items }
    ensures rest { All (IsSeatOf live.now) seats.new.items }
    ensures seat { IfSome result (λ seat. IsSeatOf live.now seat) }
{
    seats.pop()
}

/// Takes a seat in, as `take_in` does.
fn take_seat_in<D: Disk>(live: &Live<u64>, flusher: &mut Flusher<u64, D>, seat: Seat<u64>)
    requires { IsFlusherOf (D.keeps flusher.old.pen.disk) live.now flusher.old × IsSeatOf live.now seat }
    ensures { IsFlusherOf (D.keeps flusher.new.pen.disk) live.now flusher.new }
{
    flusher.take_in(live, seat);
}

/// Takes the last of the seats in.
fn take_last_in<D: Disk>(
    live: &Live<u64>,
    flusher: &mut Flusher<u64, D>,
    seats: &mut Vec<Seat<u64>>,
)
    requires flusher { IsFlusherOf (D.keeps flusher.old.pen.disk) live.now flusher.old }
    requires seats { All (IsSeatOf live.now) seats.old.items }
    ensures flusher { IsFlusherOf (D.keeps flusher.new.pen.disk) live.now flusher.new }
    ensures seats { All (IsSeatOf live.now) seats.new.items }
{
    if let Some(seat) = take_seat(live, seats) {
        take_seat_in(live, flusher, seat);
    }
}

/// What a seat is told of a broken crew: how many growths are settled, and the records of all growths, in order.
#[derive(Drop)]
struct Heard {
    settled: u64,
    records: Vec<u64>,
}

/// Asks a seat, before the flusher takes it in.
fn ask_seat(alloc: Global, live: &Live<u64>, seat: &mut Seat<u64>) -> Option<Heard>
    requires { IsSeatOf live.now seat.old }
    ensures { IsSeatOf live.now seat.new }
{
    let (settled, _) = live.settled(seat);
    let size = live.look(seat).ok()?;
    let mut records = Vec::new(alloc);
    for i in 0..size {
        records.push(*live.get(seat, i)?).ok()?;
    }
    Some(Heard { settled, records })
}

/// What a broken crew leaves.
#[derive(Drop)]
struct Left<D: Disk> {
    disk: D,
    /// How many growths are settled.
    settled: u64,
    told: Heard,
}

/// Asks one of the two seats, and takes both in.
fn end_broken<D: Disk + Drop>(
    alloc: Global,
    live: &Live<u64>,
    mut flusher: Flusher<u64, D>,
    mut seats: Vec<Seat<u64>>,
) -> Option<Left<D>>
    requires { AreOfPhase (D.keeps flusher.pen.disk) live.now seats.items flusher }
{
    let told = tell_last(alloc, live, &mut flusher, &mut seats)?;
    take_last_in(live, &mut flusher, &mut seats);
    let (disk, settled) = flusher.into_parts();
    Some(Left {
        disk,
        settled,
        told,
    })
}

/// Asks the last of the seats, and takes it in.
fn tell_last<D: Disk>(
    alloc: Global,
    live: &Live<u64>,
    flusher: &mut Flusher<u64, D>,
    seats: &mut Vec<Seat<u64>>,
) -> Option<Heard>
    requires flusher { IsFlusherOf (D.keeps flusher.old.pen.disk) live.now flusher.old }
    requires seats { All (IsSeatOf live.now) seats.old.items }
    ensures flusher { IsFlusherOf (D.keeps flusher.new.pen.disk) live.now flusher.new }
    ensures seats { All (IsSeatOf live.now) seats.new.items }
{
    let mut seat = take_seat(live, seats)?;
    let told = ask_seat(alloc, live, &mut seat);
    take_seat_in(live, flusher, seat);
    told
}

/// The same of the parts that a crew hands back.
fn end_parts<D: Disk + Drop>(alloc: Global, parts: Gathering<u64, D>) -> Option<Left<D>>
    requires { AreOfPhase (D.keeps parts.flusher.pen.disk) parts.live parts.seats.items parts.flusher }
{
    let Gathering {
        live,
        seats,
        flusher,
        ..
    } = parts;
    end_broken(alloc, &live, flusher, seats)
}

/// Why a crew hands no parts back.
#[derive(Clone, Copy)]
enum Whole {
    /// All growths are settled.
    Settled,
    /// It wasn't begun.
    Unbegun,
}

/// The parts of its phase that a crew hands back which a disk breaks.
fn parts_of<D: Disk + Send + Drop, E: Threads + Wait + Sync>(
    rt: &E,
    alloc: Global,
    vault: Vault<u64, D>,
    source: &Lists<'_, u64>,
) -> Result<Gathering<u64, D>, Whole>
    ensures { IfOk result (λ parts. AreOfPhase (D.keeps parts.flusher.pen.disk) parts.live parts.seats.items parts.flusher) }
{
    match crew(rt, alloc, vault, source, &OpenGate) {
        Ok(_) => Err(Whole::Settled),
        Err(CrewFault::Gather(parts)) => Ok(parts),
        Err(CrewFault::Share(_, _)) => Err(Whole::Unbegun),
    }
}

/// A disk that stops or fails once.
type Breaking = FuseDisk<RamDisk>;

/// What a crew leaves over this disk. `None`, where all growths are settled.
fn left_on<E: Threads + Wait + Sync>(
    rt: &E,
    alloc: Global,
    disk: Breaking,
    source: &Lists<'_, u64>,
) -> Result<Option<Left<Breaking>>, Fail> {
    let Ok(vault) = Vault::<u64, _>::create_as(alloc, disk, Format::One) else {
        return Err(Fail::from("no vault"));
    };
    match parts_of(rt, alloc, vault, source) {
        Ok(parts) => Ok(end_parts(alloc, parts)),
        Err(Whole::Settled) => Ok(None),
        Err(Whole::Unbegun) => Err(Fail::from("not begun")),
    }
}

/// What a crew leaves whose disk lets so many calls pass behind the creation, which makes 8.
fn left_after<E: Threads + Wait + Sync>(
    rt: &E,
    alloc: Global,
    source: &Lists<'_, u64>,
    calls: u64,
    blow: Blow,
) -> Result<Option<Left<Breaking>>, Fail> {
    let disk = FuseDisk::new(RamDisk::new(alloc), calls.saturating_add(8), blow);
    left_on(rt, alloc, disk, source)
}

/// The images that are looked at: what stands at the pending places, each with both lengths.
const PENDING: [PendingBytes; 8] = [
    PendingBytes::Old,
    PendingBytes::New,
    PendingBytes::Fill(0),
    PendingBytes::Fill(1),
    PendingBytes::Fill(0xff),
    PendingBytes::Front(1, 0xff),
    PendingBytes::Front(20, 1),
    PendingBytes::Front(40, 0xff),
];

/// Whether this image opens to the records of the first growths, each whole, the settled ones among them.
fn is_prefix(
    alloc: Global,
    disk: &RamDisk,
    choice: &Choice,
    settled: u64,
    told: &Heard,
) -> Result<bool, Fail> {
    let image = disk.image(choice)?;
    let records = scan::<u64>(alloc, image.as_slice())?.records;
    let whole = records.len() % 2 == 0 && records.len() as u64 / 2 >= settled;
    Ok(whole && told.records.as_slice().starts_with(records.as_slice()))
}

/// Whether each image does, and no seat is told of more than is settled.
fn stands(alloc: Global, left: Left<Breaking>) -> Result<bool, Fail> {
    let Left {
        disk,
        settled,
        told,
    } = left;
    let disk = disk.into_inner();
    for pending in PENDING {
        for length in [ImageLength::Old, ImageLength::Greatest] {
            if !is_prefix(alloc, &disk, &Choice { length, pending }, settled, &told)? {
                return Ok(false);
            }
        }
    }
    Ok(told.settled <= settled)
}

/// At how many of 24 moments the disk of a crew broke it and left what it must. An error where it left less.
fn break_at_each<E: Threads + Wait + Sync>(
    rt: &E,
    alloc: Global,
    source: &Lists<'_, u64>,
    blow: Blow,
) -> Result<u64, Fail> {
    let mut broken = 0u64;
    for calls in 0..24u64 {
        let Some(left) = left_after(rt, alloc, source, calls, blow)? else {
            continue;
        };
        // A commit makes four calls, and settles a growth or more.
        if left.settled < calls / 4 || !stands(alloc, left)? {
            return Err(Fail::from("what was settled is lost"));
        }
        broken = broken.wrapping_add(1);
    }
    Ok(broken)
}

const BLOWS: [Blow; 5] = [
    Blow::Stop,
    Blow::FailOnce(0),
    Blow::FailOnce(1),
    Blow::FailOnce(30),
    Blow::FailOnce(1_000),
];

/// The fewest moments of any of the blows at which the disk broke the crew.
fn fewest_broken<E: Threads + Wait + Sync>(
    rt: &E,
    alloc: Global,
    source: &Lists<'_, u64>,
) -> Result<u64, Fail> {
    let mut fewest = u64::MAX;
    for blow in BLOWS {
        fewest = fewest.min(break_at_each(rt, alloc, source, blow)?);
    }
    Ok(fewest)
}

/// The first commit of a crew makes four calls, so a disk that fails earlier breaks each crew.
#[test]
fn what_a_broken_crew_settled_stands(rt: HostRuntime) -> Result<(), Fail> {
    let growths = growths_of_two(rt.alloc())?;
    let source = Lists::try_new(growths.as_slice()).ok_or("too many")?;
    let fewest = fewest_broken(&rt, rt.alloc(), &source)?;
    assert!(rt; fewest >= 4, "{fewest}");
    Ok(())
}
