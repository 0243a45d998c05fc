//! Threads that wait for each of their growths are woken, in phase after phase, and come to their end however a phase ends.
//!
//! No clause says so. A thread pauses before it waits, longer behind a pause that was too short and else shorter: most waits
//! begin just about when the growth becomes durable. Who isn't woken is still there when the time of a test is over.

ghost use Rattle.book_core.specs.Beginning.{AreNewSeats};
ghost use Rattle.book_core.specs.Lists.{IsSeatOf};
ghost use Rattle.flush_core.specs.Flusher.{IsFlusherOf};

use super::waking::serve;
use book_core::{Live, Seat};
use disk_core::{Blow, Disk, FuseDisk, RamDisk};
use flush_core::Flusher;
use std::alloc::{AllocError, AllocGlobal, Global};
use std::sync::Wait;
use std::sync::atomic::{AtomicU64, Ordering};
use std::test::Fail;
use std::thread;
use std::thread::{Scope, Threads};
use vault_core::Vault;

/// As many calls of the disk as the creation of its file makes.
const CREATION: u64 = 8;

/// The longest pause, in numbers that are drawn meanwhile: less than a millisecond.
const LONGEST_PAUSE: u64 = 1 << 16;

/// How a phase ends.
#[derive(Clone, Copy)]
enum End {
    /// Each thread makes all of its rounds.
    Whole,
    /// One thread closes it, with half of its rounds made.
    Closed,
    /// Its disk stops behind so many calls.
    Stopped(u64),
}

/// A phase: its number, how many threads it has, how many rounds each of them makes, and how it ends.
#[derive(Clone, Copy)]
struct Course {
    phase: u64,
    threads: u16,
    rounds: u64,
    end: End,
}

/// A number without a pattern for the one before it.
fn mix(number: u64) -> u64 {
    number
        .wrapping_mul(6_364_136_223_846_793_005)
        .wrapping_add(1_442_695_040_888_963_407)
}

/// A number without a pattern made one below `limit`, by its part of all u64.
fn below(number: u64, limit: u64) -> u64 {
    number.carrying_mul(limit, 0).1
}

/// Draws so many numbers, of which the last is answered.
fn pause(first: u64, draws: u64) -> u64 {
    let mut number = first;
    for _ in 0..draws {
        number = mix(number);
    }
    number
}

/// The next pause: longer by up to a quarter behind one that was too short, and else shorter.
fn next_pause(draws: u64, too_short: bool, number: u64) -> u64 {
    let change = below(number, draws / 4 + 8);
    if too_short {
        draws.saturating_add(change).min(LONGEST_PAUSE)
    } else {
        draws.saturating_sub(change)
    }
}

/// One thread's seat in a phase, and its number among the seats.
#[derive(Drop)]
pub(super) struct Seated<'a> {
    pub(super) live: &'a Live<u64>,
    pub(super) seat: Seat<u64>,
    number: u64,
    ghost of: { IsSeatOf live.now seat },
}

/// A growth of that record, a pause, and the wait for the growth. The next record and the next pause; none, where it isn't
/// settled.
fn make_round<E: Wait>(rt: &E, own: &mut Seated, record: u64, draws: u64) -> Option<(u64, u64)> {
    let receipt = own.live.push_back(rt, &mut own.seat, record).ok()?;
    let record = pause(record, draws);
    let (settled, _) = own.live.settled(&mut own.seat);
    let draws = next_pause(draws, settled <= receipt.number, record);
    own.live.await_receipt(rt, &mut own.seat, &receipt).ok()?;
    Some((record, draws))
}

/// Makes the rounds of a thread, up to the first growth that isn't settled. How many it made.
fn make_rounds<E: Wait>(rt: &E, own: &mut Seated, course: Course) -> u64 {
    let mut record = mix(course.phase.wrapping_add(own.number << 32));
    let mut draws = below(record, LONGEST_PAUSE / 8);
    for round in 0..course.rounds {
        if own.number == 0 && matches!(course.end, End::Closed) && round == course.rounds / 2 {
            own.live.close(rt);
        }
        let Some(next) = make_round(rt, own, record, draws) else {
            return round;
        };
        (record, draws) = next;
    }
    course.rounds
}

/// A phase over a new file, its new seats, and who commits its growths.
#[derive(Drop)]
struct Served<D: Disk> {
    live: Live<u64>,
    seats: Vec<Seat<u64>>,
    flusher: Flusher<u64, D>,
    ghost seated: { AreNewSeats live.directory live.mark seats.items },
    ghost commits: { IsFlusherOf (D.keeps flusher.pen.disk) live flusher },
}

fn begin<D: Disk + Drop>(alloc: Global, disk: D, course: Course) -> Option<Served<D>> {
    let Ok(vault) = Vault::<u64, D>::create(alloc, disk) else {
        return None;
    };
    let room = course.rounds.saturating_mul(course.threads as u64);
    let Ok((live, flusher, seats)) = vault.share(room, course.threads) else {
        return None;
    };
    Some(Served {
        live,
        seats,
        flusher,
    })
}

/// The new seats, numbered from 0 on.
pub(super) fn seat_all<'a>(
    alloc: Global,
    live: &'a Live<u64>,
    seats: Vec<Seat<u64>>,
) -> Result<Vec<Seated<'a>>, AllocError>
    requires { AreNewSeats live.now.directory live.now.mark seats.items }
{
    let mut seats = seats;
    let count = seats.len();
    let mut all = Vec::with_capacity(alloc, count)?;
    for number in 0..count {
        if let Some(seat) = live.take_seat(&mut seats) {
            let number = number as u64;
            all.push(Seated { live, seat, number })?;
        }
    }
    Ok(all)
}

/// Starts a thread for each seat, which adds to `made` how many rounds it makes. Whether the system started all.
fn start_each<'s, 'e, E: Wait + Sync + 'e>(
    scope: &'s Scope<'s, &'e ()>,
    rt: &'e E,
    seats: Vec<Seated<'e>>,
    course: Course,
    made: &'e AtomicU64,
) -> bool {
    for own in seats {
        let started = scope.spawn(move || {
            let mut own = own;
            made.fetch_add(make_rounds(rt, &mut own, course), Ordering::SeqCst);
        });
        if started.is_err() {
            return false;
        }
    }
    true
}

/// Runs the threads of a phase, and closes it. How many rounds they made in all; none, where not all were started.
fn run_threads<E: Threads + Wait + Sync>(
    rt: &E,
    alloc: Global,
    live: &Live<u64>,
    seats: Vec<Seat<u64>>,
    course: Course,
) -> Option<u64>
    requires { AreNewSeats live.now.directory live.now.mark seats.items }
{
    let made = AtomicU64::new(0);
    let shared = &made;
    let started = match seat_all(alloc, live, seats) {
        Ok(seats) => thread::scope(thread::scope_env(), rt, move |scope| -> bool {
            start_each(scope, rt, seats, course, shared)
        }),
        Err(_) => false,
    };
    live.close(rt);
    if started {
        Some(made.load(Ordering::SeqCst))
    } else {
        None
    }
}

/// What the threads of a phase made, and how many growths who commits them settled, where that ended well.
fn run<D: Disk + Send + Drop, E: Threads + Wait + Sync>(
    rt: &E,
    alloc: Global,
    served: Served<D>,
    course: Course,
) -> (Option<u64>, Option<u64>) {
    let Served {
        live,
        seats,
        flusher,
    } = served;
    let live = &live;
    let (settled, made) = thread::join(
        rt,
        move || -> Option<u64>
            requires { IsFlusherOf (D.keeps flusher.pen.disk) live.now flusher }
        { serve(rt, live, flusher) },
        move || -> Option<u64>
            requires { AreNewSeats live.now.directory live.now.mark seats.items }
        { run_threads(rt, alloc, live, seats, course) },
    );
    (made, settled)
}

impl End {
    /// Whether as many rounds were made as there must be, where who commits ended with so many growths settled.
    fn allows(self, course: Course, made: u64, settled: u64) -> bool {
        let least = match self {
            End::Closed => course.rounds / 2,
            End::Whole | End::Stopped(_) => course.rounds.saturating_mul(course.threads as u64),
        };
        settled == made && made >= least
    }

    /// The same, where who commits was stopped: each four calls of the disk settle a growth or more.
    fn allows_stopped(self, made: u64) -> bool {
        match self {
            End::Stopped(calls) => made >= calls / 4,
            End::Whole | End::Closed => false,
        }
    }
}

/// Whether as many rounds were made as there must be.
fn is_right(course: Course, made: u64, settled: Option<u64>) -> bool {
    match settled {
        Some(settled) => course.end.allows(course, made, settled),
        None => course.end.allows_stopped(made),
    }
}

/// Runs a phase of its own. Refused, unless it comes to the end that it must.
fn run_phase<E: Threads + Wait + AllocGlobal + Sync>(rt: &E, course: Course) -> Result<(), Fail> {
    let calls = match course.end {
        End::Stopped(calls) => calls.saturating_add(CREATION),
        End::Whole | End::Closed => u64::MAX,
    };
    let disk = FuseDisk::new(RamDisk::new(rt.alloc()), calls, Blow::Stop);
    let served = begin(rt.alloc(), disk, course).ok_or("no phase")?;
    match run(rt, rt.alloc(), served, course) {
        (Some(made), settled) if is_right(course, made, settled) => Ok(()),
        (None, _) => Err(Fail::from("a thread wasn't started")),
        _ => Err(Fail::from("not all that it must be is made")),
    }
}

/// So many phases that end whole.
fn run_alike<E: Threads + Wait + AllocGlobal + Sync>(
    rt: &E,
    threads: u16,
    phases: u64,
    rounds: u64,
) -> Result<(), Fail> {
    for phase in 0..phases {
        let end = End::Whole;
        run_phase(
            rt,
            Course {
                phase,
                threads,
                rounds,
                end,
            },
        )?;
    }
    Ok(())
}

#[test]
fn threads_that_wait_are_woken_in_each_round(rt: HostRuntime) -> Result<(), Fail> {
    for threads in [1, 2, 4, 8] {
        run_alike(&rt, threads, 25, 1_000 / threads as u64)?;
    }
    Ok(())
}

#[test]
fn threads_that_wait_are_woken_in_each_phase(rt: HostRuntime) -> Result<(), Fail> {
    for threads in [1, 2, 4, 8] {
        run_alike(&rt, threads, 1_000, 1)?;
    }
    Ok(())
}

/// One of 1 to 4 threads and of 20 rounds: of three one ends whole, one is closed, and the disk of one stops.
fn mixed(phase: u64) -> Course {
    let rounds = 20;
    let number = mix(mix(phase));
    let end = match phase % 3 {
        0 => End::Whole,
        1 => End::Closed,
        _ => End::Stopped(below(number, rounds * 4)),
    };
    Course {
        phase,
        threads: u16::try_from(below(number, 4).saturating_add(1)).unwrap_or(1),
        rounds,
        end,
    }
}

#[test]
fn threads_that_wait_end_however_their_phase_ends(rt: HostRuntime) -> Result<(), Fail> {
    for phase in 0..900 {
        run_phase(&rt, mixed(phase))?;
    }
    Ok(())
}
