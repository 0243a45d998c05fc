//! Growths of two threads at once.

ghost use Rattle.std.specs.Prelude.{◌≡◌, IfSome};

use super::{put, read};
use directory_core::{DirFault, Directory, Pass};
use std::alloc::{AllocGlobal, Global};
use std::sync::atomic::{AtomicU64, Ordering};
use std::test::Fail;
use std::thread;
use std::thread::Threads;

/// Where two threads begin together.
#[derive(Drop)]
struct Meeting {
    here: AtomicU64,
}

impl Meeting {
    fn new() -> Meeting {
        Meeting {
            here: AtomicU64::new(0),
        }
    }

    /// Stays a while for the other thread.
    fn pass(&self) {
        self.here.fetch_add(1, Ordering::SeqCst);
        for _ in 0..1_000_000u32 {
            if self.here.load(Ordering::SeqCst) >= 2 {
                return;
            }
        }
    }
}

/// Publishes a growth of these records, behind what others publish meanwhile. So many tries are enough where others
/// publish fewer growths.
fn put_beside(
    alloc: Global,
    directory: &Directory<u64>,
    pass: &mut Pass<u64>,
    records: &[u64],
    tries: u32,
) -> bool
    requires { pass.old.of ≡ directory.now }
    ensures { pass.new.of ≡ directory.now }
{
    for _ in 0..tries {
        if directory.look(pass).is_err() {
            return false;
        }
        if put(alloc, directory, pass, records).is_ok() {
            return true;
        }
    }
    false
}

/// Publishes so many growths, whose records are the seat and a count.
fn grow_as(
    alloc: Global,
    directory: &Directory<u64>,
    gate: &Meeting,
    seat: u64,
    count: u64,
) -> Option<Pass<u64>>
    ensures { IfSome result (λ pass. pass.of ≡ directory.now) }
{
    let Ok(mut pass) = directory.pass() else {
        return None;
    };
    gate.pass();
    for k in 0..count {
        if !put_beside(alloc, directory, &mut pass, &[seat, k], 1000) {
            return None;
        }
    }
    Some(pass)
}

/// What two threads know that publish so many growths each.
fn grow_by_two<E: Threads + Sync>(
    rt: &E,
    alloc: Global,
    directory: &Directory<u64>,
    first: u64,
    second: u64,
) -> Option<(Pass<u64>, Pass<u64>)>
    ensures { IfSome result (λ passes. (passes.0.of ≡ directory.now) × (passes.1.of ≡ directory.now)) }
{
    let gate = Meeting::new();
    let shared = &gate;
    let (one, other) = thread::join(
        rt,
        move || -> Option<Pass<u64>>
            ensures { IfSome result (λ pass. pass.of ≡ directory.entry.now) }
        { grow_as(alloc, directory, shared, 0, first) },
        move || -> Option<Pass<u64>>
            ensures { IfSome result (λ pass. pass.of ≡ directory.entry.now) }
        { grow_as(alloc, directory, shared, 1, second) },
    );
    match (one, other) {
        (Some(one), Some(other)) => Some((one, other)),
        _ => None,
    }
}

/// How many growths of the first and of the second thread the pass knows, where each has its own in order.
fn growths_of_two(directory: &Directory<u64>, pass: &mut Pass<u64>) -> Option<(u64, u64)>
    requires { pass.old.of ≡ directory.now }
    ensures { pass.new ≡ pass.old }
{
    let mut counts = (0u64, 0u64);
    for number in 0..pass.known() {
        match directory.entry(pass, number)?.records() {
            [0, k] if *k == counts.0 => counts.0 = counts.0.wrapping_add(1),
            [1, k] if *k == counts.1 => counts.1 = counts.1.wrapping_add(1),
            _ => return None,
        }
    }
    Some(counts)
}

/// What a thread reads round the buckets.
type Round = [Option<u64>; 4];

/// The growths at the ends of the first two buckets, each with the next one.
fn read_four(directory: &Directory<u64>, pass: &mut Pass<u64>) -> Round
    requires { pass.old.of ≡ directory.now }
{
    [
        read(directory, pass, 7),
        read(directory, pass, 8),
        read(directory, pass, 23),
        read(directory, pass, 24),
    ]
}

/// The same after a look, of which nothing is read where it fails.
fn read_round_buckets(directory: &Directory<u64>, pass: Pass<u64>) -> Round
    requires { pass.of ≡ directory.now }
{
    let mut pass = pass;
    match directory.look(&mut pass) {
        Ok(_) => read_four(directory, &mut pass),
        Err(_) => [None; 4],
    }
}

/// What two threads read round the buckets at once.
fn read_by_two<E: Threads + Sync>(
    rt: &E,
    directory: &Directory<u64>,
    one: Pass<u64>,
    other: Pass<u64>,
) -> (Round, Round)
    requires { (one.of ≡ directory.now) × (other.of ≡ directory.now) }
{
    thread::join(
        rt,
        move || -> Round
            requires { one.of ≡ directory.now }
        { read_round_buckets(directory, one) },
        move || -> Round
            requires { other.of ≡ directory.now }
        { read_round_buckets(directory, other) },
    )
}

/// What each of two threads reads round the buckets, once both have published.
fn grow_and_read<E: Threads + AllocGlobal + Sync>(
    rt: &E,
    directory: &Directory<u64>,
) -> Option<(Round, Round)> {
    match grow_by_two(rt, rt.alloc(), directory, 13, 12) {
        Some((one, other)) => Some(read_by_two(rt, directory, one, other)),
        None => None,
    }
}

#[test]
fn each_of_two_threads_reads_the_growths_of_both(rt: HostRuntime) -> Result<(), Fail> {
    let directory = Directory::new(rt.alloc(), 25)?;
    let want = [7, 8, 23, 24].map(Some);
    assert_eq!(rt; grow_and_read(&rt, &directory), Some((want, want)));
    Ok(())
}

/// Whether no growth of either thread is lost in so many runs, in each of which both begin with no bucket made.
fn loses_none<E: Threads + AllocGlobal + Sync>(rt: &E, runs: u32) -> bool {
    for _ in 0..runs {
        let Ok(directory) = Directory::new(rt.alloc(), 10) else {
            return false;
        };
        if !run_loses_none(rt, &directory) {
            return false;
        }
    }
    true
}

fn run_loses_none<E: Threads + AllocGlobal + Sync>(rt: &E, directory: &Directory<u64>) -> bool {
    let Some((mut one, mut other)) = grow_by_two(rt, rt.alloc(), directory, 5, 5) else {
        return false;
    };
    one.meet(&mut other);
    growths_of_two(directory, &mut one) == Some((5, 5))
}

#[test]
fn a_bucket_that_two_threads_make_at_once_loses_no_growth(rt: HostRuntime) {
    assert!(rt; loses_none(&rt, 2000));
}
