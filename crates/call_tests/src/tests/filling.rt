//! Records that are touched in parts by several threads at once.

ghost use Rattle.std.specs.Prelude.{◌≡◌, ◌+◌, ◌*◌, ◌%◌, ◌^◌, ◌<◌, ◌≤◌, length};

use super::squares::Squares;
use block_core::{Touch, touch_parts};
use std::hint;
use std::sync::atomic::{AtomicU64, Ordering};
use std::test::Fail;
use std::thread::Threads;

/// How often a part that waits for another one looks for it, at most: for one that comes, and for one that doesn't.
const MOST_TURNS: u64 = 100_000_000;

const FEW_TURNS: u64 = 1_000_000;

/// Squares that count how often they touch.
#[derive(Drop)]
struct CountedSquares {
    touches: AtomicU64,
}

impl Touch<u64> for CountedSquares {
    ghost one = { λ _ at _. at * at };

    fn one(&self, at: u64, _r: u64) -> u64 {
        at * at
    }

    fn touch(&self, at: u64, part: &mut [u64]) {
        self.touches.fetch_add(1, Ordering::SeqCst);
        Squares.touch(at, part);
    }
}

/// Squares that begin no part before another one has begun too, unless none comes.
#[derive(Drop)]
struct Meeting {
    turns: u64,
    begun: AtomicU64,
    met: AtomicU64,
}

impl Touch<u64> for Meeting {
    ghost one = { λ _ at _. at * at };

    fn one(&self, at: u64, _r: u64) -> u64 {
        at * at
    }

    fn touch(&self, at: u64, part: &mut [u64]) {
        self.begun.fetch_add(1, Ordering::SeqCst);
        for _ in 0..self.turns {
            if self.begun.load(Ordering::SeqCst) > 1 {
                self.met.fetch_add(1, Ordering::SeqCst);
                break;
            }
            hint::spin_loop();
        }
        Squares.touch(at, part);
    }
}

/// How many parts so many records are touched in.
fn touches_of<E: Threads + AllocGlobal + Sync>(rt: &E, n: usize, part: usize) -> Result<u64, Fail>
    requires some { 0 < part }
    requires small { n ≤ 2 ^ 32 }
{
    let counted = CountedSquares {
        touches: AtomicU64::new(0),
    };
    let mut records = Vec::from_elem(rt.alloc(), 0, n)?;
    touch_parts(rt, 0, &mut records, part, &counted);
    Ok(counted.touches.load(Ordering::SeqCst))
}

#[test]
fn records_are_touched_in_the_parts_that_were_asked_for(rt: HostRuntime) -> Result<(), Fail> {
    let touches = [
        touches_of(&rt, 10, 3)?,
        touches_of(&rt, 10, 11)?,
        touches_of(&rt, 100_000, 1000)?,
    ];
    assert_eq!(rt; touches, [4, 1, 100]);
    Ok(())
}

/// How many parts so many records are touched in, how many of these found that another had begun too, and the last record.
fn meetings_of<E: Threads + AllocGlobal + Sync>(
    rt: &E,
    n: usize,
    part: usize,
    turns: u64,
) -> Result<(u64, u64, u64), Fail>
    requires some { (0 < part) × (0 < n) }
    requires small { n ≤ 2 ^ 32 }
{
    let meeting = Meeting {
        turns,
        begun: AtomicU64::new(0),
        met: AtomicU64::new(0),
    };
    let mut records = Vec::from_elem(rt.alloc(), 0, n)?;
    touch_parts(rt, 0, &mut records, part, &meeting);
    let begun = meeting.begun.load(Ordering::SeqCst);
    let met = meeting.met.load(Ordering::SeqCst);
    Ok((begun, met, records[n - 1]))
}

#[test]
fn two_threads_touch_at_once(rt: HostRuntime) -> Result<(), Fail> {
    let met = meetings_of(&rt, 10_000, 5000, MOST_TURNS)?;
    assert_eq!(rt; met, (2, 2, 9999 * 9999));
    Ok(())
}

/// No part begins before the one in front of it has ended, so the first meets none.
#[test]
fn few_records_are_touched_by_one_thread(rt: HostRuntime) -> Result<(), Fail> {
    let met = meetings_of(&rt, 4095, 2048, FEW_TURNS)?;
    assert_eq!(rt; met, (2, 1, 4094 * 4094));
    Ok(())
}
