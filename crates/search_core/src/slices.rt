//! Searches of slices, by one thread or by as many as there are processors.

ghost use Rattle.std.specs.Prelude.{◌≡◌, ◌+◌, ◌*◌, ◌<◌, ◌≤◌, ◌^◌, ◌++◌, List, length};
ghost use Rattle.std.specs.List.{count_by};
ghost use Rattle.std.specs.Thread.{IsSync};
ghost use Rattle.search_core.specs.Search.{records_in, IsFirst};

use crate::picking::Pick;
use rayon::{current_num_threads, join};
use std::thread::Threads;

/// So many records are worth threads.
const WORTH_THREADS: u64 = 262_144;

/// The threads that a search has at most.
const MOST_THREADS: usize = 32;

/// So many records are asked before it is looked whether one of them is picked. A loop that ends nowhere else compares
/// several at once, where their type allows it.
const BLOCK_LEN: usize = 64;

/// How many records of a slice are picked.
fn count_in<R, P: Pick<R>>(records: &[R], pick: &P) -> u64
    requires few { length records.now ≤ 2 ^ 32 }
    ensures { result ≡ count_by (P.picks_of pick.now) records.now }
{
    let mut count: u64 = 0;
    for r in records {
        if pick.picks(r) {
            count += 1;
        }
    }
    count
}

/// The place of the first record of a slice that is picked. It is asked of no record behind it.
pub(crate) fn find_in<R, P: Pick<R>>(records: &[R], pick: &P) -> Option<usize>
    requires few { length records.now ≤ 2 ^ 32 }
    ensures { IsFirst (P.picks_of pick.now) records.now result }
{
    for k in 0..records.len() {
        if pick.picks(&records[k]) {
            return Some(k);
        }
    }
    None
}

/// The records from the first block on with one that is picked, or those behind the whole blocks.
fn skip_blocks<'a, R, P: Pick<R>>(records: &'a [R], pick: &P) -> &'a [R]
    requires few { length records.now ≤ 2 ^ 32 }
    ensures { (gone : List R) × (records.now ≡ gone ++ result.now) × (count_by (P.picks_of pick.now) gone ≡ 0) }
{
    let mut rest = records;
    while rest.len() >= BLOCK_LEN {
        let (block, behind) = rest.split_at(BLOCK_LEN);
        if count_in(block, pick) > 0 {
            return rest;
        }
        rest = behind;
    }
    rest
}

/// The place of the first record of a long slice that is picked: by blocks.
fn find_by_blocks<R, P: Pick<R>>(records: &[R], pick: &P) -> Option<usize>
    requires few { length records.now ≤ 2 ^ 32 }
    ensures { IsFirst (P.picks_of pick.now) records.now result }
{
    let rest = skip_blocks(records, pick);
    let before = records.len() - rest.len();
    match find_in(rest, pick) {
        Some(place) => Some(before + place),
        None => None,
    }
}

/// How many records the slices have.
fn len_of<R>(slices: &[&[R]]) -> u64
    requires few { length (records_in slices.now) ≤ 2 ^ 32 }
    ensures { result ≡ length (records_in slices.now) }
{
    let mut len: u64 = 0;
    for k in 0..slices.len() {
        len += slices[k].len() as u64;
    }
    len
}

/// Where to part the slices, so that the first of `threads` threads have their share of the records.
fn middle<R>(slices: &[&[R]], first: usize, threads: usize) -> usize
    requires few { length (records_in slices.now) ≤ 2 ^ 32 }
    requires some { 0 < threads }
    requires inside { first ≤ threads }
    ensures { result ≤ length slices.now }
{
    let share = len_of(slices) / threads as u64 * first as u64;
    let mut len: u64 = 0;
    for k in 0..slices.len() {
        if len >= share {
            return k;
        }
        len += slices[k].len() as u64;
    }
    slices.len()
}

/// How many records of the slices are picked, by this thread.
fn count_in_turn<R, P: Pick<R>>(slices: &[&[R]], pick: &P) -> u64
    requires few { length (records_in slices.now) ≤ 2 ^ 32 }
    ensures { result ≡ count_by (P.picks_of pick.now) (records_in slices.now) }
{
    let mut count: u64 = 0;
    for k in 0..slices.len() {
        count += count_in(slices[k], pick);
    }
    count
}

/// How many records of the slices are picked, by so many threads: each has about as many of them.
#[cycle(counting)]
fn count_by_threads<R: Sync, P: Pick<R>, E: Threads + Sync>(
    rt: &E,
    slices: &[&[R]],
    threads: usize,
    pick: &P,
) -> u64
    requires few { length (records_in slices.now) ≤ 2 ^ 32 }
    ensures { result ≡ count_by (P.picks_of pick.now) (records_in slices.now) }
{
    if threads < 2 || slices.len() < 2 {
        return count_in_turn(slices, pick);
    }
    let fewer = threads / 2;
    let (front, back) = slices.split_at(middle(slices, fewer, threads));
    let theirs = move || -> u64
        requires { IsSync E.row × IsSync R.row × IsSync P.row × (length (records_in front.now) ≤ 2 ^ 32) }
        ensures { result ≡ count_by (P.picks_of pick.entry.now) (records_in front.entry.now) }
    { count_by_threads(rt, front, fewer, pick) };
    let ours = move || -> u64
        requires { IsSync E.row × IsSync R.row × IsSync P.row × (0 < fewer) × (fewer < threads) × (length (records_in back.now) ≤ 2 ^ 32) }
        ensures { result ≡ count_by (P.picks_of pick.entry.now) (records_in back.entry.now) }
    { count_by_threads(rt, back, threads - fewer, pick) };
    let (first, rest) = join(rt, theirs, ours);
    first + rest
}

/// How many records of the slices are picked: by threads, where they are many.
pub(crate) fn count_slices<R: Sync, P: Pick<R>, E: Threads + Sync>(
    rt: &E,
    slices: &[&[R]],
    pick: &P,
) -> u64
    requires few { length (records_in slices.now) ≤ 2 ^ 32 }
    ensures { result ≡ count_by (P.picks_of pick.now) (records_in slices.now) }
{
    if len_of(slices) < WORTH_THREADS {
        return count_in_turn(slices, pick);
    }
    count_by_threads(rt, slices, current_num_threads(rt).min(MOST_THREADS), pick)
}

/// The place of the first record of the slices that is picked, if one is, by this thread.
fn first_in_turn<R, P: Pick<R>>(slices: &[&[R]], pick: &P) -> Option<u64>
    requires few { length (records_in slices.now) ≤ 2 ^ 32 }
    ensures { IsFirst (P.picks_of pick.now) (records_in slices.now) result }
{
    let mut before: u64 = 0;
    for k in 0..slices.len() {
        let slice = slices[k];
        if let Some(place) = find_by_blocks(slice, pick) {
            return Some(before + place as u64);
        }
        before += slice.len() as u64;
    }
    None
}

/// The place of the first record of the slices that is picked, if one is, by so many threads: each searches about as many
/// of them.
#[cycle(finding)]
fn first_by_threads<R: Sync, P: Pick<R>, E: Threads + Sync>(
    rt: &E,
    slices: &[&[R]],
    threads: usize,
    pick: &P,
) -> Option<u64>
    requires few { length (records_in slices.now) ≤ 2 ^ 32 }
    ensures { IsFirst (P.picks_of pick.now) (records_in slices.now) result }
{
    if threads < 2 || slices.len() < 2 {
        return first_in_turn(slices, pick);
    }
    let fewer = threads / 2;
    let (front, back) = slices.split_at(middle(slices, fewer, threads));
    let theirs = move || -> Option<u64>
        requires { IsSync E.row × IsSync R.row × IsSync P.row × (length (records_in front.now) ≤ 2 ^ 32) }
        ensures { IsFirst (P.picks_of pick.entry.now) (records_in front.entry.now) result }
    { first_by_threads(rt, front, fewer, pick) };
    let ours = move || -> Option<u64>
        requires { IsSync E.row × IsSync R.row × IsSync P.row × (0 < fewer) × (fewer < threads) × (length (records_in back.now) ≤ 2 ^ 32) }
        ensures { IsFirst (P.picks_of pick.entry.now) (records_in back.entry.now) result }
    { first_by_threads(rt, back, threads - fewer, pick) };
    let (first, later) = join(rt, theirs, ours);
    match (first, later) {
        (Some(place), _) => Some(place),
        (None, Some(place)) => Some(len_of(front) + place),
        (None, None) => None,
    }
}

/// The place of the first record of the slices that is picked, if one is: by threads, where they are many.
pub(crate) fn find_in_slices<R: Sync, P: Pick<R>, E: Threads + Sync>(
    rt: &E,
    slices: &[&[R]],
    pick: &P,
) -> Option<u64>
    requires few { length (records_in slices.now) ≤ 2 ^ 32 }
    ensures { IsFirst (P.picks_of pick.now) (records_in slices.now) result }
{
    if len_of(slices) < WORTH_THREADS {
        return first_in_turn(slices, pick);
    }
    first_by_threads(rt, slices, current_num_threads(rt).min(MOST_THREADS), pick)
}
