//! Searches of a list that stands in pieces.

ghost use Rattle.std.specs.Prelude.{◌≡◌, ◌+◌, ◌-◌, ◌<◌, ◌≤◌, ◌^◌, ◌++◌, [], List, length, Some, MatchOption};
ghost use Rattle.std.specs.List.{count_by};
ghost use Rattle.std.specs.Borrow.{Bor};
ghost use Rattle.std.specs.Iterator.{IsFinite};
ghost use Rattle.search_core.specs.Search.{records_in, LendsFew, LendsFewBehind, LendsAll, LendsUntil, IsFirst, PassesOver};

use crate::batch::{Batch, SLICE_LEN};
use crate::picking::Pick;
use crate::slices::find_in;
use std::thread::Threads;

/// So many records are searched before a batch is made, which takes longer than to search these.
const FRONT_LEN: usize = 1024;

/// How many records of the pieces are picked, however they are cut: by several threads, where there are many.
pub fn count_where<
    'a,
    R: Sync + 'a,
    I: Iterator<Item = &'a [R]> + Drop,
    P: Pick<R>,
    E: Threads + Sync,
>(rt: &E, pieces: I, pick: &P) -> u64
    requires can { I.can_next pieces }
    requires finite { IsFinite (I.remaining pieces) }
    requires few { LendsFew I.next_gives pieces }
    ensures { (items : List (Bor (List R))) × LendsAll I.next_gives pieces items
        × (result ≡ count_by (P.picks_of pick.now) (records_in items)) }
{
    let mut pieces = pieces;
    let mut batch = Batch::large();
    let mut total: u64 = 0;
    while let Some(piece) = pieces.next() {
        total += batch.take_in(rt, piece, pick);
    }
    total + batch.take_count(rt, pick)
}

/// What was searched so far: the records that were let go, of which none is picked, and behind them those of a batch.
#[derive(Drop)]
struct Finder<'a, R> {
    batch: Batch<'a, R>,
    /// How many records were let go.
    before: u64,
    /// How many records there are with those of the batch.
    seen: u64,
    ghost all: { seen ≡ before + length batch.1 },
}

impl<'a, R: Sync> Finder<'a, R> {
    /// The position of the first record of the batch that is picked. Where none is, they are let go.
    fn take_first<P: Pick<R>, E: Threads + Sync>(&mut self, rt: &E, pick: &P) -> Option<u64>
        requires few { self.old.seen ≤ 2 ^ 32 }
        ensures found { MatchOption result
            (PassesOver (P.picks_of pick.now) self.old.before self.old.batch.1 self.new.before self.new.batch.1)
            (λ i. (self.old.before ≤ i) × IsFirst (P.picks_of pick.now) self.old.batch.1 (Some (i - self.old.before))) }
        ensures none { self.new.batch ≡ (0, []) }
        ensures seen { MatchOption result (self.new.seen ≡ self.old.seen) (λ _. self.new.seen ≡ self.old.before) }
    {
        let before = self.before;
        match self.batch.take_first(rt, pick) {
            None => {
                self.before = self.seen;
                None
            }
            Some(place) => {
                self.seen = before;
                Some(before + place)
            }
        }
    }

    /// Where the batch is full, the position of its first record that is picked. Where none is, they are let go.
    fn make_room<P: Pick<R>, E: Threads + Sync>(&mut self, rt: &E, pick: &P) -> Option<u64>
        requires few { self.old.seen ≤ 2 ^ 32 }
        ensures found { MatchOption result
            (PassesOver (P.picks_of pick.now) self.old.before self.old.batch.1 self.new.before self.new.batch.1)
            (λ i. (self.old.before ≤ i) × IsFirst (P.picks_of pick.now) self.old.batch.1 (Some (i - self.old.before))) }
        ensures room { self.new.batch.0 < 512 }
        ensures seen { MatchOption result (self.new.seen ≡ self.old.seen) (λ _. self.new.seen ≤ self.old.seen) }
    {
        if !self.batch.is_full() {
            return None;
        }
        self.take_first(rt, pick)
    }

    /// Takes a piece in, in slices, and answers the position of the first record that is picked as soon as one is found.
    fn take_in<P: Pick<R>, E: Threads + Sync>(
        &mut self,
        rt: &E,
        piece: &'a [R],
        pick: &P,
    ) -> Option<u64>
        requires few { self.old.seen + length piece.now ≤ 2 ^ 32 }
        ensures found { MatchOption result
            (PassesOver (P.picks_of pick.now) self.old.before (self.old.batch.1 ++ piece.now) self.new.before self.new.batch.1)
            (λ i. (self.old.before ≤ i) × IsFirst (P.picks_of pick.now) (self.old.batch.1 ++ piece.now) (Some (i - self.old.before))) }
        ensures seen { MatchOption result (self.new.seen ≡ self.old.seen + length piece.now) (λ _. self.new.seen ≤ self.old.seen + length piece.now) }
    {
        let mut rest = piece;
        while !rest.is_empty() {
            if let Some(found) = self.make_room(rt, pick) {
                return Some(found);
            }
            let (front, back) = rest.split_at(SLICE_LEN.min(rest.len()));
            self.batch.push(front);
            self.seen += front.len() as u64;
            rest = back;
        }
        None
    }
}

/// The place of the first record that is picked among these and those of the pieces behind them, if one is: in batches.
fn find_in_batches<
    'a,
    R: Sync + 'a,
    I: Iterator<Item = &'a [R]> + Drop,
    P: Pick<R>,
    E: Threads + Sync,
>(rt: &E, head: &'a [R], behind: I, pick: &P) -> Option<u64>
    requires can { I.can_next behind }
    requires finite { IsFinite (I.remaining behind) }
    requires few { LendsFewBehind head.now I.next_gives behind }
    ensures { (items : List (Bor (List R))) × LendsUntil I.next_gives behind items result
        × IsFirst (P.picks_of pick.now) (head.now ++ records_in items) result }
{
    let mut pieces = behind;
    let mut finder = Finder {
        batch: Batch::small(),
        before: 0,
        seen: 0,
    };
    if let Some(found) = finder.take_in(rt, head, pick) {
        return Some(found);
    }
    while let Some(piece) = pieces.next() {
        if let Some(found) = finder.take_in(rt, piece, pick) {
            return Some(found);
        }
    }
    finder.take_first(rt, pick)
}

/// The position of the first record of the pieces that is picked, if one is, however they are cut: by several threads,
/// where it doesn't stand in front. Pieces far behind it aren't asked for.
pub fn find_first<
    'a,
    R: Sync + 'a,
    I: Iterator<Item = &'a [R]> + Drop,
    P: Pick<R>,
    E: Threads + Sync,
>(rt: &E, pieces: I, pick: &P) -> Option<u64>
    requires can { I.can_next pieces }
    requires finite { IsFinite (I.remaining pieces) }
    requires few { LendsFew I.next_gives pieces }
    ensures { (items : List (Bor (List R))) × LendsUntil I.next_gives pieces items result
        × IsFirst (P.picks_of pick.now) (records_in items) result }
{
    let mut pieces = pieces;
    let Some(piece) = pieces.next() else {
        return None;
    };
    let (front, rest) = piece.split_at(FRONT_LEN.min(piece.len()));
    if let Some(place) = find_in(front, pick) {
        return Some(place as u64);
    }
    match find_in_batches(rt, rest, pieces, pick) {
        Some(place) => Some(front.len() as u64 + place),
        None => None,
    }
}
