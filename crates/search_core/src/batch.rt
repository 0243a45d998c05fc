//! Slices that are searched together.

ghost use Rattle.std.specs.Prelude.{◌≡◌, ◌+◌, ◌<◌, ◌≤◌, ◌^◌, ◌++◌, [], length, MatchBool};
ghost use Rattle.std.specs.List.{count_by};
ghost use Rattle.search_core.specs.Search.{IsFirst};

use crate::picking::Pick;
use crate::slices::{count_slices, find_in_slices};
use std::marker::Model;
use std::thread::Threads;

/// The slices of a batch at most.
const BATCH_LEN: usize = 512;

/// The records of a slice of a batch, where a piece has as many: what one thread searches at a time. Slices of a long piece
/// whose records are counted have more.
pub(crate) const SLICE_LEN: usize = 131_072;

/// The slices of a batch at most that is searched for the first record: those behind it are searched in vain.
const FIND_LEN: usize = 64;

/// The slices of a piece at most whose records are counted, so that threads begin and end few times, however long it is.
const COUNT_LEN: usize = 256;

/// Slices that are searched together: as many threads share them as there are processors. Contracts see how many there
/// are, and their records.
#[derive(Drop)]
pub(crate) struct Batch<'a, R> {
    slices: [&'a [R]; 512],
    held: usize,
    /// With so many it is full.
    room: usize,
}

impl<'a, R> Model for Batch<'a, R> {
    ghost use Rattle.std.specs.Prelude.{◌≤◌, ℕ, List, take};
    ghost use Rattle.search_core.specs.Search.{records_in};

    ghost Value = { ℕ × List R };

    ghost view = { λ batch. (batch.held, records_in (take batch.held batch.slices)) };

    ghost invariant = { λ batch. (batch.held ≤ 512) × (1 ≤ batch.room) × (batch.room ≤ 512) };
}

impl<'a, R> Batch<'a, R> {
    /// No slices, and room for many.
    pub(crate) fn large() -> Batch<'a, R>
        ensures { result ≡ (0, []) }
    {
        Batch {
            slices: [&[]; 512],
            held: 0,
            room: BATCH_LEN,
        }
    }

    /// No slices, and room for one.
    pub(crate) fn small() -> Batch<'a, R>
        ensures { result ≡ (0, []) }
    {
        Batch {
            slices: [&[]; 512],
            held: 0,
            room: 1,
        }
    }

    /// Whether no slice more is to be put behind the others.
    pub(crate) fn is_full(&self) -> bool
        ensures { MatchBool result (0 < self.now.0) (self.now.0 < 512) }
    {
        self.held >= self.room
    }

    /// Puts a slice behind the others.
    pub(crate) fn push(&mut self, slice: &'a [R])
        requires { self.old.0 < 512 }
        ensures { self.new ≡ (self.old.0 + 1, self.old.1 ++ slice.now) }
    {
        let held = self.held;
        let slices = &mut self.slices[..];
        slices[held] = slice;
        self.held += 1;
    }
}

impl<'a, R: Sync> Batch<'a, R> {
    /// How many of its records are picked. Then it has none.
    pub(crate) fn take_count<P: Pick<R>, E: Threads + Sync>(&mut self, rt: &E, pick: &P) -> u64
        requires few { length self.old.1 ≤ 2 ^ 32 }
        ensures count { result ≡ count_by (P.picks_of pick.now) self.old.1 }
        ensures none { self.new ≡ (0, []) }
    {
        let count = count_slices(rt, &self.slices[..self.held], pick);
        self.held = 0;
        count
    }

    /// Where it is full, how many of its records are picked. These are let go then.
    fn make_room<P: Pick<R>, E: Threads + Sync>(&mut self, rt: &E, pick: &P) -> u64
        requires few { length self.old.1 ≤ 2 ^ 32 }
        ensures count { result + count_by (P.picks_of pick.now) self.new.1 ≡ count_by (P.picks_of pick.now) self.old.1 }
        ensures room { self.new.0 < 512 }
        ensures few { length self.new.1 ≤ length self.old.1 }
    {
        if self.is_full() {
            return self.take_count(rt, pick);
        }
        0
    }

    /// The place among its records of the first that is picked, if one is. Then it has none, and is full with twice as
    /// many slices: a record that stands in front is found before threads are sent far behind it.
    pub(crate) fn take_first<P: Pick<R>, E: Threads + Sync>(
        &mut self,
        rt: &E,
        pick: &P,
    ) -> Option<u64>
        requires few { length self.old.1 ≤ 2 ^ 32 }
        ensures found { IsFirst (P.picks_of pick.now) self.old.1 result }
        ensures none { self.new ≡ (0, []) }
    {
        let found = find_in_slices(rt, &self.slices[..self.held], pick);
        self.held = 0;
        self.room = (self.room * 2).min(FIND_LEN);
        found
    }

    /// Takes a piece in, in slices. The records of slices that it has no room for beside these are counted and let go.
    pub(crate) fn take_in<P: Pick<R>, E: Threads + Sync>(
        &mut self,
        rt: &E,
        piece: &'a [R],
        pick: &P,
    ) -> u64
        requires few { length self.old.1 + length piece.now ≤ 2 ^ 32 }
        ensures count { result + count_by (P.picks_of pick.now) self.new.1 ≡ count_by (P.picks_of pick.now) self.old.1 + count_by (P.picks_of pick.now) piece.now }
        ensures few { length self.new.1 ≤ length self.old.1 + length piece.now }
    {
        let most = SLICE_LEN.max(piece.len().div_ceil(COUNT_LEN));
        let mut rest = piece;
        let mut count: u64 = 0;
        while !rest.is_empty() {
            count += self.make_room(rt, pick);
            let (front, back) = rest.split_at(most.min(rest.len()));
            self.push(front);
            rest = back;
        }
        count
    }
}
