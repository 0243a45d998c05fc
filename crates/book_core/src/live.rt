//! A growth phase as all its threads see it.

ghost use Rattle.std.specs.Prelude.{◌≡◌, ◌+◌, ◌<◌, length, slice_get, Some};
ghost use Rattle.record_core.specs.Limits.{record_limit};
ghost use Rattle.book_core.specs.Lists.{records_of, opening_of};

use crate::mark::Mark;
use crate::opening::Opening;
use crate::stretch::Stretch;
use crate::waking::Waking;
use crossbeam_utils::CachePadded;
use directory_core::Directory;
use record_core::Record;
use std::alloc::Global;
use std::marker::Model;
use std::sync::{Mutex, Wait};

/// A seat's way into the book. Its grower holds it while it publishes, and a close takes each once: nobody else does. Behind it
/// lies what the grower's heap has at hand.
pub(crate) type Door = CachePadded<Mutex<Stretch>>;

/// What all threads of a growth phase share: the blocks from before it, the directory of its growths, a door for each
/// seat, and the mark. Contracts see which directory and which mark it has, and the records from before.
#[derive(Drop)]
pub struct Live<R: Record> {
    /// That of a seat has its id as number.
    pub(crate) doors: Vec<Door>,
    pub(crate) waking: Waking,
    pub(crate) directory: Directory<R>,
    pub(crate) mark: Mark,
    pub(crate) opening: Opening<R>,
    pub(crate) room: u64,
    pub(crate) seat_count: u16,
    pub(crate) alloc: Global,
}

impl<R: Record> Model for Live<R> {
    ghost use Rattle.std.specs.Prelude.{◌≡◌, ◌+◌, length};
    ghost use Rattle.record_core.specs.Limits.{record_limit};
    ghost use Rattle.book_core.specs.Lists.{Phase, records_of, joined_pieces};

    ghost Value = { Phase R };

    ghost view = { λ live. record {
      directory = live.directory;
      mark = live.mark;
      seat_count = live.seat_count;
      blocks = records_of live.opening.blocks.items;
    } };

    ghost invariant = { λ live.
        (live.room ≡ live.directory.room)
        × (live.directory.limit + length (joined_pieces (records_of live.opening.blocks.items)) ≡ record_limit) };
}

impl<R: Record> Live<R> {
    /// How many records are from before the phase.
    pub fn opening_len(&self) -> u64
        ensures is { result ≡ length (opening_of self.now) }
        ensures in_limit { result + self.now.directory.limit ≡ record_limit }
    {
        self.opening.len()
    }

    /// How many seats the phase has.
    pub fn seat_count(&self) -> u16
        ensures { result ≡ self.now.seat_count }
    {
        self.seat_count
    }

    /// How many blocks are from before the phase.
    pub fn block_count(&self) -> u64
        ensures { result ≡ length self.now.blocks }
    {
        self.opening.blocks.len() as u64
    }

    /// The block of that number from before the phase, lent for the life of the book.
    pub fn block(&self, number: u64) -> &[R]
        requires { number < length self.now.blocks }
        ensures { slice_get self.now.blocks number ≡ Some result.now }
    {
        self.opening.blocks[number as usize].as_slice()
    }

    /// From now on each growth is refused `Closed`. It waits for the growths that are under way, at most one of each
    /// seat, and then wakes the flusher, which ends the directory behind them (`end_by`).
    pub fn close<E: Wait>(&self, rt: &E) {
        self.waking.begin_to_close();
        for door in &self.doors {
            drop(door.lock(rt));
        }
        self.waking.end_to_close();
    }

    /// Ends the phase, and gives the blocks from before it.
    pub fn into_blocks(self) -> Vec<Vec<R>>
        ensures { records_of result.items ≡ self.blocks }
    {
        self.opening.into_blocks()
    }
}
