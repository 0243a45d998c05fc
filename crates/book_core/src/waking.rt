//! Waiting without spinning: seats for the mark, and the flusher for growths and for seats.
//!
//! # Why nobody sleeps for ever
//!
//! No clause says it: these tables do. All steps stand in one order, `<`, since each is `SeqCst`. Who sleeps on a count
//! does so while its low 32 bits are those that were read before, and may wake for no reason. So an addition to the count
//! that comes after that reading, and is followed by a wake, ends the sleep, or keeps it from beginning.
//!
//! ## The flusher, one thread, for growths (`await_more`), and who rings (`wake_flusher`)
//!
//! | The flusher | Who rings |
//! |---|---|
//! | F1 reads `wakes` | N1 makes a change: a grower sets the cell of its growth, a close sets `done` |
//! | F2 sets `asleep` | N2 reads `asleep`: cleared, it is through |
//! | F3 reads `done` and the next cell: changed, it clears `asleep` and returns | N3 clears `asleep`: it was cleared, it is through |
//! | F4 sleeps on `wakes`, and goes on at F1 | N4 adds to `wakes`, and wakes |
//!
//! - N1 < F3: the flusher reads the change.
//! - F3 < N1, and N3 finds `asleep` set: F1 < N1 < N4, so N4 ends the sleep.
//! - F3 < N1, and N2 or N3 finds it cleared: F2 had set it, so another has cleared it at an N3 behind F2, and that one's N4
//!   ends the sleep. If ours was through before the next F2, then N1 < the next F3. If not, these lines hold of the next turn.
//! - An N4 that belongs to an earlier turn ends a sleep too soon, and F1 follows. Each thread has one of them at most.
//!
//! ## A close, and growths under way (`Live::close`, `Live::grow`)
//!
//! | A grower | A close |
//! |---|---|
//! | G1 takes its door | C1 sets `begun` |
//! | G2 reads `begun`: set, it is refused | C2 takes each door, and leaves it |
//! | G3 sets the cell: N1 | C3 sets `done`: N1 |
//! | G4 leaves the door, then N2 | then N2 |
//!
//! - G1 < C2 at its door: C2 waits for G4, so G3 < C3, and who reads `done` finds the growth. C2 < G1: it is refused.
//! - So no growth is published behind a close that has returned. That the flusher loses none doesn't rest on this table: it
//!   ends the directory before it says Ended (`Live::end_by`), and clauses say that no seat knows a growth behind the end.
//! - At a door nobody waits for ever: who holds one takes no other, and sleeps for a time that it chose (`Patience`), once for
//!   each growth that came before its own, of which a phase has no more than its room.
//!
//! ## A seat, for the mark (`await_settled`), and the flusher (`wake_settled`)
//!
//! | A seat | The flusher |
//! |---|---|
//! | A1 reads `raises` | M1 writes the mark: a count, Ended or Broken |
//! | A2 adds to `waiting` | M2 takes all of `waiting`: none, it is through |
//! | A3 reads the mark: past, it returns | M3 adds to `raises`, and wakes all |
//! | A4 sleeps on `raises`, reads the mark as at A3, and goes on at A1 | |
//!
//! M1 is the write by which the seat's growth is past. Behind each write of `Flusher::serve` stands M2, also where it breaks.
//!
//! - M1 < A3: the seat reads it. A seat that comes once the mark says Ended or Broken reads that before A1.
//! - A3 < M1, and this M2 takes A2's one: A1 < M3, so M3 ends the sleep, and the seat reads the mark.
//! - A3 < M1, and an earlier M2 took it: that one's M3 ends the sleep. The seat reads M1 then, or these lines hold of its next turn.
//! - It is taken by one of these two, since A2 < A3 < M1 < M2. A seat must not stand between A1 and A4 for 2^32 raises.
//!
//! ## The flusher, for those that it woke (`await_waiters`)
//!
//! It reads `enough`, sets `wanted`, reads `waiting`, and sleeps on `enough` where that is less, for 100 microseconds at most.
//! A seat adds to `waiting`, reads `wanted`, and adds to `enough` where it is the last: it comes before the flusher's reading
//! of `waiting`, or finds `wanted` set. A wake that is missed for all that costs no more than the time.

ghost use Rattle.std.specs.Prelude.{◌≡◌, ◌<◌, ◌≤◌, ◌↔◌, IsTrue};
ghost use Rattle.book_core.specs.Lists.{IsSeatOf};
ghost use Rattle.book_core.specs.Growing.{SeatIsTold, IsPast, IsToldOf};

use crate::fault::SettleFault;
use crate::live::Live;
use crate::mark::MarkState;
use crate::seat::{Receipt, Seat};
use crossbeam_utils::CachePadded;
use record_core::Record;
use std::sync::Wait;
use std::sync::atomic::Ordering::SeqCst;
use std::sync::atomic::{AtomicBool, AtomicU64};
use std::time::Duration;

/// For how many microseconds the flusher waits at most for seats that it woke.
const LONGEST_WAIT: u64 = 100;

/// How far a close is.
#[derive(Drop)]
struct Closing {
    begun: AtomicBool,
    done: AtomicBool,
}

/// Who of a phase sleeps, and what wakes them. No clause speaks of it.
#[derive(Drop)]
pub(crate) struct Waking {
    closing: CachePadded<Closing>,
    /// Whether the flusher sleeps, or is about to.
    asleep: CachePadded<AtomicBool>,
    /// How often it was woken.
    wakes: CachePadded<AtomicU64>,
    /// How often those that wait for the mark were woken.
    raises: CachePadded<AtomicU64>,
    /// How many have come to wait for it since.
    waiting: CachePadded<AtomicU64>,
    /// With how many of these the flusher that waits for them is to be woken, 0 where it doesn't wait.
    wanted: AtomicU64,
    /// How often as many as it wanted had come.
    enough: AtomicU64,
}

/// What a sleep compares of a count: its low 32 bits.
fn low_half(count: u64) -> u32 {
    (count & 0xffff_ffff) as u32
}

impl Waking {
    pub(crate) fn new() -> Waking {
        Waking {
            closing: CachePadded::new(Closing {
                begun: AtomicBool::new(false),
                done: AtomicBool::new(false),
            }),
            asleep: CachePadded::new(AtomicBool::new(false)),
            wakes: CachePadded::new(AtomicU64::new(0)),
            raises: CachePadded::new(AtomicU64::new(0)),
            waiting: CachePadded::new(AtomicU64::new(0)),
            wanted: AtomicU64::new(0),
            enough: AtomicU64::new(0),
        }
    }

    /// From now on who takes its door finds that the book closes.
    pub(crate) fn begin_to_close(&self) {
        self.closing.begun.store(true, SeqCst);
    }

    /// Whether a close has begun.
    pub(crate) fn closes(&self) -> bool {
        self.closing.begun.load(SeqCst)
    }

    /// The book is closed. For a close that has begun, and then has taken each door once.
    pub(crate) fn end_to_close(&self) {
        self.closing.done.store(true, SeqCst);
        self.wake_flusher();
    }

    /// Wakes the flusher where it sleeps, once for each of its sleeps: only then there is a system call.
    pub(crate) fn wake_flusher(&self) {
        if self.asleep.load(SeqCst) && self.asleep.swap(false, SeqCst) {
            self.wakes.fetch_add(1, SeqCst);
            self.wakes.wake_one();
        }
    }

    /// Counts a seat that comes to wait, and wakes the flusher where it waits for seats and this is the last that it wants.
    fn come_to_wait(&self) {
        let waiting = self.waiting.fetch_add(1, SeqCst).wrapping_add(1);
        let wanted = self.wanted.load(SeqCst);
        if wanted != 0 && wanted <= waiting && self.wanted.swap(0, SeqCst) != 0 {
            self.enough.fetch_add(1, SeqCst);
            self.enough.wake_one();
        }
    }
}

/// Whether the growth of that number is settled, or no more will be.
fn is_past(number: u64, count: u64, state: MarkState) -> bool
    ensures { IsTrue result ↔ IsPast number count state }
{
    match state {
        MarkState::Running => number < count,
        MarkState::Ended | MarkState::Broken => true,
    }
}

impl<R: Record> Live<R> {
    /// Sleeps until more than `known` growths were published, or the book is closed, and answers whether it is
    /// closed. For the one flusher of a phase.
    ///
    /// After `true` a look finds all growths of the phase, unless it answers `Strayed`; after `false`, more than
    /// `known`. No clause says so: `end_by` tells whether these are all.
    pub fn await_more<E: Wait>(&self, rt: &E, known: u64) -> bool {
        let waking = &self.waking;
        for _ in rt.forever() {
            let wakes = waking.wakes.load(SeqCst);
            waking.asleep.store(true, SeqCst);
            let closed = waking.closing.done.load(SeqCst);
            if closed || self.directory.has(known) {
                waking.asleep.store(false, SeqCst);
                return closed;
            }
            waking.wakes.park(rt, low_half(wakes));
        }
        unreachable!()
    }

    /// Wakes those that wait for the mark, by one call where there are any, and answers how many had come to wait. For
    /// the flusher, after it raised or set the mark.
    pub fn wake_settled(&self) -> u64 {
        let waking = &self.waking;
        let woken = waking.waiting.swap(0, SeqCst);
        if woken != 0 {
            waking.raises.fetch_add(1, SeqCst);
            waking.raises.wake_all();
        }
        woken
    }

    /// Waits until as many have come to wait for the mark as were woken, for 100 microseconds at most; where none was, it
    /// returns at once. For the flusher, before it takes the next group: what those that it woke grow by in between is
    /// then in that group.
    pub fn await_waiters<E: Wait>(&self, rt: &E, woken: u64) {
        if woken == 0 {
            return;
        }
        let waking = &self.waking;
        let enough = waking.enough.load(SeqCst);
        waking.wanted.store(woken, SeqCst);
        if waking.waiting.load(SeqCst) < woken {
            let most = Duration::from_micros(LONGEST_WAIT);
            waking.enough.park_timeout(rt, low_half(enough), most);
        }
        waking.wanted.store(0, SeqCst);
    }

    /// How many growths are settled as the mark tells now, and whether more may be. It may lag behind the flusher
    /// and never leads. For a seat no count falls, and no state goes back to Running. The seat has then seen all raises of the
    /// mark so far; the newest was to that count.
    pub fn settled(&self, seat: &mut Seat<R>) -> (u64, MarkState)
        requires of { IsSeatOf self.now seat.old }
        ensures of { IsSeatOf self.now seat.new }
        ensures told { SeatIsTold seat.old seat.new result.0 result.1 }
    {
        let told = seat.mark.settled(&self.mark);
        (told.count, told.state)
    }

    /// As `settled`, once the growth of that number is settled or no more will be. It sleeps until then, and is woken
    /// by `wake_settled` alone.
    pub fn await_settled<E: Wait>(
        &self,
        rt: &E,
        seat: &mut Seat<R>,
        number: u64,
    ) -> (u64, MarkState)
        requires of { IsSeatOf self.now seat.old }
        ensures of { IsSeatOf self.now seat.new }
        ensures told { SeatIsTold seat.old seat.new result.0 result.1 }
        ensures past { IsPast number result.0 result.1 }
    {
        let raises = &self.waking.raises;
        let (mut count, mut state) = self.settled(seat);
        for _ in rt.forever() {
            if is_past(number, count, state) {
                break;
            }
            let before = raises.load(SeqCst);
            self.waking.come_to_wait();
            (count, state) = self.settled(seat);
            if is_past(number, count, state) {
                break;
            }
            raises.park(rt, low_half(before));
            (count, state) = self.settled(seat);
        }
        (count, state)
    }

    /// Sleeps until the growth of the receipt is settled, and answers how many growths are. `Ended` and `Broken` where
    /// it isn't settled as the mark tells, and won't be.
    pub fn await_receipt<E: Wait>(
        &self,
        rt: &E,
        seat: &mut Seat<R>,
        receipt: &Receipt,
    ) -> Result<u64, SettleFault>
        requires of { IsSeatOf self.now seat.old }
        ensures of { IsSeatOf self.now seat.new }
        ensures told { SeatIsTold seat.old seat.new seat.new.mark.told.count seat.new.mark.told.state }
        ensures settled { IsToldOf receipt.now.number seat.new.mark.told result }
    {
        let (count, state) = self.await_settled(rt, seat, receipt.number);
        if receipt.number < count {
            return Ok(count);
        }
        match state {
            MarkState::Broken => Err(SettleFault::Broken),
            MarkState::Running | MarkState::Ended => Err(SettleFault::Ended),
        }
    }
}
