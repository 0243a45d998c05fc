//! A grower that gathers records into blocks of a length that its caller chose.

ghost use Rattle.std.specs.Prelude.{◌≡◌, ◌<◌, ◌≤◌, [], ◌∷◌, length, MatchOption, MatchResult, IfErr};
ghost use Rattle.block_core.specs.Length.{IsBlockLength, IsLengthFault};
ghost use Rattle.book_core.specs.Lists.{IsSeatOf};
ghost use Rattle.book_core.specs.Growing.{Grown, SeatLearns, SeatIsTold, IsToldOf};
ghost use Rattle.book_core.specs.Appending.{IsAppended, IsFlushed, KeepsAll, IsFlushRefusal, IsAppendRefusal};

use crate::fault::{GrowFault, SettleFault};
use crate::live::Live;
use crate::seat::{Receipt, Seat};
use block_core::{Fresh, FreshFault};
use record_core::Record;
use std::alloc::Global;
use std::marker::Model;
use std::mem;
use std::sync::Wait;

/// A seat, and records that it will grow by as one block once there are enough: so a growth is paid for once for many
/// records. Nobody else sees what is kept, no receipt names it, and on a drop it is lost: `flush` grows by it, and so does
/// `finish`, which gives the seat back. A refusal loses nothing: what is kept stays, and the call may be made again.
/// Contracts see the seat, the records that are kept, and how many a full block has.
#[derive(Drop)]
pub struct Appender<R: Record> {
    seat: Seat<R>,
    kept: Vec<R>,
    room: usize,
    alloc: Global,
}

impl<R: Record> Model for Appender<R> {
    ghost use Rattle.std.specs.Prelude.{◌≤◌, length};
    ghost use Rattle.block_core.specs.Length.{IsBlockLength};
    ghost use Rattle.book_core.specs.Appending.{Appending};

    ghost Value = { Appending R };

    ghost view = { λ a. record {
      seat = a.seat;
      kept = a.kept.items;
      room = a.room;
    } };

    ghost invariant = { λ a. (length a.kept.items ≤ a.room) × IsBlockLength R.form.width a.room };
}

impl<R: Record> Appender<R> {
    /// It keeps nothing, and grows by blocks of so many records. The seat comes back where that is no length of a block:
    /// `Empty` for 0, `TooLarge` past one frame. Memory for the records is taken with the first of each block.
    pub fn new(
        alloc: Global,
        seat: Seat<R>,
        room: u64,
    ) -> Result<Appender<R>, (Seat<R>, FreshFault)>
        ensures { MatchResult result
            (λ appender. appender ≡ record { seat = seat; kept = []; room = room })
            (λ refused. (refused.0 ≡ seat) × IsLengthFault R.form.width room refused.1) }
    {
        if let Err(fault) = Fresh::<R>::check_len(room) {
            return Err((seat, fault));
        }
        Ok(Appender {
            seat,
            kept: Vec::new(alloc),
            room: room as usize,
            alloc,
        })
    }

    /// The records that are kept, in order.
    pub fn kept(&self) -> &[R]
        ensures value { result.now ≡ self.now.kept }
        ensures in_room { length result.now ≤ self.now.room }
    {
        self.kept.as_slice()
    }

    /// Grows by the records that are kept, of which there are some, and then keeps these.
    fn exchange<E: Wait>(
        &mut self,
        rt: &E,
        live: &Live<R>,
        next: Vec<R>,
    ) -> Result<Receipt, GrowFault>
        requires of { IsSeatOf live.now self.old.seat }
        requires some { 0 < length self.old.kept }
        requires next { length next.items ≤ self.old.room }
        ensures of { IsSeatOf live.now self.new.seat }
        ensures grown { MatchResult result
            (λ receipt. Grown live.now self.old.seat self.new.seat self.old.kept receipt
            × (self.new.kept ≡ next.items))
            (λ fault. KeepsAll self.old self.new × IsFlushRefusal live.now self.new fault) }
        ensures room { self.new.room ≡ self.old.room }
    {
        let full = mem::replace(&mut self.kept, next);
        let fresh = match Fresh::from_vec(self.alloc, full) {
            Ok(fresh) => fresh,
            // So many are a block.
            Err((back, _)) => {
                self.kept = back;
                return Err(GrowFault::Memory);
            }
        };
        match live.grow(rt, &mut self.seat, fresh) {
            Ok(receipt) => Ok(receipt),
            Err((back, fault)) => {
                self.kept = back.into_vec();
                Err(fault)
            }
        }
    }

    /// Grows by the records that are kept, as one block. `None` where there are none.
    pub fn flush<E: Wait>(&mut self, rt: &E, live: &Live<R>) -> Result<Option<Receipt>, GrowFault>
        requires of { IsSeatOf live.now self.old.seat }
        ensures of { IsSeatOf live.now self.new.seat }
        ensures flushed { MatchResult result
            (λ made. IsFlushed live.now self.old self.new made)
            (λ fault. KeepsAll self.old self.new × IsFlushRefusal live.now self.new fault) }
    {
        if self.kept.is_empty() {
            return Ok(None);
        }
        let receipt = self.exchange(rt, live, Vec::new(self.alloc))?;
        Ok(Some(receipt))
    }

    /// Keeps the record. Where a full block is kept it grows by that first, and answers its receipt; where that is refused,
    /// the record isn't kept.
    pub fn push<E: Wait>(
        &mut self,
        rt: &E,
        live: &Live<R>,
        v: R,
    ) -> Result<Option<Receipt>, GrowFault>
        requires of { IsSeatOf live.now self.old.seat }
        ensures of { IsSeatOf live.now self.new.seat }
        ensures appended { MatchResult result
            (λ made. IsAppended live.now self.old self.new v made)
            (λ fault. KeepsAll self.old self.new × IsAppendRefusal live.now self.new fault) }
    {
        if self.kept.len() < self.room {
            self.kept.reserve_exact(self.room - self.kept.len())?;
            self.kept.push_reserved(v);
            return Ok(None);
        }
        let mut next = Vec::with_capacity(self.alloc, self.room)?;
        next.push_reserved(v);
        let receipt = self.exchange(rt, live, next)?;
        Ok(Some(receipt))
    }

    /// As `Live::await_receipt`, by the appender's seat.
    pub fn await_receipt<E: Wait>(
        &mut self,
        rt: &E,
        live: &Live<R>,
        receipt: &Receipt,
    ) -> Result<u64, SettleFault>
        requires of { IsSeatOf live.now self.old.seat }
        ensures of { IsSeatOf live.now self.new.seat }
        ensures same { (self.new.kept ≡ self.old.kept) × (self.new.room ≡ self.old.room) }
        ensures told { SeatIsTold self.old.seat self.new.seat self.new.seat.mark.told.count self.new.seat.mark.told.state }
        ensures settled { IsToldOf receipt.now.number self.new.seat.mark.told result }
    {
        live.await_receipt(rt, &mut self.seat, receipt)
    }

    /// As `flush`, and gives the seat back. Where it is refused the appender comes back.
    pub fn finish<E: Wait>(
        self,
        rt: &E,
        live: &Live<R>,
    ) -> Result<(Seat<R>, Option<Receipt>), (Appender<R>, GrowFault)>
        requires of { IsSeatOf live.now self.seat }
        ensures of { MatchResult result
            (λ done. IsSeatOf live.now done.0)
            (λ refused. IsSeatOf live.now refused.0.seat) }
        ensures finished { MatchResult result
            (λ done. MatchOption done.1
            ((self.kept ≡ []) × (done.0 ≡ self.seat))
            (Grown live.now self.seat done.0 self.kept))
            (λ refused. KeepsAll self refused.0 × IsFlushRefusal live.now refused.0 refused.1) }
    {
        let mut appender = self;
        match appender.flush(rt, live) {
            Ok(made) => Ok((appender.seat, made)),
            Err(fault) => Err((appender, fault)),
        }
    }

    /// The seat, and the records that were kept, by which it didn't grow.
    pub fn into_parts(self) -> (Seat<R>, Vec<R>)
        ensures { (result.0 ≡ self.seat) × (result.1.items ≡ self.kept) }
    {
        (self.seat, self.kept)
    }
}
