//! Growing: each seat behind its own door, by turns that the directory's set-once cells decide.

ghost use Rattle.std.specs.Prelude.{◌≡◌, ◌+◌, ◌<◌, ◌≤◌, [], ◌∷◌, ◌++◌, length, replicate, IfOk, IfErr, IfSome, MatchOption, MatchResult};
ghost use Rattle.record_core.specs.Limits.{record_limit};
ghost use Rattle.directory_core.specs.Chain.{total, IsChained};
ghost use Rattle.book_core.specs.Lists.{IsSeatOf, HasJustItsOwn};
ghost use Rattle.book_core.specs.Growing.{SeatLearns, Grown, GrowsBy, FillsOrReaches, IsBookRefusal, StraysInLimit, IsCopiesRefusal, IsFillRefusal};

use crate::fault::GrowFault;
use crate::live::Live;
use crate::patience::Patience;
use crate::seat::{Receipt, Seat};
use crate::stretch::Stretch;
use block_core::{Fresh, Label};
use directory_core::DirFault;
use record_core::{RECORD_LIMIT, Record};
use std::sync::{MutexGuard, Wait};

impl<R: Record> Live<R> {
    /// The seat's door, taken. `None` once the book is closed.
    fn enter<E: Wait>(&self, rt: &E, id: u16) -> Option<MutexGuard<'_, Stretch>> {
        let door = self.doors.get(id as usize)?.lock(rt);
        if self.waking.closes() {
            return None;
        }
        Some(door)
    }

    /// Publishes the block behind all that the seat knows. For a grower that has just caught up.
    fn put(&self, seat: &mut Seat<R>, fresh: Fresh<R>) -> Result<Receipt, (Fresh<R>, GrowFault)>
        requires of { IsSeatOf self.now seat.old }
        requires own { HasJustItsOwn seat.old }
        ensures list { MatchResult result
            (λ receipt. Grown self.now seat.old seat.new fresh receipt)
            (λ refused. (refused.0 ≡ fresh) × SeatLearns seat.old seat.new) }
        ensures of { IsSeatOf self.now seat.new }
        ensures known { IfErr result (λ _. seat.new.pass.entries ≡ seat.old.pass.entries) }
        ensures at_once { IfOk result (λ receipt. receipt.number ≡ length seat.old.pass.entries) }
        ensures fault { IfErr result (λ refused. IsBookRefusal self.now seat.new (length fresh) refused.1) }
        ensures in_limit { IfErr result (λ refused. StraysInLimit self.now seat.new (length fresh) refused.1) }
    {
        if seat.pass.is_ended() {
            return Err((fresh, GrowFault::Closed));
        }
        let number = seat.pass.known();
        if number >= self.room {
            return Err((fresh, GrowFault::Full));
        }
        let before = seat.pass.size();
        let start = self.opening.len() + before;
        let len = fresh.len();
        if len > RECORD_LIMIT - start {
            return Err((fresh, GrowFault::TooLong));
        }
        let label = Label {
            number: number as u32,
            start: before as u32,
            serial: seat.serial as u32,
            seat: seat.id,
        };
        match self.directory.publish(&mut seat.pass, fresh.seal(label)) {
            Ok(()) => {
                let receipt = Receipt {
                    number,
                    start,
                    len,
                    seat: seat.id,
                    serial: seat.serial,
                };
                seat.serial += 1;
                seat.checked = number + 1;
                Ok(receipt)
            }
            Err((entry, fault)) => {
                let fault = match fault {
                    DirFault::Full => GrowFault::Full,
                    DirFault::Taken | DirFault::Strayed(_) => GrowFault::Strayed(number),
                    DirFault::Memory => GrowFault::Memory,
                };
                Err((Fresh::unseal(entry), fault))
            }
        }
    }

    /// Publishes the block as one growth behind all that the seat then knows, and answers where it stands. Where it
    /// is refused the block comes back with its records, and the seat knows at least what it knew.
    pub fn grow<E: Wait>(
        &self,
        rt: &E,
        seat: &mut Seat<R>,
        fresh: Fresh<R>,
    ) -> Result<Receipt, (Fresh<R>, GrowFault)>
        requires of { IsSeatOf self.now seat.old }
        ensures of { IsSeatOf self.now seat.new }
        ensures list { MatchResult result
            (λ receipt. Grown self.now seat.old seat.new fresh receipt)
            (λ refused. (refused.0 ≡ fresh) × SeatLearns seat.old seat.new) }
        ensures fault { IfErr result (λ refused. IsBookRefusal self.now seat.new (length fresh) refused.1) }
    {
        let Some(mut door) = self.enter(rt, seat.id) else {
            return Err((fresh, GrowFault::Closed));
        };
        let len = fresh.len();
        let put = self.put_in_turn(rt, seat, fresh);
        door.count::<R>(self.alloc, len);
        drop(door);
        self.waking.wake_flusher();
        put
    }

    /// As `grow`, once: for who may not wait. It takes no door and wakes nobody, and it is refused `Strayed` where another
    /// growth came first; the seat then knows that one, and the call may be made again.
    ///
    /// A `close` doesn't wait for it. So it is for a phase whose end is the last handle's: nobody calls `close` there, and
    /// who commits learns of growths by looking.
    pub fn try_grow(
        &self,
        seat: &mut Seat<R>,
        fresh: Fresh<R>,
    ) -> Result<Receipt, (Fresh<R>, GrowFault)>
        requires of { IsSeatOf self.now seat.old }
        ensures of { IsSeatOf self.now seat.new }
        ensures list { MatchResult result
            (λ receipt. Grown self.now seat.old seat.new fresh receipt)
            (λ refused. (refused.0 ≡ fresh) × SeatLearns seat.old seat.new) }
        ensures fault { IfErr result (λ refused. IsBookRefusal self.now seat.new (length fresh) refused.1) }
    {
        if let Err(fault) = self.catch_up(seat) {
            return Err((fresh, fault));
        }
        self.put(seat, fresh)
    }

    /// Publishes the block behind all that the seat knows, without a look first: where nobody else has grown since, there is
    /// nothing to find. No fault where another growth came first, or where the seat has yet to look.
    fn put_at_once(
        &self,
        seat: &mut Seat<R>,
        block: Fresh<R>,
    ) -> Result<Receipt, (Fresh<R>, Option<GrowFault>)>
        requires of { IsSeatOf self.now seat.old }
        ensures of { IsSeatOf self.now seat.new }
        ensures list { MatchResult result
            (λ receipt. Grown self.now seat.old seat.new block receipt)
            (λ refused. (refused.0 ≡ block) × SeatLearns seat.old seat.new) }
        ensures fault { IfErr result (λ refused. IfSome refused.1 (IsBookRefusal self.now seat.new (length block))) }
    {
        if !seat.has_just_its_own() {
            return Err((block, None));
        }
        match self.put(seat, block) {
            Ok(receipt) => Ok(receipt),
            Err((back, GrowFault::Strayed(_))) => Err((back, None)),
            Err((back, fault)) => Err((back, Some(fault))),
        }
    }

    /// Publishes the block behind all that the seat finds, as often as another growth comes first.
    fn put_in_turn<E: Wait>(
        &self,
        rt: &E,
        seat: &mut Seat<R>,
        block: Fresh<R>,
    ) -> Result<Receipt, (Fresh<R>, GrowFault)>
        requires of { IsSeatOf self.now seat.old }
        ensures of { IsSeatOf self.now seat.new }
        ensures list { MatchResult result
            (λ receipt. Grown self.now seat.old seat.new block receipt)
            (λ refused. (refused.0 ≡ block) × SeatLearns seat.old seat.new) }
        ensures fault { IfErr result (λ refused. IsBookRefusal self.now seat.new (length block) refused.1) }
    {
        let mut kept = match self.put_at_once(seat, block) {
            Ok(receipt) => return Ok(receipt),
            Err((back, fault)) => match fault {
                Some(fault) => return Err((back, fault)),
                None => back,
            },
        };
        let mut patience = Patience::new();
        for _ in rt.forever() {
            if let Err(fault) = self.catch_up(seat) {
                return Err((kept, fault));
            }
            match self.put(seat, kept) {
                Err((back, GrowFault::Strayed(_))) => kept = back,
                put => return put,
            }
            patience.give_way(rt);
        }
        unreachable!()
    }

    /// Grows by `n` copies of the value.
    pub fn grow_by<E: Wait>(
        &self,
        rt: &E,
        seat: &mut Seat<R>,
        n: u64,
        v: R,
    ) -> Result<Receipt, GrowFault>
        requires of { IsSeatOf self.now seat.old }
        ensures of { IsSeatOf self.now seat.new }
        ensures list { GrowsBy self.now seat.old seat.new (replicate n v) result }
        ensures fault { IfErr result (IsCopiesRefusal R.form.width self.now seat.new n) }
    {
        let fresh = Fresh::filled(self.alloc, n, v)?;
        match self.grow(rt, seat, fresh) {
            Ok(receipt) => Ok(receipt),
            Err((_, fault)) => Err(fault),
        }
    }

    /// Grows by copies of the records.
    pub fn grow_slice<E: Wait>(
        &self,
        rt: &E,
        seat: &mut Seat<R>,
        records: &[R],
    ) -> Result<Receipt, GrowFault>
        requires of { IsSeatOf self.now seat.old }
        ensures of { IsSeatOf self.now seat.new }
        ensures list { GrowsBy self.now seat.old seat.new records.now result }
        ensures fault { IfErr result (IsCopiesRefusal R.form.width self.now seat.new (length records.now)) }
    {
        let fresh = Fresh::from_slice(self.alloc, records)?;
        match self.grow(rt, seat, fresh) {
            Ok(receipt) => Ok(receipt),
            Err((_, fault)) => Err(fault),
        }
    }

    /// Grows by one record.
    pub fn push_back<E: Wait>(&self, rt: &E, seat: &mut Seat<R>, v: R) -> Result<Receipt, GrowFault>
        requires of { IsSeatOf self.now seat.old }
        ensures of { IsSeatOf self.now seat.new }
        ensures list { GrowsBy self.now seat.old seat.new (v ∷ []) result }
        ensures fault { IfErr result (IsCopiesRefusal R.form.width self.now seat.new 1) }
    {
        self.grow_by(rt, seat, 1, v)
    }

    /// Grows by as many copies of the value as bring the size to `n`. `None` where it is already there. The block is
    /// made behind the seat's door, again where another growth came first: it is refused by the first that holds of
    /// `Closed`, `Strayed`, `Full`, `TooLarge`, `TooLong` and `Memory`, of which all but the first two come only where
    /// the size falls short of `n`.
    pub fn grow_to_at_least<E: Wait>(
        &self,
        rt: &E,
        seat: &mut Seat<R>,
        n: u64,
        v: R,
    ) -> Result<Option<Receipt>, GrowFault>
        requires of { IsSeatOf self.now seat.old }
        ensures of { IsSeatOf self.now seat.new }
        ensures list { FillsOrReaches self.now seat.old seat.new n v result }
        ensures fault { IfErr result (IsFillRefusal R.form.width self.now seat.new n) }
    {
        let Some(door) = self.enter(rt, seat.id) else {
            return Err(GrowFault::Closed);
        };
        let filled = self.fill_in_turn(rt, seat, n, v);
        drop(door);
        self.waking.wake_flusher();
        filled
    }

    /// As `grow_to_at_least`, as often as another growth comes first.
    fn fill_in_turn<E: Wait>(
        &self,
        rt: &E,
        seat: &mut Seat<R>,
        least: u64,
        v: R,
    ) -> Result<Option<Receipt>, GrowFault>
        requires of { IsSeatOf self.now seat.old }
        ensures of { IsSeatOf self.now seat.new }
        ensures list { FillsOrReaches self.now seat.old seat.new least v result }
        ensures fault { IfErr result (IsFillRefusal R.form.width self.now seat.new least) }
    {
        let mut patience = Patience::new();
        for _ in rt.forever() {
            self.catch_up(seat)?;
            let filled = self.fill_up(seat, least, v);
            match filled {
                Err(GrowFault::Strayed(_)) => {}
                _ => return filled,
            }
            patience.give_way(rt);
        }
        unreachable!()
    }

    /// As `grow_to_at_least`, for a grower that has just caught up.
    fn fill_up(&self, seat: &mut Seat<R>, n: u64, v: R) -> Result<Option<Receipt>, GrowFault>
        requires of { IsSeatOf self.now seat.old }
        requires own { HasJustItsOwn seat.old }
        ensures of { IsSeatOf self.now seat.new }
        ensures list { FillsOrReaches self.now seat.old seat.new n v result }
        ensures fault { IfErr result (IsFillRefusal R.form.width self.now seat.new n) }
    {
        if seat.pass.is_ended() {
            return Err(GrowFault::Closed);
        }
        let size = self.size(seat);
        if n <= size {
            return Ok(None);
        }
        if seat.pass.known() >= self.room {
            return Err(GrowFault::Full);
        }
        let short = n - size;
        if Fresh::<R>::check_len(short).is_err() {
            return Err(GrowFault::TooLarge);
        }
        if n > RECORD_LIMIT {
            return Err(GrowFault::TooLong);
        }
        let Ok(fresh) = Fresh::filled(self.alloc, short, v) else {
            return Err(GrowFault::Memory);
        };
        match self.put(seat, fresh) {
            Ok(receipt) => Ok(Some(receipt)),
            Err((_, fault)) => Err(fault),
        }
    }
}
