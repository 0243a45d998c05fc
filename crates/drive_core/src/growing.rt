//! A growth phase in the driver's hand: each step is a call of the book or of the flusher, and is answered by a row of
//! the table of steps.

ghost use Rattle.std.specs.Prelude.{◌≡◌, ◌≤◌, ◌<◌, length, false, None, Some, MatchOption};
ghost use Rattle.block_core.specs.Length.{IsBlockLength};
ghost use Rattle.flush_core.specs.Refusals.{lane_calls};
ghost use Rattle.drive_core.specs.Asked.{answer_of};
ghost use Rattle.drive_core.specs.LaneRows.{lane_step};
ghost use Rattle.drive_core.specs.Line.{of_flush, of_block, put_fault_of, look_fault_of};
ghost use Rattle.drive_core.specs.Step as step;
ghost use Rattle.drive_core.specs.GrowthTies.{GrowthStepsOf};
ghost use Rattle.drive_core.specs.Ties.{GrowingOf};

use crate::copying::copy_view;
use crate::fault::StepFault;
use crate::meeting::meet_in;
use crate::step::Answer;
use block_core::{Fresh, FreshFault};
use book_core::{GrowFault, Live, MarkState, Seat};
use disk_core::Disk;
use flush_core::{FlushFault, Flusher, Lane};
use pen_core::PenFault;
use record_core::Record;
use std::alloc::Global;
use std::marker::Model;
use std::sync::Wait;
use vault_core::{Gathering, Vault, VaultFault, gather};

/// The flusher's fault as it is answered.
fn told_fault(fault: FlushFault) -> StepFault
    ensures { result ≡ of_flush fault }
{
    match fault {
        FlushFault::Pen(fault) => StepFault::Vault(VaultFault::Pen(fault)),
        FlushFault::Strayed(number) => StepFault::Grow(GrowFault::Strayed(number)),
    }
}

/// The block's fault as the book's.
fn block_fault(fault: FreshFault) -> GrowFault
    ensures { result ≡ of_block fault }
{
    match fault {
        FreshFault::Empty => GrowFault::Empty,
        FreshFault::TooLarge => GrowFault::TooLarge,
        FreshFault::Memory => GrowFault::Memory,
    }
}

/// Why a put is refused, where the book has answered this: the seat knew all, or something strayed.
fn put_fault(fault: GrowFault, all: bool, puts: u64) -> GrowFault
    ensures { result ≡ put_fault_of fault all puts }
{
    match fault {
        GrowFault::Closed => GrowFault::Strayed(puts),
        GrowFault::Strayed(number) => GrowFault::Strayed(number),
        fault if all => fault,
        _ => GrowFault::Strayed(puts),
    }
}

/// Why a look is refused: something strayed.
fn look_fault(fault: GrowFault, puts: u64) -> GrowFault
    ensures { result ≡ GrowFault.Strayed (look_fault_of fault puts) }
{
    match fault {
        GrowFault::Strayed(number) => GrowFault::Strayed(number),
        _ => GrowFault::Strayed(puts),
    }
}

/// A growth phase: the book, its seats and its flusher; how many growths were put, and the seat that put the last; what
/// the mark was raised to; whether the book was closed.
#[derive(Drop)]
pub struct Growing<R: Record, D: Disk> {
    live: Live<R>,
    seats: Vec<Seat<R>>,
    flusher: Flusher<R, D>,
    puts: u64,
    last: usize,
    mark: u64,
    closed: bool,
    alloc: Global,
}

impl<R: Record, D: Disk> Model for Growing<R, D> {
    ghost use Rattle.std.specs.Prelude.{◌<◌, length};
    ghost use Rattle.flush_core.specs.Flusher.{IsFlusherOf};
    ghost use Rattle.drive_core.specs.Ties.{GrowingOf, AreSeatsOf};

    ghost Value = { GrowingOf R D };

    ghost view = { λ g. record {
      live = g.live;
      seats = g.seats.items;
      flusher = g.flusher;
      puts = g.puts;
      last = g.last;
      mark = g.mark;
      closed = g.closed;
    } };

    ghost invariant = { λ g. IsFlusherOf (D.keeps g.flusher.pen.disk) g.live g.flusher × AreSeatsOf g.live g.seats.items × (g.last < length g.seats.items) };
}

impl<R: Record, D: Disk> Growing<R, D> {
    ghost use Rattle.std.specs.Prelude.{◌++◌, IfOk, IfErr, OnOk};
    ghost use Rattle.book_core.specs.Beginning.{AreNewSeats};
    ghost use Rattle.directory_core.specs.Chain.{grown_records};
    ghost use Rattle.book_core.specs.Lists.{opening_of};
    ghost use Rattle.flush_core.specs.Flusher.{IsFlusherOf};
    ghost use Rattle.vault_core.specs.Gathering.{IsWhole, IsGatherFault};
    ghost use Rattle.vault_core.specs.Vault.{list_of};

    /// The phase at its begin.
    pub fn begin(
        alloc: Global,
        live: Live<R>,
        flusher: Flusher<R, D>,
        seats: Vec<Seat<R>>,
    ) -> Growing<R, D>
        requires of { IsFlusherOf (D.keeps flusher.pen.disk) live flusher }
        requires new { AreNewSeats live.directory live.mark seats.items }
        requires some { 0 < length seats.items }
        ensures { result ≡ record { live = live; seats = seats.items; flusher = flusher; puts = 0; last = 0; mark = 0; closed = false } }
    {
        Growing {
            live,
            seats,
            flusher,
            puts: 0,
            last: 0,
            mark: 0,
            closed: false,
            alloc,
        }
    }

    /// The end of the phase. Refused as `vault_core::gather`, with the phase as it was.
    pub fn gather(self) -> Result<Vault<R, D>, (Growing<R, D>, VaultFault)>
        ensures list { IfOk result (λ vault. list_of vault ≡ opening_of self.live ++ grown_records self.flusher.pass.entries) }
        ensures pen { IfOk result (λ vault. vault.pen ≡ self.flusher.pen) }
        ensures whole { OnOk result (IsWhole self.live self.seats self.flusher) }
        ensures back { IfErr result (λ r. (r.0 ≡ self) × IsGatherFault self.live self.seats self.flusher r.1) }
    {
        let Growing {
            live,
            seats,
            flusher,
            puts,
            last,
            mark,
            closed,
            alloc,
        } = self;
        match gather(alloc, live, seats, flusher) {
            Ok(vault) => Ok(vault),
            Err(refused) => {
                let Gathering {
                    live,
                    seats,
                    flusher,
                    fault,
                } = refused;
                let growing = Growing {
                    live,
                    seats,
                    flusher,
                    puts,
                    last,
                    mark,
                    closed,
                    alloc,
                };
                Err((growing, fault))
            }
        }
    }

    /// The next device call of a lane: of the log job, or of the fold in hand, or its filing.
    pub fn tick(&mut self, lane: Lane) -> Answer<R>
        ensures steps { GrowthStepsOf R.form D.states D.faults D.keeps self.old self.new (lane_step lane) (answer_of result) (lane_calls lane self.old.flusher.pen) }
        ensures model { D.keeps self.new.flusher.pen.disk → D.keeps self.old.flusher.pen.disk }
    {
        let ticked = self.flusher.tick(lane);
        let _ = self.flusher.disk();
        match ticked {
            Ok(tick) => Answer::Ticked(tick),
            Err(fault) => Answer::Refused(told_fault(fault)),
        }
    }

    /// The mark tells from now on what is settled.
    pub fn raise(&mut self) -> Answer<R>
        ensures steps { GrowthStepsOf R.form D.states D.faults D.keeps self.old self.new step.Raise (answer_of result) 0 }
        ensures model { D.keeps self.new.flusher.pen.disk → D.keeps self.old.flusher.pen.disk }
    {
        self.mark = self.flusher.raise(&self.live);
        Answer::Raised(self.mark)
    }

    /// What a seat is told by the mark.
    pub fn settled(&mut self, seat: usize) -> Answer<R>
        requires { seat < length self.old.seats }
        ensures steps { GrowthStepsOf R.form D.states D.faults D.keeps self.old self.new (step.Settled seat) (answer_of result) 0 }
        ensures model { D.keeps self.new.flusher.pen.disk → D.keeps self.old.flusher.pen.disk }
    {
        let (count, state) = self.live.settled(&mut self.seats[seat]);
        if let MarkState::Running = state {
            if count <= self.mark {
                return Answer::Settled(count, MarkState::Running);
            }
        }
        Answer::Refused(StepFault::Grow(GrowFault::Strayed(count)))
    }

    /// Begins a group.
    pub fn take(&mut self) -> Answer<R>
        ensures steps { GrowthStepsOf R.form D.states D.faults D.keeps self.old self.new step.Take (answer_of result) 0 }
        ensures model { D.keeps self.new.flusher.pen.disk → D.keeps self.old.flusher.pen.disk }
    {
        match self.flusher.take_group(&self.live) {
            Ok(count) => Answer::Took(count),
            Err(fault) => Answer::Refused(told_fault(fault)),
        }
    }

    /// From now on the book refuses each growth, and the driver each put.
    pub fn close<E: Wait>(&mut self, rt: &E) -> Answer<R>
        ensures steps { GrowthStepsOf R.form D.states D.faults D.keeps self.old self.new step.Close (answer_of result) 0 }
        ensures model { D.keeps self.new.flusher.pen.disk → D.keeps self.old.flusher.pen.disk }
    {
        self.live.close(rt);
        self.closed = true;
        Answer::Fine
    }

    /// Publishes a block as the next growth of a seat. Who knows all compares then.
    fn publish<E: Wait>(&mut self, rt: &E, seat: usize, fresh: Fresh<R>) -> Answer<R>
        requires inside { seat < length self.old.seats }
        requires not_closed { self.old.closed ≡ false }
        requires block { IsBlockLength R.form.width (length fresh) }
        ensures steps { GrowthStepsOf R.form D.states D.faults D.keeps self.old self.new (step.Put seat fresh) (answer_of result) 0 }
        ensures model { D.keeps self.new.flusher.pen.disk → D.keeps self.old.flusher.pen.disk }
    {
        let grown = self.live.grow(rt, &mut self.seats[seat], fresh);
        let known = self.seats[seat].known();
        let _ = self.live.size(&self.seats[seat]);
        meet_in(&self.live, &mut self.seats, seat, self.last);
        match grown {
            Ok(receipt) => {
                if receipt.number != self.puts {
                    return Answer::Refused(StepFault::Grow(GrowFault::Strayed(self.puts)));
                }
                self.puts = known;
                self.last = seat;
                Answer::Growth(receipt)
            }
            Err((_, fault)) => {
                let all = known == self.puts;
                Answer::Refused(StepFault::Grow(put_fault(fault, all, self.puts)))
            }
        }
    }

    /// A growth of these records by a seat.
    pub fn put<E: Wait>(&mut self, rt: &E, seat: usize, records: &Vec<R>) -> Answer<R>
        requires inside { seat < length self.old.seats }
        ensures steps { GrowthStepsOf R.form D.states D.faults D.keeps self.old self.new (step.Put seat records.now.items) (answer_of result) 0 }
        ensures model { D.keeps self.new.flusher.pen.disk → D.keeps self.old.flusher.pen.disk }
    {
        let fresh = match Fresh::from_slice(self.alloc, records.as_slice()) {
            Ok(fresh) => fresh,
            Err(fault) => return Answer::Refused(StepFault::Grow(block_fault(fault))),
        };
        if self.closed {
            return Answer::Refused(StepFault::Grow(GrowFault::Closed));
        }
        self.publish(rt, seat, fresh)
    }

    /// What the flusher finds. Who knows all compares then; the flusher learns nothing of it.
    pub fn look_flusher(&mut self) -> Answer<R>
        ensures steps { GrowthStepsOf R.form D.states D.faults D.keeps self.old self.new (step.Look None) (answer_of result) 0 }
        ensures model { D.keeps self.new.flusher.pen.disk → D.keeps self.old.flusher.pen.disk }
    {
        let looked = self.flusher.look(&self.live);
        let known = self.flusher.known();
        self.flusher.tell(&self.live, &mut self.seats[self.last]);
        if known > self.puts {
            return Answer::Refused(StepFault::Grow(GrowFault::Strayed(self.puts)));
        }
        match looked {
            Ok(size) => Answer::Size(size),
            Err(fault) => Answer::Refused(told_fault(fault)),
        }
    }

    /// What a seat finds. Who knows all compares then; the seat learns nothing of it.
    pub fn look(&mut self, seat: usize) -> Answer<R>
        requires inside { seat < length self.old.seats }
        ensures steps { GrowthStepsOf R.form D.states D.faults D.keeps self.old self.new (step.Look (Some seat)) (answer_of result) 0 }
        ensures model { D.keeps self.new.flusher.pen.disk → D.keeps self.old.flusher.pen.disk }
    {
        let looked = self.live.look(&mut self.seats[seat]);
        let known = self.seats[seat].known();
        meet_in(&self.live, &mut self.seats, self.last, seat);
        if known > self.puts {
            return Answer::Refused(StepFault::Grow(GrowFault::Strayed(self.puts)));
        }
        match looked {
            Ok(size) => Answer::Size(size),
            Err(fault) => Answer::Refused(StepFault::Grow(look_fault(fault, self.puts))),
        }
    }

    /// The list as a seat knows it.
    pub fn view(&mut self, seat: usize) -> Answer<R>
        requires inside { seat < length self.old.seats }
        ensures steps { GrowthStepsOf R.form D.states D.faults D.keeps self.old self.new (step.View seat) (answer_of result) 0 }
        ensures model { D.keeps self.new.flusher.pen.disk → D.keeps self.old.flusher.pen.disk }
    {
        match copy_view(self.alloc, &self.live, &mut self.seats[seat]) {
            Ok(records) => Answer::Listed(records),
            Err(_) => Answer::Refused(StepFault::Vault(VaultFault::Pen(PenFault::Memory))),
        }
    }

    /// Begins a fold.
    pub fn fold(&mut self) -> Answer<R>
        ensures steps { GrowthStepsOf R.form D.states D.faults D.keeps self.old self.new step.Fold (answer_of result) 0 }
        ensures model { D.keeps self.new.flusher.pen.disk → D.keeps self.old.flusher.pen.disk }
    {
        let _ = self.flusher.disk();
        match self.flusher.begin_fold(&self.live) {
            Ok(begun) => Answer::Begun(begun),
            Err(fault) => Answer::Refused(told_fault(fault)),
        }
    }

    /// The seat of this number, if there is one.
    pub fn seat(&self, number: u64) -> Option<usize>
        ensures { MatchOption result (length self.now.seats ≤ number) (λ seat. (seat ≡ number) × (seat < length self.now.seats)) }
    {
        let count = self.seats.len();
        if number < count as u64 {
            Some(number as usize)
        } else {
            None
        }
    }

    /// The disk as it stands.
    pub fn into_disk(self) -> D
        ensures { result ≡ self.flusher.pen.disk }
    {
        let Growing { flusher, .. } = self;
        let (disk, _) = flusher.into_parts();
        disk
    }

    /// The disk as it stands.
    pub fn disk(&self) -> &D
        ensures { result.now ≡ self.now.flusher.pen.disk }
    {
        self.flusher.disk()
    }
}
