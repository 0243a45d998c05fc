//! What a flusher learns of the growers, and what it tells them.

ghost use Rattle.std.specs.Prelude.{◌≡◌, ◌≤◌, ◌<◌, ◌+◌, ◌∷◌, ◌^◌, false, true, length, IfOk, IfErr, IsTrue, MatchResult};
ghost use Rattle.disk_core.specs.Moments.{clock};
ghost use Rattle.directory_core.specs.Chain.{Agree, IsLongerOf, IsPrefix, total};
ghost use Rattle.directory_core.specs.Known.{KnowsAll};
ghost use Rattle.book_core.specs.Lists as lists;
ghost use Rattle.book_core.specs.Growing as growing;
ghost use Rattle.book_core.specs.Marks.{Rises};
ghost use Rattle.flush_core.specs.Flusher.{IsFlusherOf, FlusherLearns, ToldIsLeft};

use crate::fault::FlushFault;
use crate::flusher::Flusher;
use book_core::{Live, Mark, Moment, Seat, Writer};
use directory_core::DirFault;
use disk_core::Disk;
use record_core::Record;
use std::marker::Brand;

/// The mark tells of so many growths as settled, from the disk's moment on.
fn raise_at<D: Disk, M: Moment>(writer: &mut Writer, mark: &Mark, disk: &D, count: u64)
    requires of { writer.old.of ≡ mark.now }
    requires no_fall { writer.old.told.count ≤ count }
    requires fits { count < 2 ^ 62 }
    requires at { M.at ≡ clock (D.states disk.now) }
    ensures of { writer.new.of ≡ mark.now }
    ensures told { writer.new.told ≡ record { count = count; state = writer.old.told.state } }
    ensures raises { writer.new.raises ≡ record { count = count; at = clock (D.states disk.now) } ∷ writer.old.raises }
{
    writer.raise::<M>(mark, count);
}

impl<R: Record, D: Disk> Flusher<R, D> {
    /// Learns what growers have published, and answers how many records it then knows, those from before the phase
    /// among them. `Strayed` names the growth that doesn't follow those before it; what stands before that one is known
    /// then.
    pub fn look(&mut self, live: &Live<R>) -> Result<u64, FlushFault>
        requires of { IsFlusherOf (D.keeps self.old.pen.disk) live.now self.old }
        ensures learns { FlusherLearns self.old self.new }
        ensures size { MatchResult result
            (λ size. size ≡ self.new.before + total self.new.pass.entries)
            (λ fault. fault ≡ FlushFault.Strayed (length self.new.pass.entries)) }
        ensures strayed { MatchResult result (λ _. self.new.pass.strayed ≡ false) (λ _. self.new.pass.strayed ≡ true) }
    {
        match live.look_by(&mut self.pass) {
            Ok(_) => Ok(self.before + self.pass.size()),
            Err(DirFault::Strayed(number)) => Err(FlushFault::Strayed(number)),
            Err(_) => unreachable!(),
        }
    }

    /// Learns what a seat knows. Each growth that both know stands in the same place for both.
    pub fn meet(&mut self, live: &Live<R>, seat: &mut Seat<R>)
        requires of { IsFlusherOf (D.keeps self.old.pen.disk) live.now self.old × lists.IsSeatOf live.now seat.old }
        ensures learns { FlusherLearns self.old self.new }
        ensures same { seat.new ≡ seat.old }
        ensures agree { Agree self.old.pass.entries seat.old.pass.entries }
        ensures meets { IsLongerOf self.old.pass.entries seat.old.pass.entries self.new.pass.entries }
    {
        live.meet_by(&mut self.pass, seat);
    }

    /// A seat learns what it knows, and it is as it was. So who knows all growths can tell that it knows no other.
    pub fn tell(&mut self, live: &Live<R>, seat: &mut Seat<R>)
        requires of { IsFlusherOf (D.keeps self.old.pen.disk) live.now self.old × lists.IsSeatOf live.now seat.old }
        ensures same { self.new ≡ self.old }
        ensures of { lists.IsSeatOf live.now seat.new }
        ensures learns { growing.SeatLearns seat.old seat.new }
        ensures agree { Agree seat.old.pass.entries self.old.pass.entries }
        ensures meets { IsLongerOf seat.old.pass.entries self.old.pass.entries seat.new.pass.entries }
    {
        live.tell_by(seat, &mut self.pass);
    }

    /// The mark tells from now on how many growths are settled, which is answered: a raise at the disk's moment. Its state
    /// stays. It wakes nobody: `Live::wake_settled` does.
    pub fn raise(&mut self, live: &Live<R>) -> u64
        requires of { IsFlusherOf (D.keeps self.old.pen.disk) live.now self.old }
        ensures raised { self.new ≡ record self.old {
          mark = record {
            of = self.old.mark.of;
            told = record { count = self.old.settled; state = self.old.mark.told.state };
            raises = record { count = self.old.settled; at = clock (D.states self.old.pen.disk) } ∷ self.old.mark.raises;
          };
        } }
        ensures count { result ≡ self.old.settled }
    {
        // No more growths are known than the mark can tell.
        let known = self.pass.known();
        prove!(self.settled <= known);
        raise_at::<D, Brand>(&mut self.mark, live.mark(), self.pen.disk(), self.settled);
        self.settled
    }

    /// Ends the directory behind the growths that it knows: from then on each growth is refused, and none can stand behind
    /// them. `false` where another came first, of which a look learns.
    pub fn end(&mut self, live: &Live<R>) -> bool
        requires of { IsFlusherOf (D.keeps self.old.pen.disk) live.now self.old }
        ensures learns { FlusherLearns self.old self.new }
        ensures same { self.new.pass.entries ≡ self.old.pass.entries }
        ensures all { IsTrue result → KnowsAll self.new.pass }
    {
        live.end_by(&mut self.pass)
    }

    /// Gives a seat up: what it knows is known, and what it was told by the mark is settled, and stands: whatever a crash has
    /// left since a raise that the seat has seen, up to now, opens to so many growths at least. So also behind a fault of the
    /// pen. Who knows all the growths of the phase, as behind an `Ok` of `serve`, learns nothing: each growth that the seat
    /// made or knows is among them.
    pub fn take_in(&mut self, live: &Live<R>, seat: Seat<R>)
        requires of { IsFlusherOf (D.keeps self.old.pen.disk) live.now self.old × lists.IsSeatOf live.now seat }
        ensures learns { FlusherLearns self.old self.new }
        ensures agree { Agree self.old.pass.entries seat.pass.entries }
        ensures meets { IsLongerOf self.old.pass.entries seat.pass.entries self.new.pass.entries }
        ensures told { seat.mark.told.count ≤ self.new.settled }
        ensures left { D.keeps self.new.pen.disk → ToldIsLeft R.form (D.states self.new.pen.disk) self.new seat.mark.raises }
        ensures all { KnowsAll self.old.pass → IsPrefix seat.pass.entries self.old.pass.entries × (self.new.pass.entries ≡ self.old.pass.entries) × KnowsAll self.new.pass }
    {
        live.take_in(&mut self.pass, &mut self.mark, seat);
    }
}
