//! What one thread has of a phase.

ghost use Rattle.std.specs.Prelude.{◌≡◌, ◌≤◌, [], length, IsTrue};
ghost use Rattle.directory_core.specs.Chain.{IsChained, AreBlocks};
ghost use Rattle.book_core.specs.Lists.{StandInList, HasJustItsOwn};

use crate::mark::Reader;
use directory_core::Pass;
use record_core::Record;
use std::marker::Model;

/// What a growth's maker gets: where the growth stands in the whole vector.
#[derive(Clone, Copy, Debug, PartialEq, Eq)]
pub struct Receipt {
    /// How many growths of the phase stand before it.
    pub number: u64,
    /// How many records stand before it, those from before the phase among them.
    pub start: u64,
    /// How many records it has.
    pub len: u64,
    /// Whose growth it is.
    pub seat: u16,
    /// How many growths of that seat stand before it.
    pub serial: u64,
}

/// What one thread has of a phase: an id of its own, the growths that it knows, and what it was told by the mark.
/// Contracts see these, and the growths that it made.
#[derive(Drop)]
pub struct Seat<R: Record> {
    pub(crate) id: u16,
    pub(crate) serial: u64,
    /// Of so many growths that it knows those that bear its id are those that it made.
    pub(crate) checked: u64,
    pub(crate) pass: Pass<R>,
    pub(crate) mark: Reader,
}

impl<R: Record> Model for Seat<R> {
    ghost use Rattle.std.specs.Prelude.{◌≡◌, ◌≤◌, length, take};
    ghost use Rattle.book_core.specs.Lists.{Seated, own_of};

    ghost Value = { Seated R };

    ghost view = { λ seat. record {
      id = seat.id;
      made = own_of seat.id (take seat.checked seat.pass.entries);
      pass = seat.pass;
      mark = seat.mark;
    } };

    ghost invariant = { λ seat.
        (seat.serial ≡ length (own_of seat.id (take seat.checked seat.pass.entries)))
        × (seat.serial ≤ seat.checked)
        × (seat.checked ≤ length seat.pass.entries) };
}

impl<R: Record> Seat<R> {
    /// A seat that knows nothing.
    pub(crate) fn of(id: u16, pass: Pass<R>, mark: Reader) -> Seat<R>
        requires { pass.entries ≡ [] }
        ensures { result ≡ record { id = id; made = []; pass = pass; mark = mark } }
    {
        Seat {
            id,
            serial: 0,
            checked: 0,
            pass,
            mark,
        }
    }

    /// Whose growths its growths are.
    pub fn id(&self) -> u16
        ensures { result ≡ self.now.id }
    {
        self.id
    }

    /// How many growths it made, which is the serial of its next.
    pub fn serial(&self) -> u64
        ensures count { result ≡ length self.now.made }
        ensures stand_in_list { StandInList self.now }
    {
        self.serial
    }

    /// Whether of the growths that it knows those that bear its id are those that it made: not before it has looked at what
    /// a `meet` brought it.
    pub(crate) fn has_just_its_own(&self) -> bool
        ensures { IsTrue result → HasJustItsOwn self.now }
    {
        self.checked >= self.pass.known()
    }

    /// How many growths it knows.
    pub fn known(&self) -> u64
        ensures count { result ≡ length self.now.pass.entries }
        ensures chained { IsChained self.now.pass.entries }
        ensures in_a_frame { AreBlocks R.form.width self.now.pass.entries }
        ensures in_room { result ≤ self.now.pass.of.room }
    {
        self.pass.known()
    }

    /// Gives the seat up, and answers what it knows and its end of the mark.
    pub fn into_parts(self) -> (Pass<R>, Reader)
        ensures { (result.0 ≡ self.pass) × (result.1 ≡ self.mark) }
    {
        (self.pass, self.mark)
    }
}
