//! What a seat learns of the growths of others.

ghost use Rattle.std.specs.Prelude.{◌≡◌, ◌+◌, ◌≤◌, false, length, take, IfErr, OnOk, MatchOption, MatchResult};
ghost use Rattle.record_core.specs.Limits.{record_limit};
ghost use Rattle.directory_core.specs.Chain.{Agree, IsLongerOf};
ghost use Rattle.book_core.specs.Lists.{IsSeatOf, own_of, HasJustItsOwn, IsFirstOf, seat_list};
ghost use Rattle.book_core.specs.Growing.{SeatLearns, IsLookFault, size_of};

use crate::fault::GrowFault;
use crate::live::Live;
use crate::seat::Seat;
use directory_core::{DirFault, Pass};
use record_core::Record;

impl<R: Record> Live<R> {
    /// The number of the first growth from there on that bears the id.
    fn first_of(&self, pass: &mut Pass<R>, id: u16, from: u64) -> Option<u64>
        requires of { pass.old.of ≡ self.now.directory }
        requires from { from ≤ length pass.old.entries }
        ensures same { pass.new ≡ pass.old }
        ensures first { MatchOption result
            (own_of id pass.old.entries ≡ own_of id (take from pass.old.entries))
            (λ n. IsFirstOf id from n pass.old.entries) }
    {
        if from >= pass.known() {
            return None;
        }
        for number in from..pass.known() {
            let Some(entry) = self.directory.entry(pass, number) else {
                unreachable!()
            };
            if entry.seat() == id {
                return Some(number);
            }
        }
        None
    }

    /// The seat learns what others have published, and finds that of its own growths its list has just those that it
    /// made.
    pub(crate) fn catch_up(&self, seat: &mut Seat<R>) -> Result<(), GrowFault>
        requires of { IsSeatOf self.now seat.old }
        ensures of { IsSeatOf self.now seat.new }
        ensures learns { SeatLearns seat.old seat.new }
        ensures own { OnOk result (HasJustItsOwn seat.new) }
        ensures strayed { OnOk result (seat.new.pass.strayed ≡ false) }
        ensures fault { IfErr result (IsLookFault seat.new) }
    {
        let looked = self.directory.look(&mut seat.pass);
        if let Some(number) = self.first_of(&mut seat.pass, seat.id, seat.checked) {
            return Err(GrowFault::Strayed(number));
        }
        seat.checked = seat.pass.known();
        match looked {
            Ok(_) => Ok(()),
            Err(DirFault::Strayed(number)) => Err(GrowFault::Strayed(number)),
            Err(_) => unreachable!(),
        }
    }

    /// The seat learns what others have published. Answers the size that it then knows. `Strayed` names the first
    /// number whose growth doesn't follow those before it, or bears the seat's id and is none of its growths.
    pub fn look(&self, seat: &mut Seat<R>) -> Result<u64, GrowFault>
        requires of { IsSeatOf self.now seat.old }
        ensures of { IsSeatOf self.now seat.new }
        ensures learns { SeatLearns seat.old seat.new }
        ensures size { MatchResult result
            (λ size. (size ≡ size_of self.now seat.new) × HasJustItsOwn seat.new)
            (IsLookFault seat.new) }
        ensures strayed { OnOk result (seat.new.pass.strayed ≡ false) }
    {
        self.catch_up(seat)?;
        Ok(self.size(seat))
    }

    /// How many records the seat knows, those from before the phase among them.
    pub fn size(&self, seat: &Seat<R>) -> u64
        requires of { IsSeatOf self.now seat.now }
        ensures size { result ≡ size_of self.now seat.now }
        ensures is { result ≡ length (seat_list self.now seat.now) }
        ensures in_limit { result ≤ record_limit }
    {
        self.opening.len() + seat.pass.size()
    }

    /// The seat learns what the other knows. It then knows what either knew; one of the two lists begins the other.
    pub fn meet(&self, seat: &mut Seat<R>, other: &mut Seat<R>)
        requires of { IsSeatOf self.now seat.old × IsSeatOf self.now other.old }
        ensures of { IsSeatOf self.now seat.new }
        ensures same { other.new ≡ other.old }
        ensures learns { SeatLearns seat.old seat.new }
        ensures agree { Agree seat.old.pass.entries other.old.pass.entries }
        ensures meets { IsLongerOf seat.old.pass.entries other.old.pass.entries seat.new.pass.entries }
    {
        seat.pass.meet(&mut other.pass);
    }
}
