//! What a phase lends to who settles its growths, by a pass of its own.

ghost use Rattle.std.specs.Prelude.{◌≡◌, ◌<◌, ◌≤◌, false, true, ◌↔◌, IsTrue, length, slice_get, Some, IfErr, MatchOption, MatchResult};
ghost use Rattle.directory_core.specs.Chain.{IsPrefix, Agree, IsLongerOf};
ghost use Rattle.directory_core.specs.Known.{KnowsAll};
ghost use Rattle.book_core.specs.Marks.{HasAllRaises, Rises};
ghost use Rattle.book_core.specs.Lists.{IsSeatOf};
ghost use Rattle.book_core.specs.Growing.{SeatLearns};

use crate::live::Live;
use crate::mark::{Mark, Writer};
use crate::seat::Seat;
use block_core::Entry;
use directory_core::{DirFault, Pass};
use record_core::Record;

impl<R: Record> Live<R> {
    /// The mark of the phase, for who raises it.
    pub fn mark(&self) -> &Mark
        ensures { result.now ≡ self.now.mark }
    {
        &self.mark
    }

    /// As `Directory::look`, for who settles the growths by a pass of its own.
    pub fn look_by(&self, pass: &mut Pass<R>) -> Result<u64, DirFault>
        requires of { pass.old.of ≡ self.now.directory }
        ensures of { pass.new.of ≡ self.now.directory }
        ensures longer { IsPrefix pass.old.entries pass.new.entries }
        ensures count { MatchResult result
            (λ known. known ≡ length pass.new.entries)
            (λ fault. fault ≡ DirFault.Strayed (length pass.new.entries)) }
        ensures in_room { IfErr result (λ _. length pass.new.entries < self.now.directory.room) }
        ensures strayed { MatchResult result (λ _. pass.new.strayed ≡ false) (λ _. pass.new.strayed ≡ true) }
    {
        self.directory.look(pass)
    }

    /// As `Directory::end`, for who settles the growths by a pass of its own: from then on each growth is refused.
    pub fn end_by(&self, pass: &mut Pass<R>) -> bool
        requires of { pass.old.of ≡ self.now.directory }
        ensures of { pass.new.of ≡ self.now.directory }
        ensures same { pass.new.entries ≡ pass.old.entries }
        ensures all { IsTrue result ↔ KnowsAll pass.new }
    {
        self.directory.end(pass)
    }

    /// The growth of that number, for who settles the growths by a pass of its own. `None` where the pass doesn't
    /// know it.
    pub fn entry<'a>(&'a self, pass: &mut Pass<R>, number: u64) -> Option<&'a Entry<R>>
        requires of { pass.old.of ≡ self.now.directory }
        ensures same { pass.new ≡ pass.old }
        ensures value { MatchOption result
            (length pass.old.entries ≤ number)
            (λ entry. slice_get pass.old.entries number ≡ Some entry.now) }
    {
        self.directory.entry(pass, number)
    }

    /// The pass of who settles the growths learns what a seat knows. It then knows what either knew; one of the two
    /// lists begins the other.
    pub fn meet_by(&self, pass: &mut Pass<R>, seat: &mut Seat<R>)
        requires of { (pass.old.of ≡ self.now.directory) × IsSeatOf self.now seat.old }
        ensures of { pass.new.of ≡ self.now.directory }
        ensures same { seat.new ≡ seat.old }
        ensures agree { Agree pass.old.entries seat.old.pass.entries }
        ensures meets { IsLongerOf pass.old.entries seat.old.pass.entries pass.new.entries }
        ensures all { KnowsAll pass.old → length seat.old.pass.entries ≤ length pass.old.entries }
    {
        pass.meet(&mut seat.pass);
    }

    /// A seat learns what the pass of who settles the growths knows, which is as it was.
    pub fn tell_by(&self, seat: &mut Seat<R>, pass: &mut Pass<R>)
        requires of { IsSeatOf self.now seat.old × (pass.old.of ≡ self.now.directory) }
        ensures of { IsSeatOf self.now seat.new }
        ensures same { pass.new ≡ pass.old }
        ensures learns { SeatLearns seat.old seat.new }
        ensures agree { Agree seat.old.pass.entries pass.old.entries }
        ensures meets { IsLongerOf seat.old.pass.entries pass.old.entries seat.new.pass.entries }
    {
        seat.pass.meet(pass);
    }

    /// Takes in a seat that is given up, for who settles the growths: the pass learns what the seat knew, what the seat
    /// was told rises to what the mark tells, and each raise that it has seen is one of the mark's. A pass that knows all has
    /// nothing to learn: the seat knew, and made, no growth but those.
    pub fn take_in(&self, pass: &mut Pass<R>, mark: &mut Writer, seat: Seat<R>)
        requires of { (pass.old.of ≡ self.now.directory) × (mark.old.of ≡ self.now.mark) × IsSeatOf self.now seat }
        ensures of { pass.new.of ≡ self.now.directory }
        ensures agree { Agree pass.old.entries seat.pass.entries }
        ensures meets { IsLongerOf pass.old.entries seat.pass.entries pass.new.entries }
        ensures ended { pass.new.ended ≡ pass.old.ended }
        ensures all { KnowsAll pass.old → length seat.pass.entries ≤ length pass.old.entries }
        ensures same { mark.new ≡ mark.old }
        ensures told { Rises seat.mark.told mark.old.told }
        ensures seen { HasAllRaises mark.old.raises seat.mark.raises }
    {
        let (mut known, reader) = seat.into_parts();
        pass.meet(&mut known);
        mark.take_in(&self.mark, reader);
    }
}
