//! The mark: one word that the flusher raises and the seats read. It tells how many growths are settled, and
//! whether more may be.

ghost use Rattle.std.specs.Prelude.{◌≡◌, ◌<◌, ◌≤◌, ◌+◌, ◌*◌, ◌^◌, [], ◌∷◌, IfOk};
ghost use Rattle.book_core.specs.Marks.{nothing_told, HasAllRaises, IsOver, Rises, raised_to, code, word_of, writer};

use atomic_table::{Join, Play, Seat, Split, Table, TableRule};
use std::alloc::{AllocError, Global};
use std::collections::LinkedList;
use std::marker::{Brand, Model, PhantomData};

/// Whether the mark may still be raised.
#[derive(Clone, Copy, Debug, PartialEq, Eq)]
pub enum MarkState {
    /// More growths may be settled.
    Running,
    /// The flusher has settled all growths of a closed book.
    Ended,
    /// The flusher has met a fault, and settles no more.
    Broken,
}

/// What a mark tells.
#[derive(Clone, Copy, Debug, PartialEq, Eq)]
pub struct Reading {
    /// How many growths of the phase are settled.
    pub count: u64,
    pub state: MarkState,
}

/// One raise of a mark: how many growths it told as settled from then on, and when that was, by a clock that whoever raises
/// it names. No value of it is made.
pub struct Raise {
    pub count: u64,
    pub at: u64,
}

/// What an end of a mark knows: whether it writes, what it was told last, the raises that it has seen, the newest first, and
/// what another end was told and has seen that it takes in. No value of it is made.
pub struct View {
    pub writes: bool,
    pub told: Reading,
    pub raises: LinkedList<Raise>,
    pub claim: Reading,
    pub claimed: LinkedList<Raise>,
}

/// When a mark is raised.
pub trait Moment {
    ghost use Rattle.std.specs.Prelude.{ℕ};

    ghost at: { ℕ };
}

/// A call picks the moment.
impl Moment for Brand {
    ghost at = { 0 };
}

/// The raises of a mark up to a store, the newest first.
trait History {
    ghost use Rattle.std.specs.Prelude.{List};
    ghost use Rattle.book_core.specs.declared.mark.Raise.{Raise};

    ghost raises: { List Raise };
}

/// A call picks the raises.
impl History for Brand {
    ghost use Rattle.std.specs.Prelude.{[]};

    ghost raises = { [] };
}

/// What the word and the views keep.
pub struct Rule;

impl TableRule<u8, View, ()> for Rule {
    ghost use Rattle.std.specs.Prelude.{[]};
    ghost use Rattle.book_core.specs.Marks.{Kept, writer, nothing_told};

    ghost holds = { λ _ s. Kept s };

    ghost first = { λ _. writer nothing_told [] };
}

/// A reader is made that was told what the writer tells, and has seen the same raises.
struct Copies;

impl Split<View> for Copies {
    ghost use Rattle.book_core.specs.Marks.{reader};

    ghost left = { λ v. v };

    ghost right = { λ v. reader v.told v.raises };
}

/// An end is given up, and the other keeps what it was told as a claim.
struct TakesIn;

impl Join<View> for TakesIn {
    ghost use Rattle.book_core.specs.Marks.{shown, nobody};

    ghost both = { shown };

    ghost spent = { nobody };
}

/// A load by which the writer finds that a claim holds.
struct Checks;

impl Play<u8, View> for Checks {
    ghost use Rattle.book_core.specs.Marks.{Checked};

    ghost then = { λ step before found after. Checked before after };
}

/// A load by which a reader is told what the mark tells.
struct Loads;

impl Play<u8, View> for Loads {
    ghost use Rattle.book_core.specs.Marks.{Loaded};

    ghost then = { λ step before found after. Loaded before found after };
}

/// A store by which the mark tells what the word says, behind these raises.
struct Stores<H: History> {
    raises: PhantomData<H>,
}

impl<H: History> Play<u8, View> for Stores<H> {
    ghost use Rattle.std.specs.Prelude.{◌≡◌};
    ghost use Rattle.book_core.specs.declared.mark.Reading.{Reading};
    ghost use Rattle.book_core.specs.Marks.{Stored, word_of};

    ghost then = { λ step before found after. (told : Reading) → step.first ≡ word_of told → Stored told H.raises after };
}

/// The word itself. Contracts see which mark it is.
#[derive(Drop)]
pub struct Mark {
    table: Table<u8, View, (), Rule, Global>,
}

impl Model for Mark {
    ghost use Rattle.std.specs.Prelude.{◌≡◌};
    ghost use Rattle.book_core.specs.Marks.{MarkName};

    ghost Value = { MarkName };

    ghost view = { λ mark. record { table = mark.table.shared.table_id } };

    ghost invariant = { λ mark. mark.table.shared.table_id.words ≡ 1 };
}

/// The flusher's end of a mark, the only one that raises it. Contracts see which mark it is of, what that tells, and all its
/// raises.
#[derive(Drop)]
pub struct Writer {
    seat: Seat<u8, View>,
    told: Reading,
}

impl Model for Writer {
    ghost use Rattle.std.specs.Prelude.{◌≡◌, ◌<◌, ◌^◌, []};
    ghost use Rattle.book_core.specs.Marks.{MarkEnd, raised_to, writer};

    ghost Value = { MarkEnd };

    ghost view = { λ end. record { of = record { table = end.seat.table_id }; told = end.told; raises = end.seat.me.0.raises } };

    ghost invariant = { λ end. (end.seat.me.0 ≡ writer end.told end.seat.me.0.raises) × (raised_to end.seat.me.0.raises ≡ end.told.count) × (end.seat.me.1 ≡ []) × (end.told.count < 2 ^ 62) };
}

/// A seat's end of a mark. Contracts see which mark it is of, what it was told last, and the raises that it has seen.
#[derive(Drop)]
pub struct Reader {
    seat: Seat<u8, View>,
}

impl Model for Reader {
    ghost use Rattle.std.specs.Prelude.{◌≡◌, []};
    ghost use Rattle.book_core.specs.Marks.{MarkEnd};

    ghost Value = { MarkEnd };

    ghost view = { λ end. record { of = record { table = end.seat.table_id }; told = end.seat.me.0.told; raises = end.seat.me.0.raises } };

    ghost invariant = { λ end. end.seat.me.1 ≡ [] };
}

impl Mark {
    /// A mark that tells that nothing is settled and more may be, and its writing end.
    pub fn make(alloc: Global) -> Result<(Mark, Writer), AllocError>
        ensures { IfOk result (λ made. (made.1.of ≡ made.0) × (made.1.told ≡ nothing_told) × (made.1.raises ≡ [])) }
    {
        let (table, seat) = Table::of_words(alloc, &[0], &())?;
        let told = Reading {
            count: 0,
            state: MarkState::Running,
        };
        Ok((Mark { table }, Writer { seat, told }))
    }
}

impl MarkState {
    /// The two low bits of the word.
    fn code(self) -> u64
        ensures { result ≡ code self }
    {
        match self {
            MarkState::Running => 0,
            MarkState::Ended => 1,
            MarkState::Broken => 2,
        }
    }
}

impl Reading {
    /// The word that tells this.
    fn word(self) -> u64
        requires { self.count < 2 ^ 62 }
        ensures { result ≡ word_of self }
    {
        self.count * 4 + self.state.code()
    }

    /// What a word tells.
    fn of_word(word: u64) -> Reading
        ensures { (told : Reading) → word ≡ word_of told → result ≡ told }
    {
        let state = match word % 4 {
            0 => MarkState::Running,
            1 => MarkState::Ended,
            _ => MarkState::Broken,
        };
        Reading {
            count: word / 4,
            state,
        }
    }
}

impl Writer {
    /// What the mark tells.
    pub fn told(&self) -> Reading
        ensures { result ≡ self.now.told }
    {
        self.told
    }

    /// A reader that was told what the mark tells, and has seen its raises.
    pub fn split(&mut self, mark: &Mark) -> Reader
        requires of { self.old.of ≡ mark.now }
        ensures same { self.new ≡ self.old }
        ensures reader { (result.of ≡ mark.now) × (result.told ≡ self.old.told) × (result.raises ≡ self.old.raises) }
    {
        Reader {
            seat: mark.table.shared.split_seat::<Copies>(&mut self.seat),
        }
    }

    /// Takes in a reader: what it was told rises to what the mark tells, and each raise that it has seen is one of the mark's.
    pub fn take_in(&mut self, mark: &Mark, theirs: Reader)
        requires of { (self.old.of ≡ mark.now) × (theirs.of ≡ mark.now) }
        ensures same { self.new ≡ self.old }
        ensures told { Rises theirs.told self.old.told }
        ensures seen { HasAllRaises self.old.raises theirs.raises }
    {
        mark.table
            .shared
            .join_seat::<TakesIn>(&mut self.seat, theirs.seat);
        mark.table.shared.load::<Checks>(&mut self.seat, 0);
    }

    /// The mark tells this from now on, behind these raises.
    fn store<H: History>(&mut self, mark: &Mark, told: Reading)
        requires of { self.old.of ≡ mark.now }
        requires rises { Rises self.old.told told }
        requires raised { raised_to H.raises ≡ told.count }
        requires seen { HasAllRaises H.raises self.old.raises }
        requires fits { told.count < 2 ^ 62 }
        ensures of { self.new.of ≡ mark.now }
        ensures told { self.new.told ≡ told }
        ensures raises { self.new.raises ≡ H.raises }
    {
        mark.table
            .shared
            .store::<Stores<H>>(&mut self.seat, 0, told.word());
        self.told = told;
    }

    /// So many growths are settled, as the mark tells from this moment on. The state stays. It wakes nobody:
    /// `Live::wake_settled` does.
    pub fn raise<M: Moment>(&mut self, mark: &Mark, count: u64)
        requires of { self.old.of ≡ mark.now }
        requires no_fall { self.old.told.count ≤ count }
        requires fits { count < 2 ^ 62 }
        ensures of { self.new.of ≡ mark.now }
        ensures told { self.new.told ≡ record { count = count; state = self.old.told.state } }
        ensures raises { self.new.raises ≡ record { count = count; at = M.at } ∷ self.old.raises }
    {
        let state = self.told.state;
        self.store::<Brand>(mark, Reading { count, state });
    }

    /// The mark has this state. What it tells as settled stays. It wakes nobody: `Live::wake_settled` does.
    fn set(&mut self, mark: &Mark, state: MarkState)
        requires of { self.old.of ≡ mark.now }
        requires over { IsOver state }
        ensures of { self.new.of ≡ mark.now }
        ensures told { self.new.told ≡ record { count = self.old.told.count; state = state } }
        ensures raises { self.new.raises ≡ self.old.raises }
    {
        let told = Reading { state, ..self.told };
        self.store::<Brand>(mark, told);
    }

    /// The mark says Ended. What it tells as settled stays. It wakes nobody: `Live::wake_settled` does.
    pub fn set_ended(&mut self, mark: &Mark)
        requires of { self.old.of ≡ mark.now }
        ensures of { self.new.of ≡ mark.now }
        ensures told { self.new.told ≡ record { count = self.old.told.count; state = MarkState.Ended } }
        ensures raises { self.new.raises ≡ self.old.raises }
    {
        self.set(mark, MarkState::Ended);
    }

    /// The mark says Broken. What it tells as settled stays. It wakes nobody: `Live::wake_settled` does.
    pub fn set_broken(&mut self, mark: &Mark)
        requires of { self.old.of ≡ mark.now }
        ensures of { self.new.of ≡ mark.now }
        ensures told { self.new.told ≡ record { count = self.old.told.count; state = MarkState.Broken } }
        ensures raises { self.new.raises ≡ self.old.raises }
    {
        self.set(mark, MarkState::Broken);
    }
}

impl Reader {
    /// What the mark tells now, by the newest of the raises so far, all of which it has seen then. No count is less than one
    /// before, and a mark that is over doesn't run again.
    pub fn settled(&mut self, mark: &Mark) -> Reading
        requires of { self.old.of ≡ mark.now }
        ensures of { self.new.of ≡ mark.now }
        ensures told { self.new.told ≡ result }
        ensures rises { Rises self.old.told result }
        ensures raised { raised_to self.new.raises ≡ result.count }
        ensures seen { HasAllRaises self.new.raises self.old.raises }
    {
        Reading::of_word(mark.table.shared.load::<Loads>(&mut self.seat, 0))
    }
}
