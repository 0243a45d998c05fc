//! A thread's own end of a phase.

ghost use Rattle.std.specs.Prelude.{◌≡◌, ◌/◌, ◌<◌, ◌≤◌, ◌⊎◌, length, IfErr, MatchResult};
ghost use Rattle.std.specs.List.{count_by};
ghost use Rattle.std.specs.Arc.{arc_value};
ghost use Rattle.book_core.specs.Lists.{IsSeatOf, seat_list};
ghost use Rattle.book_core.specs.Growing.{Grown, IsBookRefusal, IsLookFault, SeatIsTold, SeatLearns};
ghost use Rattle.phase_core.specs.Telling.{TellsFrom};

use crate::piece::Piece;
use crate::searching::{count_equal, find_equal};
use block_core::Fresh;
use book_core::{GrowFault, Live, MarkState, Receipt, Seat};
use c_core::write_from;
use record_core::Record;
use std::alloc::Global;
use std::sync::Arc;

/// A thread's own end of a phase. It lives as long as its phase, which it keeps: the last end that is dropped ends it.
#[derive(Drop)]
pub struct Grower<R: Record> {
    live: Arc<Live<R>, Global>,
    seat: Seat<R>,
    ghost of: { IsSeatOf (arc_value live) seat },
}

/// Tells where the records stand that the seat knows, piece by piece from position `from` on, in front of `out`, and answers
/// how many pieces: as many as `out` has room for, or all. Blocks without records are none.
fn tell<R: Record>(live: &Live<R>, seat: &mut Seat<R>, from: u64, out: &mut [Piece]) -> usize
    requires of { IsSeatOf live.now seat.old }
    ensures same { seat.new ≡ seat.old }
    ensures told { TellsFrom (seat_list live.now seat.old) from out.old out.new result }
{
    let _size = live.size(seat);
    let mut left = live.pieces_from(seat, from);
    let mut at = from;
    let mut count = 0;
    while count < out.len() {
        let Some(records) = left.next_piece() else {
            break;
        };
        if !records.is_empty() {
            out[count] = Piece::of(at, records);
            count += 1;
            at += records.len() as u64;
        }
    }
    count
}

impl<R: Record> Grower<R> {
    ghost use Rattle.phase_core.specs.Grower.{phase_of, list_of, pieces_of, Copies, IsOfOnePiece, IsFoundFrom, equals};

    pub(crate) fn new(live: Arc<Live<R>, Global>, seat: Seat<R>) -> Grower<R>
        requires { IsSeatOf (arc_value live) seat }
        ensures { (phase_of result ≡ arc_value live) × (result.seat ≡ seat) }
    {
        Grower { live, seat }
    }

    /// Grows by the block, behind all that was grown before: its records stay where they are. `Strayed` where another growth came
    /// first: the seat knows that one then, and the call may be made again. Refused, the block is handed back.
    pub fn publish(&mut self, block: Fresh<R>) -> Result<Receipt, (Fresh<R>, GrowFault)>
        ensures phase { phase_of self.new ≡ phase_of self.old }
        ensures grown { MatchResult result
            (Grown (phase_of self.old) self.old.seat self.new.seat block)
            (λ refused. (refused.0 ≡ block) × SeatLearns self.old.seat self.new.seat) }
        ensures refused { IfErr result (λ refused. IsBookRefusal (phase_of self.old) self.new.seat (length block) refused.1) }
    {
        self.live.try_grow(&mut self.seat, block)
    }

    /// How many growths are durable, and whether more may be. For a grower no count falls.
    pub fn settled(&mut self) -> (u64, MarkState)
        ensures phase { phase_of self.new ≡ phase_of self.old }
        ensures told { SeatIsTold self.old.seat self.new.seat result.0 result.1 }
    {
        self.live.settled(&mut self.seat)
    }

    /// Learns what others grew, and answers how many records there are. `Strayed` names a growth that is none of the phase.
    pub fn look(&mut self) -> Result<u64, GrowFault>
        ensures phase { phase_of self.new ≡ phase_of self.old }
        ensures learns { SeatLearns self.old.seat self.new.seat }
        ensures size { MatchResult result
            (λ size. size ≡ length (list_of self.new))
            (IsLookFault self.new.seat) }
    {
        self.live.look(&mut self.seat)?;
        Ok(self.live.size(&self.seat))
    }

    /// Copies the bytes of records from position `from` on to the front of `out`, and answers of how many: as many as stand in one
    /// piece there, at least one where it knows one there and `out` has room.
    #[tactic(auto, using(crate::proofs::ReadLemmas::copies, crate::proofs::ReadLemmas::of_one_piece))]
    pub fn read(&mut self, from: u64, out: &mut [u8]) -> u64
        ensures same { self.new ≡ self.old }
        ensures copies { Copies R.form (list_of self.old) from out.old out.new result }
        ensures as_many { from < length (list_of self.old)
            → IsOfOnePiece (pieces_of self.old) from (length out.old / R.form.width) result }
        ensures some { (result ≡ 0) → (length (list_of self.old) ≤ from) ⊎ (length out.old < R.form.width) }
    {
        match self.live.piece(&mut self.seat, from) {
            Some(piece) => write_from(piece, 0, out),
            None => 0,
        }
    }

    /// Tells where the records stand that it knows, piece by piece from position `from` on, in front of `out`, and answers how
    /// many pieces: as many as `out` has room for, or all. They stand there, as they are, until the phase has ended: as long
    /// as one of its ends isn't dropped, and none has gathered it.
    pub fn pieces(&mut self, from: u64, out: &mut [Piece]) -> usize
        ensures same { self.new ≡ self.old }
        ensures told { TellsFrom (list_of self.old) from out.old out.new result }
    {
        tell(&self.live, &mut self.seat, from, out)
    }

    /// How many of the records that it knows equal this one.
    pub fn count(&mut self, sought: R) -> u64
        ensures same { self.new ≡ self.old }
        ensures count { result ≡ count_by (equals R.Eq.eq sought) (list_of self.old) }
    {
        count_equal(&self.live, &mut self.seat, sought)
    }

    /// The first position from `from` on whose record equals this one. How many records it knows, where none does.
    pub fn find(&mut self, sought: R, from: u64) -> u64
        ensures same { self.new ≡ self.old }
        ensures found { IsFoundFrom (list_of self.old) sought from result }
    {
        find_equal(&self.live, &mut self.seat, sought, from)
    }
}
