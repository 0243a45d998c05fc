//! Reading what a seat knows: by position, and piece by piece. Nobody waits, and no memory is taken; what is lent
//! stays while others grow.

ghost use Rattle.std.specs.Prelude.{◌≡◌, ◌≤◌, List, length, drop, slice_get, Some, MatchOption, IfSome};
ghost use Rattle.directory_core.specs.Finding.{IsPieceAt};
ghost use Rattle.book_core.specs.Lists.{IsSeatOf, joined_pieces, seat_list, seat_pieces, IsPlaceIn, IsRestOfPiece};

use crate::live::Live;
use crate::seat::Seat;
use record_core::Record;

impl<R: Record> Live<R> {
    /// The number of the piece that has position `i`, and the place there. `None` past the end.
    fn find(&self, seat: &Seat<R>, i: u64) -> Option<(u64, usize)>
        requires of { IsSeatOf self.now seat.now }
        ensures { MatchOption result
            (length (seat_list self.now seat.now) ≤ i)
            (λ found. IsPlaceIn (seat_pieces self.now seat.now) i found.0 found.1) }
    {
        let before = self.opening.len();
        if i < before {
            let (number, place) = self.opening.find(i);
            return Some((number as u64, place));
        }
        let (number, place) = seat.pass.find(i - before)?;
        Some((self.opening.blocks.len() as u64 + number, place))
    }

    /// The record at position `i`, lent for the life of the book. `None` past the end.
    pub fn get<'a>(&'a self, seat: &mut Seat<R>, i: u64) -> Option<&'a R>
        requires of { IsSeatOf self.now seat.old }
        ensures same { seat.new ≡ seat.old }
        ensures value { MatchOption result
            (length (seat_list self.now seat.old) ≤ i)
            (λ found. slice_get (seat_list self.now seat.old) i ≡ Some found.now) }
    {
        let piece = self.piece(seat, i)?;
        Some(&piece[0])
    }

    /// The records from position `i` to the end of the piece that has it, lent for the life of the book. `None`
    /// past the end.
    pub fn piece<'a>(&'a self, seat: &mut Seat<R>, i: u64) -> Option<&'a [R]>
        requires of { IsSeatOf self.now seat.old }
        ensures same { seat.new ≡ seat.old }
        ensures value { MatchOption result
            (length (seat_list self.now seat.old) ≤ i)
            (λ piece. IsRestOfPiece (seat_pieces self.now seat.old) i piece.now) }
        ensures in_order { IfSome result (λ piece. IsPieceAt (seat_list self.now seat.old) i piece.now) }
    {
        let (number, place) = self.find(seat, i)?;
        let piece = self.piece_at(seat, number)?;
        Some(&piece[place..])
    }

    /// In how many pieces the list stands as the seat knows it: the blocks from before the phase, and the growths.
    pub fn piece_count(&self, seat: &Seat<R>) -> u64
        requires of { IsSeatOf self.now seat.now }
        ensures count { result ≡ length (seat_pieces self.now seat.now) }
        ensures joined { joined_pieces (seat_pieces self.now seat.now) ≡ seat_list self.now seat.now }
    {
        self.opening.blocks.len() as u64 + seat.pass.known()
    }

    /// The piece of that number, lent for the life of the book: the blocks from before the phase come first, then
    /// the growths by their numbers. `None` past the last one. A growth's piece has records; a block from before the
    /// phase may have none.
    pub fn piece_at<'a>(&'a self, seat: &mut Seat<R>, number: u64) -> Option<&'a [R]>
        requires of { IsSeatOf self.now seat.old }
        ensures same { seat.new ≡ seat.old }
        ensures value { MatchOption result
            (length (seat_pieces self.now seat.old) ≤ number)
            (λ piece. slice_get (seat_pieces self.now seat.old) number ≡ Some piece.now) }
    {
        let blocks = self.opening.blocks.len() as u64;
        if number < blocks {
            return Some(self.opening.blocks[number as usize].as_slice());
        }
        let entry = self.directory.entry(&mut seat.pass, number - blocks)?;
        Some(entry.records())
    }
}

/// The pieces that are left of a list as a seat knows it, in order. The seat is borrowed until this ends, and is then
/// as it was.
#[derive(Drop)]
pub struct Pieces<'a, 's, R: Record> {
    live: &'a Live<R>,
    seat: &'s mut Seat<R>,
    next: u64,
    /// Of the next piece so many records are left out.
    place: usize,
    count: u64,
    ghost of: { IsSeatOf live.now seat.now },
    ghost counted: { count ≡ length (seat_pieces live.now seat.now) },
    ghost inside: { next ≤ count },
    ghost placed: { (piece : List R) → slice_get (seat_pieces live.now seat.now) next ≡ Some piece → place ≤ length piece },
}

impl<R: Record> Live<R> {
    ghost use Rattle.book_core.specs.Pieces.{pieces_left, IsLeftOf};

    /// The pieces of the list as the seat knows it, in order, lent for the life of the book: the blocks from before
    /// the phase, then the growths by their numbers.
    pub fn pieces<'a, 's>(&'a self, seat: &'s mut Seat<R>) -> Pieces<'a, 's, R>
        requires of { IsSeatOf self.now seat.old }
        ensures pieces { pieces_left result ≡ seat_pieces self.now seat.old }
        ensures seat { (result.seat.ghost_name ≡ seat.entry.ghost_name) × (result.seat.now ≡ seat.old) }
    {
        let count = self.piece_count(seat);
        Pieces {
            live: self,
            seat,
            next: 0,
            place: 0,
            count,
        }
    }

    /// As `pieces`, from position `i` on: the records from there to the end of the piece that has it, then the pieces
    /// behind it. None past the end.
    pub fn pieces_from<'a, 's>(&'a self, seat: &'s mut Seat<R>, i: u64) -> Pieces<'a, 's, R>
        requires of { IsSeatOf self.now seat.old }
        ensures list { joined_pieces (pieces_left result) ≡ drop i (seat_list self.now seat.old) }
        ensures pieces { IsLeftOf (seat_pieces self.now seat.old) (pieces_left result) }
        ensures seat { (result.seat.ghost_name ≡ seat.entry.ghost_name) × (result.seat.now ≡ seat.old) }
    {
        let count = self.piece_count(seat);
        let (next, place) = self.find(seat, i).unwrap_or((count, 0));
        Pieces {
            live: self,
            seat,
            next,
            place,
            count,
        }
    }
}

impl<'a, 's, R: Record> Pieces<'a, 's, R> {
    ghost use Rattle.std.specs.Iterator.{YieldsFirstRef};
    ghost use Rattle.book_core.specs.Pieces.{pieces_left};

    /// The next piece. `None` past the last one.
    pub fn next_piece(&mut self) -> Option<&'a [R]>
        ensures next { YieldsFirstRef pieces_left self.old result self.new }
        ensures seat { (self.new.seat.ghost_name ≡ self.old.seat.ghost_name)
            × (self.new.seat.now ≡ self.old.seat.now) }
    {
        let piece = self.live.piece_at(self.seat, self.next)?;
        let place = self.place;
        self.next += 1;
        self.place = 0;
        Some(&piece[place..])
    }

    /// How many pieces are left.
    pub fn left(&self) -> u64
        ensures { result ≡ length (pieces_left self.now) }
    {
        self.count - self.next
    }
}
