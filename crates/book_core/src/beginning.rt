//! How a phase begins: what its threads share, and a seat for each of them.

ghost use Rattle.std.specs.Prelude.{◌≡◌, ◌≤◌, [], ◌++◌, length, option_to_list, IfOk, IfErr, IfSome, MatchOption, OnOk};
ghost use Rattle.record_core.specs.Limits.{record_limit};
ghost use Rattle.book_core.specs.Marks.{nothing_told};
ghost use Rattle.book_core.specs.Lists.{records_of, joined_pieces, IsSeatOf};
ghost use Rattle.book_core.specs.Beginning.{IsNewSeat, AreNewSeats, IsBeginRefusal, IsWideBeginRefusal, MayBegin, MayBeginWide};

use crate::fault::GrowFault;
use crate::live::{Door, Live};
use crate::mark::{Mark, Writer};
use crate::opening::Opening;
use crate::seat::Seat;
use crate::stretch::Stretch;
use crate::waking::Waking;
use crossbeam_utils::CachePadded;
use directory_core::{Directory, GROWTH_LIMIT, PLACE_LIMIT, Pass};
use record_core::{RECORD_LIMIT, Record};
use std::alloc::Global;
use std::sync::Mutex;

/// The seats of a phase at most.
pub const SEAT_LIMIT: u16 = 64;

/// A phase that begins: what its threads share, their seats with the ids 0, 1, .., and one pass and the writing end
/// of the mark for who settles the growths.
#[derive(Drop)]
pub struct Begun<R: Record> {
    pub live: Live<R>,
    pub seats: Vec<Seat<R>>,
    pub pass: Pass<R>,
    pub mark: Writer,
}

/// What a phase needs beside its blocks.
#[derive(Drop)]
struct Parts<R: Record> {
    doors: Vec<Door>,
    directory: Directory<R>,
    mark: Mark,
    seats: Vec<Seat<R>>,
    pass: Pass<R>,
    writer: Writer,
}

/// A door for each of so many seats.
fn doors_of(alloc: Global, count: u16) -> Option<Vec<Door>> {
    let mut doors = Vec::with_capacity(alloc, count as usize).ok()?;
    for _ in 0..count {
        doors.push_reserved(CachePadded::new(Mutex::new(Stretch::new())));
    }
    Some(doors)
}

/// So many new seats.
fn seats_of<R: Record>(
    alloc: Global,
    directory: &Directory<R>,
    mark: &Mark,
    writer: &mut Writer,
    count: u16,
) -> Option<Vec<Seat<R>>>
    requires mark { writer.old ≡ record { of = mark.now; told = nothing_told; raises = [] } }
    ensures same { writer.new ≡ writer.old }
    ensures seats { IfSome result (λ seats.
        (length seats.items ≡ count) × AreNewSeats directory.now mark.now seats.items) }
{
    let Ok(mut seats) = Vec::with_capacity(alloc, count as usize) else {
        return None;
    };
    for id in 0..count {
        let Ok(pass) = directory.pass() else {
            return None;
        };
        seats.push_reserved(Seat::of(id, pass, writer.split(mark)));
    }
    Some(seats)
}

impl<R: Record> Parts<R> {
    fn make(alloc: Global, room: u64, limit: u64, seats: u16) -> Option<Parts<R>>
        requires { MayBeginWide room seats × (limit ≤ record_limit) }
        ensures directory { IfSome result (λ parts.
            (parts.directory.room ≡ room) × (parts.directory.limit ≡ limit)) }
        ensures seats { IfSome result (λ parts.
            (length parts.seats.items ≡ seats)
            × AreNewSeats parts.directory parts.mark parts.seats.items) }
        ensures pass { IfSome result (λ parts.
            (parts.pass.of ≡ parts.directory) × (parts.pass.entries ≡ [])) }
        ensures mark { IfSome result (λ parts.
            parts.writer ≡ record { of = parts.mark; told = nothing_told; raises = [] }) }
    {
        let doors = doors_of(alloc, seats)?;
        let Ok(directory) = Directory::with_limit(alloc, room, limit) else {
            return None;
        };
        let Ok((mark, mut writer)) = Mark::make(alloc) else {
            return None;
        };
        let seats = seats_of(alloc, &directory, &mark, &mut writer, seats)?;
        let Ok(pass) = directory.pass() else {
            return None;
        };
        Some(Parts {
            doors,
            directory,
            mark,
            seats,
            pass,
            writer,
        })
    }
}

impl<R: Record> Live<R> {
    /// Begins a phase over these blocks, with room for so many growths and with so many seats. The blocks come back
    /// where it is refused: `TooLarge` where room or seats is 0 or past the limit, else `Memory`.
    pub fn begin(
        alloc: Global,
        blocks: Vec<Vec<R>>,
        room: u64,
        seats: u16,
    ) -> Result<Begun<R>, (Vec<Vec<R>>, GrowFault)>
        requires { length (joined_pieces (records_of blocks.items)) ≤ record_limit }
        ensures live { IfOk result (λ begun.
            (begun.live.blocks ≡ records_of blocks.items) × (begun.live.directory.room ≡ room)) }
        ensures seats { IfOk result (λ begun.
            (length begun.seats.items ≡ seats)
            × AreNewSeats begun.live.directory begun.live.mark begun.seats.items) }
        ensures pass { IfOk result (λ begun.
            (begun.pass.of ≡ begun.live.directory) × (begun.pass.entries ≡ [])) }
        ensures mark { IfOk result (λ begun.
            begun.mark ≡ record { of = begun.live.mark; told = nothing_told; raises = [] }) }
        ensures seat_count { IfOk result (λ begun. begun.live.seat_count ≡ seats) }
        ensures may { OnOk result (MayBegin room seats) }
        ensures refused { IfErr result (λ refused.
            (refused.0.items ≡ blocks.items) × IsBeginRefusal room seats refused.1) }
    {
        if room > GROWTH_LIMIT {
            return Err((blocks, GrowFault::TooLarge));
        }
        Live::begin_wide(alloc, blocks, room, seats)
    }

    /// As `begin`, with room for as many growths as a directory has places for. Each pass of the phase reserves 4 bytes
    /// for each of them, so it is refused `Memory` where the system gives no such addresses.
    pub fn begin_wide(
        alloc: Global,
        blocks: Vec<Vec<R>>,
        room: u64,
        seats: u16,
    ) -> Result<Begun<R>, (Vec<Vec<R>>, GrowFault)>
        requires { length (joined_pieces (records_of blocks.items)) ≤ record_limit }
        ensures live { IfOk result (λ begun.
            (begun.live.blocks ≡ records_of blocks.items) × (begun.live.directory.room ≡ room)) }
        ensures seats { IfOk result (λ begun.
            (length begun.seats.items ≡ seats)
            × AreNewSeats begun.live.directory begun.live.mark begun.seats.items) }
        ensures pass { IfOk result (λ begun.
            (begun.pass.of ≡ begun.live.directory) × (begun.pass.entries ≡ [])) }
        ensures mark { IfOk result (λ begun.
            begun.mark ≡ record { of = begun.live.mark; told = nothing_told; raises = [] }) }
        ensures seat_count { IfOk result (λ begun. begun.live.seat_count ≡ seats) }
        ensures may { OnOk result (MayBeginWide room seats) }
        ensures refused { IfErr result (λ refused.
            (refused.0.items ≡ blocks.items) × IsWideBeginRefusal room seats refused.1) }
    {
        if room == 0 || room > PLACE_LIMIT || seats == 0 || seats > SEAT_LIMIT {
            return Err((blocks, GrowFault::TooLarge));
        }
        let opening = match Opening::of(alloc, blocks) {
            Ok(opening) => opening,
            Err(blocks) => return Err((blocks, GrowFault::Memory)),
        };
        let Some(parts) = Parts::make(alloc, room, RECORD_LIMIT - opening.len(), seats) else {
            return Err((opening.blocks, GrowFault::Memory));
        };
        let live = Live {
            doors: parts.doors,
            waking: Waking::new(),
            directory: parts.directory,
            mark: parts.mark,
            opening,
            room,
            seat_count: seats,
            alloc,
        };
        Ok(Begun {
            live,
            seats: parts.seats,
            pass: parts.pass,
            mark: parts.writer,
        })
    }

    /// Takes the last of the new seats. Its id is how many are left.
    pub fn take_seat(&self, seats: &mut Vec<Seat<R>>) -> Option<Seat<R>>
        requires { AreNewSeats self.now.directory self.now.mark seats.old.items }
        ensures rest { AreNewSeats self.now.directory self.now.mark seats.new.items }
        ensures one_less { seats.old.items ≡ seats.new.items ++ option_to_list result }
        ensures of { IfSome result (λ seat. IsSeatOf self.now seat) }
        ensures seat { MatchOption result
            (length seats.old.items ≡ 0)
            (λ seat. IsNewSeat self.now.directory self.now.mark (length seats.new.items) seat) }
    {
        seats.pop()
    }
}
