//! What a client asks by a head alone: to wait, to look and to read.

ghost use Rattle.std.specs.Prelude.{◌≡◌, ◌≤◌, ◌+◌, ◌*◌, [], length};
ghost use Rattle.record_core.specs.Limits.{payload_limit};
ghost use Rattle.book_core.specs.Lists.{IsSeatOf};
ghost use Rattle.serve_core.specs.Talks.{IsNextOf, IsNoGrowth, IsOfWaiting, IsOfLooking, IsOfReading, IsOfRequest};

use crate::growing::check_count;
use crate::refusal::RequestRefusal;
use crate::reply::Reply;
use crate::request::ClientRequest;
use book_core::{Live, MarkState, Seat};
use record_core::Record;
use std::sync::Wait;

/// Waits until the growth of that number is settled, the last of the seat's.
fn await_number<R: Record, E: Wait>(
    rt: &E,
    live: &Live<R>,
    seat: &mut Seat<R>,
    number: u64,
) -> Reply
    requires of { IsSeatOf live.now seat.old }
    requires numbers { IsNextOf (number + 1) seat.old.made }
    ensures of { IsSeatOf live.now seat.new }
    ensures made { seat.new.made ≡ seat.old.made }
    ensures told { IsOfWaiting seat.old seat.new result }
{
    let (growths, state) = live.await_settled(rt, seat, number);
    if number < growths {
        return Reply::Settled { growths };
    }
    match state {
        MarkState::Broken => Reply::Refused(RequestRefusal::Broken),
        MarkState::Ended => Reply::Refused(RequestRefusal::Ended),
        MarkState::Running => unreachable!(),
    }
}

/// Waits until all that the seat grew is settled: the number before `next` is that of the last.
fn await_own<R: Record, E: Wait>(rt: &E, live: &Live<R>, seat: &mut Seat<R>, next: u64) -> Reply
    requires of { IsSeatOf live.now seat.old }
    requires numbers { IsNextOf next seat.old.made }
    ensures of { IsSeatOf live.now seat.new }
    ensures made { seat.new.made ≡ seat.old.made }
    ensures told { IsOfWaiting seat.old seat.new result }
{
    if next > 0 {
        return await_number(rt, live, seat, next - 1);
    }
    let (growths, _) = live.settled(seat);
    Reply::Settled { growths }
}

/// How many records there are, and how many growths are settled.
fn look<R: Record>(live: &Live<R>, seat: &mut Seat<R>) -> Reply
    requires of { IsSeatOf live.now seat.old }
    ensures of { IsSeatOf live.now seat.new }
    ensures made { seat.new.made ≡ seat.old.made }
    ensures told { IsOfLooking live.now seat.old seat.new result }
{
    let Ok(size) = live.look(seat) else {
        return Reply::Refused(RequestRefusal::Strayed);
    };
    let (settled, _) = live.settled(seat);
    Reply::Looked { size, settled }
}

/// The records from a position on, lent for the life of the phase.
fn read<'a, R: Record>(
    live: &'a Live<R>,
    seat: &mut Seat<R>,
    start: u64,
    count: u32,
) -> (Reply, &'a [R])
    requires of { IsSeatOf live.now seat.old }
    ensures same { seat.new ≡ seat.old }
    ensures told { IsOfReading R.form live.now start count seat.old seat.new result.0 result.1.now }
    ensures few { length result.1.now * R.form.width ≤ payload_limit }
{
    if let Err(refusal) = check_count::<R>(count) {
        return (Reply::Refused(refusal), &[]);
    }
    let Some(rest) = live.piece(seat, start) else {
        return (Reply::Piece { start }, &[]);
    };
    let len = rest.len().min(count as usize);
    (Reply::Piece { start }, &rest[..len])
}

/// Does what is asked by a head alone.
pub fn tell<'a, R: Record, E: Wait>(
    rt: &E,
    live: &'a Live<R>,
    seat: &mut Seat<R>,
    next: u64,
    request: ClientRequest,
) -> (Reply, &'a [R])
    requires of { IsSeatOf live.now seat.old }
    requires numbers { IsNextOf next seat.old.made }
    requires short { IsNoGrowth request }
    ensures of { IsSeatOf live.now seat.new }
    ensures made { seat.new.made ≡ seat.old.made }
    ensures told { IsOfRequest R.form live.now request [] seat.old seat.new result.0 result.1.now }
    ensures few { length result.1.now * R.form.width ≤ payload_limit }
{
    match request {
        ClientRequest::End => (Reply::Ended, &[]),
        ClientRequest::Grow { count: _ } => unreachable!(),
        ClientRequest::Await => (await_own(rt, live, seat, next), &[]),
        ClientRequest::Look => (look(live, seat), &[]),
        ClientRequest::Read { start, count } => read(live, seat, start, count),
    }
}
