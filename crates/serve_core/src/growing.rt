//! A client's growth: its bytes are read, and published as records.

ghost use Rattle.std.specs.Prelude.{◌≡◌, ◌*◌, [], length, IfOk, IfErr, OnErr, MatchResult};
ghost use Rattle.std.specs.Io.KnownBytes.{Consumes};
ghost use Rattle.record_core.specs.Cells.{AreRecords};
ghost use Rattle.block_core.specs.Length.{IsBlockLength};
ghost use Rattle.book_core.specs.Lists.{IsSeatOf};
ghost use Rattle.serve_core.specs.Talks.{IsCountRefusal, IsCutGrowth, IsNextOf, IsBlock, IsUnread, IsOfRecords, IsOfGrowth};

use crate::reading::fill;
use crate::refusal::RequestRefusal;
use crate::reply::Reply;
use crate::talking::TalkEnd;
use block_core::{Fresh, FreshFault};
use book_core::{Live, Seat};
use record_core::{Record, RecordsFault, read_records, width_of};
use std::alloc::Global;
use std::io::Read;
use std::sync::Wait;

/// Whether a growth or a read may be of so many records: one at least, and no more than one frame of the file holds.
pub fn check_count<R: Record>(count: u32) -> Result<(), RequestRefusal>
    ensures { MatchResult result (λ _. IsBlockLength R.form.width count) (IsCountRefusal R.form.width count) }
{
    match Fresh::<R>::check_len(count as u64) {
        Ok(()) => Ok(()),
        Err(FreshFault::Empty) => Err(RequestRefusal::NoRecord),
        Err(_) => Err(RequestRefusal::TooMany),
    }
}

/// The records that the bytes are.
fn records_of<R: Record>(alloc: Global, count: u32, block: &[u8]) -> Result<Vec<R>, RequestRefusal>
    requires { length block.now ≡ count * R.form.width }
    ensures { MatchResult result
        (λ records. (length records.items ≡ count) × AreRecords R.form block.now records.items)
        (IsUnread R.form count block.now) }
{
    let Ok(mut records) = Vec::with_capacity(alloc, count as usize) else {
        return Err(RequestRefusal::Memory);
    };
    match read_records::<R>(block, count as usize, &mut records) {
        Ok(()) => Ok(records),
        Err(RecordsFault::Bad(_)) => Err(RequestRefusal::BadRecord),
        Err(RecordsFault::Memory) => Err(RequestRefusal::Memory),
    }
}

/// Publishes a block as one growth.
fn grow_fresh<R: Record, E: Wait>(
    rt: &E,
    live: &Live<R>,
    seat: &mut Seat<R>,
    next: &mut u64,
    fresh: Fresh<R>,
) -> Reply
    requires of { IsSeatOf live.now seat.old }
    requires numbers { IsNextOf next.old seat.old.made }
    ensures of { IsSeatOf live.now seat.new }
    ensures numbers { IsNextOf next.new seat.new.made }
    ensures told { IsOfRecords live.now fresh seat.old seat.new result }
{
    let receipt = match live.grow(rt, seat, fresh) {
        Ok(receipt) => receipt,
        Err((_, fault)) => return Reply::Refused(RequestRefusal::of_growth(fault)),
    };
    *next = seat.known().max(*next);
    Reply::Grown {
        number: receipt.number,
        start: receipt.start,
    }
}

/// Publishes these records as one growth.
fn grow_records<R: Record, E: Wait>(
    rt: &E,
    alloc: Global,
    live: &Live<R>,
    seat: &mut Seat<R>,
    next: &mut u64,
    records: Vec<R>,
) -> Reply
    requires of { IsSeatOf live.now seat.old }
    requires numbers { IsNextOf next.old seat.old.made }
    requires len { IsBlockLength R.form.width (length records.items) }
    ensures of { IsSeatOf live.now seat.new }
    ensures numbers { IsNextOf next.new seat.new.made }
    ensures told { IsOfRecords live.now records.items seat.old seat.new result }
{
    match Fresh::from_vec(alloc, records) {
        Ok(fresh) => grow_fresh(rt, live, seat, next, fresh),
        Err((_, fault)) => Reply::Refused(RequestRefusal::of_growth(fault.into())),
    }
}

/// Publishes the records that the bytes are as one growth.
fn grow_block<R: Record, E: Wait>(
    rt: &E,
    alloc: Global,
    live: &Live<R>,
    seat: &mut Seat<R>,
    next: &mut u64,
    count: u32,
    block: &[u8],
) -> Reply
    requires of { IsSeatOf live.now seat.old }
    requires numbers { IsNextOf next.old seat.old.made }
    requires block { IsBlock R.form.width count block.now }
    ensures of { IsSeatOf live.now seat.new }
    ensures numbers { IsNextOf next.new seat.new.made }
    ensures told { IsOfGrowth R.form live.now count block.now seat.old seat.new result }
{
    match records_of(alloc, count, block) {
        Ok(records) => grow_records(rt, alloc, live, seat, next, records),
        Err(refusal) => Reply::Refused(refusal),
    }
}

/// Reads the bytes of a growth, and publishes it. Refused: `Cut`, `InputFailed`, where not all of them were read.
pub fn grow<R: Record, I: Read, E: Wait>(
    rt: &E,
    alloc: Global,
    live: &Live<R>,
    seat: &mut Seat<R>,
    next: &mut u64,
    count: u32,
    requests: &mut I,
    block: &mut Vec<u8>,
) -> Result<Reply, TalkEnd>
    requires of { IsSeatOf live.now seat.old }
    requires numbers { IsNextOf next.old seat.old.made }
    requires empty { block.old.items ≡ [] }
    ensures of { IsSeatOf live.now seat.new }
    ensures numbers { IsNextOf next.new seat.new.made }
    ensures told { IfOk result (IsOfGrowth R.form live.now count block.new.items seat.old seat.new) }
    ensures same { OnErr result (seat.new ≡ seat.old) }
    ensures cut { IfErr result (IsCutGrowth R.form count (I.remaining requests.old) (I.remaining requests.new)) }
    ensures read { IfOk result (λ _. Consumes (I.remaining requests.old) (I.remaining requests.new) block.new.items) }
{
    if let Err(refusal) = check_count::<R>(count) {
        return Ok(Reply::Refused(refusal));
    }
    if block.resize(count as usize * width_of::<R>(), 0).is_err() {
        return Ok(Reply::Refused(RequestRefusal::NoMemory));
    }
    if let Err(end) = fill(rt, requests, block.as_mut_slice()) {
        return Err(end.within_request());
    }
    Ok(grow_block(rt, alloc, live, seat, next, count, block.as_slice()))
}
