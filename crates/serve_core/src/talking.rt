//! One client's conversation: its requests are read and answered one after the other, each by the seat as it is then.

ghost use Rattle.std.specs.Prelude.{◌≡◌, ◌≤◌, ◌*◌, ℕ, [], length, IfOk, IfErr, OnErr, MatchOption};
ghost use Rattle.std.specs.Io.KnownBytes.{Consumes};
ghost use Rattle.record_core.specs.Limits.{payload_limit};
ghost use Rattle.book_core.specs.Lists.{IsSeatOf};
ghost use Rattle.serve_core.specs.Answers.{answer_bytes};
ghost use Rattle.serve_core.specs.Requests.{IsRequestHead, head_of};
ghost use Rattle.serve_core.specs.Talks.{IsCutGrowth, end_within, IsNextOf, IsOfRequest, Exchange, IsExchange, IsDone, IsUntold, TalkGoesOn, EndsTalk, HasTalked};

use crate::growing::grow;
use crate::reading::fill;
use crate::refusal::RequestRefusal;
use crate::reply::Reply;
use crate::request::{ClientRequest, HEAD_LEN, Head};
use crate::telling::tell;
use book_core::{Live, Seat};
use record_core::Record;
use std::alloc::Global;
use std::io::{Read, Write};
use std::sync::Wait;

/// How a client's conversation ended.
#[derive(Clone, Copy)]
pub enum TalkEnd {
    /// The client asked for the end.
    Ended,
    /// Its requests ended, behind the last one.
    Gone,
    /// Its requests ended within one.
    Cut,
    /// Its requests couldn't be read on.
    InputFailed,
    /// It was told of this refusal, and what follows can't be told from a request.
    Refused(RequestRefusal),
    /// Its answers couldn't be written.
    OutputFailed,
    /// There was no memory for an answer.
    Memory,
}

impl TalkEnd {
    /// How it ends, where reading the records of a growth ended so.
    pub(crate) fn within_request(self) -> TalkEnd
        ensures { result ≡ end_within self }
    {
        match self {
            TalkEnd::Gone => TalkEnd::Cut,
            other => other,
        }
    }
}

/// Does what is asked. Refused: `Cut`, `InputFailed`, where not all bytes of a growth were read.
fn act<'a, R: Record, I: Read, E: Wait>(
    rt: &E,
    alloc: Global,
    live: &'a Live<R>,
    seat: &mut Seat<R>,
    next: &mut u64,
    request: ClientRequest,
    requests: &mut I,
    block: &mut Vec<u8>,
) -> Result<(Reply, &'a [R]), TalkEnd>
    requires of { IsSeatOf live.now seat.old }
    requires numbers { IsNextOf next.old seat.old.made }
    requires empty { block.old.items ≡ [] }
    ensures of { IsSeatOf live.now seat.new }
    ensures numbers { IsNextOf next.new seat.new.made }
    ensures told { IfOk result (λ r. IsOfRequest R.form live.now request block.new.items seat.old seat.new r.0 r.1.now) }
    ensures same { OnErr result (seat.new ≡ seat.old) }
    ensures cut { IfErr result (λ end. (count : ℕ) × (request ≡ ClientRequest.Grow count) × IsCutGrowth R.form count (I.remaining requests.old) (I.remaining requests.new) end) }
    ensures read { IfOk result (λ _. Consumes (I.remaining requests.old) (I.remaining requests.new) block.new.items) }
    ensures few { IfOk result (λ r. length r.1.now * R.form.width ≤ payload_limit) }
{
    match request {
        ClientRequest::Grow { count } => {
            match grow(rt, alloc, live, seat, next, count, requests, block) {
                Ok(told) => Ok((told, &[])),
                Err(end) => Err(end),
            }
        }
        short => Ok(tell(rt, live, seat, *next, short)),
    }
}

/// Does what the request with this head asks, if there is one. Refused: `Cut`, `InputFailed`, where not all bytes of a
/// growth were read.
fn respond<'a, R: Record, I: Read, E: Wait>(
    rt: &E,
    alloc: Global,
    live: &'a Live<R>,
    seat: &mut Seat<R>,
    next: &mut u64,
    head: &[u8; HEAD_LEN],
    requests: &mut I,
    block: &mut Vec<u8>,
) -> Result<(Reply, &'a [R]), TalkEnd>
    requires of { IsSeatOf live.now seat.old }
    requires numbers { IsNextOf next.old seat.old.made }
    requires empty { block.old.items ≡ [] }
    ensures of { IsSeatOf live.now seat.new }
    ensures numbers { IsNextOf next.new seat.new.made }
    ensures told { IfOk result (λ r. IsExchange R.form live.now seat.old (record { head = head.now; block = block.new.items; answer = r.0; records = r.1.now }) seat.new) }
    ensures same { OnErr result (seat.new ≡ seat.old) }
    ensures cut { IfErr result (λ end. (count : ℕ) × IsRequestHead head.now (head_of (ClientRequest.Grow count)) × IsCutGrowth R.form count (I.remaining requests.old) (I.remaining requests.new) end) }
    ensures read { IfOk result (λ _. Consumes (I.remaining requests.old) (I.remaining requests.new) block.new.items) }
    ensures few { IfOk result (λ r. length r.1.now * R.form.width ≤ payload_limit) }
{
    match Head::of(head).request() {
        Ok(request) => act(rt, alloc, live, seat, next, request, requests, block),
        Err(refusal) => Ok((Reply::Refused(refusal), &[])),
    }
}

/// Reads one request, does what it asks, and leaves the bytes of the answer in `out`. Those of a growth go through `block`.
fn exchange<R: Record, I: Read, E: Wait>(
    rt: &E,
    alloc: Global,
    live: &Live<R>,
    seat: &mut Seat<R>,
    next: &mut u64,
    requests: &mut I,
    block: &mut Vec<u8>,
    out: &mut Vec<u8>,
) -> Result<Reply, TalkEnd>
    requires of { IsSeatOf live.now seat.old }
    requires numbers { IsNextOf next.old seat.old.made }
    ensures of { IsSeatOf live.now seat.new }
    ensures numbers { IsNextOf next.new seat.new.made }
    ensures done { IfOk result (λ answer. (done : IsDone R.form live.now seat.old seat.new (I.remaining requests.old) (I.remaining requests.new)) × (done.exchange.answer ≡ answer) × (out.new.items ≡ answer_bytes R.form answer done.exchange.records)) }
    ensures untold { IfErr result (IsUntold R.form live.now seat.old seat.new (I.remaining requests.old) (I.remaining requests.new)) }
{
    out.clear();
    block.clear();
    let mut head = [0u8; HEAD_LEN];
    if let Err(end) = fill(rt, requests, &mut head) {
        return Err(end);
    }
    let (told, records) = match respond(rt, alloc, live, seat, next, &head, requests, block) {
        Ok(answered) => answered,
        Err(end) => return Err(end),
    };
    match told.append_to(records, out) {
        Ok(()) => Ok(told),
        Err(_) => Err(TalkEnd::Memory),
    }
}

/// How a conversation ends with this answer, if it does.
fn end_of(answer: Reply) -> Option<TalkEnd>
    ensures { MatchOption result (TalkGoesOn answer) (λ end. EndsTalk end answer) }
{
    match answer {
        Reply::Ended => Some(TalkEnd::Ended),
        Reply::Refused(refusal) if refusal.ends_talk() => Some(TalkEnd::Refused(refusal)),
        _ => None,
    }
}

/// Answers a client's requests, with room for the bytes of a growth and of an answer.
fn talk_through<R: Record, I: Read, W: Write, E: Wait>(
    rt: &E,
    alloc: Global,
    live: &Live<R>,
    seat: &mut Seat<R>,
    requests: &mut I,
    answers: &mut W,
    block: &mut Vec<u8>,
    out: &mut Vec<u8>,
) -> TalkEnd
    requires of { IsSeatOf live.now seat.old }
    requires none { seat.old.made ≡ [] }
    ensures of { IsSeatOf live.now seat.new }
    ensures talked { HasTalked R.form live.now seat.old seat.new (I.remaining requests.old) (I.remaining requests.new) (W.contents answers.old) (W.contents answers.new) result }
{
    let mut next = 0;
    for _ in rt.forever() {
        let told = match exchange(rt, alloc, live, seat, &mut next, requests, block, out) {
            Ok(told) => told,
            Err(end) => return end,
        };
        let Ok(()) = answers.write_all(out.as_slice()) else {
            return TalkEnd::OutputFailed;
        };
        if let Some(end) = end_of(told) {
            return end;
        }
    }
    unreachable!()
}

/// Answers a client's requests until it asks for the end, is refused by what ends a conversation, or its streams fail. What
/// its growths are told as is so also where a later request is refused.
pub fn talk<R: Record, I: Read, W: Write, E: Wait>(
    rt: &E,
    alloc: Global,
    live: &Live<R>,
    seat: &mut Seat<R>,
    requests: &mut I,
    answers: &mut W,
) -> TalkEnd
    requires of { IsSeatOf live.now seat.old }
    requires none { seat.old.made ≡ [] }
    ensures of { IsSeatOf live.now seat.new }
    ensures talked { HasTalked R.form live.now seat.old seat.new (I.remaining requests.old) (I.remaining requests.new) (W.contents answers.old) (W.contents answers.new) result }
{
    let mut block = Vec::new(alloc);
    let mut out = Vec::new(alloc);
    talk_through(
        rt, alloc, live, seat, requests, answers, &mut block, &mut out,
    )
}
