//! A client of the server: its pipes, its seat, and what its thread does.

ghost use Rattle.std.specs.Prelude.{◌≡◌, ◌<◌, ◌+◌, ◌++◌, ◌∷◌, [], length, vec_len, vec_capacity};
ghost use Rattle.book_core.specs.Lists.{IsSeatOf};
ghost use Rattle.book_core.specs.Beginning.{AreNewSeats, IsNewSeat};
ghost use Rattle.serve_core.specs.Talks.{HasTalked, HasFinished};

use crate::talking::{TalkEnd, talk};
use book_core::{Live, Seat};
use record_core::Record;
use std::alloc::Global;
use std::io::{Read, Write};
use std::sync::atomic::{AtomicU64, Ordering};
use std::sync::{Mutex, Wait};

/// The two streams of a client.
#[derive(Drop)]
pub struct Pipes<I, W> {
    /// Its requests.
    pub requests: I,
    /// Where its answers go.
    pub answers: W,
}

/// What the threads of the clients share.
#[derive(Drop)]
pub struct Start {
    /// Whether each client has a thread. Who starts them holds it until that is known.
    pub all_run: Mutex<bool>,
    /// How many clients haven't ended.
    unfinished: AtomicU64,
}

impl Start {
    pub fn of(clients: usize) -> Start {
        Start {
            all_run: Mutex::new(false),
            unfinished: AtomicU64::new(clients as u64),
        }
    }

    /// Waits until it is known whether each client has a thread.
    fn is_given<E: Wait>(&self, rt: &E) -> bool {
        *self.all_run.lock(rt)
    }

    /// One client has ended. Whether it was the last.
    fn finish(&self) -> bool {
        self.unfinished.fetch_sub(1, Ordering::SeqCst) == 1
    }
}

/// A client with its seat.
#[derive(Drop)]
pub struct Client<'a, R: Record, I, W> {
    pub(crate) live: &'a Live<R>,
    pub(crate) seat: Seat<R>,
    pub(crate) pipes: Pipes<I, W>,
    ghost of: { IsSeatOf live.now seat },
    ghost none: { seat.made ≡ [] },
}

/// A client whose thread has ended.
#[derive(Drop)]
pub struct Finished<R: Record, I, W> {
    pub(crate) seat: Seat<R>,
    pub(crate) pipes: Pipes<I, W>,
    /// How its conversation ended. `None`: it had none, since not every client has a thread.
    pub(crate) end: Option<TalkEnd>,
}

impl<R: Record, I: Read + Drop, W: Write + Drop> Client<'_, R, I, W> {
    /// What a client's thread runs: it talks, where each client has a thread, and closes the phase behind the last one.
    pub fn run<E: Wait>(self, rt: &E, alloc: Global, start: &Start) -> Finished<R, I, W>
        ensures of { IsSeatOf self.entry.live.now result.seat }
        ensures finished { HasFinished R.form self.entry.live.now self.entry.seat result.seat (I.remaining self.entry.pipes.requests) (I.remaining result.pipes.requests)
            (W.contents self.entry.pipes.answers) (W.contents result.pipes.answers) result.end }
    {
        let Client {
            live,
            mut seat,
            mut pipes,
        } = self;
        if !start.is_given(rt) {
            return Finished {
                seat,
                pipes,
                end: None,
            };
        }
        let end = talk_to_end(rt, alloc, live, start, &mut seat, &mut pipes);
        Finished {
            seat,
            pipes,
            end: Some(end),
        }
    }
}

/// Talks with a client, and closes the phase behind the last one.
fn talk_to_end<R: Record, I: Read, W: Write, E: Wait>(
    rt: &E,
    alloc: Global,
    live: &Live<R>,
    start: &Start,
    seat: &mut Seat<R>,
    pipes: &mut Pipes<I, W>,
) -> TalkEnd
    requires of { IsSeatOf live.now seat.old }
    requires none { seat.old.made ≡ [] }
    ensures of { IsSeatOf live.now seat.new }
    ensures talked { HasTalked R.form live.now seat.old seat.new (I.remaining pipes.old.requests) (I.remaining pipes.new.requests) (W.contents pipes.old.answers) (W.contents pipes.new.answers) result }
{
    let end = talk(
        rt,
        alloc,
        live,
        seat,
        &mut pipes.requests,
        &mut pipes.answers,
    );
    if start.finish() {
        live.close(rt);
    }
    end
}

/// A client with the last of the seats and the last pair of pipes.
pub fn take_client<'a, R: Record, I, W>(
    live: &'a Live<R>,
    seats: &mut Vec<Seat<R>>,
    pipes: &mut Vec<Pipes<I, W>>,
) -> Client<'a, R, I, W>
    requires new { AreNewSeats live.now.directory live.now.mark seats.old.items }
    requires as_many { vec_len seats.old ≡ vec_len pipes.old }
    requires some { 0 < vec_len pipes.old }
    ensures rest { AreNewSeats live.now.directory live.now.mark seats.new.items }
    ensures seats { (vec_len seats.new + 1 ≡ vec_len seats.old) × (vec_capacity seats.new ≡ vec_capacity seats.old) }
    ensures pipes { pipes.old.items ≡ pipes.new.items ++ result.pipes ∷ [] }
    ensures live { result.live.now ≡ live.now }
    ensures new { IsNewSeat live.now.directory live.now.mark (length seats.new.items) result.seat }
{
    let seat = seats.take_last();
    let pair = pipes.take_last();
    Client {
        live,
        seat,
        pipes: pair,
    }
}
