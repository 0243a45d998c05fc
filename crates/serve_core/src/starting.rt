//! The threads of the clients, of which none goes on before all are started.

ghost use Rattle.std.specs.Prelude.{◌≡◌, ◌≤◌, IfSome, IsTrue, vec_len, vec_capacity};
ghost use Rattle.book_core.specs.Lists.{IsSeatOf};
ghost use Rattle.book_core.specs.Beginning.{AreNewSeats};
ghost use Rattle.serve_core.specs.Talks.{HasFinished};
ghost use Rattle.serve_core.specs.Clients.{AreBegun};

use crate::away::{Away, Finishes};
use crate::client::{Client, Finished, Pipes, Start, take_client};
use book_core::{Live, Seat};
use record_core::Record;
use std::alloc::Global;
use std::io::{Read, Write};
use std::sync::Wait;
use std::thread::Scope;

impl<'e, R: Record + 'e, I: Read + Send + Drop + 'e, W: Write + Send + Drop + 'e> Client<
    'e,
    R,
    I,
    W,
> {
    /// Starts its thread, if the system does. What it refuses is let go.
    fn start<'s, E: Wait + Sync + 'e>(
        self,
        scope: &'s Scope<'s, &'e ()>,
        rt: &'e E,
        alloc: Global,
        start: &'e Start,
    ) -> Option<Away<R, I, W>>
        ensures { IfSome result (λ away. (away.live ≡ self.entry.live.now) × (away.seat ≡ self.entry.seat) × (away.pipes ≡ self.entry.pipes)) }
    {
        let client = self;
        let started = scope.spawn_with(
            Finishes::of(&client),
            move || -> Finished<R, I, W>
                ensures { IsSeatOf client.entry.live.now result.seat × HasFinished R.form client.entry.live.now client.entry.seat result.seat (I.remaining client.entry.pipes.requests) (I.remaining result.pipes.requests)
                    (W.contents client.entry.pipes.answers) (W.contents result.pipes.answers) result.end }
            { client.run(rt, alloc, start) },
        );
        match started {
            Ok(handle) => Some(Away::of(handle)),
            Err(_) => None,
        }
    }
}

/// Starts the threads of clients with these seats and pipes, from the last on, up to the first that the system refuses.
/// Whether all have one.
pub fn start_all<
    's,
    'e,
    R: Record + 'e,
    I: Read + Send + Drop + 'e,
    W: Write + Send + Drop + 'e,
    E: Wait + Sync + 'e,
>(
    scope: &'s Scope<'s, &'e ()>,
    rt: &'e E,
    alloc: Global,
    start: &'e Start,
    live: &'e Live<R>,
    seats: &mut Vec<Seat<R>>,
    pipes: Vec<Pipes<I, W>>,
    away: &mut Vec<Away<R, I, W>>,
) -> bool
    requires new { AreNewSeats live.now.directory live.now.mark seats.old.items }
    requires as_many { vec_len seats.old ≡ vec_len pipes }
    requires room { (vec_len away.old ≡ 0) × (vec_len pipes ≤ vec_capacity away.old) }
    ensures begun { IsTrue result → AreBegun live.now pipes.items away.new.items × (vec_len away.new ≡ vec_len pipes) }
    ensures seats { IsTrue result → (vec_len seats.new ≡ 0) × (vec_len pipes ≤ vec_capacity seats.new) }
{
    let mut pipes = pipes;
    for _ in 0..pipes.len() {
        let client = take_client(live, seats, &mut pipes);
        match client.start(scope, rt, alloc, start) {
            Some(started) => away.push_reserved(started),
            None => return false,
        }
    }
    true
}
