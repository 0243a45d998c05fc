//! A client whose thread was started.

ghost use Rattle.std.specs.Prelude.{◌≡◌};
ghost use Rattle.book_core.specs.Lists.{IsSeatOf};
ghost use Rattle.serve_core.specs.Talks.{HasFinished};

use crate::client::{Client, Finished, Pipes};
use book_core::{Live, Seat};
use record_core::Record;
use std::io::{Read, Write};
use std::marker::Model;
use std::snapshot::Snapshot;
use std::thread::{Promise, PromisedHandle, Threads};

/// What is promised of a client that comes home: it began with that seat of that phase and those pipes, and finished.
#[derive(Drop)]
pub(crate) struct Finishes<R: Record, I, W> {
    pub(crate) live: Snapshot<Live<R>>,
    pub(crate) seat: Snapshot<Seat<R>>,
    pub(crate) pipes: Snapshot<Pipes<I, W>>,
}

impl<R: Record, I: Read, W: Write> Finishes<R, I, W> {
    pub(crate) fn of(client: &Client<'_, R, I, W>) -> Finishes<R, I, W>
        ensures { (result.live.value ≡ client.now.live.now) × (result.seat.value ≡ client.now.seat) × (result.pipes.value ≡ client.now.pipes) }
    {
        Finishes {
            live: Snapshot::of(client.live),
            seat: Snapshot::of(&client.seat),
            pipes: Snapshot::of(&client.pipes),
        }
    }
}

impl<R: Record, I: Read, W: Write> Promise<Finished<R, I, W>> for Finishes<R, I, W> {
    ghost use Rattle.book_core.specs.Lists.{IsSeatOf};
    ghost use Rattle.serve_core.specs.Talks.{HasFinished};

    ghost kept_by = { λ p r. IsSeatOf p.live.value r.seat × HasFinished R.form p.live.value p.seat.value r.seat (I.remaining p.pipes.value.requests) (I.remaining r.pipes.requests)
        (W.contents p.pipes.value.answers) (W.contents r.pipes.answers) r.end };
}

/// A client whose thread was started. Contracts see what it began with.
#[derive(Drop)]
pub(crate) struct Away<R: Record, I: Read, W: Write> {
    handle: PromisedHandle<Finished<R, I, W>, Finishes<R, I, W>>,
}

impl<R: Record, I: Read, W: Write> Model for Away<R, I, W> {
    ghost use Rattle.serve_core.specs.Clients.{Begun};

    ghost Value = { Begun R I W };

    ghost view = { λ a. record { live = a.handle.promise.live.value; seat = a.handle.promise.seat.value; pipes = a.handle.promise.pipes.value } };
}

impl<R: Record, I: Read, W: Write> Away<R, I, W> {
    pub(crate) fn of(handle: PromisedHandle<Finished<R, I, W>, Finishes<R, I, W>>) -> Away<R, I, W>
        ensures { result ≡ record { live = handle.promise.live.value; seat = handle.promise.seat.value; pipes = handle.promise.pipes.value } }
    {
        Away { handle }
    }

    /// The client, once its thread has ended.
    pub(crate) fn join<E: Threads>(self, rt: &E) -> Finished<R, I, W>
        ensures of { IsSeatOf self.live result.seat }
        ensures finished { HasFinished R.form self.live self.seat result.seat (I.remaining self.pipes.requests) (I.remaining result.pipes.requests)
            (W.contents self.pipes.answers) (W.contents result.pipes.answers) result.end }
    {
        self.handle.join(rt)
    }
}
