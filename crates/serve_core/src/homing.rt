//! Clients whose threads have ended, and their seats.

ghost use Rattle.std.specs.Prelude.{◌≡◌, ◌≤◌, IsTrue, length, vec_len, vec_capacity};
ghost use Rattle.directory_core.specs.Known.{KnowsAll};
ghost use Rattle.flush_core.specs.Flusher.{IsFlusherOf, FlusherLearns};
ghost use Rattle.vault_core.specs.Gathering.{made_by};
ghost use Rattle.serve_core.specs.Clients.{AreBegun, AreClients, HasTakenIn};

use crate::away::Away;
use crate::client::{Finished, Pipes};
use book_core::{Live, Seat};
use disk_core::Disk;
use flush_core::Flusher;
use record_core::Record;
use std::io::{Read, Write};
use std::snapshot::Snapshot;
use std::thread::Threads;
use vault_core::{made_in_all, take_in_all};

/// Waits for the threads of the clients of these pipes, and gives their seats, in an empty list that has room for all.
pub fn come_home<R: Record, I: Read + Drop, W: Write + Drop, E: Threads>(
    rt: &E,
    _live: &Live<R>,
    _pipes: &Snapshot<Vec<Pipes<I, W>>>,
    away: Vec<Away<R, I, W>>,
    room: Vec<Seat<R>>,
) -> Vec<Seat<R>>
    requires begun { AreBegun _live.now _pipes.now.value.items away.items × (vec_len away ≡ vec_len _pipes.now.value) }
    requires room { (vec_len room ≡ 0) × (vec_len away ≤ vec_capacity room) }
    ensures { AreClients R.form _live.now I.remaining W.contents _pipes.now.value.items result.items }
{
    let mut away = away;
    let mut seats = room;
    for _ in 0..away.len() {
        let Finished { seat, .. } = away.take_last().join(rt);
        seats.push_reserved(seat);
    }
    seats
}

/// Takes the seats of these clients in. Whether they made all growths that the flusher knew before.
pub fn take_clients_in<R: Record, D: Disk, I: Read, W: Write>(
    live: &Live<R>,
    flusher: &mut Flusher<R, D>,
    _pipes: &Snapshot<Vec<Pipes<I, W>>>,
    seats: Vec<Seat<R>>,
) -> bool
    requires of { IsFlusherOf (D.keeps flusher.old.pen.disk) live.now flusher.old }
    requires clients { AreClients R.form live.now I.remaining W.contents _pipes.now.value.items seats.items }
    ensures learns { FlusherLearns flusher.old flusher.new }
    ensures all { KnowsAll flusher.old.pass → flusher.new.pass.entries ≡ flusher.old.pass.entries }
    ensures taken { (has : HasTakenIn R.form D.keeps D.states live.now I.remaining W.contents _pipes.now.value.items flusher.new)
        × (IsTrue result → made_by has.seats ≡ length flusher.old.pass.entries) }
{
    let made_all = made_in_all(seats.as_slice(), flusher.known());
    take_in_all(live, flusher, seats);
    let _known = flusher.known();
    made_all
}
