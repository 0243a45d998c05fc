//! A grower that was sent out.

ghost use Rattle.std.specs.Prelude.{◌≡◌};
ghost use Rattle.crew_core.specs.Crewing.{HasCome};

use crate::grower::Grower;
use crate::source::{Gate, Source};
use book_core::Live;
use record_core::Record;
use std::marker::Model;
use std::snapshot::Snapshot;
use std::thread::{Promise, PromisedHandle, Threads};

/// What is promised of a grower that comes home: it has grown in that phase by the blocks that the source names for the
/// grower of that number, to its end unless that gate stopped it.
#[derive(Drop)]
pub(crate) struct Grows<R: Record, S: Source<R>, G: Gate> {
    pub(crate) live: Snapshot<Live<R>>,
    pub(crate) source: Snapshot<S>,
    pub(crate) gate: Snapshot<G>,
    pub(crate) grower: u16,
}

impl<R: Record, S: Source<R>, G: Gate> Grows<R, S, G> {
    pub(crate) fn of(live: &Live<R>, source: &S, gate: &G, grower: u16) -> Grows<R, S, G>
        ensures { (result.live.value ≡ live.now) × (result.source.value ≡ source.now) × (result.gate.value ≡ gate.now) × (result.grower ≡ grower) }
    {
        Grows {
            live: Snapshot::of(live),
            source: Snapshot::of(source),
            gate: Snapshot::of(gate),
            grower,
        }
    }
}

impl<R: Record, S: Source<R>, G: Gate> Promise<Grower<R>> for Grows<R, S, G> {
    ghost use Rattle.crew_core.specs.Crewing.{HasCome};

    ghost kept_by = { λ p r. HasCome R.form.width p.live.value (S.count_of p.source.value p.grower) (S.block_of p.source.value p.grower) (G.may_stop p.gate.value p.grower) (G.has_let p.gate.value p.grower) (G.was_told p.gate.value p.grower) p.grower r.seat r.receipts.items r.fault };
}

/// A grower that was sent out: in a thread of its own, or it is home already, since none could be started. Contracts see what
/// it was sent for.
#[derive(Drop)]
pub(crate) struct Sent<R: Record, S: Source<R>, G: Gate> {
    away: Option<PromisedHandle<Grower<R>, Grows<R, S, G>>>,
    home: Option<Grower<R>>,
    live: Snapshot<Live<R>>,
    source: Snapshot<S>,
    gate: Snapshot<G>,
    grower: u16,
}

impl<R: Record, S: Source<R>, G: Gate> Model for Sent<R, S, G> {
    ghost use Rattle.std.specs.Prelude.{◌≡◌, IfSome, IsSome, IsNone};
    ghost use Rattle.crew_core.specs.Crewing.{HasCome, SentOf};

    ghost Value = { SentOf R S G };

    ghost view = { λ s. record { live = s.live.value; source = s.source.value; gate = s.gate.value; grower = s.grower } };

    ghost invariant = { λ s.
        IfSome s.away (λ handle. (handle.promise.live.value ≡ s.live.value) × (handle.promise.source.value ≡ s.source.value) × (handle.promise.gate.value ≡ s.gate.value) × (handle.promise.grower ≡ s.grower))
        × IfSome s.home (λ back. HasCome R.form.width s.live.value (S.count_of s.source.value s.grower) (S.block_of s.source.value s.grower) (G.may_stop s.gate.value s.grower) (G.has_let s.gate.value s.grower) (G.was_told s.gate.value s.grower) s.grower back.seat back.receipts.items back.fault)
        × (IsNone s.away → IsSome s.home) };
}

impl<R: Record, S: Source<R>, G: Gate> Sent<R, S, G> {
    /// Its thread runs.
    pub(crate) fn away(
        live: &Live<R>,
        source: &S,
        gate: &G,
        grower: u16,
        handle: PromisedHandle<Grower<R>, Grows<R, S, G>>,
    ) -> Sent<R, S, G>
        requires { (handle.promise.live.value ≡ live.now) × (handle.promise.source.value ≡ source.now) × (handle.promise.gate.value ≡ gate.now) × (handle.promise.grower ≡ grower) }
        ensures { result ≡ record { live = live.now; source = source.now; gate = gate.now; grower = grower } }
    {
        Sent {
            away: Some(handle),
            home: None,
            live: Snapshot::of(live),
            source: Snapshot::of(source),
            gate: Snapshot::of(gate),
            grower,
        }
    }

    /// It has no thread.
    pub(crate) fn home(
        live: &Live<R>,
        source: &S,
        gate: &G,
        grower: u16,
        back: Grower<R>,
    ) -> Sent<R, S, G>
        requires { HasCome R.form.width live.now (S.count_of source.now grower) (S.block_of source.now grower) (G.may_stop gate.now grower) (G.has_let gate.now grower) (G.was_told gate.now grower) grower back.seat back.receipts.items back.fault }
        ensures { result ≡ record { live = live.now; source = source.now; gate = gate.now; grower = grower } }
    {
        Sent {
            away: None,
            home: Some(back),
            live: Snapshot::of(live),
            source: Snapshot::of(source),
            gate: Snapshot::of(gate),
            grower,
        }
    }

    /// The grower, once it is home.
    pub(crate) fn join<E: Threads>(self, rt: &E) -> Grower<R>
        ensures { HasCome R.form.width self.live (S.count_of self.source self.grower) (S.block_of self.source self.grower) (G.may_stop self.gate self.grower) (G.has_let self.gate self.grower) (G.was_told self.gate self.grower) self.grower result.seat result.receipts.items result.fault }
    {
        match (self.away, self.home) {
            (Some(handle), _) => handle.join(rt),
            (None, Some(grower)) => grower,
            (None, None) => unreachable!(),
        }
    }
}
