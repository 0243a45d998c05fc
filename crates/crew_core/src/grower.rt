//! One grower of a crew.

ghost use Rattle.std.specs.Prelude.{◌≡◌, ◌<◌, ◌+◌, [], Some, None, length, All, IfSome, MatchResult};
ghost use Rattle.crew_core.specs.Crewing.{HasGrown, HasCome, IsBlockFault};

use crate::source::{Gate, Source};
use block_core::Fresh;
use book_core::{GrowFault, Live, Receipt, Seat};
use record_core::Record;
use std::alloc::Global;
use std::sync::Wait;

/// A grower with its seat, the receipts of its growths, in order, and why it made no more, if by a fault.
#[derive(Drop)]
pub(crate) struct Grower<R: Record> {
    pub(crate) seat: Seat<R>,
    pub(crate) receipts: Vec<Receipt>,
    pub(crate) fault: Option<GrowFault>,
}

/// The block of that number: of the records that the source lends, or one that it makes.
fn next_block<R: Record, S: Source<R>>(
    alloc: Global,
    source: &S,
    grower: u16,
    k: u32,
) -> Result<Fresh<R>, GrowFault>
    requires grower { grower < S.growers_of source.now }
    requires k { k < S.count_of source.now grower }
    ensures { MatchResult result
        (λ fresh. fresh ≡ S.block_of source.now grower k)
        (IsBlockFault R.form.width (length (S.block_of source.now grower k))) }
{
    match source.records(grower, k) {
        Some(records) => Ok(Fresh::from_slice(alloc, records)?),
        None => Ok(source.block(alloc, grower, k)?),
    }
}

impl<R: Record> Grower<R> {
    /// A grower that has made nothing.
    pub(crate) fn new(alloc: Global, seat: Seat<R>) -> Grower<R>
        ensures { (result.seat ≡ seat) × (result.receipts.items ≡ []) × (result.fault ≡ None) }
    {
        Grower {
            seat,
            receipts: Vec::new(alloc),
            fault: None,
        }
    }

    /// Grows by the source's block of that number, and tells the gate.
    fn grow_next<S: Source<R>, G: Gate, E: Wait>(
        &mut self,
        rt: &E,
        alloc: Global,
        live: &Live<R>,
        source: &S,
        gate: &G,
        k: u32,
    ) -> Result<(), GrowFault>
        requires grower { self.old.seat.id < S.growers_of source.now }
        requires k { (k ≡ length self.old.seat.made) × (k < S.count_of source.now self.old.seat.id) }
        requires grown { HasGrown R.form.width live.now (S.count_of source.now self.old.seat.id) (S.block_of source.now self.old.seat.id) self.old.seat.id self.old.seat self.old.receipts.items None }
        requires told { All (G.was_told gate.now self.old.seat.id) self.old.receipts.items }
        ensures id { self.new.seat.id ≡ self.old.seat.id }
        ensures more { MatchResult result (λ _. length self.new.seat.made ≡ k + 1) (λ _. length self.new.seat.made ≡ k) }
        ensures told { All (G.was_told gate.now self.old.seat.id) self.new.receipts.items }
        ensures grown { MatchResult result
            (λ _. HasGrown R.form.width live.now (S.count_of source.now self.old.seat.id) (S.block_of source.now self.old.seat.id) self.old.seat.id self.new.seat self.new.receipts.items None)
            (λ fault. HasGrown R.form.width live.now (S.count_of source.now self.old.seat.id) (S.block_of source.now self.old.seat.id) self.old.seat.id self.new.seat self.new.receipts.items (Some fault)) }
        ensures fault { self.new.fault ≡ self.old.fault }
    {
        let id = self.seat.id();
        if self.receipts.reserve(1).is_err() {
            return Err(GrowFault::Memory);
        }
        let fresh = next_block(alloc, source, id, k)?;
        match live.grow(rt, &mut self.seat, fresh) {
            Ok(receipt) => {
                gate.after(id, &receipt);
                self.receipts.push_reserved(receipt);
                Ok(())
            }
            Err((_, fault)) => Err(fault),
        }
    }

    /// Grows by the source's blocks, one after the other, until the gate says no, or one isn't made.
    pub(crate) fn grow_on<S: Source<R>, G: Gate, E: Wait>(
        self,
        rt: &E,
        alloc: Global,
        live: &Live<R>,
        source: &S,
        gate: &G,
    ) -> Grower<R>
        requires grower { self.seat.id < S.growers_of source.now }
        requires none { (self.seat.made ≡ []) × (self.fault ≡ None) }
        requires grown { HasGrown R.form.width live.now (S.count_of source.now self.seat.id) (S.block_of source.now self.seat.id) self.seat.id self.seat self.receipts.items None }
        ensures come { HasCome R.form.width live.now (S.count_of source.now self.seat.id) (S.block_of source.now self.seat.id) (G.may_stop gate.now self.seat.id) (G.has_let gate.now self.seat.id) (G.was_told gate.now self.seat.id) self.seat.id result.seat result.receipts.items result.fault }
        ensures own { IfSome result.fault (λ _. G.has_let gate.now self.seat.id (length result.receipts.items)) }
    {
        let mut grower = self;
        let id = grower.seat.id();
        for k in 0..source.count(id) {
            if !gate.before(id, k) {
                return grower;
            }
            if let Err(fault) = grower.grow_next(rt, alloc, live, source, gate, k) {
                grower.fault = Some(fault);
                return grower;
            }
        }
        grower
    }
}
