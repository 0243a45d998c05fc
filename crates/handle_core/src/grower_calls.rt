//! The calls of a grower.

ghost use Rattle.std.specs.Prelude.{◌≡◌, IfOk, IfErr};
ghost use Rattle.handle_core.specs.Roles.{Grows, GrowsBy, Publishes, Sizes, Tells, TellsPieces, Reads, Counts, Finds, IsBlockOf, RefusesGrowth, RefusesBytes, RefusesBlock, RefusesPublishing, RefusesLook, RefusesSearch, IsNoGrower};

use crate::end::Role;
use crate::faults::{of_block, of_growth};
use block_core::Fresh;
use book_core::{MarkState, Receipt};
use c_core::{Refusal, record_of, records_of};
use phase_core::{Grower, Piece, lend_block};
use record_core::{Record, width_of};
use std::alloc::Global;
use std::mem;

impl<R: Record> Role<R> {
    /// Grows by the records that these bytes are. `Again` where another growth came first; `NoRecord`.
    pub(crate) fn grow(&mut self, alloc: Global, bytes: &[u8]) -> Result<Receipt, Refusal>
        ensures grown { IfOk result (λ receipt. Grows bytes.now receipt self.old self.new) }
        ensures refused { IfErr result (λ refusal. RefusesGrowth bytes.now refusal self.old self.new) }
    {
        match self {
            Role::Grower(grower) => grow_bytes(alloc, grower, bytes),
            _ => Err(Refusal::NotSo),
        }
    }

    /// A block of so many blank records, for a grower, and where they stand. `Empty` and `TooLarge`, as a growth; `Memory`.
    pub(crate) fn block(&self, alloc: Global, count: u64) -> Result<(Role<R>, *const u8), Refusal>
        ensures block { IfOk result (λ r. IsBlockOf count r.1 self.now r.0) }
        ensures refused { IfErr result (λ refusal. RefusesBlock count refusal self.now) }
    {
        match self {
            Role::Grower(_) => match lend_block(alloc, count) {
                Ok((block, place)) => Ok((Role::Block(block), place)),
                Err(fault) => Err(of_block(fault)),
            },
            _ => Err(Refusal::NotSo),
        }
    }

    /// Grows by a block. `Again` where another growth came first. Refused, the block is as it was.
    pub(crate) fn publish(&mut self, block: &mut Role<R>) -> Result<Receipt, Refusal>
        ensures grown { IfOk result (λ receipt. Publishes receipt block.old self.old self.new) }
        ensures refused { IfErr result (λ refusal. RefusesPublishing refusal block.old self.old self.new × (block.new ≡ block.old)) }
    {
        match self {
            Role::Grower(grower) => match mem::replace(block, Role::Nothing) {
                Role::Block(records) => match grower.publish(records) {
                    Ok(receipt) => Ok(receipt),
                    Err((records, fault)) => {
                        block.put(Role::Block(records));
                        Err(of_growth(fault))
                    }
                },
                other => {
                    block.put(other);
                    Err(Refusal::NotSo)
                }
            },
            _ => Err(Refusal::NotSo),
        }
    }

    /// How many growths are durable, and whether more may be.
    pub(crate) fn settled(&mut self) -> Result<(u64, MarkState), Refusal>
        ensures told { IfOk result (λ r. Tells r.0 r.1 self.old self.new) }
        ensures refused { IfErr result (λ refusal. IsNoGrower refusal self.old self.new) }
    {
        match self {
            Role::Grower(grower) => Ok(grower.settled()),
            _ => Err(Refusal::NotSo),
        }
    }

    /// Learns what others grew, and answers how many records there are. `Broken` where a growth is none of the phase.
    pub(crate) fn size(&mut self) -> Result<u64, Refusal>
        ensures size { IfOk result (λ size. Sizes size self.old self.new) }
        ensures refused { IfErr result (λ refusal. RefusesLook refusal self.old self.new) }
    {
        match self {
            Role::Grower(grower) => match grower.look() {
                Ok(size) => Ok(size),
                Err(_) => Err(Refusal::Broken),
            },
            _ => Err(Refusal::NotSo),
        }
    }

    /// Copies the bytes of records from position `from` on to the front of `out`, and answers of how many: as many as stand in one
    /// piece.
    pub(crate) fn read(&mut self, from: u64, out: &mut [u8]) -> Result<u64, Refusal>
        ensures read { IfOk result (λ count. Reads from out.old out.new count self.old self.new) }
        ensures refused { IfErr result (λ refusal. IsNoGrower refusal self.old self.new × (out.new ≡ out.old)) }
    {
        match self {
            Role::Grower(grower) => Ok(grower.read(from, out)),
            _ => Err(Refusal::NotSo),
        }
    }

    /// Tells where the records stand that it knows, piece by piece from position `from` on, in front of `out`, and answers how
    /// many pieces: as many as `out` has room for, or all.
    pub(crate) fn pieces(&mut self, from: u64, out: &mut [Piece]) -> Result<u64, Refusal>
        ensures told { IfOk result (λ count. TellsPieces from out.old out.new count self.old self.new) }
        ensures refused { IfErr result (λ refusal. IsNoGrower refusal self.old self.new × (out.new ≡ out.old)) }
    {
        match self {
            Role::Grower(grower) => Ok(grower.pieces(from, out) as u64),
            _ => Err(Refusal::NotSo),
        }
    }

    /// How many of the records that a grower knows equal the one that these bytes are. `NoRecord`.
    pub(crate) fn count(&mut self, sought: &[u8]) -> Result<u64, Refusal>
        ensures count { IfOk result (λ count. Counts sought.now count self.old self.new) }
        ensures refused { IfErr result (λ refusal. RefusesSearch sought.now refusal self.old self.new) }
    {
        match self {
            Role::Grower(grower) => match record_of(sought) {
                Some(record) => Ok(grower.count(record)),
                None => Err(Refusal::NoRecord),
            },
            _ => Err(Refusal::NotSo),
        }
    }

    /// The first position from `from` on whose record equals the one that these bytes are, or how many records a grower knows.
    /// `NoRecord`.
    pub(crate) fn find(&mut self, sought: &[u8], from: u64) -> Result<u64, Refusal>
        ensures found { IfOk result (λ place. Finds sought.now from place self.old self.new) }
        ensures refused { IfErr result (λ refusal. RefusesSearch sought.now refusal self.old self.new) }
    {
        match self {
            Role::Grower(grower) => match record_of(sought) {
                Some(record) => Ok(grower.find(record, from)),
                None => Err(Refusal::NoRecord),
            },
            _ => Err(Refusal::NotSo),
        }
    }
}

/// Grows by the records that these bytes are, in one block. `Empty` and `TooLarge` are told before a byte is read.
fn grow_bytes<R: Record>(
    alloc: Global,
    grower: &mut Grower<R>,
    bytes: &[u8],
) -> Result<Receipt, Refusal>
    ensures grown { IfOk result (λ receipt. GrowsBy bytes.now receipt grower.old grower.new) }
    ensures refused { IfErr result (λ refusal. RefusesBytes bytes.now refusal grower.old grower.new) }
{
    let count = bytes.len() / width_of::<R>();
    if let Err(fault) = Fresh::<R>::check_len(count as u64) {
        return Err(of_block(fault));
    }
    let records = records_of::<R>(alloc, bytes)?;
    match Fresh::from_vec(alloc, records) {
        Ok(block) => match grower.publish(block) {
            Ok(receipt) => Ok(receipt),
            Err((_, fault)) => Err(of_growth(fault)),
        },
        Err(_) => Err(Refusal::Memory),
    }
}
