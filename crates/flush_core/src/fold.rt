//! The begin of a fold beside growth.

ghost use Rattle.std.specs.Prelude.{◌≡◌, ◌≤◌, ◌++◌, List, length, take, map, IfOk, IfErr, IfSome, OnOk, OnErr};
ghost use Rattle.pen_core.specs.Folds.{IsWholeFold};
ghost use Rattle.pen_core.specs.Pen.{IsFoldAnswer, IsUnchanged};
ghost use Rattle.flush_core.specs.Flusher.{IsFlusherOf};
ghost use Rattle.flush_core.specs.Refusals.{IsFoldFault};

use crate::fault::FlushFault;
use crate::flusher::Flusher;
use crate::row::push_growths;
use book_core::Live;
use directory_core::Pass;
use disk_core::Disk;
use pen_core::PenFault;
use record_core::Record;
use std::alloc::{AllocError, Global};

/// The pieces in which the records from before the phase and those of the first growths stand.
fn pieces_to<'a, R: Record>(
    alloc: Global,
    live: &'a Live<R>,
    pass: &mut Pass<R>,
    to: u64,
) -> Result<Vec<&'a [R]>, AllocError>
    requires of { pass.old.of ≡ live.now.directory }
    requires to { to ≤ length pass.old.entries }
    ensures same { pass.new ≡ pass.old }
    ensures pieces { IfOk result (λ row. map (λ piece. piece.now) row.items ≡ live.now.blocks ++ map (λ e. e.records) (take to pass.old.entries)) }
{
    let mut row = Vec::with_capacity(alloc, live.block_count().saturating_add(to) as usize)?;
    for k in 0..live.block_count() {
        row.push_reserved(live.block(k));
    }
    push_growths(&mut row, live, pass, 0, to);
    Ok(row)
}

impl<R: Record, D: Disk> Flusher<R, D> {
    /// Begins to fold all changes in the file, which are from before the phase. Answers whether a fold was begun: not where
    /// no change is live. It takes all memory that the fold needs.
    ///
    /// Refused, in this order: `Pen(Broken)`; `Pen(Busy)`, while a fold is in hand; then, where a change is live,
    /// `Pen(FileFull)`; `Pen(Memory)`.
    pub fn begin_fold(&mut self, live: &Live<R>) -> Result<bool, FlushFault>
        requires of { IsFlusherOf (D.keeps self.old.pen.disk) live.now self.old }
        ensures begun { IfOk result (λ begun. IsFoldAnswer self.old.pen self.new.pen begun) }
        ensures plans { D.keeps self.old.pen.disk → OnOk result (IfSome self.new.pen.fold (λ fold. IsWholeFold self.old.pen.shape self.old.pen.frames self.old.pen.vector fold.left)) }
        ensures refused { IfErr result (λ fault. IsFoldFault self.old fault) }
        ensures unchanged { OnErr result (IsUnchanged self.old.pen self.new.pen) }
        ensures same { (self.new.pass ≡ self.old.pass) × (self.new.mark ≡ self.old.mark) × (self.new.before ≡ self.old.before) × (self.new.taken ≡ self.old.taken) × (self.new.settled ≡ self.old.settled) }
        ensures opening { self.new.opening ≡ self.old.opening }
    {
        match self.pen.ready_fold() {
            Ok(true) => {}
            Ok(false) => return Ok(false),
            Err(fault) => return Err(FlushFault::Pen(fault)),
        }
        let Ok(row) = pieces_to(self.alloc, live, &mut self.pass, self.settled) else {
            return Err(FlushFault::Pen(PenFault::Memory));
        };
        match self.pen.begin_fold(row.as_slice()) {
            Ok(begun) => Ok(begun),
            Err(fault) => Err(FlushFault::Pen(fault)),
        }
    }
}
