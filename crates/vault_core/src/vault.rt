//! The owner of a vector while nobody else has it.

ghost use Rattle.std.specs.Prelude.{◌≡◌, ◌≤◌, ◌^◌, ℕ, List, length, Some, false, slice_get, MatchOption, MatchResult};
ghost use Rattle.disk_core.specs.State.{now, IsImage};
ghost use Rattle.segment_core.specs.Written.{joined};
ghost use Rattle.pen_core.specs.Pen.{IsKept, stage_of};
ghost use Rattle.directory_core.specs.Finding.{IsPieceAt};
ghost use Rattle.book_core.specs.Lists.{records_of};
ghost use Rattle.vault_core.specs.Vault.{MayHold, list_of};
ghost use Rattle.vault_core.specs.Commands.{IsNothingFault};

use crate::blocks::Blocks;
use crate::fault::VaultFault;
use crate::parts::Part;
use crate::pieces::VaultPieces;
use disk_core::Disk;
use pen_core::{Pen, PenFault, Stage};
use record_core::Record;
use segment_core::Format;
use std::alloc::Global;
use std::marker::Model;

/// A vector in blocks, and the pen of its file. Contracts see its pen, the records of each block, and the records that
/// the file has without the job in hand; its list is `list_of`.
#[derive(Drop)]
pub struct Vault<R: Record, D: Disk> {
    pub(crate) pen: Pen<D>,
    pub(crate) blocks: Blocks<R>,
    /// The parts of the runs that were changed last. Its memory is used again.
    pub(crate) parts: Vec<Part>,
    pub(crate) alloc: Global,
}

impl<R: Record, D: Disk> Model for Vault<R, D> {
    ghost use Rattle.flush_core.specs.Flusher.{read_as};
    ghost use Rattle.vault_core.specs.Vault.{VaultOf, IsVault};

    ghost Value = { VaultOf R D };

    ghost view = { λ v. record { pen = v.pen; blocks = v.blocks; sure = read_as R.form v.pen.vector } };

    ghost invariant = { λ v. IsVault (D.keeps v.pen.disk) R.form (record { pen = v.pen; blocks = v.blocks; sure = read_as R.form v.pen.vector }) };
}

impl<R: Record, D: Disk> Vault<R, D> {
    /// How many records it has.
    pub fn len(&self) -> u64
        ensures is { result ≡ length (list_of self.now) }
        ensures short { result ≤ 2 ^ 32 }
        ensures counted { self.now.pen.broken ≡ false → self.now.pen.tally.size ≡ result }
    {
        self.blocks.len()
    }

    /// The record at position `i`. `None` past the end.
    pub fn get(&self, i: u64) -> Option<&R>
        ensures { MatchOption result
            (length (list_of self.now) ≤ i)
            (λ found. slice_get (list_of self.now) i ≡ Some found.now) }
    {
        let rest = self.blocks.rest(i)?;
        Some(&rest[0])
    }

    /// The records from position `i` on, as many as stand in one piece there. `None` past the end.
    pub fn rest(&self, i: u64) -> Option<&[R]>
        ensures { MatchOption result
            (length (list_of self.now) ≤ i)
            (λ piece. IsPieceAt (list_of self.now) i piece.now) }
    {
        self.blocks.rest(i)
    }

    /// Its records in order, piece by piece.
    pub fn pieces(&self) -> VaultPieces<'_, R>
        ensures pieces { result ≡ self.now.blocks }
        ensures few { length (joined result) ≤ 2 ^ 32 }
    {
        let _size = self.blocks.len();
        VaultPieces::of(self.blocks.as_slice())
    }

    /// The version of its file.
    pub fn format(&self) -> Format
        ensures { result ≡ self.now.pen.shape.format }
    {
        self.pen.format()
    }

    /// What is left of the job and of the fold in hand.
    pub fn stage(&self) -> Stage
        ensures { result ≡ stage_of self.now.pen }
    {
        self.pen.stage()
    }

    /// The disk as it stands. Whatever a crash leaves of it opens to the list, or, behind a command whose commit failed,
    /// to the list of before; and what may be pending is told.
    pub fn disk(&self) -> &D
        ensures disk { result.now ≡ self.now.pen.disk }
        ensures images { D.keeps result.now → (image : List ℕ) → IsImage (now (D.states result.now)) image → MayHold R.form self.now image }
        ensures whole { D.keeps result.now → self.now.pen.broken ≡ false → self.now.sure ≡ list_of self.now }
        ensures kept { D.keeps result.now → IsKept (D.states result.now) self.now.pen }
    {
        self.pen.disk()
    }

    /// The disk as it stands. `disk` says more.
    pub fn into_disk(self) -> D
        ensures disk { result ≡ self.pen.disk }
        ensures images { D.keeps result → (image : List ℕ) → IsImage (now (D.states result)) image → MayHold R.form self image }
        ensures whole { D.keeps result → self.pen.broken ≡ false → self.sure ≡ list_of self }
        ensures kept { D.keeps result → IsKept (D.states result) self.pen }
    {
        self.pen.into_disk()
    }

    /// Where nothing is to be written, only a broken pen refuses it.
    pub(crate) fn nothing(&self) -> Result<(), VaultFault>
        ensures { MatchResult result (λ _. self.now.pen.broken ≡ false) (IsNothingFault self.now.pen) }
    {
        match self.pen.ready() {
            Err(PenFault::Broken) => Err(VaultFault::Pen(PenFault::Broken)),
            _ => Ok(()),
        }
    }
}
