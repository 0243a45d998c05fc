//! Lengths: one growth of copies, or a shrink.

ghost use Rattle.std.specs.Prelude.{◌≡◌, ◌+◌, ◌-◌, ◌*◌, ◌<◌, ◌≤◌, ◌++◌, [], ◌∷◌, ◌^◌, None, Some, length, take, replicate, MatchResult, OnOk, IfErr, IfOk, false};
ghost use Rattle.segment_core.specs.Frame.{Shrink};
ghost use Rattle.segment_core.specs.Written.{group_frame, payload_len};
ghost use Rattle.pen_core.specs.Refusals.{first_refusal, group_lines, shrink_lines};
ghost use Rattle.vault_core.specs.Commands.{IsCommand, IsNothingFault, StandsCommanded, resized};
ghost use Rattle.vault_core.specs.Vault.{list_of};

use crate::committing::commit;
use crate::fault::VaultFault;
use crate::vault::Vault;
use disk_core::Disk;
use pen_core::PenFault;
use record_core::Record;
use std::alloc::{AllocError, Global};

/// So many copies of a record.
fn copies<R: Record>(alloc: Global, n: u64, v: R) -> Result<Vec<R>, AllocError>
    ensures { IfOk result (λ block. block.items ≡ replicate n v) }
{
    let len = n as usize;
    let mut block = Vec::with_capacity(alloc, len)?;
    block.resize(len, v)?;
    Ok(block)
}

impl<R: Record, D: Disk> Vault<R, D> {
    /// Appends copies of a record as one growth.
    pub(crate) fn grow(&mut self, more: u64, v: R) -> Result<(), VaultFault>
        requires { 0 < more }
        ensures blocks { MatchResult result
            (λ _. self.new.blocks ≡ self.old.blocks ++ replicate more v ∷ [])
            (StandsCommanded (self.new.blocks ≡ self.old.blocks ++ replicate more v ∷ []) (self.new.blocks ≡ self.old.blocks)) }
        ensures command { IsCommand R.form D.keeps D.states D.faults (group_frame R.form (replicate more v ∷ [])) (group_lines self.old.pen more (8 + more * R.form.width)) self.old self.new result }
    {
        if let Err(fault) = self.pen.ready_growth::<R>(more) {
            return Err(VaultFault::Pen(fault));
        }
        let Ok(block) = copies(self.alloc, more, v) else {
            return Err(VaultFault::Pen(PenFault::Memory));
        };
        let Ok(()) = self.blocks.push(block) else {
            return Err(VaultFault::Pen(PenFault::Memory));
        };
        if let Err(fault) = self.pen.begin_growths::<R, &[Vec<R>]>(&self.blocks.last()) {
            self.blocks.pop();
            return Err(VaultFault::Pen(fault));
        }
        commit(&mut self.pen, &self.blocks)
    }

    /// Takes the records from position `n` on away.
    pub(crate) fn shrink(&mut self, n: u64) -> Result<(), VaultFault>
        ensures list { MatchResult result
            (λ _. list_of self.new ≡ take n (list_of self.old))
            (StandsCommanded (list_of self.new ≡ take n (list_of self.old)) (self.new.blocks ≡ self.old.blocks)) }
        ensures command { IsCommand R.form D.keeps D.states D.faults (Shrink n) (shrink_lines self.old.pen n) self.old self.new result }
    {
        if let Err(fault) = self.pen.begin_shrink(n) {
            return Err(VaultFault::Pen(fault));
        }
        self.blocks.truncate(n);
        commit(&mut self.pen, &self.blocks)
    }

    /// Makes its length `n`: takes away the records from position `n` on, or appends copies of `v` as one growth. Where it
    /// has `n` records nothing is written, and only a broken vault refuses it.
    ///
    /// Refused, upwards, in this order: `Broken`; `Busy`; `OutOfRange`, past 2^32 records; `TooLarge`; `FileFull`;
    /// `Memory`. Downwards: `Broken`; `Busy`; `Unfolded`, while a change is live; `FileFull`; `Memory`. After `Disk` the
    /// list is the resized one, and the vault is broken.
    pub fn resize(&mut self, n: u64, v: R) -> Result<(), VaultFault>
        ensures list { MatchResult result
            (λ _. list_of self.new ≡ resized n v (list_of self.old))
            (StandsCommanded (list_of self.new ≡ resized n v (list_of self.old)) (self.new.blocks ≡ self.old.blocks)) }
        ensures up { length (list_of self.old) < n → IsCommand R.form D.keeps D.states D.faults (group_frame R.form (replicate (n - length (list_of self.old)) v ∷ [])) (group_lines self.old.pen (n - length (list_of self.old)) (8 + (n - length (list_of self.old)) * R.form.width)) self.old self.new result }
        ensures down { n < length (list_of self.old) → IsCommand R.form D.keeps D.states D.faults (Shrink n) (shrink_lines self.old.pen n) self.old self.new result }
        ensures nothing { n ≡ length (list_of self.old) → (self.new ≡ self.old) × MatchResult result (λ _. self.old.pen.broken ≡ false) (IsNothingFault self.old.pen) }
    {
        let len = self.len();
        if n > len {
            return self.grow(n - len, v);
        }
        if n < len {
            return self.shrink(n);
        }
        self.nothing()
    }

    /// Takes all records away. Where there is none nothing is written. It is `resize` to no record.
    pub fn clear(&mut self) -> Result<(), VaultFault>
        ensures list { MatchResult result
            (λ _. list_of self.new ≡ [])
            (StandsCommanded (list_of self.new ≡ []) (self.new.blocks ≡ self.old.blocks)) }
        ensures command { 0 < length (list_of self.old) → IsCommand R.form D.keeps D.states D.faults (Shrink 0) (shrink_lines self.old.pen 0) self.old self.new result }
        ensures nothing { list_of self.old ≡ [] → (self.new ≡ self.old) × MatchResult result (λ _. self.old.pen.broken ≡ false) (IsNothingFault self.old.pen) }
    {
        if self.len() == 0 {
            return self.nothing();
        }
        self.shrink(0)
    }
}
