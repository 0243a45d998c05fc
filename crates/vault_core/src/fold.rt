//! Folds, and the ticks of both lanes.

ghost use Rattle.std.specs.Prelude.{◌≡◌, ◌⊎◌, ◌+◌, ◌≤◌, false, None, IfOk, IfErr, IfSome, OnOk, OnErr, MatchResult};
ghost use Rattle.disk_core.specs.Fault.{CountsFailures};
ghost use Rattle.disk_core.specs.Moments.{LeavesOnly, clock};
ghost use Rattle.pen_core.specs.Folds.{IsWholeFold};
ghost use Rattle.pen_core.specs.Pen.{FileSame, IsFoldAnswer, IsUnchanged};
ghost use Rattle.flush_core.specs.Refusals.{IsLaneTicked, lane_calls};
ghost use Rattle.vault_core.specs.Vault.{MayHold, list_of};
ghost use Rattle.vault_core.specs.Commands.{failed, FileLaneTicked, IsVaultFoldFault, IsVaultLaneFault};
ghost use Rattle.vault_core.specs.Settles.{CarriesOn, LessensWork, IsIdle, IsSettleFault, StandsInFile, calls_left};

use crate::fault::VaultFault;
use crate::vault::Vault;
use disk_core::Disk;
use flush_core::{Lane, Tick};
use pen_core::{HomeTicked, Ticked};
use record_core::Record;

impl<R: Record, D: Disk> Vault<R, D> {
    /// Begins to fold all changes in the file. Answers whether a fold was begun: not where no change is live. It takes
    /// all memory that the fold needs.
    ///
    /// Refused, in this order: `Broken`; `Busy`, while a fold is in hand; then, where a change is live, `FileFull`;
    /// `Memory`.
    pub fn begin_fold(&mut self) -> Result<bool, VaultFault>
        ensures begun { IfOk result (λ begun. IsFoldAnswer self.old.pen self.new.pen begun) }
        ensures plans { D.keeps self.old.pen.disk → OnOk result (IfSome self.new.pen.fold (λ fold. IsWholeFold self.old.pen.shape self.old.pen.frames self.old.pen.vector fold.left)) }
        ensures refused { IfErr result (λ fault. IsVaultFoldFault self.old.pen fault) }
        ensures unchanged { OnErr result (IsUnchanged self.old.pen self.new.pen) }
        ensures list { (self.new.blocks ≡ self.old.blocks) × (self.new.sure ≡ self.old.sure) }
    {
        match self.pen.ready_fold() {
            Ok(true) => {}
            Ok(false) => return Ok(false),
            Err(fault) => return Err(VaultFault::Pen(fault)),
        }
        match self
            .pen
            .begin_fold_from::<R, &[Vec<R>]>(&self.blocks.as_slice())
        {
            Ok(begun) => Ok(begun),
            Err(fault) => Err(VaultFault::Pen(fault)),
        }
    }

    /// Makes the next device call of a lane, if there is one, or makes a fold whose homes are on the disk the log job. It
    /// takes no memory. The last call of a job brings just its frame into the file, and no other changes the file's frames.
    ///
    /// Each image that a crash may leave inside the call opens to what an image of before opens to. Refused as the pen's
    /// ticks: `Disk`, and from then on `Broken`.
    pub fn tick(&mut self, lane: Lane) -> Result<Tick, VaultFault>
        ensures images { D.keeps self.new.pen.disk → LeavesOnly (D.states self.old.pen.disk) (D.states self.new.pen.disk) (MayHold R.form self.old) }
        ensures ticked { IfOk result (λ tick. IsLaneTicked lane self.old.pen self.new.pen tick) }
        ensures file { D.keeps self.new.pen.disk → MatchResult result (λ tick. FileLaneTicked lane self.old.pen self.new.pen tick) (λ _. FileSame self.old.pen self.new.pen) }
        ensures list { self.new.blocks ≡ self.old.blocks }
        ensures sure { D.keeps self.new.pen.disk → MatchResult result (λ _. self.new.sure ≡ list_of self.new) (λ _. self.new.sure ≡ self.old.sure) }
        ensures refused { IfErr result (λ fault. IsVaultLaneFault lane self.old.pen self.new.pen fault) }
        ensures whole { OnOk result ((self.old.pen.broken ≡ false) × (self.new.pen.broken ≡ false)) }
        ensures time { clock (D.states self.new.pen.disk) ≡ clock (D.states self.old.pen.disk) + lane_calls lane self.old.pen }
        ensures faults { CountsFailures failed (D.faults self.old.pen.disk) (D.faults self.new.pen.disk) result }
        ensures model { D.keeps self.new.pen.disk → D.keeps self.old.pen.disk }
        ensures goes_on { D.keeps self.old.pen.disk → OnOk result (D.keeps self.new.pen.disk) }
    {
        match lane {
            Lane::Log => match self.pen.tick_log() {
                Ok(Ticked::Idle) => Ok(Tick::Idle),
                Ok(Ticked::Step) => Ok(Tick::Step),
                Ok(Ticked::Done) => Ok(Tick::Done),
                Err(fault) => Err(VaultFault::Pen(fault)),
            },
            Lane::Home => match self.pen.tick_home() {
                Ok(HomeTicked::Idle) => Ok(Tick::Idle),
                Ok(HomeTicked::Step) => Ok(Tick::Step),
                Ok(HomeTicked::Filed) => Ok(Tick::Filed),
                Ok(HomeTicked::Waiting) => Ok(Tick::Waiting),
                Err(fault) => Err(VaultFault::Pen(fault)),
            },
        }
    }

    /// A tick of the log, or, where it has no job in hand, of the homes.
    fn advance(&mut self) -> Result<Tick, VaultFault>
        ensures images { D.keeps self.new.pen.disk → LeavesOnly (D.states self.old.pen.disk) (D.states self.new.pen.disk) (MayHold R.form self.old) }
        ensures advanced { IfOk result (λ tick. LessensWork self.old.pen self.new.pen tick) }
        ensures carries { OnOk result (CarriesOn (D.keeps self.new.pen.disk) self.old.pen self.new.pen) }
        ensures list { self.new.blocks ≡ self.old.blocks }
        ensures sure { D.keeps self.new.pen.disk → MatchResult result (λ _. self.new.sure ≡ list_of self.new) (λ _. (self.new.sure ≡ self.old.sure) ⊎ (self.new.sure ≡ list_of self.new)) }
        ensures refused { IfErr result (λ fault. IsSettleFault self.old.pen self.new.pen fault) }
        ensures whole { OnOk result ((self.old.pen.broken ≡ false) × (self.new.pen.broken ≡ false)) }
        ensures time { MatchResult result
            (λ _. clock (D.states self.new.pen.disk) + calls_left self.new.pen ≤ clock (D.states self.old.pen.disk) + calls_left self.old.pen)
            (λ _. clock (D.states self.new.pen.disk) ≤ clock (D.states self.old.pen.disk) + calls_left self.old.pen) }
        ensures faults { CountsFailures failed (D.faults self.old.pen.disk) (D.faults self.new.pen.disk) result }
        ensures model { D.keeps self.new.pen.disk → D.keeps self.old.pen.disk }
        ensures goes_on { D.keeps self.old.pen.disk → OnOk result (D.keeps self.new.pen.disk) }
    {
        let tick = self.tick(Lane::Log)?;
        if tick != Tick::Idle {
            return Ok(tick);
        }
        self.tick(Lane::Home)
    }

    /// Makes all device calls of the job and of the fold in hand, and no others. It takes no memory. Behind it their frames
    /// stand in the file.
    ///
    /// Each image that a crash may leave meanwhile opens to what an image of before opens to. Refused: `Broken`, with no
    /// call; `Disk`, at the call that failed, and from then on the vault is broken.
    pub fn settle(&mut self) -> Result<(), VaultFault>
        ensures images { D.keeps self.new.pen.disk → LeavesOnly (D.states self.old.pen.disk) (D.states self.new.pen.disk) (MayHold R.form self.old) }
        ensures idle { OnOk result (IsIdle self.new.pen) }
        ensures file { OnOk result (StandsInFile (D.keeps self.new.pen.disk) self.old.pen self.new.pen) }
        ensures list { self.new.blocks ≡ self.old.blocks }
        ensures sure { D.keeps self.new.pen.disk → MatchResult result (λ _. self.new.sure ≡ list_of self.new) (λ _. (self.new.sure ≡ self.old.sure) ⊎ (self.new.sure ≡ list_of self.new)) }
        ensures refused { IfErr result (λ fault. IsSettleFault self.old.pen self.new.pen fault) }
        ensures whole { OnOk result ((self.old.pen.broken ≡ false) × (self.new.pen.broken ≡ false)) }
        ensures time { clock (D.states self.new.pen.disk) ≤ clock (D.states self.old.pen.disk) + calls_left self.old.pen }
        ensures faults { CountsFailures failed (D.faults self.old.pen.disk) (D.faults self.new.pen.disk) result }
        ensures model { D.keeps self.new.pen.disk → D.keeps self.old.pen.disk }
        ensures goes_on { D.keeps self.old.pen.disk → OnOk result (D.keeps self.new.pen.disk) }
    {
        while self.advance()? != Tick::Idle {}
        Ok(())
    }
}
