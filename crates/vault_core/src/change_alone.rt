//! Changes by the calling thread alone, for a library that starts none.

ghost use Rattle.std.specs.Prelude.{◌≡◌, ◌<◌, length, false, MatchResult};
ghost use Rattle.segment_core.specs.Runs.{runs_given};
ghost use Rattle.pen_core.specs.Refusals.{change_lines, one_run};
ghost use Rattle.vault_core.specs.Vault.{list_of};
ghost use Rattle.vault_core.specs.Touched.{IsTouched};
ghost use Rattle.vault_core.specs.Commands.{IsCommand, IsNothingFault, StandsCommanded, changed_frame};

use crate::committing::commit;
use crate::fault::VaultFault;
use crate::parts::PartList;
use crate::vault::Vault;
use block_core::Touch;
use disk_core::Disk;
use pen_core::PenFault;
use record_core::Record;

impl<R: Record, D: Disk> Vault<R, D> {
    /// Touches the records of runs, at least one, and commits them as one redo record.
    fn change_some_alone<T: Touch<R>>(
        &mut self,
        runs: &[(u64, u64)],
        touch: &T,
    ) -> Result<(), VaultFault>
        requires some { 0 < length runs.now }
        ensures list { MatchResult result
            (λ _. IsTouched (T.one touch.now) (runs_given runs.now) (list_of self.old) (list_of self.new))
            (StandsCommanded (IsTouched (T.one touch.now) (runs_given runs.now) (list_of self.old) (list_of self.new)) (self.new.blocks ≡ self.old.blocks)) }
        ensures command { IsCommand R.form D.keeps D.states D.faults (changed_frame R.form (runs_given runs.now) (list_of self.new)) (change_lines self.old.pen (runs_given runs.now)) self.old self.new result }
    {
        if let Err(fault) = self.pen.ready_runs(runs) {
            return Err(VaultFault::Pen(fault));
        }
        let Ok(()) = self.blocks.cut(runs, &mut self.parts) else {
            return Err(VaultFault::Pen(PenFault::Memory));
        };
        let parts = self.parts.as_slice();
        self.blocks.touch_alone(parts, touch);
        let pieces = PartList {
            blocks: self.blocks.as_slice(),
            parts,
        };
        let Ok(()) = self.pen.begin_runs_from::<R, PartList<R>>(runs, &pieces) else {
            unreachable!()
        };
        commit(&mut self.pen, &self.blocks)
    }

    /// As `change`, but that the calling thread alone touches the records.
    pub fn change_alone<T: Touch<R>>(
        &mut self,
        start: u64,
        count: u64,
        touch: &T,
    ) -> Result<(), VaultFault>
        ensures list { 0 < count → MatchResult result
            (λ _. IsTouched (T.one touch.now) (one_run start count) (list_of self.old) (list_of self.new))
            (StandsCommanded (IsTouched (T.one touch.now) (one_run start count) (list_of self.old) (list_of self.new)) (self.new.blocks ≡ self.old.blocks)) }
        ensures command { 0 < count → IsCommand R.form D.keeps D.states D.faults (changed_frame R.form (one_run start count) (list_of self.new)) (change_lines self.old.pen (one_run start count)) self.old self.new result }
        ensures nothing { count ≡ 0 → (self.new ≡ self.old) × MatchResult result (λ _. self.old.pen.broken ≡ false) (IsNothingFault self.old.pen) }
    {
        if count == 0 {
            return self.nothing();
        }
        self.change_some_alone(&[(start, count)], touch)
    }
}
