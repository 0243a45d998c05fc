//! A whole fold of a vault.

ghost use Rattle.std.specs.Prelude.{IfOk, IfErr};
ghost use Rattle.phase_core.specs.Folding.{Folds, RefusesFold};

use disk_core::Disk;
use record_core::Record;
use relay_core::RelayDisk;
use vault_core::{Vault, VaultFault};

/// Folds all changes in the file, and answers whether there were some.
pub(crate) fn fold_whole<R: Record, D: Disk>(
    vault: &mut Vault<R, RelayDisk<D>>,
) -> Result<bool, VaultFault>
    ensures folds { IfOk result (λ folded. Folds R.form (λ disk. D.keeps disk.inner) (λ disk. D.states disk.inner) folded vault.old vault.new) }
    ensures refused { IfErr result (λ fault. RefusesFold R.form (λ disk. D.keeps disk.inner) (λ disk. D.states disk.inner) fault vault.old vault.new) }
{
    match vault.begin_fold() {
        Ok(folded) => match vault.settle() {
            Ok(()) => Ok(folded),
            Err(fault) => Err(fault),
        },
        Err(fault) => Err(fault),
    }
}
