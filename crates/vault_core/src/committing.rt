//! The commit that a command ends with.

ghost use Rattle.std.specs.Prelude.{◌≡◌, Bool, List, None, false, IfErr};
ghost use Rattle.segment_core.specs.Frame.{Frame};
ghost use Rattle.pen_core.specs.Refusals.{first_refusal};
ghost use Rattle.vault_core.specs.Commands.{IsBegun, IsCommand, IsStopFault};
ghost use Rattle.vault_core.specs.Vault.{IsVault, VaultOf, vault_of};

use crate::blocks::Blocks;
use crate::fault::VaultFault;
use disk_core::Disk;
use pen_core::{Pen, PenFault};
use record_core::Record;

/// Makes the device calls of the command that a pen has begun, behind which these blocks are what the file has. What every
/// command promises comes of it, whichever vault it was begun over.
pub(crate) fn commit<R: Record, D: Disk>(
    pen: &mut Pen<D>,
    _blocks: &Blocks<R>,
) -> Result<(), VaultFault>
    ensures kept { (v : VaultOf R D) → (frame : Frame) → IsBegun R.form D.keeps v frame pen.old _blocks.now
        → IsVault (D.keeps pen.new.disk) R.form (vault_of R.form pen.new _blocks.now) }
    ensures stops { pen.old.broken ≡ false → IfErr result IsStopFault }
    ensures command { (v : VaultOf R D) → (frame : Frame) → IsBegun R.form D.keeps v frame pen.old _blocks.now
        → (lines : List (Bool × PenFault)) → first_refusal lines ≡ None
        → IsCommand R.form D.keeps D.states D.faults frame lines v (vault_of R.form pen.new _blocks.now) result }
{
    match pen.settle_log() {
        Ok(()) => Ok(()),
        Err(fault) => Err(VaultFault::Pen(fault)),
    }
}
