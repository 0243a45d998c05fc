//! Why a step is refused.

ghost use Rattle.std.specs.Prelude.{Some};
ghost use Rattle.drive_core.specs.Names.{fault_name};

use book_core::GrowFault;
use segment_core::ScanFault;
use std::error::Error;
use std::fmt;
use vault_core::VaultFault;

/// Why a step is refused.
#[derive(Clone, Copy, Debug)]
pub enum StepFault {
    /// By the vault or by the pen, or the step doesn't fit the phase.
    Vault(VaultFault),
    /// By the book. Every growth that strayed is told so.
    Grow(GrowFault),
    /// The file on the disk is refused.
    Scan(ScanFault),
}

impl fmt::Display for StepFault {
    ghost output = { λ fault. Some (fault_name fault) };

    fn fmt<W: fmt::Write>(&self, f: &mut fmt::Formatter<W>) -> fmt::Result {
        match *self {
            StepFault::Vault(fault) => fmt::Display::fmt(&fault, f),
            StepFault::Grow(fault) => fmt::Display::fmt(&fault, f),
            StepFault::Scan(fault) => fmt::Display::fmt(&fault, f),
        }
    }
}

impl Error for StepFault {}
