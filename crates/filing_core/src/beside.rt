//! How a command ends that has read a file beside its writer.

ghost use Rattle.std.specs.Prelude.{◌≡◌};
ghost use Rattle.filing_core.specs.Beside.{IsLookStatus, IsFollowStatus, copy_complaint, look_complaint, loss_fault};

use crate::polling::Polling;
use beside_core::{LookFault, Loss};
use files_core::FileFault;
use follow_core::{FollowEnd, LookEnd};
use pen_core::{OpenFault, PenFault};
use segment_core::ScanFault;
use sentences::{BesideFault, Complaint};
use std::fs::File;
use std::rt::Files;
use std::time::Clock;
use text_core::Status;
use vault_core::{UpgradeFault, VaultFault};

/// Why a look was refused, as the commands over a file name it.
fn complaint_of(fault: LookFault) -> Complaint
    ensures { result ≡ look_complaint fault }
{
    match fault {
        LookFault::Disk(fault) => Complaint::Fault(FileFault::Open(OpenFault::Disk(fault))),
        LookFault::Scan(fault) => Complaint::Fault(FileFault::Open(OpenFault::Scan(fault))),
        LookFault::Memory => Complaint::Fault(FileFault::Open(OpenFault::Scan(ScanFault::Memory))),
        LookFault::TooFar => Complaint::Fault(FileFault::Vault(VaultFault::Pen(
            PenFault::FileFull,
        ))),
        LookFault::NoRecord(position) => Complaint::Beside(BesideFault::BadRecord(position)),
    }
}

/// How a command ended whose look ended so.
pub fn status_of_look(end: LookEnd) -> Result<Status, Complaint>
    ensures { IsLookStatus end result }
{
    match end {
        LookEnd::Done => Ok(Status::Done),
        LookEnd::OutputFailed => Ok(Status::OutputFailed),
        LookEnd::Refused(fault) => Err(complaint_of(fault)),
    }
}

/// The same of FILE, where a new one is made of it.
pub fn complaint_of_copy(fault: LookFault) -> Complaint
    ensures { result ≡ copy_complaint fault }
{
    match fault {
        LookFault::Disk(fault) => Complaint::Fault(FileFault::Upgrade(UpgradeFault::Old(
            OpenFault::Disk(fault),
        ))),
        LookFault::Scan(fault) => Complaint::Fault(FileFault::Upgrade(UpgradeFault::Old(
            OpenFault::Scan(fault),
        ))),
        LookFault::Memory => Complaint::Fault(FileFault::Upgrade(UpgradeFault::Old(OpenFault::Scan(
            ScanFault::Memory,
        )))),
        LookFault::TooFar | LookFault::NoRecord(_) => complaint_of(fault),
    }
}

/// What was read and isn't so any more.
fn fault_of(loss: Loss) -> BesideFault
    ensures { result ≡ loss_fault loss }
{
    match loss {
        Loss::Changed(position) => BesideFault::Changed(position),
        Loss::Shorter(size) => BesideFault::Shorter(size),
    }
}

/// How `follow` ended whose engine ended so.
pub fn status_of_follow<F: Files<File = File> + Clock>(
    end: FollowEnd,
    polling: &Polling<'_, F>,
) -> Result<Status, Complaint>
    ensures { IsFollowStatus end result }
{
    match end {
        FollowEnd::Ended => Ok(Status::Done),
        FollowEnd::OutputFailed => Ok(Status::OutputFailed),
        FollowEnd::Lost(loss) => Err(Complaint::Beside(fault_of(loss))),
        FollowEnd::Refused(fault) => Err(complaint_of(fault)),
        FollowEnd::Replaced => Err(Complaint::Beside(polling.parting())),
    }
}
