//! How a command over a file ends, by how its engine did.

ghost use Rattle.std.specs.Prelude.{◌≡◌, IfSome, MatchResult};
ghost use Rattle.filing_core.specs.Complaints.{IsAppendComplaint, IsComplaintOf, IsSoundOn, IsStatusOf, damage_of};
ghost use Rattle.filing_core.specs.Commands.{IsServedAs};

use crate::noting::NotedDisk;
use crate::serving::{fault_of, write_served};
use files_core::{Appended, Ended, FileFault, sound_front};
use pen_core::OpenFault;
use segment_core::ScanFault;
use sentences::Complaint;
use serve_core::{ServeFault, Served};
use std::alloc::Global;
use std::io::{self, Write};
use text_core::{Status, TextRecord};
use vault_core::UpgradeFault;

/// The place of the damage that a fault tells of.
fn damage_of(fault: FileFault) -> Option<u64>
    ensures { result ≡ damage_of fault }
{
    match fault {
        FileFault::Open(OpenFault::Scan(ScanFault::Damaged { at, .. }))
        | FileFault::Upgrade(UpgradeFault::Old(OpenFault::Scan(ScanFault::Damaged { at, .. }))) =>
            Some(at),
        _ => None,
    }
}

/// How many records are sound of the file on the disk, where this fault tells that it is damaged, and that can be read.
fn sound_on<R: TextRecord>(alloc: Global, disk: &mut NotedDisk<'_>, fault: FileFault) -> Option<u64>
    ensures { IfSome result (IsSoundOn R.form disk.old disk.new fault) }
{
    let Some(at) = damage_of(fault) else {
        return None;
    };
    match sound_front::<R, NotedDisk<'_>>(alloc, disk, at) {
        Ok(sound) => Some(sound),
        Err(_) => None,
    }
}

/// The complaint of a command whose engine gave its disk back with this fault: of a damaged file with what is sound of it.
pub fn complaint_of<R: TextRecord>(
    alloc: Global,
    disk: NotedDisk<'_>,
    fault: FileFault,
) -> Complaint
    ensures { IsComplaintOf R.form disk.entry fault result }
{
    let mut disk = disk;
    match sound_on::<R>(alloc, &mut disk, fault) {
        Some(sound) => Complaint::Damaged(sound, fault),
        None => Complaint::Fault(fault),
    }
}

/// How a command ended whose engine gave its disk back so.
pub fn status_on<R: TextRecord>(
    alloc: Global,
    disk: NotedDisk<'_>,
    ended: Ended,
) -> Result<Status, Complaint>
    ensures { IsStatusOf (IsComplaintOf R.form disk.entry) ended result }
{
    match ended {
        Ended::Done => Ok(Status::Done),
        Ended::OutputFailed => Ok(Status::OutputFailed),
        Ended::Refused(fault) => Err(complaint_of::<R>(alloc, disk, fault)),
    }
}

/// How a command ended that has done its work, and written its answer so.
pub fn status_of_answer(written: io::Result<()>) -> Status
    ensures { MatchResult written (λ _. result ≡ Status.Done) (λ _. result ≡ Status.OutputFailed) }
{
    match written {
        Ok(()) => Status::Done,
        Err(_) => Status::OutputFailed,
    }
}

/// How `append` or `load` ended whose engine gave its disk back so.
pub fn status_of_append<R: TextRecord>(
    alloc: Global,
    disk: NotedDisk<'_>,
    appended: Appended,
    ended: Ended,
) -> Result<Status, Complaint>
    ensures { IsStatusOf (IsAppendComplaint R.form appended disk.entry) ended result }
{
    match ended {
        Ended::Done => Ok(Status::Done),
        Ended::OutputFailed => Ok(Status::OutputFailed),
        Ended::Refused(FileFault::Open(fault)) => {
            Err(complaint_of::<R>(alloc, disk, FileFault::Open(fault)))
        }
        Ended::Refused(fault) => Err(Complaint::Appended(appended, fault)),
    }
}

/// How `serve` ended whose engine gave its disk back so, and its answer.
pub fn status_of_serve<R: TextRecord, W: Write>(
    alloc: Global,
    disk: NotedDisk<'_>,
    served: Served,
    ended: Result<(), ServeFault>,
    writer: &mut W,
) -> Result<Status, Complaint>
    ensures { IsServedAs R.form (W.contents writer.old) (W.contents writer.new) result disk.entry served.growths ended }
{
    match ended {
        Ok(()) => match write_served(served.growths, writer) {
            Ok(()) => Ok(Status::Done),
            Err(_) => Ok(Status::OutputFailed),
        },
        Err(ServeFault::Open(fault)) => {
            Err(complaint_of::<R>(alloc, disk, FileFault::Open(fault)))
        }
        Err(fault) => Err(Complaint::Served(served.growths, fault_of(fault))),
    }
}
