//! What the system didn't do with a file, and why.

use disk_core::DiskFault;
use pen_core::PenFault;
use std::fmt::{self, Formatter};
use std::io::{self, ErrorKind};
use vault_core::VaultFault;

/// A call of a command's file that the system refused.
#[derive(Clone, Copy)]
pub struct RefusedCall {
    pub call: DiskFault,
    /// Why it was refused.
    pub error: io::Error,
}

/// Why such a call was refused, where that is known.
fn error_of(call: DiskFault, refused: Option<RefusedCall>) -> Option<io::Error> {
    match refused {
        Some(refused) if refused.call == call => Some(refused.error),
        _ => None,
    }
}

/// Whether nothing more fits on the device.
fn is_full(error: io::Error) -> bool {
    matches!(
        error.kind(),
        ErrorKind::StorageFull | ErrorKind::QuotaExceeded
    )
}

/// What the system didn't do, by such an error.
fn about_call(call: DiskFault, error: Option<io::Error>) -> &'static str {
    match (call, error) {
        (DiskFault::Length, _) => "the system didn't tell the file's length",
        (DiskFault::Read, _) => "the system didn't read it",
        (DiskFault::Write, Some(error)) if is_full(error) => "the device is full",
        (DiskFault::Write, Some(error)) if error.kind() == ErrorKind::FileTooLarge => {
            "it may not become so long"
        }
        (DiskFault::Write, _) => "the system didn't write it",
        (DiskFault::Sync, _) => "the system didn't put it on the device",
    }
}

/// Writes what the system didn't do, and why, where that is known.
pub fn write_call<W: fmt::Write>(
    f: &mut Formatter<W>,
    call: DiskFault,
    refused: Option<RefusedCall>,
) -> fmt::Result {
    let error = error_of(call, refused);
    f.write_str(about_call(call, error))?;
    match error {
        Some(error) => write!(f, " ({error})"),
        None => Ok(()),
    }
}

/// What is to be done before a command is given again that such a call has ended. What a failed sync left may show what the
/// device doesn't have.
pub fn mending(call: DiskFault, refused: Option<RefusedCall>) -> &'static str {
    match (call, error_of(call, refused)) {
        (DiskFault::Write, Some(error)) if is_full(error) => "make room",
        (DiskFault::Write, Some(error)) if error.kind() == ErrorKind::FileTooLarge => {
            "raise that limit"
        }
        (DiskFault::Sync, _) => "mend the device, restart the system",
        _ => "mend the device",
    }
}

/// The call whose refusal a vault tells of, where one is known.
pub fn call_behind(fault: VaultFault, refused: Option<RefusedCall>) -> Option<DiskFault> {
    match (fault, refused) {
        (VaultFault::Pen(PenFault::Disk(call)), _) => Some(call),
        (VaultFault::Pen(PenFault::Broken) | VaultFault::Unsettled(_), Some(refused)) => {
            Some(refused.call)
        }
        _ => None,
    }
}
