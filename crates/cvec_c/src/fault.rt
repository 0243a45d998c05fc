//! Why an image has no vector, in numbers.

ghost use Rattle.std.specs.Prelude.{◌≡◌};
ghost use Rattle.cvec_c.specs.Fault.{cause_code, fault_record};
ghost use Rattle.cvec_c.specs.Look.{IsNoCall, of_look, look_record};

use beside_core::LookFault;
use c_core::Refusal;
use segment_core::{Cause, ScanFault};

/// Where and why an image has no vector.
#[repr(C)]
#[derive(Clone, Copy)]
pub struct CvecFault {
    /// The place where a damage was found, or the position of the record that is none; 0 for another fault.
    pub at: u64,
    /// The cause of a damage, 0 for another fault.
    pub cause: u32,
    /// The version, the width or the kind that was found; 0 where the fault is none of these.
    pub found: u32,
}

/// What is answered of bytes which show no vector for this. No file was called.
pub(crate) fn refusal_of_look(fault: LookFault) -> Refusal
    requires { IsNoCall fault }
    ensures { result ≡ of_look fault }
{
    match fault {
        LookFault::Disk(_) => unreachable!(),
        LookFault::Scan(fault) => Refusal::of_scan(fault),
        LookFault::NoRecord(_) => Refusal::NoRecord,
        LookFault::TooFar => Refusal::FileFull,
        LookFault::Memory => Refusal::Memory,
    }
}

/// The number of a cause, and the kind that was found.
fn cause_told(cause: Cause) -> (u32, u32)
    ensures { result ≡ cause_code cause }
{
    match cause {
        Cause::NoGate => (1, 0),
        Cause::ShortFrame => (2, 0),
        Cause::Kind(kind) => (3, u32::from(kind)),
        Cause::TooLarge => (4, 0),
        Cause::Layout => (5, 0),
        Cause::Runs => (6, 0),
        Cause::Range => (7, 0),
        Cause::Unfolded => (8, 0),
        Cause::FoldCount => (9, 0),
        Cause::TooLong => (10, 0),
        Cause::BadRecord => (11, 0),
    }
}

impl CvecFault {
    /// What is told of a fault.
    pub(crate) fn of(fault: ScanFault) -> CvecFault
        ensures { result ≡ fault_record fault }
    {
        let (at, cause, found) = match fault {
            ScanFault::Damaged { at, cause } => {
                let (cause, kind) = cause_told(cause);
                (at, cause, kind)
            }
            ScanFault::Version(version) => (0, 0, u32::from(version)),
            ScanFault::Width(width) => (0, 0, u32::from(width)),
            ScanFault::Unborn | ScanFault::NotSegment | ScanFault::Memory => (0, 0, 0),
        };
        CvecFault { at, cause, found }
    }

    /// What is told of bytes which show no vector for this.
    pub(crate) fn of_look(fault: LookFault) -> CvecFault
        ensures { result ≡ look_record fault }
    {
        let at = match fault {
            LookFault::Scan(fault) => return CvecFault::of(fault),
            LookFault::NoRecord(position) => position,
            LookFault::Disk(_) | LookFault::TooFar | LookFault::Memory => 0,
        };
        CvecFault {
            at,
            cause: 0,
            found: 0,
        }
    }
}
