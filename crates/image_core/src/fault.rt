//! Why `show` refuses.

ghost use Rattle.std.specs.Prelude.{◌≡◌, ◌⊎◌, Some};
ghost use Rattle.std.specs.Io.KnownBytes.{Appends};
ghost use Rattle.image_core.specs.Refusals.{show_fault_name, show_fault_line};

use segment_core::ScanFault;
use std::fmt::{self, Display};
use std::io::Write;
use text_core::{Refusal, Status, write_refusal};

/// Why `show` refuses.
#[derive(Clone, Copy)]
pub enum ShowFault {
    /// The input wasn't read, or is no hex line.
    Input(Refusal),
    /// The image has no vector.
    Scan(ScanFault),
}

impl From<Refusal> for ShowFault {
    ghost use Rattle.image_core.specs.declared.fault.ShowFault.{ShowFault};

    ghost from_gives = { λ refusal fault. fault ≡ ShowFault.Input refusal };

    fn from(refusal: Refusal) -> ShowFault {
        ShowFault::Input(refusal)
    }
}

impl Display for ShowFault {
    ghost output = { λ fault. Some (show_fault_name fault) };

    fn fmt<W: fmt::Write>(&self, f: &mut fmt::Formatter<W>) -> fmt::Result {
        match *self {
            ShowFault::Input(refusal) => Display::fmt(&refusal, f),
            ShowFault::Scan(fault) => Display::fmt(&fault, f),
        }
    }
}

/// Writes the line of a refusal. No memory is taken for it.
pub fn refuse_show<W: Write>(writer: &mut W, fault: ShowFault) -> Status
    ensures refused { result ≡ Status.Refused → Appends (W.contents writer.old) (W.contents writer.new) (show_fault_line fault) }
    ensures ends { (result ≡ Status.Refused) ⊎ (result ≡ Status.OutputFailed) }
{
    match write_refusal(writer, fault) {
        Ok(()) => Status::Refused,
        Err(_) => Status::OutputFailed,
    }
}
