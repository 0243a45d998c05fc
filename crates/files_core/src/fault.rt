//! Why a command over a file is refused, and the line that names it.

ghost use Rattle.std.specs.Prelude.{◌≡◌, ◌⊎◌, Some};
ghost use Rattle.std.specs.Fmt.{DisplaysOnOk};
ghost use Rattle.std.specs.Io.KnownBytes.{Appends};
ghost use Rattle.files_core.specs.Faults.{upgrade_name, file_fault_name, fault_line};

use book_core::GrowFault;
use pen_core::OpenFault;
use std::fmt::{self, Display};
use std::io::Write;
use text_core::{Refusal, Status, write_refusal};
use vault_core::{UpgradeFault, VaultFault};

/// The words of a command that have to be of a form.
#[derive(Clone, Copy)]
pub enum Word {
    /// START of `set`: a number.
    Start,
    /// RECORDS of `set`: records with a comma between each two.
    Records,
    /// N of `resize`: a number.
    Length,
    /// RECORD of `count`, `find` and `resize`: a record.
    Record,
    /// FROM of `list`: a number.
    From,
    /// COUNT of `list`: a number.
    Count,
}

/// Where a grower stopped, and what the file has then.
#[derive(Clone, Copy)]
pub struct Stopped {
    /// Which grower, counted from 0.
    pub grower: u16,
    /// The line of the input, counted from 1, whose growth it didn't make: the first one of a growth of many lines.
    pub line: u64,
    pub fault: GrowFault,
    /// How many records the file's vector has now, with those of the growths that were made.
    pub size: u64,
}

/// Why a command over a file is refused.
#[derive(Clone, Copy)]
pub enum FileFault {
    /// This word isn't of its form. No disk was touched.
    Word(Word),
    /// The input was refused: a line of it (`Line`, `TooLargeAtLine`), a read of it, its length, or for want of memory. No
    /// disk was touched, but by `append`, which commits as it reads.
    Input(Refusal),
    /// The file wasn't opened. Nothing was written to it.
    Open(OpenFault),
    /// The file wasn't made, or its vault refused. But for `Disk` nothing was written; after it the file opens to the
    /// vector of before the command, or to the one behind it.
    Vault(VaultFault),
    /// A grower stopped. The growths that were made stand.
    Grower(Stopped),
    /// The file wasn't upgraded.
    Upgrade(UpgradeFault),
}

/// Writes the name of why a file wasn't upgraded.
fn write_upgrade_fault<W: fmt::Write>(f: &mut fmt::Formatter<W>, fault: UpgradeFault) -> fmt::Result
    ensures { DisplaysOnOk W.write_str_gives f.old result (Some (upgrade_name fault)) f.new }
{
    match fault {
        UpgradeFault::Old(fault) => write!(f, "old {fault}"),
        UpgradeFault::NotOld => f.write_str("not version 1"),
        UpgradeFault::New(fault) => write!(f, "new {fault}"),
    }
}

impl Display for FileFault {
    ghost output = { λ fault. Some (file_fault_name fault) };

    fn fmt<W: fmt::Write>(&self, f: &mut fmt::Formatter<W>) -> fmt::Result {
        match *self {
            FileFault::Word(_) => f.write_str("word"),
            FileFault::Input(refusal) => Display::fmt(&refusal, f),
            FileFault::Open(fault) => Display::fmt(&fault, f),
            FileFault::Vault(fault) => Display::fmt(&fault, f),
            FileFault::Grower(stopped) => Display::fmt(&stopped.fault, f),
            FileFault::Upgrade(fault) => write_upgrade_fault(f, fault),
        }
    }
}

/// Writes the line of a refusal. No memory is taken for it.
pub fn refuse_file<W: Write>(writer: &mut W, fault: FileFault) -> Status
    ensures refused { result ≡ Status.Refused → Appends (W.contents writer.old) (W.contents writer.new) (fault_line fault) }
    ensures ends { (result ≡ Status.Refused) ⊎ (result ≡ Status.OutputFailed) }
{
    match write_refusal(writer, fault) {
        Ok(()) => Status::Refused,
        Err(_) => Status::OutputFailed,
    }
}
