//! Why a vault refuses a command, what its file has then, and what to do next.

use crate::calls::{RefusedCall, call_behind, mending, write_call};
use crate::complaint::Sentence;
use crate::standing::Standing;
use disk_core::DiskFault;
use files_core::Stopped;
use pen_core::PenFault;
use std::fmt::{self, Formatter};
use vault_core::VaultFault;

/// What is wrong, what stands, and what to do next, where a vault refuses a command.
fn about_pen(fault: PenFault) -> &'static str {
    match fault {
        PenFault::Unfolded =>
            "changes are live, and with them it can't become shorter; it is as it was; `cvec fold` first",
        PenFault::OutOfRange =>
            "the positions aren't all in the vector, or there would be more than 4294967296 records; it is as it was",
        PenFault::TooLarge =>
            "so many records are more than one frame takes; it is as it was; give fewer at once",
        PenFault::FileFull => "it is as long as such a file can become; it is as it was",
        PenFault::Memory => "there is not enough memory; it opens to the vector of before",
        PenFault::OldFormat =>
            "version 1 has no change of many runs; it is as it was; `cvec upgrade` first",
        PenFault::Runs => "the runs are empty, overlap or don't ascend; it is as it was",
        PenFault::Broken =>
            "the system didn't write it, or put it on the device, which may be full; restart the system, and it opens to the vector of before, with what was told since",
        PenFault::Exists | PenFault::Busy | PenFault::Disk(_) =>
            "it opens to the vector of before this command, or to the one behind it",
    }
}

/// What is wrong, what stands, and what to do next, where a vault refuses a command and the disk has no fault.
fn about_vault(fault: VaultFault) -> &'static str {
    match fault {
        VaultFault::Pen(fault) => about_pen(fault),
        VaultFault::Unsettled(_) =>
            "not all growths are known to be on the device; it opens to the vector of before, and the first of them",
        VaultFault::WrongPhase => "the growers didn't come back; what is settled stands",
    }
}

pub fn write_vault<W: fmt::Write>(
    f: &mut Formatter<W>,
    name: &str,
    fault: VaultFault,
    refused: Option<RefusedCall>,
) -> fmt::Result {
    let VaultFault::Pen(PenFault::Disk(call)) = fault else {
        let about = about_vault(fault);
        return write!(f, "{name}: {about}");
    };
    let stands = "it opens to a vector that was settled, or to what this command was making";
    write_refused(f, name, call, stands, refused)
}

/// What the system didn't do, what stands, and what to do next.
fn write_refused<W: fmt::Write>(
    f: &mut Formatter<W>,
    name: &str,
    call: DiskFault,
    stands: &str,
    refused: Option<RefusedCall>,
) -> fmt::Result {
    let mending = mending(call, refused);
    write!(f, "{name}: ")?;
    write_call(f, call, refused)?;
    write!(f, "; {stands}; {mending}, then give the command again")
}

/// What to do where something stands in the file of `create`. What is no vector is never to be taken away.
fn about_existing(stands: Standing) -> &'static str {
    match stands {
        Standing::Vector =>
            "there is a vector in this file already; it is as it was; name another file, or give --over, which takes all its records away",
        Standing::Nothing | Standing::Bytes =>
            "there are other bytes in this file already; it is as it was; name another file",
    }
}

/// Why no vector is made in a file.
pub fn write_create_fault<W: fmt::Write>(
    f: &mut Formatter<W>,
    name: &str,
    fault: VaultFault,
    sentence: &Sentence<'_>,
) -> fmt::Result {
    match fault {
        VaultFault::Pen(PenFault::Exists) => {
            let about = about_existing(sentence.stands);
            write!(f, "{name}: {about}")
        }
        VaultFault::Pen(PenFault::Disk(call)) => {
            let stands = "no vector is known to be made";
            write_refused(f, name, call, stands, sentence.refused)
        }
        _ => write_vault(f, name, fault, sentence.refused),
    }
}

/// What is wrong, what stands, and what to do next, where a vault doesn't get a length. In parts: some of its new records may
/// stand. `None`: it is as with another command.
fn about_resize(fault: VaultFault, in_parts: bool) -> Option<&'static str> {
    match fault {
        VaultFault::Pen(PenFault::TooLarge) => Some(
            "the new records are more than one frame takes; it is as it was; --parts takes any number",
        ),
        VaultFault::Pen(PenFault::FileFull) if in_parts => Some(
            "it is as long as such a file can become; some of the new records may stand: `cvec check` tells how many there are in all",
        ),
        VaultFault::Pen(PenFault::Memory) if in_parts => Some(
            "there is not enough memory; some of the new records may stand, and the same command goes on behind them",
        ),
        _ => None,
    }
}

/// Why a vault doesn't get a length, in parts or by one frame.
pub fn write_resize_fault<W: fmt::Write>(
    f: &mut Formatter<W>,
    name: &str,
    fault: VaultFault,
    in_parts: bool,
    refused: Option<RefusedCall>,
) -> fmt::Result {
    match about_resize(fault, in_parts) {
        Some(about) => write!(f, "{name}: {about}"),
        None => write_vault(f, name, fault, refused),
    }
}

/// Why no more growths were put on the device, where no call is known that the system refused.
fn about_commit(fault: VaultFault) -> &'static str {
    match fault {
        VaultFault::Pen(PenFault::FileFull) => "it is as long as such a file can become",
        VaultFault::Pen(PenFault::Memory) => "there is not enough memory",
        _ =>
            "not all growths are known to be on the device; restart the system before it is opened again",
    }
}

/// Why growths that come one after the other weren't all committed, and what is to be done before the file is opened again. Only
/// behind a sync the device may not have what it took.
pub fn write_commit_fault<W: fmt::Write>(
    f: &mut Formatter<W>,
    name: &str,
    fault: VaultFault,
    refused: Option<RefusedCall>,
) -> fmt::Result {
    write!(f, "{name}: ")?;
    match call_behind(fault, refused) {
        Some(call) => write_call(f, call, refused)?,
        None => f.write_str(about_commit(fault))?,
    }
    f.write_str("; what stood before stands")
}

pub fn write_stopped<W: fmt::Write>(
    f: &mut Formatter<W>,
    name: &str,
    stopped: Stopped,
) -> fmt::Result {
    let line = stopped.line;
    let fault = stopped.fault;
    let size = stopped.size;
    write!(
        f,
        "{name}: the growth of line {line} of the input wasn't made ({fault}); those that were made stand: the vector has {size} records"
    )
}

/// Why the new file of `upgrade` or `copy` isn't the vector of the old one, and what to do next, where the system refused no call.
fn about_new(fault: VaultFault) -> &'static str {
    match fault {
        VaultFault::Pen(PenFault::Exists) =>
            "there is something in this file already, a vector or other bytes; it is as it was; name another new file",
        VaultFault::Pen(PenFault::TooLarge) =>
            "so many records are more than one frame takes; nothing was written to it; give a smaller --block",
        VaultFault::Pen(PenFault::Memory) => "there is not enough memory; nothing was left there",
        _ => "it would be longer than such a file can become; nothing was left there",
    }
}

/// Why the new file of `upgrade` or `copy` isn't the vector of the old one, and what to do next.
pub fn write_new<W: fmt::Write>(
    f: &mut Formatter<W>,
    fault: VaultFault,
    refused: Option<RefusedCall>,
) -> fmt::Result {
    let VaultFault::Pen(PenFault::Disk(call)) = fault else {
        return f.write_str(about_new(fault));
    };
    let mending = mending(call, refused);
    write_call(f, call, refused)?;
    write!(
        f,
        "; nothing was left there; {mending}, then give the command again"
    )
}
