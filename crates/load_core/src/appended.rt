//! What is told of growths that are appended.

ghost use Rattle.std.specs.Prelude.{◌≡◌, ◌⊎◌, ◌+◌, ◌-◌, ◌*◌, ◌^◌, min, OnOk, MatchResult};
ghost use Rattle.std.specs.Io.KnownBytes.{Appends};
ghost use Rattle.std.specs.NonZero.{non_zero_u32_get};
ghost use Rattle.files_core.specs.Ended.{WritesText};
ghost use Rattle.files_core.specs.Texts.{appended_line};
ghost use Rattle.load_core.specs.Appending.{fault_told};

use book_core::GrowFault;
use files_core::{Appended, Ended, FileFault, Stopped};
use pen_core::PenFault;
use std::io;
use std::io::Write;
use std::num::NonZeroU32;
use text_core::{write_line, write_numbered};
use vault_core::VaultFault;

/// No growth, in a file of so many records.
pub(crate) fn none_appended(size: u64) -> Appended
    ensures { result ≡ record { growths = 0; lines = 0; size = size } }
{
    Appended {
        growths: 0,
        lines: 0,
        size,
    }
}

/// Growths more, each of a whole block of lines, and so many records then.
pub(crate) fn more_appended(
    appended: Appended,
    growths: u64,
    block: NonZeroU32,
    size: u64,
) -> Appended
    ensures size { result.size ≡ size }
    ensures growths { result.growths ≡ min (2 ^ 64 - 1) (appended.growths + growths) }
    ensures lines { result.lines ≡ min (2 ^ 64 - 1) (appended.lines + growths * non_zero_u32_get block) }
{
    let lines = growths.saturating_mul(block.get() as u64);
    Appended {
        growths: appended.growths.saturating_add(growths),
        lines: appended.lines.saturating_add(lines),
        size,
    }
}

/// What is told of a fault of the pen behind growths that are told: where the vector has no room for the next growth, its
/// grower stops at the line behind theirs.
pub(crate) fn fault_behind(appended: &Appended, fault: PenFault) -> FileFault
    ensures { result ≡ fault_told appended.now fault }
{
    match fault {
        PenFault::OutOfRange => FileFault::Grower(Stopped {
            grower: 0,
            line: appended.lines.saturating_add(1),
            fault: GrowFault::TooLong,
            size: appended.size,
        }),
        fault => FileFault::Vault(VaultFault::Pen(fault)),
    }
}

fn write_appended<W: Write>(writer: &mut W, appended: Appended) -> io::Result<()>
    ensures { OnOk result (Appends (W.contents writer.old) (W.contents writer.new) (appended_line appended.growths appended.size)) }
{
    write_numbered(writer, b"appended ", appended.growths)?;
    write_numbered(writer, b" growths, size ", appended.size)?;
    write_line(b"", writer)
}

/// Writes what was appended, where all of it was.
pub(crate) fn tell_appended<W: Write>(
    writer: &mut W,
    appended: Appended,
    done: Result<(), FileFault>,
) -> Ended
    ensures ends { MatchResult done (λ _. (result ≡ Ended.Done) ⊎ (result ≡ Ended.OutputFailed)) (λ fault. result ≡ Ended.Refused fault) }
    ensures writes { WritesText (W.contents writer.old) (W.contents writer.new) (appended_line appended.growths appended.size) result }
{
    match done {
        Ok(()) => Ended::told(write_appended(writer, appended)),
        Err(fault) => Ended::Refused(fault),
    }
}
