//! `list`: the records of positions.

ghost use Rattle.std.specs.Prelude.{◌≡◌, OnOk, take, drop};
ghost use Rattle.std.specs.Io.KnownBytes.{Appends};
ghost use Rattle.disk_core.specs.Calls.{bytes_of};
ghost use Rattle.segment_core.specs.Written.{joined};
ghost use Rattle.text_core.specs.Text.{record_lines};
ghost use Rattle.files_core.specs.Ended.{WritesAnswer};
ghost use Rattle.files_core.specs.Listing.{IsWindowListed, in_window};
ghost use Rattle.files_core.specs.Opened.{CommandOnlyReads};
ghost use Rattle.files_core.specs.Writable.{ReadsAny};

use crate::asked::Window;
use crate::ended::Ended;
use crate::fault::FileFault;
use crate::progress::Progress;
use crate::window_records::{PART_LEN, read_window_records};
use crate::writable::OpensToWrite;
use disk_core::Disk;
use std::alloc::Global;
use std::io;
use std::io::Write;
use text_core::{TextRecord, write_records};
use vault_core::{Vault, VaultPieces};

/// How many records are written before progress is told.
const CHUNK_LEN: usize = 65_536;

/// What is left of a piece behind so many records, and so many of it at most.
fn part<R>(piece: &[R], skip: u64, left: u64) -> &[R]
    ensures { result.now ≡ take left (drop skip piece.now) }
{
    let from = skip.min(piece.len() as u64) as usize;
    let rest = &piece[from..];
    let count = left.min(rest.len() as u64) as usize;
    &rest[..count]
}

/// Writes the records of a window of the pieces, one a line.
fn write_window<R: TextRecord, W: Write, P: Progress>(
    pieces: VaultPieces<'_, R>,
    window: &Window,
    of: u64,
    progress: &P,
    writer: &mut W,
) -> io::Result<()>
    ensures { OnOk result (Appends (W.contents writer.old) (W.contents writer.new) (record_lines R.spelling.text_of (in_window window.now (joined pieces.entry)))) }
{
    let mut pieces = pieces;
    let mut skip = window.from;
    let mut left = window.count;
    let mut done: u64 = 0;
    while let Some(piece) = pieces.next() {
        let records = part(piece, skip, left);
        write_chunks(records, done, of, progress, writer)?;
        skip = skip.saturating_sub(piece.len() as u64);
        left = left.saturating_sub(records.len() as u64);
        done = done.saturating_add(records.len() as u64);
    }
    Ok(())
}

/// Writes records behind so many others, one a line, and tells progress.
fn write_chunks<R: TextRecord, W: Write, P: Progress>(
    records: &[R],
    before: u64,
    of: u64,
    progress: &P,
    writer: &mut W,
) -> io::Result<()>
    ensures { OnOk result (Appends (W.contents writer.old) (W.contents writer.new) (record_lines R.spelling.text_of records.now)) }
{
    let mut done = before;
    let mut rest = records;
    while !rest.is_empty() {
        let (chunk, behind) = rest.split_at(CHUNK_LEN.min(rest.len()));
        write_records(chunk, writer)?;
        done = done.saturating_add(chunk.len() as u64);
        progress.at(done, of);
        rest = behind;
    }
    Ok(())
}

/// `list`, where the file is read as a whole.
fn list_whole<R: TextRecord, D: Disk, W: Write, P: Progress>(
    alloc: Global,
    disk: D,
    window: &Window,
    progress: &P,
    writer: &mut W,
) -> (D, Ended)
    ensures reads { CommandOnlyReads R.form D.keeps D.states D.faults disk result.0 result.1 }
    ensures writes { WritesAnswer (W.contents writer.old) (W.contents writer.new) (IsWindowListed R.form R.spelling.text_of window.now (D.keeps result.0) (bytes_of (D.states disk))) result.1 }
{
    let vault = match Vault::<R, D>::open(alloc, disk) {
        Ok(vault) => vault,
        Err((disk, fault)) => return (disk, Ended::Refused(FileFault::Open(fault))),
    };
    let of = vault.len().saturating_sub(window.from).min(window.count);
    let written = write_window(vault.pieces(), window, of, progress, writer);
    (vault.into_disk(), Ended::told(written))
}

/// `list`, where no records but those of the window are read.
fn list_part<R: TextRecord, D: Disk, W: Write, P: Progress>(
    alloc: Global,
    disk: D,
    window: &Window,
    progress: &P,
    writer: &mut W,
) -> (D, Ended)
    requires { ReadsAny R.form }
    ensures reads { CommandOnlyReads R.form D.keeps D.states D.faults disk result.0 result.1 }
    ensures writes { WritesAnswer (W.contents writer.old) (W.contents writer.new) (IsWindowListed R.form R.spelling.text_of window.now (D.keeps result.0) (bytes_of (D.states disk))) result.1 }
{
    let mut disk = disk;
    let records = match read_window_records::<R, D>(alloc, &mut disk, window) {
        Ok(records) => records,
        Err(fault) => return (disk, Ended::Refused(FileFault::Open(fault))),
    };
    let written = write_chunks(&records, 0, records.len() as u64, progress, writer);
    (disk, Ended::told(written))
}

/// Whether the window begins behind the first record, or is short. Else it may be the whole of a vector, and a file of short
/// growths is read faster as a whole than record by record.
fn is_part(window: &Window) -> bool {
    0 < window.from || window.count <= PART_LEN
}

/// Writes the records at the positions of the window, one a line. Positions past the end have none. Where any bytes are a
/// record, only the frames are read for a part of the vector, and its records. Refused: `Open`.
pub fn list<R: TextRecord + OpensToWrite, D: Disk, W: Write, P: Progress>(
    alloc: Global,
    disk: D,
    window: &Window,
    progress: &P,
    writer: &mut W,
) -> (D, Ended)
    ensures reads { CommandOnlyReads R.form D.keeps D.states D.faults disk result.0 result.1 }
    ensures writes { WritesAnswer (W.contents writer.old) (W.contents writer.new) (IsWindowListed R.form R.spelling.text_of window.now (D.keeps result.0) (bytes_of (D.states disk))) result.1 }
{
    if R::READS_ANY && is_part(window) {
        list_part::<R, D, W, P>(alloc, disk, window, progress, writer)
    } else {
        list_whole::<R, D, W, P>(alloc, disk, window, progress, writer)
    }
}
