//! `check`: whether a file is sound, and what it has.

ghost use Rattle.std.specs.Prelude.{◌≡◌, ◌-◌, OnOk, IfOk, IfErr};
ghost use Rattle.std.specs.Io.KnownBytes.{Appends};
ghost use Rattle.disk_core.specs.Calls.{bytes_of};
ghost use Rattle.disk_core.specs.Fault.{CountsFailures};
ghost use Rattle.pen_core.specs.Opening.{IsOpenRefusal, OnlySyncs, failed_openings};
ghost use Rattle.files_core.specs.Checking.{IsChecked, IsMeasured, measures_of, measures_front, measures_line};
ghost use Rattle.files_core.specs.Ended.{WritesAnswer};
ghost use Rattle.files_core.specs.Opened.{CommandOnlyReads};
ghost use Rattle.files_core.specs.Writable.{ReadsAny};

use crate::ended::Ended;
use crate::fault::FileFault;
use crate::writable::OpensToWrite;
use disk_core::Disk;
use pen_core::{OpenFault, scan_disk, walk_disk};
use record_core::{Record, width_of};
use segment_core::Scanned;
use std::alloc::Global;
use std::io;
use std::io::Write;
use text_core::{write_line, write_numbered};

/// The bytes of a read at most.
pub(crate) const PIECE_LEN: usize = 65_536;

/// What `check` tells of a file.
#[derive(Clone, Copy)]
struct Measures {
    version: u8,
    /// The bytes of one record.
    width: u16,
    /// How many records its vector has.
    size: u64,
    frames: u64,
    /// How many changes are live.
    live: u64,
}

/// How many changes are live.
pub(crate) fn live_changes<R>(scanned: &Scanned<R>) -> u64
    ensures { result ≡ scanned.now.changes - scanned.now.folded }
{
    scanned.changes.saturating_sub(scanned.folded)
}

/// What is told of a file whose records are all read.
fn measure_records<R: Record, D: Disk>(alloc: Global, disk: &mut D) -> Result<Measures, OpenFault>
    ensures measured { IfOk result (IsMeasured R.form (D.keeps disk.new) (bytes_of (D.states disk.old))) }
    ensures refused { D.keeps disk.new → IfErr result (IsOpenRefusal R.form (bytes_of (D.states disk.old))) }
    ensures only_syncs { D.keeps disk.new → OnlySyncs (D.states disk.old) (D.states disk.new) }
    ensures faults { CountsFailures failed_openings (D.faults disk.old) (D.faults disk.new) result }
    ensures model { D.keeps disk.new → D.keeps disk.old }
{
    match scan_disk::<D, R>(alloc, disk, &mut [0; PIECE_LEN]) {
        Ok((scanned, _homes)) => Ok(Measures {
            version: scanned.version,
            width: scanned.width,
            size: scanned.records.as_slice().len() as u64,
            frames: scanned.frames,
            live: live_changes(&scanned),
        }),
        Err(fault) => Err(fault),
    }
}

/// What is told of a file whose records any bytes are: by its frames alone.
fn measure_frames<R: Record, D: Disk>(alloc: Global, disk: &mut D) -> Result<Measures, OpenFault>
    requires { ReadsAny R.form }
    ensures measured { IfOk result (IsMeasured R.form (D.keeps disk.new) (bytes_of (D.states disk.old))) }
    ensures refused { D.keeps disk.new → IfErr result (IsOpenRefusal R.form (bytes_of (D.states disk.old))) }
    ensures only_syncs { D.keeps disk.new → OnlySyncs (D.states disk.old) (D.states disk.new) }
    ensures faults { CountsFailures failed_openings (D.faults disk.old) (D.faults disk.new) result }
    ensures model { D.keeps disk.new → D.keeps disk.old }
{
    let width = width_of::<R>() as u16;
    let framed = match walk_disk(alloc, disk, width) {
        Ok(framed) => framed,
        Err(fault) => return Err(fault),
    };
    Ok(Measures {
        version: framed.shape.format.version(),
        width,
        size: framed.tally.size,
        frames: framed.frames,
        live: framed.tally.changes.saturating_sub(framed.tally.folded),
    })
}

fn measure<R: OpensToWrite, D: Disk>(alloc: Global, disk: &mut D) -> Result<Measures, OpenFault>
    ensures measured { IfOk result (IsMeasured R.form (D.keeps disk.new) (bytes_of (D.states disk.old))) }
    ensures refused { D.keeps disk.new → IfErr result (IsOpenRefusal R.form (bytes_of (D.states disk.old))) }
    ensures only_syncs { D.keeps disk.new → OnlySyncs (D.states disk.old) (D.states disk.new) }
    ensures faults { CountsFailures failed_openings (D.faults disk.old) (D.faults disk.new) result }
    ensures model { D.keeps disk.new → D.keeps disk.old }
{
    if R::READS_ANY {
        measure_frames::<R, D>(alloc, disk)
    } else {
        measure_records::<R, D>(alloc, disk)
    }
}

/// Writes the front of the line: the version, the width and the size.
fn write_measures_front<W: Write>(writer: &mut W, measures: &Measures) -> io::Result<()>
    ensures { OnOk result (Appends (W.contents writer.old) (W.contents writer.new) (measures_front measures.now)) }
{
    write_numbered(writer, b"ok version ", measures.version as u64)?;
    write_numbered(writer, b" width ", measures.width as u64)?;
    write_numbered(writer, b" size ", measures.size)
}

fn write_measures<W: Write>(writer: &mut W, measures: &Measures) -> io::Result<()>
    ensures { OnOk result (Appends (W.contents writer.old) (W.contents writer.new) (measures_line measures.now)) }
{
    write_measures_front(writer, measures)?;
    write_numbered(writer, b" frames ", measures.frames)?;
    write_numbered(writer, b" live ", measures.live)?;
    write_line(b"", writer)
}

/// Reads the file, and writes `ok`, its version, its width, how many records its vector has, how many frames it has, and
/// how many changes are live. Where any bytes are a record only the frames are read, and memory is taken for one frame, for the
/// live changes, and 24 bytes for each group; else all is read, and the vector takes memory too. Nothing is written to the
/// file. Refused: `Open`, with the file's first fault.
pub fn check<R: OpensToWrite, D: Disk, W: Write>(
    alloc: Global,
    disk: D,
    writer: &mut W,
) -> (D, Ended)
    ensures reads { CommandOnlyReads R.form D.keeps D.states D.faults disk result.0 result.1 }
    ensures writes { WritesAnswer (W.contents writer.old) (W.contents writer.new) (IsChecked R.form (D.keeps result.0) (bytes_of (D.states disk))) result.1 }
{
    let mut disk = disk;
    match measure::<R, D>(alloc, &mut disk) {
        Ok(measures) => {
            let written = write_measures(writer, &measures);
            (disk, Ended::told(written))
        }
        Err(fault) => (disk, Ended::Refused(FileFault::Open(fault))),
    }
}
