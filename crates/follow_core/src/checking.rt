//! `check` beside a writer.

ghost use Rattle.std.specs.Prelude.{◌≡◌, ◌≤◌, ◌-◌, OnOk};
ghost use Rattle.std.specs.Io.KnownBytes.{Appends};
ghost use Rattle.follow_core.specs.Answers.{measures_front, measures_line, AreMeasuresTold};
ghost use Rattle.follow_core.specs.Beside.{IsReadBeside};

use crate::ended::LookEnd;
use crate::reading::read_vector;
use beside_core::Bookmark;
use disk_core::Shared;
use segment_core::Shape;
use std::alloc::Global;
use std::io;
use std::io::Write;
use text_core::{TextRecord, write_line, write_numbered};

/// Writes the front of the line: the version, the width and the size.
fn write_measures_front<W: Write>(writer: &mut W, shape: Shape, size: u64) -> io::Result<()>
    ensures { OnOk result (Appends (W.contents writer.old) (W.contents writer.new) (measures_front shape size)) }
{
    write_numbered(writer, b"ok version ", shape.format.version() as u64)?;
    write_numbered(writer, b" width ", shape.width as u64)?;
    write_numbered(writer, b" size ", size)
}

fn write_measures<W: Write>(
    writer: &mut W,
    mark: &Bookmark,
    size: u64,
    frames: u64,
) -> io::Result<()>
    ensures { OnOk result (Appends (W.contents writer.old) (W.contents writer.new) (measures_line mark.now.shape size frames (mark.now.tally.changes - mark.now.tally.folded))) }
{
    write_measures_front(writer, mark.shape(), size)?;
    write_numbered(writer, b" frames ", frames)?;
    write_numbered(writer, b" live ", mark.live_changes())?;
    write_line(b"", writer)
}

/// Writes `ok`, the file's version, its width, how many records its vector has, how many frames it has, and how many
/// changes are live, as they are at one moment of the call.
pub fn check_beside<R: TextRecord, S: Shared, W: Write>(
    alloc: Global,
    file: &mut S,
    writer: &mut W,
) -> LookEnd
    ensures read { IsReadBeside R.form (AreMeasuresTold R.form) (S.keeps file.new) (S.held file.old) (S.now file.old) (S.now file.new) (S.synced file.new)
        (W.contents writer.old) (W.contents writer.new) result }
    ensures same { S.held file.new ≡ S.held file.old }
    ensures time { S.now file.old ≤ S.now file.new }
    ensures model { S.keeps file.new → S.keeps file.old }
{
    let (records, mark) = match read_vector::<R, S>(alloc, file) {
        Ok(found) => found,
        Err(fault) => return LookEnd::Refused(fault),
    };
    let frames = match mark.count_frames(file) {
        Ok(frames) => frames,
        Err(fault) => return LookEnd::Refused(fault),
    };
    LookEnd::told(write_measures(writer, &mark, records.len() as u64, frames))
}
