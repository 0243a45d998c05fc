//! `append`: growths of an input of any length, committed as they are read.

ghost use Rattle.std.specs.Prelude.{◌≡◌, ◌+◌, ◌-◌, ◌^◌, ◌<◌, min, ℕ, List, [], Option, length, IfOk, IfErr, IfSome, IfNone, MatchOption, MatchResult};
ghost use Rattle.std.specs.List.{AllByRecursion};
ghost use Rattle.std.specs.Io.KnownBytes.{prepend_known};
ghost use Rattle.std.specs.NonZero.{non_zero_u32_get};
ghost use Rattle.pen_core.specs.PenOf.{PenOf};
ghost use Rattle.load_core.specs.Groups.{IsPenOver, IsReadyPen};
ghost use Rattle.load_core.specs.Appending.{HasAppendedAll, HasAppendedSoFar, IsAppendEnd, IsAppendFault, IsLineBehind, IsRestTold};
ghost use Rattle.lines_core.specs.Batches.{IsBatch};
ghost use Rattle.files_core.specs.Ended.{EndsAs, WritesText};
ghost use Rattle.lines_core.specs.InputBlocks.{AreFirstBlocks};
ghost use Rattle.files_core.specs.Opened.{IsNotOpened};
ghost use Rattle.files_core.specs.Texts.{appended_line};

use crate::appended::{fault_behind, more_appended, none_appended, tell_appended};
use crate::groups::settle_row;
use disk_core::Disk;
use files_core::{Appended, Ended, FileFault, OpensToWrite, Progress, open_to_write};
use lines_core::{Excerpt, LineBatch, Rest, behind, read_batch};
use pen_core::{OpenFault, Pen};
use std::alloc::Global;
use std::io::{Read, Write};
use std::num::NonZeroU32;
use text_core::{Refusal, TextRecord};

/// Opens the file on a disk, so that growths may be committed behind its list, which isn't kept.
fn open_pen<R: OpensToWrite, D: Disk>(alloc: Global, disk: D) -> Result<Pen<D>, (D, OpenFault)>
    ensures ready { IfOk result (IsReadyPen R.form.width) }
    ensures over { IfOk result (λ pen. D.keeps pen.disk → IsPenOver R.form D.states disk pen [] []) }
    ensures refused { IfErr result (λ r. IsNotOpened R.form D.keeps D.states D.faults disk r.0 r.1) }
    ensures model { MatchResult result (λ pen. D.keeps pen.disk → D.keeps disk) (λ r. D.keeps r.0 → D.keeps disk) }
{
    let pen = open_to_write::<R, D>(alloc, disk)?;
    Ok(pen)
}

/// How it is over behind a batch that was committed, with so many lines behind others, unless more is to be read.
fn go_on(
    rest: Rest,
    before: u64,
    lines: u64,
    appended: &mut Appended,
) -> Option<Result<(), FileFault>>
    ensures { IsRestTold rest (min (2 ^ 64 - 1) (before + lines)) appended.old appended.new result }
{
    match rest {
        Rest::More => None,
        Rest::Nothing => {
            // The last block may have fewer lines.
            appended.lines = before.saturating_add(lines);
            Some(Ok(()))
        }
        Rest::Refused(refusal) => Some(Err(FileFault::Input(behind(before, refusal)))),
        Rest::Unread(refusal) => Some(Err(FileFault::Input(refusal))),
    }
}

/// Appends a batch behind what is told, and tells it. Answers how it is over, unless more is to be read.
fn append_batch<R: TextRecord, D: Disk, P: Progress>(
    pen: &mut Pen<D>,
    batch: LineBatch<R>,
    block: NonZeroU32,
    progress: &P,
    appended: &mut Appended,
) -> Option<Result<(), FileFault>>
    requires ready { IsReadyPen R.form.width pen.old }
    requires each { AllByRecursion (λ growth. 0 < length growth) batch.growths.0 }
    ensures ready { IfNone result (IsReadyPen R.form.width pen.new) }
    ensures appended { (start : PenOf D) → (input coming left : Option (List ℕ)) → IsBatch R.spelling (non_zero_u32_get block) coming left batch.growths.0 batch.lines batch.rest
        → HasAppendedSoFar R.form D.keeps D.states (AreFirstBlocks R.spelling (non_zero_u32_get block) input coming) (non_zero_u32_get block) start pen.old appended.old
        → MatchOption result
        (HasAppendedSoFar R.form D.keeps D.states (AreFirstBlocks R.spelling (non_zero_u32_get block) input left) (non_zero_u32_get block) start pen.new appended.new)
        (λ done. (disk : D) → (D.keeps start.disk → IsPenOver R.form D.states disk start [] [])
        → IsAppendEnd R.form D.keeps D.states D.faults R.spelling (non_zero_u32_get block) input disk pen.new.disk appended.new done) }
    ensures model { D.keeps pen.new.disk → D.keeps pen.old.disk }
{
    let LineBatch {
        growths,
        lines,
        rest,
        shown: _,
    } = batch;
    let (settled, done) = settle_row::<R, D>(pen, &growths);
    // Whatever a crash leaves now opens to what is settled, or to that and what was begun.
    let _disk = pen.disk();
    let before = appended.lines;
    *appended = more_appended(*appended, settled as u64, block, pen.len());
    match done {
        Ok(()) => {
            let over = go_on(rest, before, lines, appended);
            progress.appended(*appended);
            over
        }
        Err(fault) => Some(Err(fault_behind(appended, fault))),
    }
}

/// Appends the growths of the lines of an input of any length, some blocks of lines after the other. The buffer holds what was
/// read and isn't in a growth yet. Of a line that is no growth line an excerpt is left.
fn append_all<R: TextRecord, D: Disk, I: Read, P: Progress>(
    alloc: Global,
    pen: &mut Pen<D>,
    reader: &mut I,
    buffer: &mut Vec<u8>,
    block: NonZeroU32,
    progress: &P,
    shown: &mut Option<Excerpt>,
) -> (Appended, Result<(), FileFault>)
    requires { IsReadyPen R.form.width pen.old }
    ensures ends { (disk : D) → (D.keeps pen.old.disk → IsPenOver R.form D.states disk pen.old [] [])
        → IsAppendEnd R.form D.keeps D.states D.faults R.spelling (non_zero_u32_get block) (prepend_known buffer.old.items (I.remaining reader.old)) disk pen.new.disk result.0 result.1 }
    ensures model { D.keeps pen.new.disk → D.keeps pen.old.disk }
    ensures shown { IfSome shown.new (IsLineBehind R.spelling (non_zero_u32_get block) (prepend_known buffer.old.items (I.remaining reader.old))) }
{
    let mut told = none_appended(pen.len());
    for _ in 0..u64::MAX {
        let batch = read_batch::<R, I>(alloc, reader, buffer, block);
        *shown = batch.shown;
        if let Some(done) = append_batch::<R, D, P>(pen, batch, block, progress, &mut told) {
            return (told, done);
        }
    }
    *shown = None;
    let _disk = pen.disk();
    (told, Err(FileFault::Input(Refusal::InputTooLong)))
}

/// Appends the records of an input of any length: those of so many lines, a block, are one growth, and those of the lines
/// behind the last whole block are one more. It reads some blocks, makes their growths durable, and goes on; a growth is
/// there whole or not at all. So `Appended` tells what stands, also where a later line is refused: the blocks before that
/// line's stand, and the call may be made again with the lines behind them. Progress is told of growths that stand. Writes
/// `appended G growths, size S` at the end. It starts no thread, and keeps no record of the file in memory.
///
/// Refused: `Open`; then, at the lines that it has come to, `Input` (`Line` with the line's number in the whole input;
/// `TooLargeAtLine` with that of the first line of a block whose growth is past the longest payload; and, behind the whole
/// blocks that were read, `Input`, where a read failed, `Memory`, and `InputTooLong` for a block of more than `INPUT_LIMIT`
/// bytes); `Grower` with `TooLong`, where the next growth would bring the vector past 2^32 records; and `Vault` with a fault of
/// the pen: `FileFull`, `Memory`, and `Disk` for the call that failed, behind which some growths more may stand. The line of
/// `Grower` is the first behind those that are told. Of a line that is no growth line an excerpt is left.
pub fn append<R: TextRecord + OpensToWrite, D: Disk, I: Read, W: Write, P: Progress>(
    alloc: Global,
    disk: D,
    reader: &mut I,
    block: NonZeroU32,
    progress: &P,
    shown: &mut Option<Excerpt>,
    writer: &mut W,
) -> (D, Appended, Ended)
    ensures stands { EndsAs
        (HasAppendedAll R.form D.keeps D.states R.spelling (non_zero_u32_get block) (I.remaining reader.old) disk result.0 result.1)
        (IsAppendFault R.form D.keeps D.states D.faults R.spelling (non_zero_u32_get block) (I.remaining reader.old) disk result.0 result.1)
        result.2 }
    ensures model { D.keeps result.0 → D.keeps disk }
    ensures writes { WritesText (W.contents writer.old) (W.contents writer.new) (appended_line result.1.growths result.1.size) result.2 }
    ensures shown { IfSome shown.new (IsLineBehind R.spelling (non_zero_u32_get block) (I.remaining reader.old)) }
{
    *shown = None;
    let mut pen = match open_pen::<R, D>(alloc, disk) {
        Ok(pen) => pen,
        Err((disk, fault)) => {
            let ended = Ended::Refused(FileFault::Open(fault));
            return (disk, none_appended(0), ended);
        }
    };
    let mut buffer = Vec::new(alloc);
    let (appended, done) = append_all::<R, D, I, P>(
        alloc,
        &mut pen,
        reader,
        &mut buffer,
        block,
        progress,
        shown,
    );
    let ended = tell_appended(writer, appended, done);
    (pen.into_disk(), appended, ended)
}
