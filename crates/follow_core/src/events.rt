//! Events, by which another process keeps a copy of a vector, step by step.

ghost use Rattle.std.specs.Prelude.{◌≡◌, ◌≤◌, ℕ, List, OnOk, IfErr, MatchResult};
ghost use Rattle.std.specs.Io.KnownBytes.{Appends};
ghost use Rattle.segment_core.specs.declared.format.Shape.{Shape};
ghost use Rattle.segment_core.specs.Frame.{Frame};
ghost use Rattle.text_core.specs.Text.{ended_line};
ghost use Rattle.beside_core.specs.PensFile.{IsPensFile};
ghost use Rattle.beside_core.specs.Bookmark.{LiesBehind};
ghost use Rattle.beside_core.specs.Fault.{IsNoDamage};
ghost use Rattle.follow_core.specs.Event.{event_of, event_text, edit_lines, put_lines};
ghost use Rattle.follow_core.specs.Followed.{IsEndOfLook, MayEndBy};
ghost use Rattle.follow_core.specs.Stepped.{step_end, WritesStep, IsStepped, BeginsBehind, IsFollowedByEvents, IsSteppedWhole};

use crate::ended::FollowEnd;
use crate::pause::{Pause, Rest};
use crate::place::{Place, write_place};
use beside_core::{Bookmark, Edit, LookFault, News};
use disk_core::Shared;
use std::alloc::Global;
use std::io;
use std::io::Write;
use text_core::{TextRecord, write_number};

/// Writes an edit as an event of a line.
fn write_edit<R: TextRecord, W: Write>(edit: &Edit<R>, writer: &mut W) -> io::Result<()>
    ensures { OnOk result (Appends (W.contents writer.old) (W.contents writer.new) (ended_line (event_text R.spelling.text_of (event_of edit.now)))) }
{
    match edit {
        Edit::Set { position, record } => {
            writer.write_all(b"= ")?;
            write_number(writer, *position)?;
            writer.write_all(b" ")?;
            record.write_text(writer)?;
        }
        Edit::Cut(size) => {
            writer.write_all(b"< ")?;
            write_number(writer, *size)?;
        }
    }
    writer.write_all(b"\n")
}

/// Writes edits, one event a line.
fn write_edits<R: TextRecord, W: Write>(edits: &[Edit<R>], writer: &mut W) -> io::Result<()>
    ensures { OnOk result (Appends (W.contents writer.old) (W.contents writer.new) (edit_lines R.spelling.text_of edits.now)) }
{
    for edit in edits {
        write_edit(edit, writer)?;
    }
    Ok(())
}

/// Writes records that are put behind the last one, one event a line.
fn write_puts<R: TextRecord, W: Write>(records: &[R], writer: &mut W) -> io::Result<()>
    ensures { OnOk result (Appends (W.contents writer.old) (W.contents writer.new) (put_lines R.spelling.text_of records.now)) }
{
    for record in records {
        writer.write_all(b"+ ")?;
        record.write_text(writer)?;
        writer.write_all(b"\n")?;
    }
    Ok(())
}

/// Writes the line that ends a step.
fn write_step_end<W: Write>(place: Place, writer: &mut W) -> io::Result<()>
    ensures { OnOk result (Appends (W.contents writer.old) (W.contents writer.new) (step_end place)) }
{
    writer.write_all(b". ")?;
    write_place(place, writer)?;
    writer.write_all(b"\n")
}

/// Writes the events that a look answers and the place behind them, and flushes; of none it writes nothing.
fn write_step<R: TextRecord, W: Write>(news: &News<R>, writer: &mut W) -> io::Result<()>
    ensures { OnOk result (WritesStep R.spelling.text_of news.now (W.contents writer.old) (W.contents writer.new)) }
{
    if news.edits.is_empty() && news.records.is_empty() {
        return Ok(());
    }
    write_edits(&news.edits, writer)?;
    write_puts(&news.records, writer)?;
    write_step_end(Place::of(&news.next), writer)?;
    writer.flush()
}

/// Writes the events that came since behind a bookmark and the place behind them, and answers the bookmark there. Where
/// nothing came, it writes nothing.
pub fn follow_step<R: TextRecord, S: Shared, W: Write>(
    alloc: Global,
    file: &mut S,
    mark: Bookmark,
    writer: &mut W,
) -> Result<Bookmark, FollowEnd>
    ensures stepped { S.keeps file.new → IsStepped R.form R.spelling.text_of mark (S.held file.old) (S.now file.old) (S.now file.new) (S.synced file.new)
        (W.contents writer.old) (W.contents writer.new) result }
    ensures by_look { IfErr result IsEndOfLook }
    ensures same { S.held file.new ≡ S.held file.old }
    ensures time { S.now file.old ≤ S.now file.new }
    ensures keeps_settled { S.synced file.old ≤ S.synced file.new }
    ensures model { S.keeps file.new → S.keeps file.old }
{
    match mark.news::<R, S>(alloc, file) {
        Ok(news) => match write_step(&news, writer) {
            Ok(()) => Ok(news.next),
            Err(_) => Err(FollowEnd::OutputFailed),
        },
        Err(fault) => Err(FollowEnd::Refused(fault)),
    }
}

/// The bookmark at a place of a file, or behind its header.
fn first_mark<S: Shared>(
    alloc: Global,
    file: &mut S,
    after: Option<Place>,
) -> Result<Bookmark, LookFault>
    ensures begins { S.keeps file.new → (shape : Shape) (frames : ℕ → List Frame) (known : List Frame) → IsPensFile shape (S.held file.old) frames → BeginsBehind shape after known
        → MatchResult result (LiesBehind shape known) IsNoDamage }
    ensures same { S.held file.new ≡ S.held file.old }
    ensures time { S.now file.old ≤ S.now file.new }
    ensures keeps_settled { S.synced file.old ≤ S.synced file.new }
    ensures model { S.keeps file.new → S.keeps file.old }
{
    let first = Bookmark::first(alloc, file)?;
    match after {
        None => Ok(first),
        Some(place) => match first.at(place.gate, place.tally()) {
            Some(mark) => Ok(mark),
            None => Err(LookFault::TooFar),
        },
    }
}

/// Writes the events that make of the vector at a place of a file, or of an empty one, that of each step, step by step,
/// until the pause ends it, or a look or a write is refused. It rests between two looks. A place that no file has is
/// refused as `TooFar`.
pub fn follow_events<R: TextRecord, S: Shared, W: Write, P: Pause>(
    alloc: Global,
    file: &mut S,
    after: Option<Place>,
    pause: &mut P,
    writer: &mut W,
) -> FollowEnd
    ensures followed { S.keeps file.new → IsFollowedByEvents R.form R.spelling.text_of after (S.held file.old) (S.now file.old) (S.now file.new) (S.synced file.new)
        (W.contents writer.old) (W.contents writer.new) result }
    ensures whole { S.keeps file.new → IsSteppedWhole R.form R.spelling.text_of after (S.held file.old) (S.now file.old) (S.now file.new) (S.synced file.new)
        (W.contents writer.old) (W.contents writer.new) result }
    ensures paused { MayEndBy (P.may_answer pause.old) result }
    ensures same { S.held file.new ≡ S.held file.old }
    ensures time { S.now file.old ≤ S.now file.new }
    ensures model { S.keeps file.new → S.keeps file.old }
{
    let mut mark = match first_mark(alloc, file, after) {
        Ok(mark) => mark,
        Err(fault) => return FollowEnd::Refused(fault),
    };
    'looks: for _look in 0..u64::MAX {
        match follow_step::<R, S, W>(alloc, file, mark, writer) {
            Ok(next) => mark = next,
            Err(end) => return end,
        }
        match pause.rest() {
            Rest::GoOn => {}
            Rest::End => return FollowEnd::Ended,
            Rest::Replaced => return FollowEnd::Replaced,
        }
    }
    FollowEnd::Refused(LookFault::TooFar)
}
