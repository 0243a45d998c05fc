//! The text of answers to steps.

ghost use Rattle.std.specs.Prelude.{◌++◌, codes, map, OnOk};
ghost use Rattle.std.specs.List.{flat_map};
ghost use Rattle.std.specs.Io.KnownBytes.{Appends};
ghost use Rattle.drive_core.specs.Asked.{answer_of};
ghost use Rattle.drive_core.specs.Names.{fault_name};
ghost use Rattle.play_core.specs.Answers.{growth_answer, mark_text, settled_answer, tick_word, listed_text, answer_text, answer_lines, crashed_line};

use book_core::{MarkState, Receipt};
use drive_core::{Answer, StepFault};
use flush_core::Tick;
use std::io;
use std::io::Write;
use text_core::{TextRecord, write_numbered};

fn write_growth<W: Write>(writer: &mut W, receipt: &Receipt) -> io::Result<()>
    ensures { OnOk result (Appends (W.contents writer.old) (W.contents writer.new) (growth_answer receipt.now)) }
{
    write_numbered(writer, b"growth ", receipt.number)?;
    write_numbered(writer, b" start ", receipt.start)?;
    write_numbered(writer, b" len ", receipt.len)
}

fn write_mark<W: Write>(writer: &mut W, state: MarkState) -> io::Result<()>
    ensures { OnOk result (Appends (W.contents writer.old) (W.contents writer.new) (mark_text state)) }
{
    match state {
        MarkState::Running => writer.write_all(b" running"),
        MarkState::Ended => writer.write_all(b" ended"),
        MarkState::Broken => writer.write_all(b" broken"),
    }
}

fn write_settled<W: Write>(writer: &mut W, count: u64, state: MarkState) -> io::Result<()>
    ensures { OnOk result (Appends (W.contents writer.old) (W.contents writer.new) (settled_answer count state)) }
{
    write_numbered(writer, b"settled ", count)?;
    write_mark(writer, state)
}

fn write_tick<W: Write>(writer: &mut W, tick: Tick) -> io::Result<()>
    ensures { OnOk result (Appends (W.contents writer.old) (W.contents writer.new) (tick_word tick)) }
{
    match tick {
        Tick::Idle => writer.write_all(b"idle"),
        Tick::Step => writer.write_all(b"step"),
        Tick::Done => writer.write_all(b"done"),
        Tick::Filed => writer.write_all(b"filed"),
        Tick::Waiting => writer.write_all(b"waiting"),
    }
}

/// Writes the records with a space before each.
fn write_spaced<R: TextRecord, W: Write>(writer: &mut W, records: &[R]) -> io::Result<()>
    ensures { OnOk result (Appends (W.contents writer.old) (W.contents writer.new) (flat_map (λ r. codes " " ++ R.spelling.text_of r) records.now)) }
{
    for record in records {
        writer.write_all(b" ")?;
        record.write_text(writer)?;
    }
    Ok(())
}

/// Writes the records with a space between each two, or that there is none.
fn write_list<R: TextRecord, W: Write>(writer: &mut W, records: &[R]) -> io::Result<()>
    ensures { OnOk result (Appends (W.contents writer.old) (W.contents writer.new) (listed_text R.spelling.text_of records.now)) }
{
    let Some((first, others)) = records.split_first() else {
        return writer.write_all(b"empty");
    };
    first.write_text(writer)?;
    write_spaced(writer, others)
}

fn write_refused<W: Write>(writer: &mut W, fault: StepFault) -> io::Result<()>
    ensures { OnOk result (Appends (W.contents writer.old) (W.contents writer.new) (codes "refused " ++ fault_name fault)) }
{
    write!(writer, "refused {fault}")
}

/// Writes the text of an answer.
fn write_answer<R: TextRecord, W: Write>(writer: &mut W, answer: &Answer<R>) -> io::Result<()>
    ensures { OnOk result (Appends (W.contents writer.old) (W.contents writer.new) (answer_text R.spelling.text_of (answer_of answer.now))) }
{
    match answer {
        Answer::Fine => writer.write_all(b"ok"),
        Answer::Size(size) => write_numbered(writer, b"size ", *size),
        Answer::Growth(receipt) => write_growth(writer, receipt),
        Answer::Listed(records) => write_list(writer, records.as_slice()),
        Answer::Settled(count, state) => write_settled(writer, *count, *state),
        Answer::Took(count) => write_numbered(writer, b"took ", *count),
        Answer::Raised(count) => write_numbered(writer, b"raised ", *count),
        Answer::Begun(true) => writer.write_all(b"begun"),
        Answer::Begun(false) => writer.write_all(b"nothing"),
        Answer::Ticked(tick) => write_tick(writer, *tick),
        Answer::Refused(fault) => write_refused(writer, *fault),
    }
}

/// Writes the answers, one a line.
pub fn write_answers<R: TextRecord, W: Write>(
    writer: &mut W,
    answers: &[Answer<R>],
) -> io::Result<()>
    ensures { OnOk result (Appends (W.contents writer.old) (W.contents writer.new) (answer_lines R.spelling.text_of (map answer_of answers.now))) }
{
    for answer in answers {
        write_answer(writer, answer)?;
        writer.write_all(b"\n")?;
    }
    Ok(())
}

/// Writes how long the image is that a crash left.
pub fn write_crashed<W: Write>(writer: &mut W, len: u64) -> io::Result<()>
    ensures { OnOk result (Appends (W.contents writer.old) (W.contents writer.new) (crashed_line len)) }
{
    write_numbered(writer, b"crashed ", len)?;
    writer.write_all(b"\n")
}
