//! `cvec`: a durable vector in a file, from a shell; and segment files as hex.
#![tactic(auto)]

mod courses;
mod floats;
mod program;
mod row;
mod telling;

use crate::courses::Host;
use crate::floats::{floats_read, floats_written, with_bits, words_in_bits};
use crate::program::{System, read_request, run};
use crate::telling::tell_refusal;
use filing_core::RefusalNote;
use float_core::FloatType;
use stat_core::Form;
use std::alloc::Global;
use std::env;
use std::fs::{File, OpenOptions};
use std::io::{self, BufWriter, ErrorKind, IsTerminal, Read, Write};
use std::num::NonZeroU32;
use std::os::fd::{AsRawFd, RawFd};
use std::process::ExitCode;
use std::sync::Wait;
use std::thread::Threads;
use std::time::Clock;
use streams::{
    Behind, Decoded, InJson, Meter, Noting, Paced, Parted, RecordText, Told, Turn, Turned,
};
use text_core::{Refusal, Status, refuse};
use words_core::{
    Course, FileTask, FileWords, HELP, Look, RecordType, Request, Usage, WordsFault, usage_of,
    write_usage, write_wrong,
};

const OUTPUT_BUFFER_LEN: usize = 65_536;

/// The number of standard input.
const INPUT: RawFd = 0;

/// That of standard error, the last of the standard streams.
const LAST_STREAM: RawFd = 2;

fn main(rt: HostRuntime) -> ExitCode {
    let _closed = take_closed(&rt);
    let status = match words_of(&rt) {
        Ok(words) => run_words(&rt, &rt, words.as_slice()),
        Err(error) if error.kind() == ErrorKind::InvalidData => {
            let sentence = "error: a word is no UTF-8";
            let _ = write_wrong(&mut rt.stderr(), sentence, Look::Commands);
            Status::Usage
        }
        Err(_) => refuse_memory(&rt),
    };
    ExitCode::from(status.code())
}

/// Takes the numbers of the standard streams that are closed: the next file that is opened would have one, and be written what
/// the program answers. Such a stream stays one that can't be read or written.
fn take_closed(rt: &HostRuntime) -> [Option<File>; 3] {
    [
        nothing_below(rt, true, INPUT),
        nothing_below(rt, false, LAST_STREAM),
        nothing_below(rt, false, LAST_STREAM),
    ]
}

/// A file of nothing, to be written or read, where the first number that is free is none above this one.
fn nothing_below(rt: &HostRuntime, writes: bool, last: RawFd) -> Option<File> {
    let opened = OpenOptions::new()
        .read(!writes)
        .write(writes)
        .open(rt, "/dev/null");
    match opened {
        Ok(file) if file.as_raw_fd() <= last => Some(file),
        _ => None,
    }
}

/// The words that the program was started with, behind its name. An error: one of them is no UTF-8
/// (`InvalidData`), or memory was refused.
fn words_of(rt: &HostRuntime) -> io::Result<Vec<String>> {
    Ok(env::args(rt)?.skip(1).collect(rt.alloc())?)
}

/// What the words ask for, with the numbers for floats, whose words are left here.
fn asked_in_bits<'a>(
    alloc: Global,
    words: &'a [String],
    bits: &'a mut Vec<u8>,
) -> Result<Request<'a>, WordsFault> {
    let request = read_request(alloc, words)?;
    *bits = words_in_bits(alloc, request)?;
    Ok(with_bits(request, str::from_utf8(bits.as_slice()).unwrap_or("")))
}

/// Runs the words over standard input and output, and tells on standard error what neither of them has.
fn run_words<E: Threads + Wait + Clock + Sync + Copy + Send + 'static>(
    rt: &HostRuntime,
    threads: &E,
    words: &[String],
) -> Status {
    let Some(manner) = manner_of(rt.alloc(), words) else {
        return refuse_memory(rt);
    };
    let meter = Meter::new(rt, rt.stderr().is_terminal(), manner.progress);
    let shares_terminal = rt.stdout().is_terminal();
    let behind = Behind::new(io::writer(rt), shares_terminal.then_some(&meter));
    let Ok(buffer) = BufWriter::with_capacity(rt.alloc(), OUTPUT_BUFFER_LEN, behind) else {
        return refuse_memory(rt);
    };
    let in_json = InJson::new(rt.alloc(), buffer, manner.told);
    let mut output = Noting::new(Decoded::new(in_json, manner.floats));
    let mut aside = InJson::new(rt.alloc(), rt.stderr(), manner.told);
    let paced = Paced::new(threads, rt, manner.pause);
    let Ok(turned) = Turned::new(rt.alloc(), paced, manner.turn) else {
        return refuse_memory(rt);
    };
    let mut input = Parted::new(rt.alloc(), turned, manner.block);
    let note = RefusalNote::new();
    let host = Host {
        rt,
        threads,
        meter: &meter,
        note: &note,
    };
    let status = answer(&host, words, &mut input, &mut output, &mut aside);
    meter.end();
    tell_ended(rt, words, status, output.error());
    status
}

/// What of the words has to be known before they are run.
#[derive(Clone, Copy)]
struct Manner {
    /// How many milliseconds what has come of the input waits for more. `None`: it isn't committed while it waits.
    pause: Option<u64>,
    /// How far the work is is told in lines.
    progress: bool,
    /// How the input is taken.
    turn: Turn,
    /// The floats that the output has.
    floats: Option<FloatType>,
    /// What the lines of the output tell, where they become JSON.
    told: Option<Told>,
    /// The lines of a growth, where the input is taken in parts.
    block: Option<NonZeroU32>,
}

/// The manner of words whose input and output are taken as they come.
const PLAIN: Manner = Manner {
    pause: None,
    progress: false,
    turn: Turn {
        lenient: false,
        floats: None,
    },
    floats: None,
    told: None,
    block: None,
};

/// Whether the input or the output of the words isn't taken as it comes: lines that are waited for or lenient, floats, and JSON.
fn may_be_turned(words: &[String]) -> bool {
    words.iter().any(|word| matches!(
        word.as_str(),
        "load" | "append" | "set" | "f32" | "f64" | "--json"
    ))
}

/// What the text of a record of a type is in JSON.
fn record_text(record_type: RecordType) -> RecordText {
    match record_type {
        RecordType::F32 | RecordType::F64 => RecordText::Float,
        RecordType::Pair | RecordType::Flagged => RecordText::Keyed,
        RecordType::Bytes16 | RecordType::Bytes24 | RecordType::Bytes32 | RecordType::Bytes64 => {
            RecordText::Hex
        }
        _ => RecordText::Number,
    }
}

/// What the lines tell that a command over a file answers with.
fn told_by(words: &FileWords<'_>) -> Told {
    match words.task {
        FileTask::Check => Told::Measures,
        FileTask::Count(_) => Told::Count,
        FileTask::Find(_) => Told::Position,
        _ => Told::Record(record_text(words.record_type)),
    }
}

/// What the lines of an answer tell, where they become JSON. `stat` writes an object itself.
fn told_in_json(request: Request<'_>) -> Option<Told> {
    match request {
        Request::File(words) if matches!(words.form, Form::Json) => Some(told_by(&words)),
        Request::Stat(words) if matches!(words.form, Form::Json) => {
            Some(Told::Record(RecordText::Number))
        }
        _ => None,
    }
}

/// The manner of the words. `None`: memory was refused, so it isn't known whether floats are to be turned.
fn manner_of(alloc: Global, words: &[String]) -> Option<Manner> {
    // No other words are read twice.
    if !may_be_turned(words) {
        return Some(PLAIN);
    }
    let request = match read_request(alloc, words) {
        Ok(request) => request,
        Err(WordsFault::Memory) => return None,
        Err(_) => return Some(PLAIN),
    };
    let manner = Manner {
        turn: Turn {
            lenient: false,
            floats: floats_read(request),
        },
        floats: floats_written(request),
        told: told_in_json(request),
        ..PLAIN
    };
    let Request::File(words) = request else {
        return Some(manner);
    };
    let (pause, block) = match (words.task, words.course) {
        (FileTask::Append { every, block }, Course::Rotating(_)) => (Some(every), Some(block)),
        (FileTask::Append { every, .. }, _) => (Some(every), None),
        _ => (None, None),
    };
    Some(Manner {
        pause,
        block,
        progress: words.progress && !words.quiet,
        turn: Turn {
            lenient: words.lenient,
            ..manner.turn
        },
        ..manner
    })
}

/// Answers the words on this output, and tells standard error why they were refused.
fn answer<I: Read, W: Write, A: Write, E: Threads + Wait + Clock + Sync + Copy + Send + 'static>(
    host: &Host<'_, E>,
    words: &[String],
    input: &mut Parted<I>,
    output: &mut W,
    aside: &mut A,
) -> Status {
    let alloc = host.rt.alloc();
    let mut bits = Vec::new(alloc);
    let asked = match asked_in_bits(alloc, words, &mut bits) {
        Ok(Request::File(words)) => return host.run_course(words, input, output, aside),
        asked => asked,
    };
    let system = System {
        alloc,
        files: host.rt,
        progress: host.meter,
        note: host.note,
    };
    let ended = run(&system, host.threads, asked, input, output, aside);
    host.meter.end();
    tell_refusal(host.rt, &ended, host.note.refused());
    ended.status
}

/// Tells what standard error has to tell of an output that failed, and of the words.
fn tell_ended(rt: &HostRuntime, words: &[String], status: Status, error: Option<io::Error>) {
    match status {
        Status::OutputFailed => tell_failed_write(rt, error),
        Status::Usage => tell_usage(rt, words),
        Status::Done | Status::Refused => {}
    }
}

/// Answers want of memory.
fn refuse_memory(rt: &HostRuntime) -> Status {
    let mut output = Noting::new(io::writer(rt));
    let status = refuse(&mut output, Refusal::Memory);
    if status == Status::OutputFailed {
        tell_failed_write(rt, output.error());
    }
    status
}

/// Tells how the program is used, and what is wrong with the words. Where memory is refused for that, all of its help.
fn tell_usage(rt: &HostRuntime, words: &[String]) {
    let usage = usage_of(rt.alloc(), words).unwrap_or(Usage::Help(HELP));
    let _ = write_usage(&mut rt.stderr(), &usage);
}

/// Tells why standard output can't be written, but where its reader has gone, who has what it wanted.
fn tell_failed_write(rt: &HostRuntime, error: Option<io::Error>) {
    match error {
        Some(error) if error.kind() != ErrorKind::BrokenPipe => {
            let _ = eprintln!(rt; "cvec: standard output: {error}");
        }
        _ => {}
    }
}
