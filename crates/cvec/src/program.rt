//! The program: what its words ask for, done on its input and output, and on files.

ghost use Rattle.std.specs.Prelude.{◌≡◌, ◌≢◌, [], ℕ, List, Option, MatchResult, IfSome, Some, None, Ok, ◌++◌, ◌⊎◌, codes};
ghost use Rattle.std.specs.Io.KnownBytes.{Keeps, Appends};
ghost use Rattle.text_core.specs.Refusals.{refused_line};
ghost use Rattle.text_core.specs.Text.{ended_line};
ghost use Rattle.sentences.specs.Beside.{beside_name};
ghost use Rattle.words_core.specs.declared.request.Request.TheVariants as requests;
ghost use Rattle.filing_core.specs.Commands.{IsStatRun};
ghost use Rattle.cvec.specs.Runs.{IsTaskRun, IsProgramRun, IsFileRun, IsAskedRun, IsRefusedTo, IsTypedCommandRun, IsIdleRun, IsComplaintRun, IsTellRun, IsToldRun};

use files_core::{Progress, refuse_file};
use filing_core::{Filing, RefusalNote, tell_stat};
use image_core::{image, show};
use lines_core::Excerpt;
use load_core::Dealt;
use play_core::play;
use record_core::{Bytes16, Bytes24, Bytes32, Bytes64, Flagged, Pair};
use sentences::{BesideFault, Complaint};
use std::alloc::Global;
use std::convert::AsStr;
use std::fs::File;
use std::io::{Read, Write};
use std::rt::Files;
use std::sync::Wait;
use std::thread::Threads;
use std::time::Clock;
use streams::ToldUnless;
use text_core::{Refusal, Status, TextRecord, refuse, write_line, write_refusal, write_text};
use words_core::{
    FileWords, RecordType, Request, StatWords, Task, WordsFault, read_words, record_types,
};

/// What the program has of the system beside its input and output.
#[derive(Drop)]
pub struct System<'a, F, P> {
    pub alloc: Global,
    pub files: &'a F,
    /// Who is told how far long work is.
    pub progress: &'a P,
    /// Where it is noted why the system refused a call of a file.
    pub note: &'a RefusalNote,
}

/// Does the task on records of one type.
fn run_of<R: TextRecord, I: Read, W: Write, E: Threads + Wait + Sync>(
    alloc: Global,
    rt: &E,
    task: Task,
    reader: &mut I,
    writer: &mut W,
) -> Status
    ensures ends { IfSome (I.remaining reader.old) (λ input.
        IsTaskRun task R.form R.spelling input (W.contents writer.old) (W.contents writer.new) result) }
    ensures no_usage { result ≢ Status.Usage }
{
    match task {
        Task::Image => image::<R, I, W>(alloc, reader, writer),
        Task::Show => show::<R, I, W>(alloc, reader, writer),
        Task::Play => play::<R, I, W, E>(alloc, rt, reader, writer),
    }
}

/// Does a task on records of a type, by the table.
macro_rules! run_on {
    ([$of:expr; $given:tt] $($variant:ident $word:literal $record:ty, $form:literal;)*) => {
        match $of {
            $(RecordType::$variant => run_of::<$record, I, W, E>$given,)*
        }
    };
}

/// Does the task on records of the type.
fn run_task<I: Read, W: Write, E: Threads + Wait + Sync>(
    alloc: Global,
    rt: &E,
    task: Task,
    record_type: RecordType,
    reader: &mut I,
    writer: &mut W,
) -> Status
    ensures ends { IfSome (I.remaining reader.old) (λ input.
        IsProgramRun task record_type input (W.contents writer.old) (W.contents writer.new) result) }
    ensures no_usage { result ≢ Status.Usage }
{
    record_types!(run_on [record_type; (alloc, rt, task, reader, writer)])
}

/// Writes the line of a file that isn't opened.
fn refuse_unopened<W: Write>(writer: &mut W) -> Status
    ensures refused { result ≡ Status.Refused → Appends (W.contents writer.old) (W.contents writer.new) (codes "refused: " ++ ended_line (codes "file")) }
    ensures ends { (result ≡ Status.Refused) ⊎ (result ≡ Status.OutputFailed) }
{
    match write_line(b"refused: file", writer) {
        Ok(()) => Status::Refused,
        Err(_) => Status::OutputFailed,
    }
}

/// Writes the line of why a reader beside a writer is refused.
fn refuse_beside<W: Write>(writer: &mut W, fault: BesideFault) -> Status
    ensures refused { result ≡ Status.Refused → Appends (W.contents writer.old) (W.contents writer.new) (refused_line (beside_name fault)) }
    ensures ends { (result ≡ Status.Refused) ⊎ (result ≡ Status.OutputFailed) }
{
    match write_refusal(writer, fault) {
        Ok(()) => Status::Refused,
        Err(_) => Status::OutputFailed,
    }
}

/// Writes the line of a complaint.
fn refuse_for<W: Write>(writer: &mut W, complaint: &Complaint) -> Status
    ensures { IsComplaintRun (W.contents writer.old) (W.contents writer.new) complaint.now result }
{
    match complaint {
        Complaint::Fault(fault)
        | Complaint::Damaged(_, fault)
        | Complaint::Appended(_, fault)
        | Complaint::Served(_, fault) => refuse_file(writer, *fault),
        Complaint::Beside(fault) => refuse_beside(writer, *fault),
        Complaint::NotOpened(..) => refuse_unopened(writer),
        Complaint::InUse(_) => refuse_unopened(writer),
    }
}

/// Does a command over a file on records of a type, by the table.
macro_rules! file_on {
    ([$of:expr; $filing:ident; $given:tt] $($variant:ident $word:literal $record:ty, $form:literal;)*) => {
        match $of {
            $(RecordType::$variant => $filing.run::<$record, Dealt<$record>, I, W, E>$given,)*
        }
    };
}

/// Does a command over a file, on records of its type.
fn run_filing<
    I: Read,
    W: Write,
    E: Threads + Wait + Sync,
    F: Files<File = File> + Clock + AllocGlobal,
    P: Progress + Sync,
>(
    filing: &Filing<'_, F, P>,
    rt: &E,
    words: &FileWords<'_>,
    reader: &mut I,
    shown: &mut Option<Excerpt>,
    writer: &mut W,
) -> Result<Status, Complaint>
    ensures { IsTypedCommandRun words.now.record_type words.now.task (I.remaining reader.old) (W.contents writer.old) (W.contents writer.new) result }
{
    let task = words.task;
    record_types!(file_on [words.record_type; filing; (rt, task, reader, shown, writer)])
}

/// Does a command over a file.
fn run_file<
    I: Read,
    W: Write,
    E: Threads + Wait + Sync,
    F: Files<File = File> + Clock + AllocGlobal,
    P: Progress + Sync,
>(
    system: &System<'_, F, P>,
    rt: &E,
    words: &FileWords<'_>,
    reader: &mut I,
    shown: &mut Option<Excerpt>,
    writer: &mut W,
) -> Result<Status, Complaint>
    ensures { IsTypedCommandRun words.now.record_type words.now.task (I.remaining reader.old) (W.contents writer.old) (W.contents writer.new) result }
{
    let progress = ToldUnless::quiet(words.quiet, system.progress);
    let filing = Filing {
        alloc: system.alloc,
        files: system.files,
        file: words.file,
        wait: words.wait,
        progress: &progress,
        note: system.note,
    };
    run_filing::<I, W, E, F, ToldUnless<'_, P>>(&filing, rt, words, reader, shown, writer)
}

/// Tells what a file has.
fn run_stat<W: Write, F: Files<File = File> + Clock + AllocGlobal, P: Progress>(
    system: &System<'_, F, P>,
    words: &StatWords<'_>,
    writer: &mut W,
) -> Result<Status, Complaint>
    ensures { IsStatRun words.now.form (W.contents writer.old) (W.contents writer.new) result }
{
    let progress = ToldUnless::quiet(words.quiet, system.progress);
    tell_stat::<W, F, ToldUnless<'_, P>>(system.files, &progress, system.note, words, writer)
}

/// Writes what the program tells of itself.
fn tell<W: Write>(text: &[u8], writer: &mut W) -> Status
    ensures ends { IsTellRun text.now (W.contents writer.old) (W.contents writer.new) result }
    ensures no_usage { result ≢ Status.Usage }
{
    match write_text(text, writer) {
        Ok(()) => Status::Done,
        Err(_) => Status::OutputFailed,
    }
}

/// How a run of the program ended, and what standard error has to tell of it.
#[derive(Clone, Copy)]
pub struct Outcome<'a> {
    pub status: Status,
    /// What the words asked for. `None`: nothing that the program does, or memory was refused before that was known.
    pub asked: Option<Request<'a>>,
    /// Why what was asked for was refused, where it was a command over a file.
    pub complaint: Option<Complaint>,
    /// Of the line that is refused, where it is for its form.
    pub shown: Option<Excerpt>,
}

/// What the words behind the program's name ask for: with none, what `image u64` does. Words that are not the program's, and those
/// that ask for help, ask for nothing.
pub fn read_request<'a, S: AsStr>(alloc: Global, words: &'a [S]) -> Result<Request<'a>, WordsFault>
    ensures no_words { words.now ≡ [] → result ≡ Ok (requests.Input Task.Image RecordType.U64) }
{
    if words.is_empty() {
        return Ok(Request::Input(Task::Image, RecordType::U64));
    }
    read_words(alloc, words)
}

/// Writes the line of a complaint, or has it written aside.
pub fn refuse_to<W: Write, A: Write>(
    refused_aside: bool,
    complaint: &Complaint,
    writer: &mut W,
    aside: &mut A,
) -> Status
    ensures { IsRefusedTo refused_aside (W.contents writer.old) (W.contents writer.new) (A.contents aside.old) (A.contents aside.new) complaint.now result }
{
    if refused_aside {
        refuse_for(aside, complaint)
    } else {
        refuse_for(writer, complaint)
    }
}

/// The outcome of a command over a file that was asked for, behind the line of its refusal.
fn outcome_of<'a, W: Write, A: Write>(
    request: Request<'a>,
    filed: Result<Status, Complaint>,
    shown: Option<Excerpt>,
    refused_aside: bool,
    writer: &mut W,
    aside: &mut A,
) -> Outcome<'a>
    ensures asked { result.asked ≡ Some request.entry }
    ensures told { IsToldRun refused_aside filed (W.contents writer.old) (W.contents writer.new) (A.contents aside.old) (A.contents aside.new) result.status result.complaint }
{
    match filed {
        Ok(status) => Outcome {
            status,
            asked: Some(request),
            complaint: None,
            shown: None,
        },
        Err(complaint) => Outcome {
            status: refuse_to(refused_aside, &complaint, writer, aside),
            asked: Some(request),
            complaint: Some(complaint),
            shown,
        },
    }
}

/// Answers words that ask for nothing.
fn answer_fault<'a, W: Write>(fault: WordsFault, writer: &mut W) -> Outcome<'a>
    ensures asked { result.asked ≡ None }
    ensures told { result.complaint ≡ None }
    ensures ends { IsIdleRun (W.contents writer.old) (W.contents writer.new) result.status }
{
    let status = match fault {
        WordsFault::Memory => refuse(writer, Refusal::Memory),
        WordsFault::Usage
        | WordsFault::Seats
        | WordsFault::Block
        | WordsFault::Every
        | WordsFault::Poll
        | WordsFault::Wait
        | WordsFault::Last
        | WordsFault::Rotate => Status::Usage,
    };
    Outcome {
        status,
        asked: None,
        complaint: None,
        shown: None,
    }
}

/// The outcome of what was asked for, where that isn't a command over a file.
fn outcome_of_input<'a>(request: Request<'a>, status: Status) -> Outcome<'a>
    ensures { (result.status ≡ status) × (result.asked ≡ Some request.entry) × (result.complaint ≡ None) }
{
    Outcome {
        status,
        asked: Some(request),
        complaint: None,
        shown: None,
    }
}

/// Answers words that ask for a command over a file: by one run of its task.
fn answer_file<
    'a,
    I: Read,
    W: Write,
    A: Write,
    E: Threads + Wait + Sync,
    F: Files<File = File> + Clock + AllocGlobal,
    P: Progress + Sync,
>(
    system: &System<'_, F, P>,
    rt: &E,
    words: FileWords<'a>,
    reader: &mut I,
    writer: &mut W,
    aside: &mut A,
) -> Outcome<'a>
    ensures asked { result.asked ≡ Some (requests.File words.entry) }
    ensures ends { IsFileRun (IsTypedCommandRun words.entry.record_type words.entry.task (I.remaining reader.old) (W.contents writer.old)) words.entry.refused_aside
        (W.contents writer.new) (A.contents aside.old) (A.contents aside.new) result.status result.complaint }
    ensures no_usage { result.status ≢ Status.Usage }
{
    let mut shown = None;
    let filed = run_file(system, rt, &words, reader, &mut shown, writer);
    let refused_aside = words.refused_aside;
    outcome_of(
        Request::File(words),
        filed,
        shown,
        refused_aside,
        writer,
        aside,
    )
}

/// Answers words that ask what a file has.
fn answer_stat<'a, W: Write, A: Write, F: Files<File = File> + Clock + AllocGlobal, P: Progress>(
    system: &System<'_, F, P>,
    words: StatWords<'a>,
    writer: &mut W,
    aside: &mut A,
) -> Outcome<'a>
    ensures asked { result.asked ≡ Some (requests.Stat words.entry) }
    ensures ends { IsFileRun (IsStatRun words.entry.form (W.contents writer.old)) words.entry.refused_aside
        (W.contents writer.new) (A.contents aside.old) (A.contents aside.new) result.status result.complaint }
    ensures no_usage { result.status ≢ Status.Usage }
{
    let filed = run_stat(system, &words, writer);
    let refused_aside = words.refused_aside;
    outcome_of(
        Request::Stat(words),
        filed,
        None,
        refused_aside,
        writer,
        aside,
    )
}

/// Answers words that ask for this.
fn answer<
    'a,
    I: Read,
    W: Write,
    A: Write,
    E: Threads + Wait + Sync,
    F: Files<File = File> + Clock + AllocGlobal,
    P: Progress + Sync,
>(
    system: &System<'_, F, P>,
    rt: &E,
    request: Request<'a>,
    reader: &mut I,
    writer: &mut W,
    aside: &mut A,
) -> Outcome<'a>
    ensures asked { result.asked ≡ Some request.entry }
    ensures ends { IsAskedRun (Some request.entry) (I.remaining reader.old) (W.contents writer.old) (W.contents writer.new) (A.contents aside.old) (A.contents aside.new) result.status result.complaint }
    ensures no_usage { result.status ≢ Status.Usage }
{
    match request {
        Request::Input(task, record_type) => {
            let status = run_task(system.alloc, rt, task, record_type, reader, writer);
            outcome_of_input(request, status)
        }
        Request::File(words) => answer_file(system, rt, words, reader, writer, aside),
        Request::Stat(words) => answer_stat(system, words, writer, aside),
        Request::Tell(text) => outcome_of_input(request, tell(text, writer)),
    }
}

/// Does what was asked for: of a command over a file its task, once. The line of its refusal is written aside, where the words ask
/// for that. Where nothing was asked for, the answer is `Usage`, or that memory was refused.
pub fn run<
    'a,
    I: Read,
    W: Write,
    A: Write,
    E: Threads + Wait + Sync,
    F: Files<File = File> + Clock + AllocGlobal,
    P: Progress + Sync,
>(
    system: &System<'_, F, P>,
    rt: &E,
    asked: Result<Request<'a>, WordsFault>,
    reader: &mut I,
    writer: &mut W,
    aside: &mut A,
) -> Outcome<'a>
    ensures asked { MatchResult asked.entry (λ request. result.asked ≡ Some request) (λ _. result.asked ≡ None) }
    ensures ends { IsAskedRun result.asked (I.remaining reader.old) (W.contents writer.old) (W.contents writer.new) (A.contents aside.old) (A.contents aside.new) result.status result.complaint }
    ensures usage { result.status ≡ Status.Usage → Keeps (W.contents writer.old) (W.contents writer.new) }
{
    match asked {
        Ok(request) => answer(system, rt, request, reader, writer, aside),
        Err(fault) => answer_fault(fault, writer),
    }
}
