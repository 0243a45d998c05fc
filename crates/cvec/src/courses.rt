//! Commands that are several runs of tasks: the last records are listed, a row of files is appended to, a name is followed. Each run
//! is one of `run`, and a refusal of it is told as that of the command.

use crate::program::{Outcome, System, refuse_to, run};
use crate::row::Row;
use crate::telling::{tell_front, tell_lost, tell_refusal};
use disk_core::DiskFault;
use files_core::{Appended, FileFault};
use filing_core::{RefusalNote, standing_in};
use pen_core::OpenFault;
use segment_core::{CLOSED_GATE, Cause, Format, ScanFault};
use sentences::{BesideFault, Complaint, Role, Standing};
use std::alloc::AllocError;
use std::fs::{self, File, OpenOptions};
use std::io::{self, ErrorKind, Read, Write};
use std::os::unix::fs::FileExt;
use std::sync::Wait;
use std::thread::{self, Threads};
use std::time::{Clock, Duration};
use streams::{Meter, Parted};
use text_core::{Refusal, Status, TextRecord, write_line, write_text};
use vault_core::UpgradeFault;
use words_core::{Course, FileTask, FileWords, Following, Request};

/// What the program has of the system beside its input and output.
#[derive(Clone, Copy)]
pub struct Host<'a, E> {
    pub rt: &'a HostRuntime,
    pub threads: &'a E,
    pub meter: &'a Meter<'a>,
    /// Where it is noted why the system refused a call of a file.
    pub note: &'a RefusalNote,
}

/// What a sound file has.
#[derive(Clone, Copy)]
struct Measures {
    format: Format,
    size: u64,
}

/// Where growths are appended next: to the file of this number of its row, which has that.
#[derive(Clone, Copy)]
struct Place {
    number: u64,
    measures: Measures,
}

/// What comes behind a run over one file.
#[derive(Clone, Copy)]
enum Next {
    /// Another one, over the file that the name or the row has next.
    Goes,
    /// The same again, behind a sleep of so many milliseconds.
    Waits(u64),
    /// The command ends so.
    Ends(Status),
}

/// The number behind this word in a text.
fn number_behind(text: &str, word: &str) -> Option<u64> {
    let (_, behind) = text.split_once(word)?;
    let digits = match behind.split_once(" ") {
        Some((digits, _)) => digits,
        None => behind,
    };
    u64::parse(digits.as_bytes())
}

/// What `check` has answered.
fn measures_of(text: &[u8]) -> Measures {
    let text = str::from_utf8(text).unwrap_or("");
    Measures {
        format: match number_behind(text, " version ") {
            Some(2) => Format::Two,
            _ => Format::One,
        },
        size: number_behind(text, " size ").unwrap_or(0),
    }
}

/// The refusal of an input, counted from a line so many lines further in front.
fn refusal_behind(refusal: Refusal, lines: u64) -> Refusal {
    match refusal {
        Refusal::Line(n) => Refusal::Line(n.saturating_add(lines)),
        Refusal::TooLargeAtLine(n) => Refusal::TooLargeAtLine(n.saturating_add(lines)),
        refusal => refusal,
    }
}

/// The complaint of an append behind so many growths and lines of the input, which other files have.
fn complaint_behind(complaint: Complaint, growths: u64, lines: u64) -> Complaint {
    let Complaint::Appended(appended, fault) = complaint else {
        return complaint;
    };
    let appended = Appended {
        growths: appended.growths.saturating_add(growths),
        lines: appended.lines.saturating_add(lines),
        size: appended.size,
    };
    let fault = match fault {
        FileFault::Input(refusal) => FileFault::Input(refusal_behind(refusal, lines)),
        fault => fault,
    };
    Complaint::Appended(appended, fault)
}

/// The complaint of a command for which there is no memory.
const NO_MEMORY: Complaint = Complaint::Fault(FileFault::Input(Refusal::Memory));

/// The outcome of a command that is refused so.
fn refused(words: FileWords<'_>, complaint: Complaint) -> Outcome<'_> {
    Outcome {
        status: Status::Refused,
        asked: Some(Request::File(words)),
        complaint: Some(complaint),
        shown: None,
    }
}

/// Whether a creation was stopped by the complaint of a file: no vector stands there yet.
fn is_unborn(complaint: Option<Complaint>) -> bool {
    matches!(
        complaint,
        Some(Complaint::Fault(FileFault::Open(OpenFault::Scan(ScanFault::Unborn))))
    )
}

/// The damage that a complaint of a file tells of: its place and cause.
fn damage_of(complaint: Option<Complaint>) -> Option<(u64, Cause)> {
    let Some(Complaint::Fault(fault) | Complaint::Damaged(_, fault)) = complaint else {
        return None;
    };
    match fault {
        FileFault::Open(OpenFault::Scan(ScanFault::Damaged { at, cause }))
        | FileFault::Upgrade(
            UpgradeFault::Old(OpenFault::Scan(ScanFault::Damaged { at, cause })),
        ) => Some((at, cause)),
        _ => None,
    }
}

/// The outcome as that of these words.
fn told_of<'w>(words: FileWords<'w>, ended: &Outcome<'_>) -> Outcome<'w> {
    Outcome {
        status: ended.status,
        asked: Some(Request::File(words)),
        complaint: ended.complaint,
        shown: ended.shown,
    }
}

/// The words for a file of this name.
fn named<'w>(words: FileWords<'w>, file: &'w str) -> FileWords<'w> {
    FileWords { file, ..words }
}

/// The words of `list` for this window.
fn listing<'w>(words: FileWords<'w>, from: &'w str, count: &'w str) -> FileWords<'w> {
    let task = FileTask::List {
        from: Some(from),
        count: Some(count),
    };
    FileWords { task, ..words }
}

/// The words of `follow` for the file that has the name next: from its first record on.
fn from_the_first(words: FileWords<'_>) -> FileWords<'_> {
    let task = match words.task {
        FileTask::Follow { poll, once, .. } => FileTask::Follow {
            what: Following::Records { from: None },
            poll,
            once,
        },
        task => task,
    };
    FileWords { task, ..words }
}

impl<'a, E: Threads + Wait + Clock + Sync + Copy + Send + 'static> Host<'a, E> {
    /// Runs the task of a command over a file, once.
    fn run<'w, I: Read, W: Write, A: Write>(
        &self,
        words: FileWords<'w>,
        input: &mut I,
        output: &mut W,
        aside: &mut A,
    ) -> Outcome<'w> {
        let system = System {
            alloc: self.rt.alloc(),
            files: self.rt,
            progress: self.meter,
            note: self.note,
        };
        let asked = Ok(Request::File(words));
        run(&system, self.threads, asked, input, output, aside)
    }

    /// Runs it, and keeps its answer. Its refusal is told of it alone.
    fn answer_of<'w, I: Read>(
        &self,
        words: FileWords<'w>,
        input: &mut I,
        text: &mut Vec<u8>,
    ) -> Outcome<'w> {
        let mut line = Vec::new(self.rt.alloc());
        let words = FileWords {
            refused_aside: true,
            ..words
        };
        self.run(words, input, text, &mut line)
    }

    /// Ends the command with a run, whose refusal nobody was told of yet.
    fn end<W: Write, A: Write>(
        &self,
        ended: &Outcome<'_>,
        refused_aside: bool,
        output: &mut W,
        aside: &mut A,
    ) -> Status {
        let status = match &ended.complaint {
            Some(complaint) => refuse_to(refused_aside, complaint, output, aside),
            None => ended.status,
        };
        self.meter.end();
        tell_refusal(self.rt, ended, self.note.refused());
        status
    }

    /// Asks what the file has.
    fn measure<'w, I: Read>(
        &self,
        words: FileWords<'w>,
        input: &mut I,
    ) -> Result<Measures, Outcome<'w>> {
        let mut text = Vec::new(self.rt.alloc());
        let task = FileTask::Check;
        let ended = self.answer_of(FileWords { task, ..words }, input, &mut text);
        match ended.status {
            Status::Done => Ok(measures_of(text.as_slice())),
            _ => Err(ended),
        }
    }

    // ---- the last records

    /// Lists the records from this position on, so many.
    fn list_from<I: Read, W: Write, A: Write>(
        &self,
        words: FileWords<'_>,
        (from, count): (u64, u64),
        input: &mut I,
        output: &mut W,
        aside: &mut A,
    ) -> Result<Status, AllocError> {
        let from = format!(in self.rt.alloc(); "{from}")?;
        let count = format!(in self.rt.alloc(); "{count}")?;
        let words = listing(words, from.as_str(), count.as_str());
        let ended = self.run(words, input, output, aside);
        self.meter.end();
        tell_refusal(self.rt, &ended, self.note.refused());
        Ok(ended.status)
    }

    /// Lists so many records, the last ones of those that the file has as it is asked first.
    fn list_last<I: Read, W: Write, A: Write>(
        &self,
        words: FileWords<'_>,
        count: u64,
        input: &mut I,
        output: &mut W,
        aside: &mut A,
    ) -> Status {
        let size = match self.measure(words, input) {
            Ok(measures) => measures.size,
            Err(ended) => return self.end(&ended, words.refused_aside, output, aside),
        };
        let window = (size.saturating_sub(count), count.min(size));
        match self.list_from(words, window, input, output, aside) {
            Ok(status) => status,
            Err(_) => self.end(
                &refused(words, NO_MEMORY),
                words.refused_aside,
                output,
                aside,
            ),
        }
    }

    // ---- a name that leads to another file

    /// What comes behind a look at the file of this name that ended so. Once one was followed, another one is waited for.
    fn next_of(&self, ended: &Outcome<'_>, words: &FileWords<'_>, has_followed: bool) -> Next {
        let FileTask::Follow { poll, .. } = words.task else {
            return Next::Ends(ended.status);
        };
        match ended.complaint {
            Some(Complaint::Beside(BesideFault::Replaced)) => Next::Goes,
            Some(Complaint::NotOpened(Role::File, error))
                if has_followed && error.kind() == ErrorKind::NotFound => Next::Waits(poll),
            Some(Complaint::Fault(FileFault::Open(OpenFault::Disk(DiskFault::Read))))
                if has_followed && standing_in(self.rt, words.file) == Standing::Nothing =>
                Next::Waits(poll),
            complaint if has_followed && is_unborn(complaint) => Next::Waits(poll),
            _ => Next::Ends(ended.status),
        }
    }

    /// Follows the file that has the name, and where it is replaced the next one.
    fn follow_name<I: Read, W: Write, A: Write>(
        &self,
        words: FileWords<'_>,
        input: &mut I,
        output: &mut W,
        aside: &mut A,
    ) -> Status {
        let mut words = words;
        let mut has_followed = false;
        for _ in self.threads.forever() {
            let mut line = Vec::new(self.rt.alloc());
            let once = FileWords {
                refused_aside: true,
                ..words
            };
            let ended = self.run(once, input, output, &mut line);
            match self.next_of(&ended, &words, has_followed) {
                Next::Goes => {
                    has_followed = true;
                    words = from_the_first(words);
                }
                Next::Waits(millis) => thread::sleep(self.rt, Duration::from_millis(millis)),
                Next::Ends(_) => return self.end(&ended, words.refused_aside, output, aside),
            }
        }
        unreachable!()
    }

    // ---- what is sound of a damaged file

    /// Makes a file of this name, which is new, of the first bytes of another one.
    fn make_front(&self, file: &str, name: &str, len: u64) -> io::Result<()> {
        let source = File::open(self.rt, file)?;
        let mut front = OpenOptions::new()
            .write(true)
            .create_new(true)
            .open(self.rt, name)?;
        io::copy(&mut source.take(len), &mut front)?;
        Ok(())
    }

    /// Cuts the file of this name there, and closes the gate that ends its frames.
    fn close_at(&self, name: &str, end: u64) -> io::Result<()> {
        let front = OpenOptions::new().write(true).open(self.rt, name)?;
        front.set_len(end)?;
        front.write_all_at(&[CLOSED_GATE], end)
    }

    /// Makes the file a sound one, where it is only cut short.
    fn mend_front<I: Read>(&self, words: FileWords<'_>, input: &mut I) -> io::Result<()> {
        let Err(ended) = self.measure(words, input) else {
            return Ok(());
        };
        match damage_of(ended.complaint) {
            Some((end, Cause::NoGate | Cause::ShortFrame)) => self.close_at(words.file, end),
            _ => Ok(()),
        }
    }

    /// Ends a copy that was made or refused so.
    fn end_copy<W: Write, A: Write>(
        &self,
        ended: &Outcome<'_>,
        refused_aside: bool,
        text: &[u8],
        output: &mut W,
        aside: &mut A,
    ) -> Status {
        if ended.status != Status::Done {
            return self.end(ended, refused_aside, output, aside);
        }
        match write_text(text, output) {
            Ok(()) => Status::Done,
            Err(_) => Status::OutputFailed,
        }
    }

    /// Copies the vector of a file; of a damaged one what its whole frames hold before the damage. An error: memory was refused.
    fn copy_sound<I: Read, W: Write, A: Write>(
        &self,
        words: FileWords<'_>,
        input: &mut I,
        output: &mut W,
        aside: &mut A,
    ) -> Result<Status, AllocError> {
        let mut text = Vec::new(self.rt.alloc());
        let ended = self.answer_of(words, input, &mut text);
        let (FileTask::Copy { new, .. }, Some((at, cause))) = (
            words.task,
            damage_of(ended.complaint),
        ) else {
            let text = text.as_slice();
            return Ok(self.end_copy(&ended, words.refused_aside, text, output, aside));
        };
        let name = format!(in self.rt.alloc(); "{new}.front")?;
        let front = named(words, name.as_str());
        if let Err(error) = self.make_front(words.file, front.file, at) {
            self.meter.end();
            tell_front(self.rt, front.file, error);
            return Ok(refuse_file_to(words.refused_aside, output, aside));
        }
        let mended = self.mend_front(front, input);
        let ended = self.answer_of(front, input, &mut text);
        let _ = fs::remove_file(self.rt, front.file);
        if mended.is_ok() && ended.status == Status::Done {
            self.meter.end();
            tell_lost(self.rt, words.file, at, cause);
        }
        let ended = told_of(words, &ended);
        let text = text.as_slice();
        Ok(self.end_copy(&ended, words.refused_aside, text, output, aside))
    }

    // ---- a row of files

    /// Makes an empty file of this version.
    fn make<'w, I: Read>(
        &self,
        words: FileWords<'w>,
        format: Format,
        input: &mut I,
    ) -> Result<Measures, Outcome<'w>> {
        let task = FileTask::Create {
            format,
            over: false,
        };
        let mut text = Vec::new(self.rt.alloc());
        let ended = self.answer_of(FileWords { task, ..words }, input, &mut text);
        match ended.status {
            Status::Done => Ok(Measures { format, size: 0 }),
            _ => Err(ended),
        }
    }

    /// What the last file of the row has. One whose creation was stopped is made, of the version of the one before it.
    fn measure_last<'w, I: Read>(
        &self,
        words: FileWords<'w>,
        before: Option<FileWords<'w>>,
        input: &mut I,
    ) -> Result<Measures, Outcome<'w>> {
        let ended = match self.measure(words, input) {
            Ok(measures) => return Ok(measures),
            Err(ended) => ended,
        };
        match before {
            Some(before) if is_unborn(ended.complaint) => {
                let Measures { format, .. } = self.measure(before, input)?;
                self.make(words, format, input)
            }
            _ => Err(ended),
        }
    }

    /// Appends to the last file of the row, and then to the next ones. An error: memory was refused.
    fn append_row<I: Read, W: Write, A: Write>(
        &self,
        words: FileWords<'_>,
        full: u64,
        input: &mut Parted<I>,
        output: &mut W,
        aside: &mut A,
    ) -> Result<Status, AllocError> {
        let alloc = self.rt.alloc();
        let row = Row::of(words.file);
        let number = row.last(alloc, self.rt)?;
        let name = row.name(alloc, number)?;
        let name_before = row.name(alloc, number.saturating_sub(1))?;
        let of_name = named(words, name.as_str());
        let before = named(words, name_before.as_str());
        let before = (number > row.number).then_some(before);
        let measures = match self.measure_last(of_name, before, input) {
            Ok(measures) => measures,
            Err(ended) => return Ok(self.end(&ended, words.refused_aside, output, aside)),
        };
        let mut place = Place { number, measures };
        for _ in self.threads.forever() {
            let name = row.name(alloc, place.number)?;
            let of_name = named(words, name.as_str());
            if let Next::Ends(status) = self.append_at(of_name, place, full, input, output, aside) {
                return Ok(status);
            }
            place.number = place.number.saturating_add(1);
            let name = row.name(alloc, place.number)?;
            let of_name = named(words, name.as_str());
            match self.make(of_name, place.measures.format, input) {
                Ok(measures) => place.measures = measures,
                Err(ended) => return Ok(self.end(&ended, words.refused_aside, output, aside)),
            }
        }
        unreachable!()
    }

    /// Appends to one file of the row until it is full, and tells how many growths it got. One that is full already is left, where
    /// more of the input comes.
    fn append_at<I: Read, W: Write, A: Write>(
        &self,
        words: FileWords<'_>,
        place: Place,
        full: u64,
        input: &mut Parted<I>,
        output: &mut W,
        aside: &mut A,
    ) -> Next {
        let room = full.saturating_sub(place.measures.size);
        if room == 0 && matches!(input.has_more(), Ok(true)) {
            return Next::Goes;
        }
        let (growths, lines) = input.given();
        self.meter.goes_on_behind(growths, lines);
        input.begin_part(room);
        let mut text = Vec::new(self.rt.alloc());
        let mut ended = self.answer_of(words, input, &mut text);
        if let Some(complaint) = ended.complaint {
            ended.complaint = Some(complaint_behind(complaint, growths, lines));
        }
        if ended.status != Status::Done {
            return Next::Ends(self.end(&ended, words.refused_aside, output, aside));
        }
        if write_named(words.file, text.as_slice(), output).is_err() {
            return Next::Ends(Status::OutputFailed);
        }
        match input.has_more() {
            Ok(true) => Next::Goes,
            Ok(false) => Next::Ends(Status::Done),
            Err(_) => {
                let (growths, lines) = input.given();
                let appended = Appended {
                    growths,
                    lines,
                    size: full,
                };
                let fault = FileFault::Input(Refusal::Input);
                let ended = refused(words, Complaint::Appended(appended, fault));
                Next::Ends(self.end(&ended, words.refused_aside, output, aside))
            }
        }
    }

    /// Runs a command over a file as its words ask for.
    pub fn run_course<I: Read, W: Write, A: Write>(
        &self,
        words: FileWords<'_>,
        input: &mut Parted<I>,
        output: &mut W,
        aside: &mut A,
    ) -> Status {
        match words.course {
            Course::Once => {
                let ended = self.run(words, input, output, aside);
                self.meter.end();
                tell_refusal(self.rt, &ended, self.note.refused());
                ended.status
            }
            Course::Last(count) => self.list_last(words, count, input, output, aside),
            Course::Reopening => self.follow_name(words, input, output, aside),
            Course::Sound => match self.copy_sound(words, input, output, aside) {
                Ok(status) => status,
                Err(_) => self.end(
                    &refused(words, NO_MEMORY),
                    words.refused_aside,
                    output,
                    aside,
                ),
            },
            Course::Rotating(full) => match self.append_row(words, full, input, output, aside) {
                Ok(status) => status,
                Err(_) => self.end(
                    &refused(words, NO_MEMORY),
                    words.refused_aside,
                    output,
                    aside,
                ),
            },
        }
    }
}

/// Writes the line of a file that can't be used, or has it written aside.
fn refuse_file_to<W: Write, A: Write>(
    refused_aside: bool,
    output: &mut W,
    aside: &mut A,
) -> Status {
    let line = b"refused: file";
    let written = if refused_aside {
        write_line(line, aside)
    } else {
        write_line(line, output)
    };
    match written {
        Ok(()) => Status::Refused,
        Err(_) => Status::OutputFailed,
    }
}

/// Writes an answer behind the name of its file.
fn write_named<W: Write>(name: &str, answer: &[u8], output: &mut W) -> io::Result<()> {
    output.write_all(name.as_bytes())?;
    output.write_all(b": ")?;
    write_text(answer, output)
}
