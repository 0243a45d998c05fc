//! The words that the program takes, read by `clap`.

ghost use Rattle.std.specs.Prelude.{◌≡◌, ◌≢◌, ◌↔◌, ◌<◌, ◌≤◌, IfSome, IfNone, IfOk, Ok, None, decimal};
ghost use Rattle.clap.specs.Values.{kind_of};
ghost use Rattle.clap.specs.declared.error.kind.ErrorKind.TheVariants as kinds;
ghost use Rattle.words_core.specs.declared.words.WordsFault.TheVariants as faults;
ghost use Rattle.words_core.specs.Words.{task_word, type_word};

use crate::commands::all_commands;
use crate::help::{VERSION, help_text};
use crate::record_types;
use crate::request::{
    Course, FileTask, FileWords, Following, RecordType, Request, StatWords, Task,
};
use clap::error::ErrorKind;
use clap::{ArgMatches, Error};
use segment_core::Format;
use stat_core::Form;
use std::alloc::{AllocError, Global};
use std::convert::AsStr;
use std::num::NonZeroU32;
use text_core::TextRecord;

/// The most growers that `load` takes, and the most clients of `serve`.
const SEATS_LIMIT: u64 = 64;

/// The milliseconds that lines of `append` wait for more where no word says how many, and the most that one may say.
const EVERY: u64 = 200;

const EVERY_LIMIT: u64 = 60_000;

/// The milliseconds between two looks of `follow` where no word says how many, and the most that one may say.
const POLL: u64 = 100;

const POLL_LIMIT: u64 = 60_000;

/// Why words ask for nothing.
#[derive(Clone, Copy, Debug, PartialEq, Eq)]
pub enum WordsFault {
    /// They are not the program's, or they ask for help.
    Usage,
    /// The number of seats is none from 1 to 64.
    Seats,
    /// The number of lines of a block, or of records, is none from 1 to 4294967295.
    Block,
    /// The number of milliseconds that lines wait for more is none from 1 to 60000.
    Every,
    /// The number of milliseconds between two looks is none from 1 to 60000.
    Poll,
    /// The time to wait is no number.
    Wait,
    /// How many records are to be listed, the last ones, is no number.
    Last,
    /// How many records a file is to get before the next one is none from 1 on.
    Rotate,
    /// A growth of memory was refused.
    Memory,
}

impl From<Error> for WordsFault {
    ghost from_gives = { λ error fault. (fault ≡ faults.Memory) ↔ (kind_of error ≡ kinds.OutOfMemory) };

    fn from(error: Error) -> WordsFault {
        if error.kind() == ErrorKind::OutOfMemory {
            WordsFault::Memory
        } else {
            WordsFault::Usage
        }
    }
}

impl From<AllocError> for WordsFault {
    ghost from_gives = { λ _ fault. fault ≡ faults.Memory };

    fn from(_: AllocError) -> WordsFault {
        WordsFault::Memory
    }
}

/// The task over the input that a command's name stands for.
fn task_of(name: &str) -> Option<Task>
    ensures named { IfSome result (λ task. name.now ≡ task_word task) }
    ensures unnamed { IfNone result ((task : Task) → name.now ≢ task_word task) }
{
    match name {
        "image" => Some(Task::Image),
        "show" => Some(Task::Show),
        "play" => Some(Task::Play),
        _ => None,
    }
}

/// The type of a word, by the table.
macro_rules! type_by_word {
    ([$of:expr] $($variant:ident $word:literal $record:ty, $form:literal;)*) => {
        match $of {
            $($word => Some(RecordType::$variant),)*
            _ => None,
        }
    };
}

/// The type of record that a word stands for.
fn record_type_of(word: &str) -> Option<RecordType>
    ensures named { IfSome result (λ record_type. word.now ≡ type_word record_type) }
    ensures unnamed { IfNone result ((record_type : RecordType) → word.now ≢ type_word record_type) }
{
    record_types!(type_by_word[word])
}

/// What `clap` makes of the words.
pub fn matches_of<'a, S: AsStr>(alloc: Global, words: &'a [S]) -> Result<ArgMatches<'a>, Error> {
    all_commands(alloc)?.try_get_matches_from(words)
}

/// How many growers a word asks for: a number from 1 to 64.
fn seats_of(word: Option<&str>) -> Result<u16, WordsFault>
    ensures { IfOk result (λ seats. (0 < seats) × (seats ≤ 64)) }
{
    let Some(word) = word else {
        return Ok(1);
    };
    match u64::parse(word.as_bytes()) {
        Some(seats) if 1 <= seats && seats <= SEATS_LIMIT => Ok(seats as u16),
        _ => Err(WordsFault::Seats),
    }
}

/// How many lines or records a word asks for, if there is one: a number from 1 on.
fn block_of(word: Option<&str>) -> Result<Option<NonZeroU32>, WordsFault> {
    let Some(word) = word else {
        return Ok(None);
    };
    let block = u32::parse(word.as_bytes()).ok_or(WordsFault::Block)?;
    Ok(Some(NonZeroU32::new(block).ok_or(WordsFault::Block)?))
}

/// How many milliseconds a word has lines wait for more: a number from 1 to 60000.
fn every_of(word: Option<&str>) -> Result<u64, WordsFault>
    ensures none { IfNone word.entry (result ≡ Ok 200) }
    ensures number { IfSome word.entry (λ text. IfOk result (λ every. text.now ≡ decimal every)) }
    ensures within { IfOk result (λ every. (0 < every) × (every ≤ 60000)) }
{
    let Some(word) = word else {
        return Ok(EVERY);
    };
    match u64::parse(word.as_bytes()) {
        Some(every) if 1 <= every && every <= EVERY_LIMIT => Ok(every),
        _ => Err(WordsFault::Every),
    }
}

/// How many milliseconds a word asks for between two looks: a number from 1 to 60000.
fn poll_of(word: Option<&str>) -> Result<u64, WordsFault>
    ensures none { IfNone word.entry (result ≡ Ok 100) }
    ensures number { IfSome word.entry (λ text. IfOk result (λ poll. text.now ≡ decimal poll)) }
    ensures within { IfOk result (λ poll. (0 < poll) × (poll ≤ 60000)) }
{
    let Some(word) = word else {
        return Ok(POLL);
    };
    match u64::parse(word.as_bytes()) {
        Some(poll) if 1 <= poll && poll <= POLL_LIMIT => Ok(poll),
        _ => Err(WordsFault::Poll),
    }
}

/// For how many seconds a word asks to wait.
fn wait_of(word: Option<&str>) -> Result<u64, WordsFault>
    ensures none { IfNone word.entry (result ≡ Ok 0) }
    ensures number { IfSome word.entry (λ text. IfOk result (λ seconds. text.now ≡ decimal seconds)) }
{
    match word {
        Some(word) => u64::parse(word.as_bytes()).ok_or(WordsFault::Wait),
        None => Ok(0),
    }
}

/// How many records a word asks for, the last ones, if there is one.
fn last_of(word: Option<&str>) -> Result<Option<u64>, WordsFault>
    ensures none { IfNone word.entry (result ≡ Ok None) }
    ensures number { IfSome word.entry (λ text. IfOk result (λ last. IfSome last (λ count. text.now ≡ decimal count))) }
{
    match word {
        Some(word) => Ok(Some(u64::parse(word.as_bytes()).ok_or(WordsFault::Last)?)),
        None => Ok(None),
    }
}

/// With how many records a file is full by a word, if there is one: a number from 1 on.
fn full_of(word: Option<&str>) -> Result<Option<u64>, WordsFault>
    ensures none { IfNone word.entry (result ≡ Ok None) }
    ensures number { IfSome word.entry (λ text. IfOk result (λ full. IfSome full (λ records. text.now ≡ decimal records))) }
    ensures within { IfOk result (λ full. IfSome full (λ records. 0 < records)) }
{
    let Some(word) = word else {
        return Ok(None);
    };
    match u64::parse(word.as_bytes()) {
        Some(records) if 1 <= records => Ok(Some(records)),
        _ => Err(WordsFault::Rotate),
    }
}

/// The runs of its task that the words of a command ask for.
fn course_of(name: &str, words: &ArgMatches<'_>) -> Result<Course, WordsFault> {
    match name {
        "list" => match last_of(words.get_str("last"))? {
            Some(count) => Ok(Course::Last(count)),
            None => Ok(Course::Once),
        },
        "append" => match full_of(words.get_str("rotate"))? {
            Some(records) => Ok(Course::Rotating(records)),
            None => Ok(Course::Once),
        },
        "follow" if words.get_flag("reopen") => Ok(Course::Reopening),
        "copy" if words.get_flag("sound") => Ok(Course::Sound),
        _ => Ok(Course::Once),
    }
}

/// The version of a file that a word asks for, if there is one.
fn format_of(word: Option<&str>) -> Option<Format> {
    match word {
        Some("1") => Some(Format::One),
        Some("2") => Some(Format::Two),
        _ => None,
    }
}

/// The task that takes a record, by the command's name.
fn recorded_task<'a>(name: &str, words: &ArgMatches<'a>) -> Option<FileTask<'a>> {
    let record = words.get_str("record")?;
    match name {
        "count" => Some(FileTask::Count(record)),
        "find" => Some(FileTask::Find(record)),
        _ => Some(FileTask::Resize {
            len: words.get_str("N")?,
            record,
            in_parts: words.get_flag("parts"),
        }),
    }
}

/// What the words of `set` ask for.
fn set_task<'a>(words: &ArgMatches<'a>) -> Option<FileTask<'a>> {
    let records = if words.get_flag("input") {
        None
    } else {
        Some(words.get_str("records")?)
    };
    Some(FileTask::Set {
        start: words.get_str("START")?,
        records,
    })
}

/// What the words of `create` ask for.
fn create_task<'a>(words: &ArgMatches<'a>) -> FileTask<'a> {
    FileTask::Create {
        format: format_of(words.get_str("format")).unwrap_or(Format::One),
        over: words.get_flag("over"),
    }
}

/// What the words of `list` ask for.
fn list_task<'a>(words: &ArgMatches<'a>) -> FileTask<'a> {
    FileTask::List {
        from: words.get_str("from"),
        count: words.get_str("count"),
    }
}

/// The task over a file that a command's name and words ask for, where it has words of its own.
fn worded_task<'a>(name: &str, words: &ArgMatches<'a>) -> Option<FileTask<'a>> {
    match name {
        "create" => Some(create_task(words)),
        "list" => Some(list_task(words)),
        "count" | "find" | "resize" => recorded_task(name, words),
        "set" => set_task(words),
        "upgrade" => Some(FileTask::Upgrade(words.get_str("NEW")?)),
        _ => None,
    }
}

/// The task that appends, by the command's name.
fn growing_task<'a>(name: &str, words: &ArgMatches<'a>) -> Result<FileTask<'a>, WordsFault> {
    match name {
        "append" => Ok(FileTask::Append {
            block: block_of(words.get_str("block"))?.unwrap_or(NonZeroU32::MIN),
            every: every_of(words.get_str("every"))?,
        }),
        "load" => Ok(FileTask::Load(seats_of(words.get_str("seats"))?)),
        _ => Ok(FileTask::Serve(seats_of(words.get_str("seats"))?)),
    }
}

/// What the words of `follow` ask for.
fn follow_task<'a>(words: &ArgMatches<'a>) -> Result<FileTask<'a>, WordsFault> {
    let what = if words.get_flag("events") {
        Following::Events {
            after: words.get_str("after"),
        }
    } else {
        Following::Records {
            from: words.get_str("from"),
        }
    };
    Ok(FileTask::Follow {
        what,
        poll: poll_of(words.get_str("poll"))?,
        once: words.get_flag("once"),
    })
}

/// What the words of `copy` ask for.
fn copy_task<'a>(words: &ArgMatches<'a>) -> Result<FileTask<'a>, WordsFault> {
    Ok(FileTask::Copy {
        new: words.get_str("NEW").ok_or(WordsFault::Usage)?,
        format: format_of(words.get_str("format")),
        block: block_of(words.get_str("block"))?,
    })
}

/// The task over a file that a command's name and words ask for.
fn file_task<'a>(name: &str, words: &ArgMatches<'a>) -> Result<FileTask<'a>, WordsFault> {
    match name {
        "load" | "append" | "serve" => growing_task(name, words),
        "copy" => copy_task(words),
        "follow" => follow_task(words),
        "check" => Ok(FileTask::Check),
        "clear" => Ok(FileTask::Clear),
        "fold" => Ok(FileTask::Fold),
        _ => worded_task(name, words).ok_or(WordsFault::Usage),
    }
}

/// How an answer is told, by the words of a command that has such a word.
fn form_in(words: &ArgMatches<'_>) -> Form {
    if words.get_flag("json") {
        Form::Json
    } else {
        Form::Lines
    }
}

/// Whether the words have the line of a refusal go to standard error.
fn are_refused_aside(words: &ArgMatches<'_>) -> bool {
    words.get_str("refusals").is_some()
}

/// What the words of `stat` ask for.
fn stat_words<'a>(words: &ArgMatches<'a>) -> Result<StatWords<'a>, WordsFault> {
    Ok(StatWords {
        file: words.get_str("FILE").ok_or(WordsFault::Usage)?,
        form: form_in(words),
        refused_aside: are_refused_aside(words),
        quiet: words.get_flag("quiet"),
        wait: wait_of(words.get_str("wait"))?,
    })
}

/// For how many seconds the words of a command ask to wait. `follow` takes no lock, and has no such word.
fn wait_in(name: &str, words: &ArgMatches<'_>) -> Result<u64, WordsFault> {
    if name == "follow" {
        return Ok(0);
    }
    wait_of(words.get_str("wait"))
}

/// Whether the command takes lines of records.
fn takes_lines(name: &str) -> bool {
    name == "load" || name == "append" || name == "set"
}

/// Whether the command answers as JSON too.
fn may_be_json(name: &str) -> bool {
    matches!(name, "check" | "list" | "count" | "find")
}

/// What the words of a command over a file ask for.
fn file_words<'a>(
    name: &str,
    record_type: RecordType,
    words: &ArgMatches<'a>,
) -> Result<FileWords<'a>, WordsFault> {
    Ok(FileWords {
        task: file_task(name, words)?,
        course: course_of(name, words)?,
        record_type,
        file: words.get_str("FILE").ok_or(WordsFault::Usage)?,
        quiet: words.get_flag("quiet"),
        progress: name == "append" && words.get_flag("progress"),
        lenient: takes_lines(name) && words.get_flag("lenient"),
        form: if may_be_json(name) {
            form_in(words)
        } else {
            Form::Lines
        },
        refused_aside: are_refused_aside(words),
        wait: wait_in(name, words)?,
    })
}

/// The type of record that the words name.
fn type_of(words: &ArgMatches<'_>) -> Option<RecordType> {
    record_type_of(words.get_str("TYPE")?)
}

/// What a command on records of a type asks for, by its name and words.
fn typed_request<'a>(name: &str, words: &ArgMatches<'a>) -> Result<Request<'a>, WordsFault> {
    let record_type = type_of(words).ok_or(WordsFault::Usage)?;
    match task_of(name) {
        Some(task) => Ok(Request::Input(task, record_type)),
        None => Ok(Request::File(file_words(name, record_type, words)?)),
    }
}

/// What `help` and the words behind it ask for.
fn help_request<'a>(words: &ArgMatches<'a>) -> Result<Request<'a>, WordsFault> {
    let text = help_text(words.get_str("COMMAND")).ok_or(WordsFault::Usage)?;
    Ok(Request::Tell(text))
}

/// What the words that `clap` has matched ask for.
fn request_of<'a>(matches: &ArgMatches<'a>) -> Result<Request<'a>, WordsFault> {
    match matches.subcommand() {
        Some(("stat", words)) => Ok(Request::Stat(stat_words(words)?)),
        Some(("help", words)) => help_request(words),
        Some(("version", _)) => Ok(Request::Tell(VERSION)),
        Some((name, words)) => typed_request(name, words),
        None => Err(WordsFault::Usage),
    }
}

/// They ask for the version as other programs are asked.
fn are_version<S: AsStr>(words: &[S]) -> bool {
    match words {
        [word] => word.as_str() == "--version",
        _ => false,
    }
}

/// What the words ask for.
pub fn read_words<'a, S: AsStr>(alloc: Global, words: &'a [S]) -> Result<Request<'a>, WordsFault> {
    if are_version(words) {
        return Ok(Request::Tell(VERSION));
    }
    match matches_of(alloc, words) {
        Ok(matches) => request_of(&matches),
        Err(error) => Err(WordsFault::from(error)),
    }
}
