//! What is wrong with a word or with the input, and what to do next.

use crate::shown::{write_bad_word, write_given, write_given_of};
use files_core::Word;
use lines_core::Excerpt;
use record_core::{Bytes16, Bytes24, Bytes32, Bytes64, Flagged, PAYLOAD_LIMIT, Pair};
use std::fmt::{self, Formatter};
use text_core::{INPUT_LIMIT, Refusal};
use words_core::{FileTask, FileWords, Following, RecordType, record_types};

/// The text of a record of a type, by the table.
macro_rules! form_of {
    ([$of:expr] $($variant:ident $word:literal $record:ty, $form:literal;)*) => {
        match $of {
            $(RecordType::$variant => $form,)*
        }
    };
}

/// The text of a record of a type.
fn record_form(record_type: RecordType) -> &'static str {
    record_types!(form_of[record_type])
}

/// The name of a word that is refused.
fn name_of_word(word: Word) -> &'static str {
    match word {
        Word::Start => "START",
        Word::Length => "N",
        Word::From => "the value of --from",
        Word::Count => "the value of --count",
        Word::Record => "the value of --record",
        Word::Records => "a value of --records",
    }
}

/// The first word of several that is no record of a type, by the table.
macro_rules! excerpt_of {
    ([$of:expr, $records:expr] $($variant:ident $word:literal $record:ty, $form:literal;)*) => {
        match $of {
            $(RecordType::$variant => Excerpt::of_bad_word::<$record>($records, b','),)*
        }
    };
}

/// The first of the values of `--records` that is no record.
fn excerpt_of_records(records: &[u8], record_type: RecordType) -> Excerpt {
    record_types!(excerpt_of [record_type, records])
}

/// The text of a word that is refused, as it was given. Of the values of `--records`, all of them.
fn text_of_word<'a>(task: FileTask<'a>, word: Word) -> &'a str {
    match (task, word) {
        (FileTask::Set { start, .. }, Word::Start) => start,
        (FileTask::Set { records, .. }, _) => records.unwrap_or(""),
        (FileTask::Resize { len, .. }, Word::Length) => len,
        (FileTask::Resize { record, .. }, _) => record,
        (FileTask::Count(record) | FileTask::Find(record), _) => record,
        (FileTask::List { from, .. }, Word::From) => from.unwrap_or(""),
        (FileTask::List { count, .. }, _) => count.unwrap_or(""),
        (
            FileTask::Follow {
                what: Following::Records { from },
                ..
            },
            _,
        ) => from.unwrap_or(""),
        _ => "",
    }
}

/// What a word that is refused has to be: a record, or a number.
fn type_of_word(word: Word, record_type: RecordType) -> RecordType {
    match word {
        Word::Record | Word::Records => record_type,
        _ => RecordType::U64,
    }
}

/// Writes a word that is refused, and what is wrong with it.
fn write_wrong_word<W: fmt::Write>(
    f: &mut Formatter<W>,
    text: &[u8],
    word: Word,
    record_type: RecordType,
) -> fmt::Result {
    let Word::Records = word else {
        return write_given(f, text, record_type);
    };
    let excerpt = excerpt_of_records(text, record_type);
    write_given_of(f, &excerpt, record_type)
}

pub fn write_word<W: fmt::Write>(
    f: &mut Formatter<W>,
    words: &FileWords<'_>,
    word: Word,
) -> fmt::Result {
    let name = name_of_word(word);
    let of_type = type_of_word(word, words.record_type);
    let form = record_form(of_type);
    write!(f, "{name} is ")?;
    write_wrong_word(f, text_of_word(words.task, word).as_bytes(), word, of_type)?;
    write!(f, "; it is to be {form}; nothing was read or written")
}

/// What the file has after a refusal of the input.
fn stands_after_input(task: FileTask<'_>) -> &'static str {
    match task {
        FileTask::Append { .. } => "it and the lines behind it weren't grown",
        FileTask::Serve(_) => "no client was served",
        FileTask::Set { .. } => "no file was opened, and nothing was changed",
        _ => "no file was opened, and nothing was grown",
    }
}

/// What there is no memory for.
fn no_memory(task: FileTask<'_>) -> &'static str {
    match task {
        FileTask::Serve(_) =>
            "there is not enough memory, or the system starts no thread for each client",
        _ => "there is not enough memory for it",
    }
}

/// What to do about a growth that is longer than a frame, behind what stands.
fn about_long_growth(task: FileTask<'_>) -> &'static str {
    match task {
        FileTask::Append { .. } => "; give a smaller --block, or cut the line into shorter ones",
        _ => "; cut the line into shorter ones",
    }
}

/// What to do about too long an input, or one growth of it, behind what stands.
fn about_long_input(task: FileTask<'_>) -> &'static str {
    match task {
        FileTask::Append { .. } =>
            "; that is of one growth: give a smaller --block, or cut its lines",
        FileTask::Set { .. } => "; give fewer records at once",
        _ => "; `cvec append` takes input of any length",
    }
}

/// What to do about an input that is refused, behind what stands, if there is something to do.
fn about_input(task: FileTask<'_>, refusal: Refusal) -> &'static str {
    match refusal {
        Refusal::TooLargeAtLine(_) => about_long_growth(task),
        Refusal::InputTooLong => about_long_input(task),
        _ => "",
    }
}

/// What is wrong with an input, where no number tells of it.
fn wrong_input(task: FileTask<'_>, refusal: Refusal) -> &'static str {
    match refusal {
        Refusal::Input => "standard input couldn't be read",
        Refusal::Memory => no_memory(task),
        _ => "the input is refused",
    }
}

/// What is wrong with a line, of which this is shown.
fn write_bad_line<W: fmt::Write>(
    f: &mut Formatter<W>,
    n: u64,
    words: &FileWords<'_>,
    shown: Option<&Excerpt>,
) -> fmt::Result {
    write!(f, "line {n} of the input is no growth")?;
    if let Some(excerpt) = shown {
        f.write_str(": ")?;
        write_bad_word(f, excerpt, words.record_type, words.lenient)?;
    }
    let record = record_form(words.record_type);
    write!(
        f,
        "; a growth is records with one space between each two, each {record}"
    )
}

/// What is wrong with the input.
fn write_wrong_input<W: fmt::Write>(
    f: &mut Formatter<W>,
    words: &FileWords<'_>,
    refusal: Refusal,
    shown: Option<&Excerpt>,
) -> fmt::Result {
    match refusal {
        Refusal::Line(n) => write_bad_line(f, n, words, shown),
        Refusal::TooLargeAtLine(n) => write!(
            f,
            "the growth of line {n} of the input is longer than the {} bytes of a frame",
            PAYLOAD_LIMIT
        ),
        Refusal::InputTooLong => write!(f, "the input is longer than {} bytes", INPUT_LIMIT),
        _ => f.write_str(wrong_input(words.task, refusal)),
    }
}

pub fn write_input<W: fmt::Write>(
    f: &mut Formatter<W>,
    words: &FileWords<'_>,
    refusal: Refusal,
    shown: Option<&Excerpt>,
) -> fmt::Result {
    let stands = stands_after_input(words.task);
    let about = about_input(words.task, refusal);
    write_wrong_input(f, words, refusal, shown)?;
    write!(f, "; {stands}{about}")
}
