//! The words of each command, as `clap` is told of them.

use crate::record_types;
use clap::{Arg, ArgAction, Command};
use std::alloc::{AllocError, Global};

/// The words of all types, by the table.
macro_rules! words_of_types {
    ([] $($variant:ident $word:literal $record:ty, $form:literal;)*) => {
        [$($word,)*]
    };
}

/// The words for the types of record.
const TYPES: [&str; 14] = record_types!(words_of_types []);

/// The words for the versions of a file.
const FORMATS: [&str; 2] = ["1", "2"];

/// The word for where the line of a refusal goes, where that isn't standard output.
const ASIDE: [&str; 1] = ["stderr"];

/// The seconds that are waited where `--wait` has no number: for good.
const FOR_GOOD: &str = "18446744073709551615";

/// The commands over records, in the order in which usage tells them. `help` and `version` tell of the program.
pub const COMMANDS: [&str; 19] = [
    "image", "show", "play", "create", "load", "append", "serve", "upgrade", "copy", "check",
    "list", "follow", "count", "find", "stat", "set", "resize", "clear", "fold",
];

/// How a word of a command is given.
#[derive(Clone, Copy)]
enum Form {
    /// By its place, as a type of record. It has to be there.
    Type,
    /// By its place, as the name of a command.
    Command,
    /// By its place. It has to be there, and may be a negative number, which is none of the program's and refused as such.
    Placed,
    /// By its name alone: it is there or isn't.
    Flag,
    /// A flag that this other word rules out.
    FlagWithout(&'static str),
    /// A value behind its name, with `=` or as the next word. That may be a negative number, but no other word of an option.
    Valued,
    /// A value that has to be there.
    Needed,
    /// A value that this other word rules out.
    ValuedWithout(&'static str),
    /// A value that needs this other word.
    ValuedWith(&'static str),
    /// A value that is a version of a file.
    Format,
    /// A value that says where the line of a refusal goes.
    Aside,
    /// A value that is a number of seconds. Without a number they are for good.
    Seconds,
    /// Records, the first of which may be negative. They have to be there unless this other word is, and never both are.
    RecordsUnless(&'static str),
}

/// A word of a command: its name, and how it is given.
#[derive(Clone, Copy)]
struct Word(&'static str, Form);

const TYPE: Word = Word("TYPE", Form::Type);

const FILE: Word = Word("FILE", Form::Placed);

const NEW: Word = Word("NEW", Form::Placed);

const QUIET: Word = Word("quiet", Form::Flag);

/// For how many seconds another command is waited for.
const WAIT: Word = Word("wait", Form::Seconds);

/// Where the line of a refusal goes.
const REFUSALS: Word = Word("refusals", Form::Aside);

const JSON: Word = Word("json", Form::Flag);

const FORMAT: Word = Word("format", Form::Format);

const BLOCK: Word = Word("block", Form::Valued);

const RECORD: Word = Word("record", Form::Needed);

const LENIENT: Word = Word("lenient", Form::Flag);

/// The words that most commands have over a file.
static OVER_FILE: [Word; 5] = [TYPE, FILE, QUIET, WAIT, REFUSALS];

/// Those of a command over the input.
static OVER_INPUT: [Word; 1] = [TYPE];

/// Those of `follow`, which takes no lock, so it never waits for one.
static OVER_FOLLOWED: [Word; 4] = [TYPE, FILE, QUIET, REFUSALS];

/// Those of `stat`, for which a file has no type.
static OVER_ANY_FILE: [Word; 4] = [FILE, QUIET, WAIT, REFUSALS];

static NO_WORDS: [Word; 0] = [];

static OF_CREATE: [Word; 2] = [FORMAT, Word("over", Form::Flag)];

static OF_LOAD: [Word; 2] = [Word("seats", Form::Valued), LENIENT];

static OF_APPEND: [Word; 5] = [
    BLOCK,
    Word("every", Form::Valued),
    Word("rotate", Form::Valued),
    Word("progress", Form::Flag),
    LENIENT,
];

static OF_SERVE: [Word; 1] = [Word("seats", Form::Needed)];

static OF_UPGRADE: [Word; 1] = [NEW];

static OF_COPY: [Word; 4] = [NEW, FORMAT, BLOCK, Word("sound", Form::Flag)];

static OF_CHECK: [Word; 1] = [JSON];

static OF_LIST: [Word; 4] = [
    Word("from", Form::ValuedWithout("last")),
    Word("count", Form::ValuedWithout("last")),
    Word("last", Form::Valued),
    JSON,
];

static OF_SEARCH: [Word; 2] = [RECORD, JSON];

static OF_STAT: [Word; 1] = [JSON];

static OF_FOLLOW: [Word; 6] = [
    Word("from", Form::ValuedWithout("events")),
    Word("once", Form::FlagWithout("reopen")),
    Word("reopen", Form::FlagWithout("events")),
    Word("poll", Form::Valued),
    Word("events", Form::Flag),
    Word("after", Form::ValuedWith("events")),
];

static OF_SET: [Word; 4] = [
    Word("START", Form::Placed),
    Word("records", Form::RecordsUnless("input")),
    Word("input", Form::Flag),
    Word("lenient", Form::FlagWithout("records")),
];

static OF_RESIZE: [Word; 3] = [Word("N", Form::Placed), RECORD, Word("parts", Form::Flag)];

static OF_HELP: [Word; 1] = [Word("COMMAND", Form::Command)];

/// The words that a command has in common with others.
fn common_words(name: &str) -> &'static [Word] {
    match name {
        "image" | "show" | "play" => &OVER_INPUT,
        "follow" => &OVER_FOLLOWED,
        "stat" => &OVER_ANY_FILE,
        "help" | "version" => &NO_WORDS,
        _ => &OVER_FILE,
    }
}

/// The words that are a command's own, behind the common ones.
fn own_words(name: &str) -> &'static [Word] {
    match name {
        "create" => &OF_CREATE,
        "load" => &OF_LOAD,
        "append" => &OF_APPEND,
        "serve" => &OF_SERVE,
        "upgrade" => &OF_UPGRADE,
        "copy" => &OF_COPY,
        "check" => &OF_CHECK,
        "list" => &OF_LIST,
        "follow" => &OF_FOLLOW,
        "count" | "find" => &OF_SEARCH,
        "stat" => &OF_STAT,
        "set" => &OF_SET,
        "resize" => &OF_RESIZE,
        "help" => &OF_HELP,
        _ => &NO_WORDS,
    }
}

/// The name of the word, where it is an option.
fn option_of(word: Word) -> Option<&'static str> {
    let Word(name, form) = word;
    match form {
        Form::Type | Form::Command | Form::Placed => None,
        _ => Some(name),
    }
}

/// The names of a command's options.
pub fn options_of(alloc: Global, name: &str) -> Result<Vec<&'static str>, AllocError> {
    let mut options = Vec::new(alloc);
    for word in common_words(name).iter().chain(own_words(name).iter()) {
        if let Some(option) = option_of(*word) {
            options.push(option)?;
        }
    }
    Ok(options)
}

/// A word by its place.
fn placed<'a>(alloc: Global, name: &'a str) -> Arg<'a> {
    Arg::new(alloc, name).action(ArgAction::Set)
}

fn flag<'a>(alloc: Global, name: &'a str) -> Arg<'a> {
    Arg::new(alloc, name).long(name).action(ArgAction::SetTrue)
}

fn valued<'a>(alloc: Global, name: &'a str) -> Arg<'a> {
    placed(alloc, name).long(name).allow_negative_numbers(true)
}

fn seconds<'a>(alloc: Global, name: &'a str) -> Arg<'a> {
    valued(alloc, name)
        .num_args(0..=1)
        .require_equals(true)
        .default_missing_value(FOR_GOOD)
}

fn records_unless<'a>(alloc: Global, name: &'a str, other: &'a str) -> Result<Arg<'a>, AllocError> {
    valued(alloc, name)
        .allow_hyphen_values(true)
        .required_unless_present(other)?
        .conflicts_with(other)
}

/// The word as `clap` takes it.
fn arg_of<'a>(alloc: Global, word: Word) -> Result<Arg<'a>, AllocError> {
    let Word(name, form) = word;
    match form {
        Form::Type => Ok(
            placed(alloc, name)
                .required(true)
                .value_parser(TYPES.as_slice()),
        ),
        Form::Command => Ok(placed(alloc, name).value_parser(COMMANDS.as_slice())),
        Form::Placed => Ok(
            placed(alloc, name)
                .required(true)
                .allow_negative_numbers(true),
        ),
        Form::Flag => Ok(flag(alloc, name)),
        Form::FlagWithout(other) => flag(alloc, name).conflicts_with(other),
        Form::Valued => Ok(valued(alloc, name)),
        Form::Needed => Ok(valued(alloc, name).required(true)),
        Form::ValuedWithout(other) => valued(alloc, name).conflicts_with(other),
        Form::ValuedWith(other) => valued(alloc, name).requires_arg(other),
        Form::Format => Ok(valued(alloc, name).value_parser(FORMATS.as_slice())),
        Form::Aside => Ok(valued(alloc, name).value_parser(ASIDE.as_slice())),
        Form::Seconds => Ok(seconds(alloc, name)),
        Form::RecordsUnless(other) => records_unless(alloc, name, other),
    }
}

/// The command with these words too.
fn with_words<'a>(
    alloc: Global,
    command: Command<'a>,
    words: &[Word],
) -> Result<Command<'a>, AllocError> {
    let mut command = command;
    for word in words {
        command = command.arg(arg_of(alloc, *word)?)?;
    }
    Ok(command)
}

/// A command with its words.
fn command_of<'a>(alloc: Global, name: &'a str) -> Result<Command<'a>, AllocError> {
    let command = with_words(alloc, Command::new(alloc, name), common_words(name))?;
    with_words(alloc, command, own_words(name))
}

/// The program, which has none of its commands yet.
fn program<'a>(alloc: Global) -> Command<'a> {
    Command::new(alloc, "cvec")
        .no_binary_name(true)
        .subcommand_required(true)
        .disable_help_subcommand(true)
}

/// The program with one more command.
fn with_command<'a>(
    alloc: Global,
    all: Command<'a>,
    name: &'a str,
) -> Result<Command<'a>, AllocError> {
    all.subcommand(command_of(alloc, name)?)
}

/// All commands.
pub fn all_commands<'a>(alloc: Global) -> Result<Command<'a>, AllocError> {
    let mut all = program(alloc);
    for name in COMMANDS.iter() {
        all = with_command(alloc, all, *name)?;
    }
    with_command(alloc, with_command(alloc, all, "help")?, "version")
}
