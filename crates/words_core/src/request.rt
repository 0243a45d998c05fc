//! What the program is asked for.

ghost use Rattle.std.specs.Prelude.{◌≡◌};
ghost use Rattle.words_core.specs.Words.{type_word};

use record_core::{Bytes16, Bytes24, Bytes32, Bytes64, Flagged, Pair, width_of};
use segment_core::Format;
use stat_core::Form;
use std::num::NonZeroU32;

/// What is done with the input.
#[derive(Clone, Copy)]
pub enum Task {
    /// A segment file is made of group lines.
    Image,
    /// The records of a segment file are listed.
    Show,
    /// A script of steps is run over a disk in memory.
    Play,
}

/// The types of record that the program knows. Those of floats have the bytes of `u32` and `u64`, and are these but for their texts.
#[derive(Clone, Copy)]
pub enum RecordType {
    U8,
    U16,
    U32,
    U64,
    I32,
    I64,
    F32,
    F64,
    Pair,
    Flagged,
    Bytes16,
    Bytes24,
    Bytes32,
    Bytes64,
}

/// The table of the types of record, which hands it to a macro behind the words in brackets. A line has the variant, the word of the
/// type, the type of its records here, which is that of numbers for floats: these have their bits, and what the text of one is.
#[macro_export]
macro_rules! record_types {
    ($to:ident [$($words:tt)*]) => {
        $to! { [$($words)*]
            U8 "u8" u8, "a number from 0 to 255";
            U16 "u16" u16, "a number from 0 to 65535";
            U32 "u32" u32, "a number from 0 to 4294967295";
            U64 "u64" u64, "a number from 0 to 18446744073709551615";
            I32 "i32" i32, "a number from -2147483648 to 2147483647";
            I64 "i64" i64, "a number from -9223372036854775808 to 9223372036854775807";
            F32 "f32" u32, "a decimal number up to 3.4028235e38, inf or NaN";
            F64 "f64" u64, "a decimal number up to 1.7976931348623157e308, inf or NaN";
            Pair "pair" Pair, "a u64 and an i64 with a colon between them, as 7:-3";
            Flagged "flagged" Flagged, "a u64 and 0 or 1 with a colon between them, as 5:1";
            Bytes16 "bytes16" Bytes16, "32 hex digits in lower case";
            Bytes24 "bytes24" Bytes24, "48 hex digits in lower case";
            Bytes32 "bytes32" Bytes32, "64 hex digits in lower case";
            Bytes64 "bytes64" Bytes64, "128 hex digits in lower case";
        }
    };
}

/// The word of a type, by the table.
macro_rules! word_of {
    ([$of:expr] $($variant:ident $word:literal $record:ty, $form:literal;)*) => {
        match $of {
            $(RecordType::$variant => $word,)*
        }
    };
}

/// How many bytes a record of a type has, by the table.
macro_rules! width_of_type {
    ([$of:expr] $($variant:ident $word:literal $record:ty, $form:literal;)*) => {
        match $of {
            $(RecordType::$variant => width_of::<$record>(),)*
        }
    };
}

impl RecordType {
    /// The word of the type.
    pub fn word(self) -> &'static str
        ensures { result.now ≡ type_word self }
    {
        record_types!(word_of[self])
    }

    /// How many bytes a record of the type has.
    pub fn width(self) -> usize {
        record_types!(width_of_type[self])
    }
}

/// What is told of a vector that is followed.
#[derive(Clone, Copy)]
pub enum Following<'a> {
    /// The records from this position on, else all, and then those that come.
    Records { from: Option<&'a str> },
    /// The events behind this place, else all, by which another process keeps a copy.
    Events { after: Option<&'a str> },
}

/// What is done with a file. Words of records and numbers are as they were given.
#[derive(Clone, Copy)]
pub enum FileTask<'a> {
    /// A file of this version is made: over whatever is there, or only where nothing but a stopped creation's is.
    Create {
        format: Format,
        over: bool,
    },
    /// Growths of the input are appended, by so many growers.
    Load(u16),
    /// Growths of an input of any length are appended, each of so many lines. One that has its lines waits for more so
    /// many milliseconds at most.
    Append {
        block: NonZeroU32,
        every: u64,
    },
    /// The file is read, and what it has is told.
    Check,
    /// Records are listed: from which position on, and how many at most.
    List {
        from: Option<&'a str>,
        count: Option<&'a str>,
    },
    /// What a vector has, and then what comes, is told by looks so many milliseconds apart, or by one look.
    Follow {
        what: Following<'a>,
        poll: u64,
        once: bool,
    },
    /// The records that equal this one are counted.
    Count(&'a str),
    /// The first record that equals this one is found.
    Find(&'a str),
    /// The records from a position on are replaced: by these, or where there are none by those of the input.
    Set {
        start: &'a str,
        records: Option<&'a str>,
    },
    /// The length becomes another one. In parts: by as many growths as its new records take.
    Resize {
        len: &'a str,
        record: &'a str,
        in_parts: bool,
    },
    /// All records are taken away.
    Clear,
    /// Live changes are put into their home bytes.
    Fold,
    /// The vector is copied to a new file of version 2, which has this name.
    Upgrade(&'a str),
    /// The vector is copied to a new file of this name and version, else of the version that the file has: in growths of so
    /// many records, else of as many as it takes.
    Copy {
        new: &'a str,
        format: Option<Format>,
        block: Option<NonZeroU32>,
    },
    /// So many clients grow the vector through pipes.
    Serve(u16),
}

impl<'a> FileTask<'a> {
    /// The words of records that it has, as they were given.
    pub fn records(self) -> Option<&'a str> {
        match self {
            FileTask::Count(record) | FileTask::Find(record) => Some(record),
            FileTask::Set { records, .. } => records,
            FileTask::Resize { record, .. } => Some(record),
            _ => None,
        }
    }

    /// The same task with these words of records, if it has some.
    pub fn with_records(self, words: &'a str) -> FileTask<'a> {
        match self {
            FileTask::Count(_) => FileTask::Count(words),
            FileTask::Find(_) => FileTask::Find(words),
            FileTask::Set {
                start,
                records: Some(_),
            } => FileTask::Set {
                start,
                records: Some(words),
            },
            FileTask::Resize { len, in_parts, .. } => FileTask::Resize {
                len,
                record: words,
                in_parts,
            },
            task => task,
        }
    }
}

/// The runs of its task that a command makes.
#[derive(Clone, Copy)]
pub enum Course {
    /// One.
    Once,
    /// Of `list`: it is asked how many records there are, and then so many of them are listed, the last ones.
    Last(u64),
    /// Of `append`: again over the next file of the row, where one has so many records.
    Rotating(u64),
    /// Of `follow`: again over the file that has the name then, where it was replaced.
    Reopening,
    /// Of `copy`: of a damaged file what its whole frames hold before the damage.
    Sound,
}

/// A command over a file.
#[derive(Clone, Copy)]
pub struct FileWords<'a> {
    pub task: FileTask<'a>,
    pub course: Course,
    pub record_type: RecordType,
    /// The file's name.
    pub file: &'a str,
    /// Nothing is told of how far the work is.
    pub quiet: bool,
    /// How far `append` is is told in lines, whatever standard error is.
    pub progress: bool,
    /// `load`, `append` and `set` take lines leniently.
    pub lenient: bool,
    /// How `check`, `list`, `count` and `find` answer, and are refused.
    pub form: Form,
    /// The line of a refusal goes to standard error.
    pub refused_aside: bool,
    /// For how many seconds another command is waited for that has the file.
    pub wait: u64,
}

/// A look at a file whose type of record needn't be known.
#[derive(Clone, Copy)]
pub struct StatWords<'a> {
    /// The file's name.
    pub file: &'a str,
    /// How it is told, and refused.
    pub form: Form,
    /// The line of a refusal goes to standard error.
    pub refused_aside: bool,
    /// Nothing is told of how far the work is.
    pub quiet: bool,
    /// For how many seconds another command is waited for that has the file.
    pub wait: u64,
}

/// What the words ask for.
#[derive(Clone, Copy)]
pub enum Request<'a> {
    /// Work on the input alone.
    Input(Task, RecordType),
    /// Work on a file.
    File(FileWords<'a>),
    /// What a file has is told, whatever its records are.
    Stat(StatWords<'a>),
    /// The program tells this of itself.
    Tell(&'static [u8]),
}
