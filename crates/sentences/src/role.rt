//! Which of a command's files isn't there, can't be opened or is in use.

use std::fmt::{self, Formatter};
use std::io::{self, ErrorKind};
use words_core::{FileTask, FileWords};

/// Which of a command's files.
#[derive(Clone, Copy)]
pub enum Role {
    /// FILE.
    File,
    /// NEW of `upgrade` and `copy`.
    New,
    /// A pipe of `serve`.
    Pipe,
}

/// The name of a file of the command.
pub fn name_of<'a>(words: &FileWords<'a>, role: Role) -> &'a str {
    match (role, words.task) {
        (Role::New, FileTask::Upgrade(new) | FileTask::Copy { new, .. }) => new,
        (Role::Pipe, _) => "a pipe of the clients",
        _ => words.file,
    }
}

/// What a command opens a file for.
#[derive(Clone, Copy)]
pub enum Purpose {
    /// To read it alone.
    Reads,
    /// To read and write it.
    Writes,
    /// So too, and to make it where there is none.
    Makes,
}

/// What the command opens this file of its own for.
pub fn purpose_of(task: FileTask<'_>, role: Role) -> Purpose {
    match (task, role) {
        (FileTask::Create { .. }, _) | (_, Role::New) => Purpose::Makes,
        (
            FileTask::Check
            | FileTask::List { .. }
            | FileTask::Follow { .. }
            | FileTask::Count(_)
            | FileTask::Find(_)
            | FileTask::Upgrade(_)
            | FileTask::Copy { .. },
            _,
        ) => Purpose::Reads,
        _ => Purpose::Writes,
    }
}

/// What to do about a file or a pipe that isn't opened.
fn about_error(role: Role, error: &io::Error, purpose: Purpose) -> &'static str {
    match error.kind() {
        ErrorKind::NotFound if matches!(role, Role::Pipe) =>
            "it isn't there: descriptors 3 and 4 are those of the first client, and two more those of each further one",
        ErrorKind::NotFound if matches!(purpose, Purpose::Makes) => "there is no folder for it",
        ErrorKind::NotFound =>
            "there is no such file, or no folder for it; `cvec create` makes a file",
        ErrorKind::PermissionDenied if matches!(purpose, Purpose::Reads) => "you may not read it",
        ErrorKind::PermissionDenied => "you may not read and write it, or make it in its folder",
        ErrorKind::IsADirectory => "it is a folder, and not a file",
        ErrorKind::AlreadyExists => "it is FILE itself",
        ErrorKind::Unsupported if error.raw_os_error().is_none() => "it is no plain file",
        _ => "it can't be opened or made",
    }
}

pub fn write_not_opened<W: fmt::Write>(
    f: &mut Formatter<W>,
    name: &str,
    role: Role,
    error: &io::Error,
    purpose: Purpose,
) -> fmt::Result {
    let about = about_error(role, error, purpose);
    write!(f, "{name}: {about} ({error}); nothing was read or written")
}

/// For how long another command was waited for, where it was.
fn write_wait<W: fmt::Write>(f: &mut Formatter<W>, wait: u64) -> fmt::Result {
    match wait {
        0 => Ok(()),
        seconds => write!(f, "; it was waited for {seconds} s"),
    }
}

pub fn write_in_use<W: fmt::Write>(f: &mut Formatter<W>, name: &str, wait: u64) -> fmt::Result {
    write!(
        f,
        "{name}: another command uses it; nothing was read or written; wait for its end"
    )?;
    write_wait(f, wait)
}
