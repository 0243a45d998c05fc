//! What standard error tells of a refusal: what was wrong with what, what stands now, and what to do next.

ghost use Rattle.std.specs.Prelude.{◌≡◌};

use crate::beside::{BesideFault, write_beside};
use crate::bytes::write_open;
use crate::calls::{RefusedCall, call_behind, mending};
use crate::input::{write_input, write_word};
use crate::role::{Purpose, Role, name_of, purpose_of, write_in_use, write_not_opened};
use crate::standing::Standing;
use crate::vault::{
    write_commit_fault, write_create_fault, write_new, write_resize_fault, write_stopped,
    write_vault,
};
use files_core::{Appended, FileFault};
use lines_core::Excerpt;
use pen_core::{OpenFault, PenFault};
use std::fmt::{self, Display, Formatter};
use std::io;
use vault_core::{UpgradeFault, VaultFault};
use words_core::{FileTask, FileWords, Request, StatWords};

/// Why a command over a file is refused.
#[derive(Clone, Copy)]
pub enum Complaint {
    /// The file can't be opened or made. Nothing was read or written.
    NotOpened(Role, io::Error),
    /// Another command has the file. Nothing was read or written.
    InUse(Role),
    /// As the command's engine refuses.
    Fault(FileFault),
    /// As the command's engine refuses a damaged file. So many records are sound before the damage.
    Damaged(u64, FileFault),
    /// `append` or `load` was refused when so much was settled.
    Appended(Appended, FileFault),
    /// `serve` was refused when so many growths of its clients were settled.
    Served(u64, FileFault),
    /// A command that reads beside a writer was refused as no other one is.
    Beside(BesideFault),
}

impl From<FileFault> for Complaint {
    ghost use Rattle.sentences.specs.declared.complaint.Complaint.{Complaint};

    ghost from_gives = { λ fault complaint. complaint ≡ Complaint.Fault fault };

    fn from(fault: FileFault) -> Complaint {
        Complaint::Fault(fault)
    }
}

/// The complaint of a command that was asked for, as a sentence.
#[derive(Drop)]
pub struct Sentence<'a> {
    pub request: Request<'a>,
    pub complaint: Complaint,
    /// Of the line that is refused, where it is for its form.
    pub shown: Option<Excerpt>,
    /// In the command's file.
    pub stands: Standing,
    /// The call of its files that the system refused, if that was known.
    pub refused: Option<RefusedCall>,
}

/// What is wrong with the bytes of the command's file, or why the system didn't read it.
fn write_open_of<W: fmt::Write>(
    f: &mut Formatter<W>,
    words: &FileWords<'_>,
    fault: OpenFault,
    sentence: &Sentence<'_>,
) -> fmt::Result {
    let Sentence {
        stands,
        refused,
        ..
    } = *sentence;
    write_open(
        f,
        words.file,
        Some(words.record_type),
        fault,
        stands,
        refused,
    )
}

fn write_upgrade<W: fmt::Write>(
    f: &mut Formatter<W>,
    words: &FileWords<'_>,
    fault: UpgradeFault,
    sentence: &Sentence<'_>,
) -> fmt::Result {
    let name = words.file;
    let new = name_of(words, Role::New);
    match fault {
        UpgradeFault::Old(fault) => { write_open_of(f, words, fault, sentence) }
        UpgradeFault::NotOld => write!(f, "{name}: it has version 2 already; nothing was written"),
        UpgradeFault::New(fault) => {
            write!(f, "{new}: ")?;
            write_new(f, fault, sentence.refused)?;
            write!(f, "; {name} is as it was")
        }
    }
}

fn write_fault<W: fmt::Write>(
    f: &mut Formatter<W>,
    words: &FileWords<'_>,
    fault: FileFault,
    sentence: &Sentence<'_>,
) -> fmt::Result {
    match fault {
        FileFault::Word(word) => write_word(f, words, word),
        FileFault::Input(refusal) => write_input(f, words, refusal, sentence.shown.as_ref()),
        FileFault::Open(fault) => write_open_of(f, words, fault, sentence),
        FileFault::Vault(fault) => match words.task {
            FileTask::Load(_) | FileTask::Append { .. } | FileTask::Serve(_) => {
                write_commit_fault(f, words.file, fault, sentence.refused)
            }
            FileTask::Resize { in_parts, .. } => {
                write_resize_fault(f, words.file, fault, in_parts, sentence.refused)
            }
            FileTask::Create { .. } => { write_create_fault(f, words.file, fault, sentence) }
            _ => write_vault(f, words.file, fault, sentence.refused),
        },
        FileFault::Grower(stopped) => write_stopped(f, words.file, stopped),
        FileFault::Upgrade(fault) => write_upgrade(f, words, fault, sentence),
    }
}

/// What is wrong, by a complaint.
fn write_wrong<W: fmt::Write>(
    f: &mut Formatter<W>,
    words: &FileWords<'_>,
    sentence: &Sentence<'_>,
) -> fmt::Result {
    match &sentence.complaint {
        Complaint::NotOpened(role, error) => {
            let purpose = purpose_of(words.task, *role);
            write_not_opened(f, name_of(words, *role), *role, error, purpose)
        }
        Complaint::InUse(role) => write_in_use(f, name_of(words, *role), words.wait),
        Complaint::Fault(fault)
        | Complaint::Damaged(_, fault)
        | Complaint::Appended(_, fault)
        | Complaint::Served(_, fault) => write_fault(f, words, *fault, sentence),
        Complaint::Beside(fault) => write_beside(f, words, *fault),
    }
}

/// What may stand behind the lines of the input that stand as growths.
fn about_behind(task: FileTask<'_>, fault: FileFault) -> &'static str {
    match fault {
        FileFault::Vault(fault)
            if matches!(task, FileTask::Load(_))
                || matches!(fault, VaultFault::Pen(PenFault::Disk(_))) =>
            ", and maybe some behind them: `cvec check` tells how many records there are",
        _ => "",
    }
}

/// What is to be done behind a call that the system refused, and what then.
fn write_next<W: fmt::Write>(
    f: &mut Formatter<W>,
    fault: FileFault,
    refused: Option<RefusedCall>,
    next: &str,
) -> fmt::Result {
    let FileFault::Vault(fault) = fault else {
        return Ok(());
    };
    match call_behind(fault, refused) {
        Some(call) => {
            let mending = mending(call, refused);
            write!(f, "; {mending}, {next}")
        }
        None => Ok(()),
    }
}

/// How many lines of the input stand as growths, and how it goes on. Where a grower of `load` stopped, that tells what stands.
fn write_lines<W: fmt::Write>(
    f: &mut Formatter<W>,
    task: FileTask<'_>,
    lines: u64,
    fault: FileFault,
    refused: Option<RefusedCall>,
) -> fmt::Result {
    if matches!(task, FileTask::Load(_)) && matches!(fault, FileFault::Grower(_)) {
        return Ok(());
    }
    let behind = about_behind(task, fault);
    write!(f, "; the growths of the first {lines} lines stand{behind}")?;
    let next = "and the same command goes on with the lines behind those that stand";
    write_next(f, fault, refused, next)
}

/// What is sound or stands, behind what is wrong, where a complaint tells of that.
fn write_standing<W: fmt::Write>(
    f: &mut Formatter<W>,
    words: &FileWords<'_>,
    sentence: &Sentence<'_>,
) -> fmt::Result {
    match &sentence.complaint {
        Complaint::Damaged(sound, _) => write!(f, "; the {sound} records before that are sound"),
        Complaint::Appended(appended, fault) => {
            write_lines(f, words.task, appended.lines, *fault, sentence.refused)
        }
        Complaint::Served(growths, fault) => {
            write!(f, "; the first {growths} growths of its clients stand")?;
            write_next(f, *fault, sentence.refused, "then start it again")
        }
        _ => Ok(()),
    }
}

fn write_of_file<W: fmt::Write>(
    f: &mut Formatter<W>,
    words: &FileWords<'_>,
    sentence: &Sentence<'_>,
) -> fmt::Result {
    write_wrong(f, words, sentence)?;
    write_standing(f, words, sentence)
}

fn write_stat_fault<W: fmt::Write>(
    f: &mut Formatter<W>,
    name: &str,
    fault: FileFault,
    sentence: &Sentence<'_>,
) -> fmt::Result {
    let Sentence {
        stands,
        refused,
        ..
    } = *sentence;
    match fault {
        FileFault::Open(fault) => write_open(f, name, None, fault, stands, refused),
        _ => write!(f, "{name}: it is refused; it is as it was"),
    }
}

fn write_of_stat<W: fmt::Write>(
    f: &mut Formatter<W>,
    words: &StatWords<'_>,
    sentence: &Sentence<'_>,
) -> fmt::Result {
    let name = words.file;
    match &sentence.complaint {
        Complaint::NotOpened(role, error) => {
            write_not_opened(f, name, *role, error, Purpose::Reads)
        }
        Complaint::InUse(_) => write_in_use(f, name, words.wait),
        Complaint::Fault(fault) | Complaint::Appended(_, fault) | Complaint::Served(_, fault) =>
            write_stat_fault(f, name, *fault, sentence),
        Complaint::Damaged(before, fault) => {
            write_stat_fault(f, name, *fault, sentence)?;
            write!(f, "; the frames before that leave {before} records")
        }
        // `stat` doesn't read beside a writer.
        Complaint::Beside(_) => Ok(()),
    }
}

impl<'a> Display for Sentence<'a> {
    fn fmt<W: fmt::Write>(&self, f: &mut Formatter<W>) -> fmt::Result {
        match &self.request {
            Request::File(words) => write_of_file(f, words, self),
            Request::Stat(words) => write_of_stat(f, words, self),
            Request::Input(..) | Request::Tell(_) => Ok(()),
        }
    }
}
