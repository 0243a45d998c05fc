//! Files that are opened, and who may use them at once.

ghost use Rattle.std.specs.Prelude.{◌≡◌, [], ◌∷◌, IfOk, IfErr, MatchResult};
ghost use Rattle.disk_core.specs.File.{opened};
ghost use Rattle.disk_core.specs.FileDisk.{truth_of, states_of, faults_of, KeepsSoFar};
ghost use Rattle.disk_core.specs.SharedFile.{now_of, HasKept};
ghost use Rattle.filing_core.specs.Beside.{IsJustReadable};
ghost use Rattle.filing_core.specs.Complaints.{IsJustOpened, IsUnopened};

use crate::noting::{NotedDisk, NotedFile, RefusalNote};
use disk_core::{FileDisk, SharedFile};
use segment_core::EMPTY_FILE_LEN;
use sentences::{Complaint, Role};
use std::fs::{self, File, Metadata, OpenFile, OpenOptions, TryLockError};
use std::io::ErrorKind;
use std::os::unix::fs::{FileExt, FileTypeExt, MetadataExt, OpenOptionsExt, PermissionsExt};
use std::rt::Files;
use std::time::{Clock, Duration, Instant};
use std::{io, thread};

/// The milliseconds between two tries for a lock, and how many are a second.
const NAP: u64 = 5;

const NAPS: u64 = 200;

/// For how many seconds at least a command that writes waits for those that only read its file: they have its lock until they
/// have read it, and mostly that is soon.
const READERS_WAIT: u64 = 10;

/// What a command does with a file.
#[derive(Clone, Copy)]
pub enum Access {
    /// It reads, and needs leave for that alone. Others may read at once.
    Reads,
    /// It writes, and is alone meanwhile.
    Writes,
    /// It makes the file where there is none, with these permissions but for those that the process's mask takes away, writes,
    /// and is alone meanwhile.
    Makes { mode: u32 },
}

/// The permissions of a new file: all may read and write it whom the process's mask lets.
pub const ORDINARY: u32 = 0o666;

impl Access {
    /// The permissions of a file that it makes.
    fn mode(self) -> u32 {
        match self {
            Access::Makes { mode } => mode,
            Access::Reads | Access::Writes => ORDINARY,
        }
    }
}

/// A locked file. Others of this program heed the lock as long as this stands.
#[derive(Drop)]
pub struct LockedFile {
    pub file: File,
    /// It was made with this lock.
    pub is_new: bool,
}

/// A file as a disk, with its lock.
#[derive(Drop)]
pub struct Opened<'a> {
    pub disk: NotedDisk<'a>,
    pub lock: LockedFile,
}

/// The error of what is neither a plain file nor a folder: it names what that is.
fn no_plain_file(known: &Metadata) -> io::Error {
    let file_type = known.file_type();
    let name = if file_type.is_fifo() {
        "a pipe"
    } else if file_type.is_socket() {
        "a socket"
    } else {
        "a device"
    };
    io::Error::new(ErrorKind::Unsupported, name)
}

/// Whether a folder stands at this path. What is neither that nor a plain file is refused before it is opened: to open one may
/// wait, or do more.
fn is_folder<F: Files<File = File>>(files: &F, path: &str) -> io::Result<bool> {
    let known = fs::metadata(files, path)?;
    if known.is_file() || known.is_dir() {
        Ok(known.is_dir())
    } else {
        Err(no_plain_file(&known))
    }
}

/// Opens the file at this path to be read alone. A folder is opened to be written too, and so refused.
pub fn open_to_read<F: Files<File = File>>(files: &F, path: &str) -> io::Result<File> {
    let is_folder = is_folder(files, path)?;
    OpenOptions::new()
        .read(true)
        .write(is_folder)
        .open(files, path)
}

/// Opens the file at this path to be written too, and makes it, where it may, if there is none.
fn open_to_write<F: Files<File = File>>(
    files: &F,
    path: &str,
    access: Access,
) -> io::Result<LockedFile> {
    match is_folder(files, path) {
        Err(error) if error.kind() == ErrorKind::Unsupported => return Err(error),
        _ => {}
    }
    let makes = !matches!(access, Access::Writes);
    let mut options = OpenOptions::new();
    options.read(true).write(true).mode(access.mode());
    if makes {
        match options.create_new(true).open(files, path) {
            Ok(file) => return Ok(LockedFile { file, is_new: true }),
            Err(error) if error.kind() == ErrorKind::AlreadyExists => {}
            Err(error) => return Err(error),
        }
    }
    // Where a link leads to no file, that is made.
    let file = options.create_new(false).create(makes).open(files, path)?;
    Ok(LockedFile {
        file,
        is_new: false,
    })
}

/// Opens the file at this path for what is done with it. It isn't locked yet.
fn open_for<F: Files<File = File>>(
    files: &F,
    path: &str,
    access: Access,
) -> io::Result<LockedFile> {
    match access {
        Access::Reads => Ok(LockedFile {
            file: open_to_read(files, path)?,
            is_new: false,
        }),
        Access::Writes | Access::Makes { .. } => open_to_write(files, path, access),
    }
}

/// Why a file isn't locked.
#[derive(Clone, Copy)]
enum Unlocked {
    /// It can't be opened, made or locked.
    Failed(io::Error),
    /// Its name leads to another file by now, or to none.
    Replaced,
    /// Commands have it that only read.
    Read,
    /// A command has it that writes.
    Written,
}

impl Unlocked {
    /// The same of a file of that role.
    fn complaint(self, role: Role) -> Complaint
        ensures { IsUnopened role result }
    {
        match self {
            Unlocked::Failed(error) => Complaint::NotOpened(role, error),
            Unlocked::Replaced | Unlocked::Read | Unlocked::Written => Complaint::InUse(role),
        }
    }
}

/// Who has the file that couldn't be locked: those who only read share it. It is closed, and so is a lock that was got.
fn holder_of(lock: LockedFile) -> Unlocked {
    match lock.file.try_lock_shared() {
        Ok(()) => Unlocked::Read,
        Err(TryLockError::WouldBlock) => Unlocked::Written,
        Err(TryLockError::Error(error)) => Unlocked::Failed(error),
    }
}

/// What the system knows of an open file. Where the call is interrupted, it is made again.
pub fn known_of(file: &File) -> io::Result<Metadata> {
    for _ in 0..u64::MAX {
        match file.metadata() {
            Err(error) if error.kind() == ErrorKind::Interrupted => {}
            answered => return answered,
        }
    }
    Err(ErrorKind::Interrupted.into())
}

/// Whether an open file has a vector's header, whose gate stands in front of it and is open.
fn is_born(file: &File) -> bool {
    let mut gate = [0];
    for _ in 0..u64::MAX {
        match file.read_at(&mut gate, 0) {
            Err(error) if error.kind() == ErrorKind::Interrupted => {}
            read => return matches!(read, Ok(1)) && gate[0] == 1,
        }
    }
    false
}

/// How many bytes of an open file are a vector's: all, or none where it has no header, or where the system doesn't tell.
pub fn vector_len(file: &File) -> u64 {
    match known_of(file) {
        Ok(known) if is_born(file) => known.len(),
        _ => 0,
    }
}

/// Whether this is what the system knows of one file.
fn is_one(one: &Metadata, two: &Metadata) -> bool {
    one.dev() == two.dev() && one.ino() == two.ino()
}

/// Whether the path leads to this file, which has to be a plain one.
fn leads_to<F: Files<File = File>>(files: &F, path: &str, file: &File) -> io::Result<bool> {
    let opened = known_of(file)?;
    if !opened.is_file() {
        return Err(no_plain_file(&opened));
    }
    match fs::metadata(files, path) {
        Ok(named) => Ok(is_one(&named, &opened)),
        Err(error) if error.kind() == ErrorKind::NotFound => Ok(false),
        Err(error) => Err(error),
    }
}

/// Syncs the folder of a file that is new, so that a crash does not take its name away.
pub fn keep_name<F: Files<File = File> + AllocGlobal>(files: &F, path: &str) -> io::Result<()> {
    drop(FileDisk::<File>::make(files, path)?);
    Ok(())
}

/// Whether an open file has no more than what a stopped creation leaves. Where the system doesn't tell, it may have.
fn is_unborn(file: &File) -> bool {
    let mut gate = [0];
    let is_closed = file.read_at(&mut gate, 0).is_ok() && gate[0] == 0;
    is_closed && matches!(known_of(file), Ok(known) if known.len() <= EMPTY_FILE_LEN as u64)
}

/// Takes a file away that was made for a command, where its name still leads to it. One in which another command made a vector,
/// before this one had the lock, stays. Another that waits for the lock opens the name anew.
pub fn withdraw<F: Files<File = File>>(files: &F, path: &str, lock: &LockedFile) {
    let is_ours = lock.is_new && is_unborn(&lock.file);
    if is_ours && matches!(leads_to(files, path, &lock.file), Ok(true)) {
        let _ = fs::remove_file(files, path);
    }
}

/// The locked file, if it has the name: what is written to one without a name would be lost.
fn named<F: Files<File = File> + AllocGlobal>(
    files: &F,
    path: &str,
    access: Access,
    lock: LockedFile,
) -> Result<LockedFile, Unlocked> {
    if matches!(access, Access::Makes { .. }) {
        // It may be new.
        if let Err(error) = keep_name(files, path) {
            withdraw(files, path, &lock);
            return Err(Unlocked::Failed(error));
        }
    }
    match leads_to(files, path, &lock.file) {
        Ok(true) => Ok(lock),
        Ok(false) => Err(Unlocked::Replaced),
        Err(error) => Err(Unlocked::Failed(error)),
    }
}

/// Locks the file at this path. Nothing is read, and nothing written.
fn lock<F: Files<File = File> + AllocGlobal>(
    files: &F,
    path: &str,
    access: Access,
) -> Result<LockedFile, Unlocked> {
    let lock = match open_for(files, path, access) {
        Ok(lock) => lock,
        Err(error) => return Err(Unlocked::Failed(error)),
    };
    let locked = match access {
        Access::Reads => lock.file.try_lock_shared(),
        Access::Writes | Access::Makes { .. } => lock.file.try_lock(),
    };
    match locked {
        Ok(()) => named(files, path, access, lock),
        Err(TryLockError::WouldBlock) => Err(holder_of(lock)),
        Err(TryLockError::Error(error)) => Err(Unlocked::Failed(error)),
    }
}

/// For how many seconds those are waited for that only read the file of that role, where a writer is for so many. What only
/// reads a new file has nothing to read.
fn wait_for_readers(role: Role, seconds: u64) -> u64 {
    match role {
        Role::File => seconds.max(READERS_WAIT),
        Role::New | Role::Pipe => seconds,
    }
}

/// How many naps it has waited for. Where there is a clock, so many as the time since has: on a busy machine a nap takes longer.
fn naps_since<C: Clock>(clock: &C, begun: Option<Instant>, naps: u64) -> u64 {
    let Some(begun) = begun else {
        return naps;
    };
    match begun.elapsed(clock) {
        Ok(since) => naps.max(since.as_secs().saturating_mul(NAPS)),
        Err(_) => naps,
    }
}

/// Locks the file at this path, and tries again: for so many seconds while a command has it that writes, and for some at least
/// while others only read it. Each try opens it anew, for meanwhile another file may have got this name.
pub fn lock_within<F: Files<File = File> + Clock + AllocGlobal>(
    files: &F,
    path: &str,
    access: Access,
    role: Role,
    seconds: u64,
) -> Result<LockedFile, Complaint>
    ensures { IfErr result (IsUnopened role) }
{
    let for_writer = seconds.saturating_mul(NAPS);
    let for_readers = wait_for_readers(role, seconds).saturating_mul(NAPS);
    let begun = Instant::now(files).ok();
    for slept in 0..for_readers {
        let naps = naps_since(files, begun, slept);
        match lock(files, path, access) {
            Ok(lock) => return Ok(lock),
            Err(Unlocked::Read | Unlocked::Replaced) if naps < for_readers => {}
            Err(Unlocked::Written) if naps < for_writer => {}
            Err(unlocked) => return Err(unlocked.complaint(role)),
        }
        thread::sleep(files, Duration::from_millis(NAP));
    }
    match lock(files, path, access) {
        Ok(lock) => Ok(lock),
        Err(unlocked) => Err(unlocked.complaint(role)),
    }
}

/// A disk over a file that is open to be read. What it holds isn't told.
fn disk_over<F: FileExt + OpenFile + Drop>(file: F) -> FileDisk<F>
    ensures states { states_of result ≡ opened (truth_of result).held ∷ [] }
    ensures faults { faults_of result ≡ 0 }
    ensures keeps { KeepsSoFar result }
{
    FileDisk::over(file)
}

/// A disk over a file that is locked, so it is that one whatever its name leads to by now.
fn locked_disk<'a>(file: &File, note: &'a RefusalNote) -> io::Result<NotedDisk<'a>>
    ensures { IfOk result IsJustOpened }
{
    Ok(disk_over(NotedFile::new(file.try_clone()?, note)))
}

/// A locked file as a disk, with its lock.
pub fn under_lock<'a>(
    lock: LockedFile,
    note: &'a RefusalNote,
    role: Role,
) -> Result<Opened<'a>, Complaint>
    ensures opened { IfOk result (λ opened. IsJustOpened opened.disk) }
    ensures shut { IfErr result (IsUnopened role) }
{
    match locked_disk(&lock.file, note) {
        Ok(disk) => Ok(Opened { disk, lock }),
        Err(error) => Err(Complaint::NotOpened(role, error)),
    }
}

/// Locks and opens the file at this path. Nothing is read, and nothing written. Refused where it can't be opened or made, and
/// where another command has it and keeps it for so many seconds; FILE, where others only read it, for `READERS_WAIT` at least.
pub fn open<'a, F: Files<File = File> + Clock + AllocGlobal>(
    files: &F,
    note: &'a RefusalNote,
    path: &str,
    access: Access,
    role: Role,
    seconds: u64,
) -> Result<Opened<'a>, Complaint>
    ensures opened { IfOk result (λ opened. IsJustOpened opened.disk) }
    ensures shut { IfErr result (IsUnopened role) }
{
    let lock = lock_within(files, path, access, role, seconds)?;
    under_lock(lock, note, role)
}

/// An open file that another process may write meanwhile. What it holds isn't told.
pub fn shared<F: FileExt + OpenFile + Drop>(file: F) -> SharedFile<F>
    ensures now { now_of result ≡ 0 }
    ensures keeps { HasKept result }
{
    SharedFile::over(file)
}

/// A file that is read.
#[derive(Drop)]
pub enum Readable<'a> {
    /// Under a lock, so that nobody writes it.
    Locked(Opened<'a>),
    /// Beside the command that has it.
    Beside(SharedFile),
}

/// The permissions of an owner, without whom nobody could go on with a file.
pub const OWNERS: u32 = 0o600;

/// The permissions of a copy of the file at this path: those of that one and its owner's. Where the system doesn't tell them, its
/// owner's alone.
fn mode_of<F: Files<File = File>>(files: &F, path: &str) -> u32 {
    match fs::metadata(files, path) {
        Ok(known) => (known.permissions().mode() & ORDINARY) | OWNERS,
        Err(_) => OWNERS,
    }
}

/// Whether both paths lead to one file.
fn lead_to_one<F: Files<File = File>>(files: &F, path: &str, other: &str) -> bool {
    match (fs::metadata(files, path), fs::metadata(files, other)) {
        (Ok(one), Ok(two)) => is_one(&one, &two),
        _ => false,
    }
}

/// Opens the file at this path that is to have a copy of FILE, at the other one, and makes it where there is none: with the
/// permissions of FILE. Refused also where it is FILE itself, whose lock this command would wait for in vain.
pub fn open_for_copy<'a, F: Files<File = File> + Clock + AllocGlobal>(
    files: &F,
    note: &'a RefusalNote,
    path: &str,
    of: &str,
    seconds: u64,
) -> Result<Opened<'a>, Complaint>
    ensures opened { IfOk result (λ opened. IsJustOpened opened.disk) }
    ensures shut { IfErr result (IsUnopened Role.New) }
{
    if lead_to_one(files, path, of) {
        return Err(Complaint::NotOpened(Role::New, ErrorKind::AlreadyExists.into()));
    }
    let mode = mode_of(files, of);
    open(
        files,
        note,
        path,
        Access::Makes { mode },
        Role::New,
        seconds,
    )
}

/// Opens the file at this path to be read: beside another command, where one writes it. Refused where it can't be opened.
pub fn open_beside<'a, F: Files<File = File> + Clock + AllocGlobal>(
    files: &F,
    note: &'a RefusalNote,
    path: &str,
) -> Result<Readable<'a>, Complaint>
    ensures { MatchResult result IsJustReadable (IsUnopened Role.File) }
{
    match open(files, note, path, Access::Reads, Role::File, 0) {
        Ok(opened) => Ok(Readable::Locked(opened)),
        Err(Complaint::InUse(_)) => match open_to_read(files, path) {
            Ok(file) => Ok(Readable::Beside(shared(file))),
            Err(error) => Err(Complaint::NotOpened(Role::File, error)),
        },
        Err(complaint) => Err(complaint),
    }
}
