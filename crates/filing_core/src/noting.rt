//! Why the system refused a call of a command's files: a disk tells which call that was, and no more.

ghost use Rattle.std.specs.Prelude.{◌≡◌};

use disk_core::{DiskFault, FileDisk};
use sentences::RefusedCall;
use std::fs::{File, Metadata, OpenFile};
use std::io::{self, ErrorKind};
use std::os::unix::fs::FileExt;
use std::sync::atomic::{AtomicI32, AtomicU8, Ordering};

/// Keeps which call of a command's files the system refused first, and why.
#[derive(Drop)]
pub struct RefusalNote {
    /// The number of the call. 0: none was refused.
    call: AtomicU8,
    /// The system's number of the error.
    error: AtomicI32,
}

/// The number of a call in a note.
fn number_of(call: DiskFault) -> u8 {
    match call {
        DiskFault::Length => 1,
        DiskFault::Read => 2,
        DiskFault::Write => 3,
        DiskFault::Sync => 4,
    }
}

/// The call of such a number.
fn call_of(number: u8) -> Option<DiskFault> {
    match number {
        1 => Some(DiskFault::Length),
        2 => Some(DiskFault::Read),
        3 => Some(DiskFault::Write),
        4 => Some(DiskFault::Sync),
        _ => None,
    }
}

impl RefusalNote {
    pub fn new() -> RefusalNote {
        RefusalNote {
            call: AtomicU8::new(0),
            error: AtomicI32::new(0),
        }
    }

    /// The first call that was refused, if one was.
    pub fn refused(&self) -> Option<RefusedCall> {
        let call = call_of(self.call.load(Ordering::SeqCst))?;
        let error = io::Error::from_raw_os_error(self.error.load(Ordering::SeqCst));
        Some(RefusedCall { call, error })
    }

    /// Notes why a call was refused. One that was interrupted is made again.
    fn note(&self, call: DiskFault, error: &io::Error) {
        let Some(number) = error.raw_os_error() else {
            return;
        };
        let is_first = self.call.load(Ordering::SeqCst) == 0;
        if is_first && error.kind() != ErrorKind::Interrupted {
            self.error.store(number, Ordering::SeqCst);
            self.call.store(number_of(call), Ordering::SeqCst);
        }
    }

    /// The answer of such a call, once it is noted where it is an error.
    fn noted<T>(&self, call: DiskFault, answer: io::Result<T>) -> io::Result<T>
        ensures { result ≡ answer }
    {
        if let Err(error) = &answer {
            self.note(call, error);
        }
        answer
    }
}

/// A file of the system whose refused calls are noted.
#[derive(Drop)]
pub struct NotedFile<'a> {
    file: File,
    note: &'a RefusalNote,
}

/// One as a disk.
pub type NotedDisk<'a> = FileDisk<NotedFile<'a>>;

impl<'a> NotedFile<'a> {
    pub fn new(file: File, note: &'a RefusalNote) -> NotedFile<'a> {
        NotedFile { file, note }
    }
}

impl FileExt for NotedFile<'_> {
    fn read_at(&self, buf: &mut [u8], offset: u64) -> io::Result<usize> {
        self.note
            .noted(DiskFault::Read, self.file.read_at(buf, offset))
    }

    fn write_at(&self, buf: &[u8], offset: u64) -> io::Result<usize> {
        self.note
            .noted(DiskFault::Write, self.file.write_at(buf, offset))
    }
}

impl OpenFile for NotedFile<'_> {
    fn metadata(&self) -> io::Result<Metadata> {
        self.note.noted(DiskFault::Length, self.file.metadata())
    }

    fn set_len(&self, size: u64) -> io::Result<()> {
        self.note.noted(DiskFault::Write, self.file.set_len(size))
    }

    fn sync_all(&self) -> io::Result<()> {
        self.note.noted(DiskFault::Sync, self.file.sync_all())
    }

    fn sync_data(&self) -> io::Result<()> {
        self.note.noted(DiskFault::Sync, self.file.sync_data())
    }
}
