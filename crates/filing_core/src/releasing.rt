//! Locks of files that are read, which end with the reading and not with the command.

ghost use Rattle.std.specs.Prelude.{◌≡◌};

use std::fs::File;
use std::io::{self, Write};

/// The lock of a file that is read. It stands until it is let go, or until this is dropped.
#[derive(Drop)]
pub struct ReadLock {
    /// `None`: it was let go.
    file: Option<File>,
}

impl ReadLock {
    /// The lock that this handle holds.
    pub fn of(file: File) -> ReadLock {
        ReadLock { file: Some(file) }
    }

    /// From now on others may write the file. Its disk has a handle of the same lock, so this is unlocked, and not closed alone.
    pub fn let_go(&mut self) {
        if let Some(file) = self.file.take() {
            let _ = file.unlock();
        }
    }
}

/// Writes to the writer inside, and lets the lock of a file go before its first byte: who writes an answer has read all that
/// it is of, and may wait for whoever takes it.
#[derive(Drop)]
pub struct ReleasingWriter<'a, W> {
    inner: &'a mut W,
    lock: ReadLock,
}

impl<'a, W> ReleasingWriter<'a, W> {
    pub fn new(inner: &'a mut W, lock: ReadLock) -> ReleasingWriter<'a, W>
        ensures same_reference { result.inner.ghost_name ≡ inner.entry.ghost_name }
        ensures now { result.inner.now ≡ inner.old }
    {
        ReleasingWriter { inner, lock }
    }
}

impl<W: Write> Write for ReleasingWriter<'_, W> {
    ghost use Rattle.filing_core.specs.Releasing.{known_through};

    ghost contents = { λ writer. known_through writer.inner.ghost_name (W.contents writer.inner.now) };

    fn write(&mut self, buf: &[u8]) -> io::Result<usize> {
        self.lock.let_go();
        self.inner.write(buf)
    }

    fn flush(&mut self) -> io::Result<()> {
        self.inner.flush()
    }

    fn write_all(&mut self, buf: &[u8]) -> io::Result<()> {
        self.lock.let_go();
        self.inner.write_all(buf)
    }
}
