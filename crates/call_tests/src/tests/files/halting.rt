//! A disk over a file that does a part of what it is asked, and is interrupted.
ghost use Rattle.std.specs.Prelude.{◌≡◌, ◌≤◌, [], ◌∷◌, IfOk};
ghost use Rattle.disk_core.specs.File.{opened};
ghost use Rattle.disk_core.specs.FileDisk.{states_of};

use disk_core::{Disk, DiskFault, FileDisk, Shared, SharedFile};
use std::fs::{Metadata, OpenFile};
use std::io;
use std::os::unix::fs::FileExt;
use std::sync::atomic::{AtomicU64, Ordering};

/// A file that does one byte a call up to its end and nothing past it, is interrupted before each call that does
/// something, and doesn't sync.
#[derive(Drop)]
struct Halting {
    calls: AtomicU64,
    end: u64,
}

impl Halting {
    fn step(&self, at: u64) -> io::Result<usize>
        ensures { IfOk result (λ n. n ≤ 1) }
    {
        if self.calls.fetch_add(1, Ordering::SeqCst) % 2 == 0 {
            return Err(io::ErrorKind::Interrupted.into());
        }
        Ok(usize::from(at < self.end))
    }
}

impl FileExt for Halting {
    fn read_at(&self, buf: &mut [u8], offset: u64) -> io::Result<usize> {
        let count = self.step(offset)?;
        if buf.is_empty() || count == 0 {
            return Ok(0);
        }
        buf[0] = (offset % 256) as u8;
        Ok(1)
    }

    fn write_at(&self, buf: &[u8], offset: u64) -> io::Result<usize> {
        Ok(self.step(offset)?.min(buf.len()))
    }
}

impl OpenFile for Halting {
    /// Fails where the file ends at once.
    fn metadata(&self) -> io::Result<Metadata> {
        self.step(0)?;
        if self.end == 0 {
            return Err(io::ErrorKind::Unsupported.into());
        }
        Ok(Metadata::of_file(self.end))
    }

    fn set_len(&self, _size: u64) -> io::Result<()> {
        Err(io::ErrorKind::Unsupported.into())
    }

    fn sync_all(&self) -> io::Result<()> {
        self.sync_data()
    }

    /// Fails at first, and would succeed later.
    fn sync_data(&self) -> io::Result<()> {
        if self.calls.fetch_add(1, Ordering::SeqCst) == 0 {
            return Err(io::ErrorKind::Other.into());
        }
        Ok(())
    }
}

/// A disk over a file that held five bytes.
fn with_five_bytes<F: FileExt + OpenFile + Drop>(file: F) -> FileDisk<F>
    ensures { states_of result ≡ opened (0 ∷ 1 ∷ 2 ∷ 3 ∷ 4 ∷ []) ∷ [] }
{
    FileDisk::over(file)
}

fn over_halting(end: u64) -> FileDisk<Halting>
    ensures { states_of result ≡ opened (0 ∷ 1 ∷ 2 ∷ 3 ∷ 4 ∷ []) ∷ [] }
{
    with_five_bytes(Halting {
        calls: AtomicU64::new(0),
        end,
    })
}

/// What a read of four bytes from this place on answers, of a file of four, and the bytes.
fn read_four(at: u64) -> (Result<(), DiskFault>, [u8; 4])
    requires { at ≤ 1 }
{
    let mut bytes = [9; 4];
    let read = over_halting(4).read_at(at, &mut bytes);
    (read, bytes)
}

/// What a write of four bytes from this place on answers.
fn write_four(at: u64) -> Result<(), DiskFault>
    requires { at ≤ 1 }
{
    over_halting(4).write_at(at, &[0, 1, 2, 3])
}

/// The length of a file of so many bytes.
fn len_of(end: u64) -> Result<u64, DiskFault> {
    over_halting(end).len()
}

#[test]
fn what_is_done_in_part_is_finished_or_a_fault(rt: HostRuntime) {
    let (read, bytes) = read_four(0);
    let (past, _) = read_four(1);
    let done = [read, past, write_four(0), write_four(1)];
    let lens = [len_of(4), len_of(0)];
    let want = [Ok(()), Err(DiskFault::Read), Ok(()), Err(DiskFault::Write)];
    assert_eq!(rt;
        (bytes, done, lens),
        ([0, 1, 2, 3], want, [Ok(4), Err(DiskFault::Length)])
    );
}

/// What two syncs answer.
fn sync_twice() -> [Result<(), DiskFault>; 2] {
    let mut disk = over_halting(0);
    let first = disk.sync();
    [first, disk.sync()]
}

/// A file that another process writes. What it holds isn't told.
fn shared<F: FileExt + OpenFile + Drop>(file: F) -> SharedFile<F> {
    SharedFile::over(file)
}

/// What two syncs of such a file answer.
fn sync_shared_twice() -> [Result<(), DiskFault>; 2] {
    let mut file = shared(Halting {
        calls: AtomicU64::new(0),
        end: 0,
    });
    let first = file.sync();
    [first, file.sync()]
}

#[test]
fn a_sync_that_failed_is_not_asked_for_again(rt: HostRuntime) {
    let synced = [sync_twice(), sync_shared_twice()];
    assert_eq!(rt; synced, [[Err(DiskFault::Sync); 2]; 2]);
}
