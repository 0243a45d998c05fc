//! A file whose calls a host makes.

ghost use Rattle.std.specs.Prelude.{◌≤◌, length};

use std::alloc::Global;
use std::cell::RefCell;
use std::fs::{Metadata, OpenFile};
use std::io;
use std::os::unix::fs::FileExt;

/// A file whose calls a host makes. It reads from bytes that the host has read before: once, since a read that reaches their end
/// gives up their memory. A write and a sync are answered as if they had succeeded: the host makes them later, and goes no
/// further where one fails.
#[derive(Drop)]
pub struct HostFile {
    alloc: Global,
    bytes: RefCell<Vec<u8>>,
    len: u64,
}

impl HostFile {
    /// A file with these bytes.
    pub fn of(alloc: Global, bytes: Vec<u8>) -> HostFile {
        let len = bytes.len() as u64;
        HostFile {
            alloc,
            bytes: RefCell::new(bytes),
            len,
        }
    }
}

/// Copies the bytes from that place on to the front of `buf`, and answers how many: as far as both reach.
fn copy_from(bytes: &[u8], offset: u64, buf: &mut [u8]) -> usize
    ensures { result ≤ length buf.new }
{
    if offset >= bytes.len() as u64 {
        return 0;
    }
    let rest = &bytes[offset as usize..];
    let count = rest.len().min(buf.len());
    buf[..count].copy_from_slice(&rest[..count]);
    count
}

impl FileExt for HostFile {
    fn read_at(&self, buf: &mut [u8], offset: u64) -> io::Result<usize> {
        let Ok(mut bytes) = self.bytes.try_borrow_mut() else {
            return Err(io::ErrorKind::WouldBlock.into());
        };
        let count = copy_from(bytes.as_slice(), offset, buf);
        if offset.saturating_add(count as u64) == self.len {
            *bytes = Vec::new(self.alloc);
        }
        Ok(count)
    }

    fn write_at(&self, buf: &[u8], _offset: u64) -> io::Result<usize> {
        Ok(buf.len())
    }
}

impl OpenFile for HostFile {
    fn metadata(&self) -> io::Result<Metadata> {
        Ok(Metadata::of_file(self.len))
    }

    fn set_len(&self, _size: u64) -> io::Result<()> {
        Err(io::ErrorKind::Unsupported.into())
    }

    fn sync_all(&self) -> io::Result<()> {
        Ok(())
    }

    fn sync_data(&self) -> io::Result<()> {
        Ok(())
    }
}
