//! A disk that tells how far it was read.

ghost use Rattle.std.specs.Prelude.{◌≡◌};

use crate::progress::Progress;
use disk_core::{Disk, DiskFault};

/// A disk over another, which tells of the bytes that are read: the place behind them, of the length that the disk last told.
/// All that is said of it is said of the disk below.
#[derive(Drop)]
pub struct Watched<'a, D, P> {
    inner: D,
    progress: &'a P,
    len: u64,
}

impl<'a, D, P> Watched<'a, D, P> {
    ghost use Rattle.files_core.specs.Watched.{below};

    pub fn new(disk: D, progress: &'a P) -> Watched<'a, D, P>
        ensures { below result ≡ disk }
    {
        Watched {
            inner: disk,
            progress,
            len: 0,
        }
    }

    /// The disk below.
    pub fn into_disk(self) -> D
        ensures { result ≡ below self.entry }
    {
        let Watched {
            inner,
            progress: _,
            len: _,
        } = self;
        inner
    }
}

impl<'a, D: Disk, P: Progress> Disk for Watched<'a, D, P> {
    ghost use Rattle.files_core.specs.Watched.{below};

    ghost states = { λ disk. D.states (below disk) };

    ghost faults = { λ disk. D.faults (below disk) };

    ghost keeps = { λ disk. D.keeps (below disk) };

    ghost reads_an_image = { λ disk model. D.reads_an_image (below disk) model };

    ghost reads_bytes = { λ disk model. D.reads_bytes (below disk) model };

    fn len(&mut self) -> Result<u64, DiskFault> {
        let told = self.inner.len();
        if let Ok(len) = told {
            self.len = len;
        }
        told
    }

    fn read_at(&mut self, at: u64, out: &mut [u8]) -> Result<(), DiskFault> {
        let read = self.inner.read_at(at, out);
        let behind = at.saturating_add(out.len() as u64);
        self.progress.at(behind, self.len);
        read
    }

    fn write_at(&mut self, at: u64, bytes: &[u8]) -> Result<(), DiskFault> {
        self.inner.write_at(at, bytes)
    }

    fn sync(&mut self) -> Result<(), DiskFault> {
        self.inner.sync()
    }
}
