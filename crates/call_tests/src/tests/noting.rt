//! A disk that notes what it is asked, for tests.

use disk_core::{Disk, DiskFault};

/// What a disk was asked.
#[derive(Clone, Copy)]
pub(super) struct Noted {
    pub(super) syncs: u64,
    pub(super) lengths: u64,
    pub(super) reads: u64,
    pub(super) writes: u64,
    /// The bytes of the longest read.
    pub(super) longest: usize,
    /// The end of the last read.
    pub(super) end: u64,
    /// Each read began where the one before it ended.
    pub(super) in_turn: bool,
}

/// A disk over another that notes its calls.
#[derive(Drop)]
pub(super) struct NotingDisk<D: Disk> {
    inner: D,
    noted: Noted,
}

impl<D: Disk> NotingDisk<D> {
    /// A disk that was asked nothing so far.
    pub(super) fn new(inner: D) -> NotingDisk<D> {
        let noted = Noted {
            syncs: 0,
            lengths: 0,
            reads: 0,
            writes: 0,
            longest: 0,
            end: 0,
            in_turn: true,
        };
        NotingDisk { inner, noted }
    }

    pub(super) fn noted(&self) -> Noted {
        self.noted
    }
}

impl<D: Disk> Disk for NotingDisk<D> {
    ghost states = { λ disk. D.states disk.inner };

    ghost faults = { λ disk. D.faults disk.inner };

    ghost keeps = { λ disk. D.keeps disk.inner };

    ghost reads_an_image = { λ disk model. D.reads_an_image disk.inner model };

    ghost reads_bytes = { λ disk model. D.reads_bytes disk.inner model };

    fn len(&mut self) -> Result<u64, DiskFault> {
        self.noted.lengths = self.noted.lengths.saturating_add(1);
        self.inner.len()
    }

    fn read_at(&mut self, at: u64, out: &mut [u8]) -> Result<(), DiskFault> {
        self.noted.reads = self.noted.reads.saturating_add(1);
        self.noted.longest = self.noted.longest.max(out.len());
        self.noted.in_turn = self.noted.in_turn && at == self.noted.end;
        self.noted.end = at.saturating_add(out.len() as u64);
        self.inner.read_at(at, out)
    }

    fn write_at(&mut self, at: u64, bytes: &[u8]) -> Result<(), DiskFault> {
        self.noted.writes = self.noted.writes.saturating_add(1);
        self.inner.write_at(at, bytes)
    }

    fn sync(&mut self) -> Result<(), DiskFault> {
        self.noted.syncs = self.noted.syncs.saturating_add(1);
        self.inner.sync()
    }
}
