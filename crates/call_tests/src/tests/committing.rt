//! A crew commits growths in a thread beside its growers, and not behind them.

use book_core::Receipt;
use crew_core::{Gate, Lists, crew};
use disk_core::{Disk, DiskFault, RamDisk};
use segment_core::Format;
use std::alloc::{AllocError, Global};
use std::sync::Wait;
use std::sync::atomic::{AtomicU64, Ordering};
use std::test::Fail;
use std::thread::Threads;
use vault_core::Vault;

/// A disk over another that counts its syncs where others see it.
#[derive(Drop)]
struct Counting<'a, D: Disk> {
    inner: D,
    syncs: &'a AtomicU64,
}

impl<'a, D: Disk> Disk for Counting<'a, D> {
    ghost states = { λ disk. D.states disk.inner };

    ghost faults = { λ disk. D.faults disk.inner };

    ghost keeps = { λ disk. D.keeps disk.inner };

    ghost reads_an_image = { λ disk model. D.reads_an_image disk.inner model };

    ghost reads_bytes = { λ disk model. D.reads_bytes disk.inner model };

    fn len(&mut self) -> Result<u64, DiskFault> {
        self.inner.len()
    }

    fn read_at(&mut self, at: u64, out: &mut [u8]) -> Result<(), DiskFault> {
        self.inner.read_at(at, out)
    }

    fn write_at(&mut self, at: u64, bytes: &[u8]) -> Result<(), DiskFault> {
        self.inner.write_at(at, bytes)
    }

    fn sync(&mut self) -> Result<(), DiskFault> {
        self.syncs.fetch_add(1, Ordering::SeqCst);
        self.inner.sync()
    }
}

/// A gate at which a grower waits before its second growth until the disk was synced once more, and else stops.
#[derive(Drop)]
struct Committed<'a> {
    syncs: &'a AtomicU64,
    before: u64,
}

impl<'a> Gate for Committed<'a> {
    ghost may_stop = { λ _ _ _. Unit {0} };

    fn before(&self, _grower: u16, k: u32) -> bool {
        if k == 0 {
            return true;
        }
        for _ in 0..100_000_000u64 {
            if self.syncs.load(Ordering::SeqCst) > self.before {
                return true;
            }
        }
        false
    }

    fn after(&self, _grower: u16, _receipt: &Receipt) {}
}

/// For one grower two blocks of one record.
fn two_blocks(alloc: Global) -> Result<Vec<Vec<Vec<u64>>>, AllocError> {
    let mut blocks = Vec::new(alloc);
    for record in 1..3u64 {
        blocks.push(Vec::from_slice(alloc, &[record])?)?;
    }
    let mut lists = Vec::new(alloc);
    lists.push(blocks)?;
    Ok(lists)
}

/// How many records a crew of that grower makes over a new file.
fn grow_committed<E: Threads + Wait + Sync>(
    rt: &E,
    alloc: Global,
    lists: &[Vec<Vec<u64>>],
) -> Option<u64> {
    let source = Lists::try_new(lists)?;
    let syncs = AtomicU64::new(0);
    let disk = Counting {
        inner: RamDisk::new(alloc),
        syncs: &syncs,
    };
    let vault = Vault::create_as(alloc, disk, Format::One).ok()?;
    let before = syncs.load(Ordering::SeqCst);
    let gate = Committed {
        syncs: &syncs,
        before,
    };
    let crewed = crew(rt, alloc, vault, &source, &gate).ok()?;
    Some(crewed.vault.len())
}

#[test]
fn a_crew_commits_while_its_growers_grow(rt: HostRuntime) -> Result<(), Fail> {
    let lists = two_blocks(rt.alloc())?;
    let made = grow_committed(&rt, rt.alloc(), lists.as_slice());
    assert_eq!(rt; made, Some(2));
    Ok(())
}
