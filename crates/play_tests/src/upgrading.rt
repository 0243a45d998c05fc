//! Upgrades of the file, on disks that stop or fail.

use crate::cut::Cut;
use crate::distinct_texts::DistinctTexts;
use crate::look::{Looks, copied};
use disk_core::{Disk, FuseDisk, RamDisk};
use std::alloc::Global;
use std::io::{self, Write};
use std::sync::Wait;
use std::thread::Threads;
use text_core::{TextRecord, write_numbered};
use vault_core::upgrade;

/// The disks behind an upgrade, and what it answered.
#[derive(Drop)]
pub struct Upgraded<D: Disk, E: Disk> {
    pub old: D,
    pub new: E,
    pub answer: Vec<u8>,
}

/// Upgrades the file on the old disk into one on the new disk, as growths of so many records.
pub fn upgrade_onto<R: TextRecord, D: Disk + Drop, E: Disk + Drop>(
    alloc: Global,
    old: D,
    new: E,
    piece: u64,
) -> io::Result<Upgraded<D, E>> {
    let mut answer = Vec::new(alloc);
    match upgrade::<R, D, E>(alloc, old, new, piece.max(1)) {
        Ok((old, vault)) => {
            write_numbered(&mut answer, b"size ", vault.len())?;
            let new = vault.into_disk();
            Ok(Upgraded { old, new, answer })
        }
        Err((old, new, fault)) => {
            write!(answer, "refused {fault}")?;
            Ok(Upgraded { old, new, answer })
        }
    }
}

/// What the images of the new disk open to, where it stops or fails behind so many calls.
pub fn texts_of_new<R: TextRecord, E: Threads + Wait + Sync>(
    alloc: Global,
    rt: &E,
    file: &[u8],
    piece: u64,
    cut: Cut,
    looks: &mut Looks,
) -> io::Result<DistinctTexts> {
    let mut texts = DistinctTexts::new(alloc);
    for calls in cut.first..=cut.last {
        let old = RamDisk::from_bytes(alloc, copied(alloc, file)?);
        let new = FuseDisk::new(RamDisk::new(alloc), calls, cut.blow);
        let left = upgrade_onto::<R, RamDisk, FuseDisk<RamDisk>>(alloc, old, new, piece)?;
        let mut text = Vec::new(alloc);
        looks.write::<R, E>(rt, &left.new.into_inner(), &mut text)?;
        texts.add(text)?;
    }
    Ok(texts)
}

/// What is answered where the old disk stops or fails behind so many calls. No file is then begun, and the old one stays.
pub fn texts_of_old<R: TextRecord>(
    alloc: Global,
    file: &[u8],
    piece: u64,
    cut: Cut,
) -> io::Result<DistinctTexts> {
    let mut texts = DistinctTexts::new(alloc);
    for calls in cut.first..=cut.last {
        let old = RamDisk::from_bytes(alloc, copied(alloc, file)?);
        let old = FuseDisk::new(old, calls, cut.blow);
        let new = RamDisk::new(alloc);
        let left = upgrade_onto::<R, FuseDisk<RamDisk>, RamDisk>(alloc, old, new, piece)?;
        texts.add(left.answer)?;
    }
    Ok(texts)
}
