//! A crew grows in threads beside one another.

use super::crews::grow;
use book_core::Receipt;
use crew_core::{Crewed, Gate, Lists};
use disk_core::RamDisk;
use std::alloc::{AllocError, Global};
use std::sync::Wait;
use std::sync::atomic::{AtomicU64, Ordering};
use std::thread::Threads;

/// A gate at which each of two growers waits for the other, and that notes their receipts.
#[derive(Drop)]
struct Both {
    here: [AtomicU64; 2],
    starts: [AtomicU64; 2],
}

impl Gate for Both {
    ghost may_stop = { λ _ _ _. Unit {0} };

    fn before(&self, grower: u16, _k: u32) -> bool {
        let mine = (grower % 2) as usize;
        self.here[mine].store(1, Ordering::SeqCst);
        for _ in 0..100_000_000u64 {
            if self.here[1 - mine].load(Ordering::SeqCst) == 1 {
                return true;
            }
        }
        false
    }

    fn after(&self, grower: u16, receipt: &Receipt) {
        self.starts[(grower % 2) as usize].store(receipt.start, Ordering::SeqCst);
    }
}

/// For each of two growers one block of one record.
fn two_lists(alloc: Global) -> Result<Vec<Vec<Vec<u64>>>, AllocError> {
    let mut lists = Vec::new(alloc);
    for record in 1..3u64 {
        let one = Vec::from_slice(alloc, &[record])?;
        let mut blocks = Vec::new(alloc);
        blocks.push(one)?;
        lists.push(blocks)?;
    }
    Ok(lists)
}

/// Whether a grower made one growth, of this record, which stands where the gate was told.
fn has_made(crewed: &Crewed<u64, RamDisk>, gate: &Both, grower: usize, record: u64) -> bool {
    let told = gate.starts[grower % 2].load(Ordering::SeqCst);
    let Some(its) = crewed.receipts.get(grower) else {
        return false;
    };
    match its.as_slice() {
        [one] => one.start == told && crewed.vault.get(told) == Some(&record),
        _ => false,
    }
}

/// Whether both growers made theirs without a fault, and nobody more.
fn have_both(crewed: &Crewed<u64, RamDisk>, gate: &Both) -> bool {
    let unfaulted = crewed.faults.as_slice() == [None, None].as_slice();
    let made = has_made(crewed, gate, 0, 1) && has_made(crewed, gate, 1, 2);
    unfaulted && made && crewed.vault.len() == 2
}

/// What a crew makes whose growers wait for each other at the gate.
fn grow_two<E: Threads + Wait + Sync>(
    rt: &E,
    alloc: Global,
    gate: &Both,
) -> Option<Crewed<u64, RamDisk>> {
    let lists = two_lists(alloc).ok()?;
    match Lists::try_new(lists.as_slice()) {
        Some(source) => grow(rt, alloc, &source, gate),
        None => None,
    }
}

/// Whether both made theirs.
fn meet<E: Threads + Wait + Sync>(rt: &E, alloc: Global) -> bool {
    let gate = Both {
        here: [AtomicU64::new(0), AtomicU64::new(0)],
        starts: [AtomicU64::new(9), AtomicU64::new(9)],
    };
    match grow_two(rt, alloc, &gate) {
        Some(crewed) => have_both(&crewed, &gate),
        None => false,
    }
}

#[test]
fn two_growers_grow_beside_each_other(rt: HostRuntime) {
    let met = meet(&rt, rt.alloc());
    assert_eq!(rt; met, true);
}
