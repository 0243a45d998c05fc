//! Crews of many growers and of one; sources and gates that stop.

ghost use Rattle.std.specs.Prelude.{◌≡◌, ◌+◌, ◌*◌, ◌^◌, ◌∷◌, []};

use block_core::{Fresh, FreshFault};
use book_core::{GrowFault, Receipt};
use crew_core::{Crewed, Gate, OpenGate, Source, crew};
use disk_core::RamDisk;
use segment_core::Format;
use std::alloc::Global;
use std::sync::Wait;
use std::thread::Threads;
use vault_core::Vault;

/// For each of some growers as many growths of one record, which tells grower and number.
#[derive(Drop)]
struct Named {
    growers: u16,
    count: u32,
}

impl Source<u64> for Named {
    ghost growers_of = { λ s. s.growers };

    ghost count_of = { λ s _. s.count };

    ghost block_of = { λ s grower k. (grower * 2 ^ 32 + k) ∷ [] };

    fn growers(&self) -> u16 {
        self.growers
    }

    fn count(&self, _grower: u16) -> u32 {
        self.count
    }

    fn block(&self, alloc: Global, grower: u16, k: u32) -> Result<Fresh<u64>, FreshFault> {
        Fresh::from_slice(alloc, &[name_of(grower, k)])
    }
}

/// The record of that growth.
fn name_of(grower: u16, k: u32) -> u64
    ensures { result ≡ grower * 2 ^ 32 + k }
{
    grower as u64 * (1 << 32) + k as u64
}

/// Whether each receipt's growth stands at its range, and those of a grower are in order.
fn stand(vault: &Vault<u64, RamDisk>, receipts: &[Vec<Receipt>]) -> bool {
    for (grower, its) in receipts.iter().enumerate() {
        for (k, receipt) in its.iter().enumerate() {
            let Ok(number) = u32::try_from(k) else {
                return false;
            };
            let record = name_of(receipt.seat, number);
            let named = receipt.seat as usize == grower && receipt.serial == k as u64;
            if !named || receipt.len != 1 || vault.get(receipt.start) != Some(&record) {
                return false;
            }
        }
    }
    true
}

/// A vault over a new file in memory.
pub(super) fn new_vault(alloc: Global) -> Option<Vault<u64, RamDisk>> {
    match Vault::create_as(alloc, RamDisk::new(alloc), Format::One) {
        Ok(vault) => Some(vault),
        Err(_) => None,
    }
}

/// A crew over a new file.
pub(super) fn grow<S: Source<u64>, G: Gate, E: Threads + Wait + Sync>(
    rt: &E,
    alloc: Global,
    source: &S,
    gate: &G,
) -> Option<Crewed<u64, RamDisk>> {
    let vault = new_vault(alloc)?;
    match crew(rt, alloc, vault, source, gate) {
        Ok(crewed) => Some(crewed),
        Err(_) => None,
    }
}

/// How many records a crew's vault has, how many receipts its growers have, and whether each growth stands at its range.
type Sum = (u64, usize, bool);

fn sum_of(crewed: &Crewed<u64, RamDisk>) -> Sum {
    let mut receipts = 0usize;
    for its in crewed.receipts.iter() {
        receipts = receipts.wrapping_add(its.len());
    }
    let whole = stand(&crewed.vault, crewed.receipts.as_slice());
    (crewed.vault.len(), receipts, whole)
}

/// What a crew of so many growers makes, of so many growths each.
fn sum_of_crew<E: Threads + Wait + Sync>(
    rt: &E,
    alloc: Global,
    growers: u16,
    count: u32,
) -> Option<Sum> {
    let crewed = grow(rt, alloc, &Named { growers, count }, &OpenGate)?;
    Some(sum_of(&crewed))
}

#[test]
fn crews_of_many_and_of_one_grow_all(rt: HostRuntime) {
    let alloc = rt.alloc();
    let sums = [
        sum_of_crew(&rt, alloc, 64, 1_000),
        sum_of_crew(&rt, alloc, 1, 100),
        sum_of_crew(&rt, alloc, 1, 0),
        sum_of_crew(&rt, alloc, 3, 9),
    ];
    let want = [
        Some((64_000, 64_000, true)),
        Some((100, 100, true)),
        Some((0, 0, true)),
        Some((27, 27, true)),
    ];
    assert_eq!(rt; sums, want);
}

/// A gate that stops each grower before one of its growths.
#[derive(Drop)]
struct StopsBefore {
    k: u32,
}

impl Gate for StopsBefore {
    ghost may_stop = { λ gate _ k. k ≡ gate.k };

    fn before(&self, _grower: u16, k: u32) -> bool {
        k != self.k
    }

    fn after(&self, _grower: u16, _receipt: &Receipt) {}
}

/// What two growers of five growths make that are stopped before that one, and whether neither has a fault.
fn sum_before<E: Threads + Wait + Sync>(rt: &E, alloc: Global, k: u32) -> Option<(Sum, bool)> {
    let source = Named {
        growers: 2,
        count: 5,
    };
    let crewed = grow(rt, alloc, &source, &StopsBefore { k })?;
    let unfaulted = crewed.faults.as_slice() == [None, None].as_slice();
    Some((sum_of(&crewed), unfaulted))
}

#[test]
fn a_gate_stops_growers_without_a_fault(rt: HostRuntime) {
    let sums = [0, 3, 5].map(|k| sum_before(&rt, rt.alloc(), k));
    let want = [
        Some(((0, 0, true), true)),
        Some(((6, 6, true), true)),
        Some(((10, 10, true), true)),
    ];
    assert_eq!(rt; sums, want);
}

/// A source that has no memory left for the second block of its second grower.
#[derive(Drop)]
struct Exhausted;

impl Source<u64> for Exhausted {
    ghost growers_of = { λ _. 3 };

    ghost count_of = { λ _ _. 4 };

    ghost block_of = { λ _ grower k. (grower * 2 ^ 32 + k) ∷ [] };

    fn growers(&self) -> u16 {
        3
    }

    fn count(&self, _grower: u16) -> u32 {
        4
    }

    fn block(&self, alloc: Global, grower: u16, k: u32) -> Result<Fresh<u64>, FreshFault> {
        if grower == 1 && k == 1 {
            return Err(FreshFault::Memory);
        }
        Fresh::from_slice(alloc, &[name_of(grower, k)])
    }
}

/// What growers make of which the second runs out of memory, and whether it alone has the fault.
fn sum_of_exhausted<E: Threads + Wait + Sync>(rt: &E, alloc: Global) -> Option<(Sum, bool)> {
    let crewed = grow(rt, alloc, &Exhausted, &OpenGate)?;
    let faults = [None, Some(GrowFault::Memory), None];
    let same = crewed.faults.as_slice() == faults.as_slice();
    Some((sum_of(&crewed), same))
}

#[test]
fn a_refused_block_stops_its_grower_alone(rt: HostRuntime) {
    let sum = sum_of_exhausted(&rt, rt.alloc());
    assert_eq!(rt; sum, Some(((9, 9, true), true)));
}
