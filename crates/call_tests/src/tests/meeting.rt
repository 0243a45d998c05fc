//! That changes and searches of many records run in several threads at once.

ghost use Rattle.std.specs.Prelude.{true, false};

use super::crews::new_vault;
use block_core::Touch;
use disk_core::RamDisk;
use search_core::Pick;
use std::alloc::Global;
use std::sync::Wait;
use std::sync::atomic::{AtomicU64, Ordering};
use std::thread::Threads;
use vault_core::Vault;

/// Notes whether two threads were inside at one time.
#[derive(Drop)]
struct Meeting {
    inside: AtomicU64,
    met: AtomicU64,
}

impl Meeting {
    fn new() -> Meeting {
        Meeting {
            inside: AtomicU64::new(0),
            met: AtomicU64::new(0),
        }
    }

    fn has_met(&self) -> bool {
        self.met.load(Ordering::SeqCst) == 1
    }

    /// Waits a while for a second thread.
    fn attend(&self) {
        if self.has_met() {
            return;
        }
        self.inside.fetch_add(1, Ordering::SeqCst);
        for _ in 0..100_000_000u64 {
            if self.inside.load(Ordering::SeqCst) > 1 {
                self.met.store(1, Ordering::SeqCst);
            }
            if self.has_met() {
                return;
            }
        }
        self.inside.fetch_sub(1, Ordering::SeqCst);
    }
}

/// Each record stays as it is.
#[derive(Drop)]
struct Unchanged<'a> {
    meeting: &'a Meeting,
}

impl<'a> Touch<u64> for Unchanged<'a> {
    ghost one = { λ _ _ r. r };

    fn one(&self, _at: u64, r: u64) -> u64 {
        self.meeting.attend();
        r
    }
}

/// All records.
#[derive(Drop)]
struct All<'a> {
    meeting: &'a Meeting,
}

impl<'a> Pick<u64> for All<'a> {
    ghost picks_of = { λ _ _. true };

    fn picks(&self, _r: &u64) -> bool {
        self.meeting.attend();
        true
    }
}

/// No record. Each that isn't 0 brings its thread to the meeting.
#[derive(Drop)]
struct Nothing<'a> {
    meeting: &'a Meeting,
}

impl<'a> Pick<u64> for Nothing<'a> {
    ghost picks_of = { λ _ _. false };

    fn picks(&self, r: &u64) -> bool {
        if *r != 0 {
            self.meeting.attend();
        }
        false
    }
}

/// Whether two threads change the vault's first records at once.
fn changes_meet<E: Threads + Wait + Sync>(
    rt: &E,
    vault: &mut Vault<u64, RamDisk>,
    count: u64,
) -> bool {
    let changing = Meeting::new();
    let changed = vault.change(rt, 0, count, &Unchanged { meeting: &changing });
    changed.is_ok() && changing.has_met()
}

/// How many records two threads count, and whether at once.
fn count_meeting<E: Threads + Wait + Sync>(rt: &E, vault: &Vault<u64, RamDisk>) -> (u64, bool) {
    let counting = Meeting::new();
    let count = vault.count_where(rt, &All { meeting: &counting });
    (count, counting.has_met())
}

/// So many records one command lengthens a vault by. Eight times as many are several slices.
const STEP: u64 = 131_000;

/// Lengthens the vault by so many commands, each by copies of this record.
fn lengthen(vault: &mut Vault<u64, RamDisk>, commands: u64, record: u64) -> Option<()> {
    for _ in 0..commands {
        let size = vault.len() + STEP;
        vault.resize(size, record).ok()?;
    }
    Some(())
}

/// Both, of a new vault.
fn meet<E: Threads + Wait + Sync>(rt: &E, alloc: Global) -> Option<(bool, (u64, bool))> {
    let mut vault = new_vault(alloc)?;
    lengthen(&mut vault, 1, 5)?;
    let changed = changes_meet(rt, &mut vault, STEP);
    lengthen(&mut vault, 7, 5)?;
    Some((changed, count_meeting(rt, &vault)))
}

#[test]
fn two_threads_work_at_once(rt: HostRuntime) {
    let met = meet(&rt, rt.alloc());
    assert_eq!(rt; met, Some((true, (1_048_000, true))));
}

/// What two threads look for that isn't there, and whether at once. The front and the first slice are searched by one thread,
/// so these records are 0.
fn find_meeting<E: Threads + Wait + Sync>(
    rt: &E,
    vault: &mut Vault<u64, RamDisk>,
) -> Option<(Option<u64>, bool)> {
    lengthen(vault, 4, 0)?;
    lengthen(vault, 4, 5)?;
    let finding = Meeting::new();
    let found = vault.find_first(rt, &Nothing { meeting: &finding });
    Some((found, finding.has_met()))
}

/// The same of a new vault.
fn find_in_new<E: Threads + Wait + Sync>(rt: &E, alloc: Global) -> Option<(Option<u64>, bool)> {
    let mut vault = new_vault(alloc)?;
    find_meeting(rt, &mut vault)
}

#[test]
fn two_threads_look_for_the_first_at_once(rt: HostRuntime) {
    let found = find_in_new(&rt, rt.alloc());
    assert_eq!(rt; found, Some((None, true)));
}
