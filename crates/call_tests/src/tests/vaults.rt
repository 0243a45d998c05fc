//! A vault's blocks joined, and a crew over lists of flagged keys.

ghost use Rattle.std.specs.Prelude.{◌+◌, ◌*◌, ◌%◌, ◌^◌};

use super::crews::new_vault;
use block_core::Touch;
use crew_core::{Lists, OpenGate, crew};
use disk_core::RamDisk;
use record_core::Flagged;
use std::alloc::{AllocError, Global};
use std::sync::Wait;
use std::thread::Threads;
use vault_core::{Vault, VaultFault};

/// The record and ten times its place, which wrap.
struct Raised;

impl Touch<u64> for Raised {
    ghost one = { λ _ at r. (r + at * 10 % 2 ^ 64) % 2 ^ 64 };

    fn one(&self, at: u64, r: u64) -> u64 {
        r.wrapping_add(at.wrapping_mul(10))
    }
}

/// Lengthens the vault by blocks of two, one and two records, changes all of them by their places, and joins the
/// blocks if asked to.
fn fill<E: Threads + Sync>(
    rt: &E,
    vault: &mut Vault<u64, RamDisk>,
    joins: bool,
) -> Result<(), VaultFault> {
    for len in [2, 3, 5] {
        vault.resize(len, 1)?;
    }
    if joins {
        vault.compact()?;
    }
    vault.change(rt, 0, 5, &Raised)
}

/// Its records, and how many pieces they stand in.
fn pieces_of(alloc: Global, vault: &Vault<u64, RamDisk>) -> Result<(Vec<u64>, u64), AllocError> {
    let mut records = Vec::new(alloc);
    let mut pieces = 0u64;
    for piece in vault.pieces() {
        records.extend_from_slice(piece)?;
        pieces = pieces.wrapping_add(1);
    }
    Ok((records, pieces))
}

/// Whether the vault then has these records, and how many pieces they stand in.
fn fill_and_read<E: Threads + Sync>(
    rt: &E,
    alloc: Global,
    vault: &mut Vault<u64, RamDisk>,
    joins: bool,
) -> Option<(bool, u64)> {
    fill(rt, vault, joins).ok()?;
    let (records, pieces) = pieces_of(alloc, vault).ok()?;
    let has = records.as_slice() == [1, 11, 21, 31, 41].as_slice();
    Some((has, pieces))
}

/// The same of a new vault.
fn filled<E: Threads + Sync>(rt: &E, alloc: Global, joins: bool) -> Option<(bool, u64)> {
    let mut vault = new_vault(alloc)?;
    fill_and_read(rt, alloc, &mut vault, joins)
}

#[test]
fn joined_blocks_are_changed_alike(rt: HostRuntime) {
    let found = [false, true].map(|joins| filled(&rt, rt.alloc(), joins));
    assert_eq!(rt; found, [Some((true, 3)), Some((true, 1))]);
}

/// A vector of this one value.
fn only<T: Drop>(alloc: Global, value: T) -> Option<Vec<T>> {
    let mut one = Vec::new(alloc);
    match one.push(value) {
        Ok(()) => Some(one),
        Err(_) => None,
    }
}

/// The record that a source's crew puts first.
fn first_of<E: Threads + Wait + Sync>(
    rt: &E,
    alloc: Global,
    source: &Lists<'_, Flagged>,
) -> Option<Flagged> {
    let vault = Vault::<Flagged, RamDisk>::create(alloc, RamDisk::new(alloc)).ok()?;
    let crewed = crew(rt, alloc, vault, source, &OpenGate).ok()?;
    crewed.vault.get(0).copied()
}

/// That of a crew of one grower with one block of this record.
fn first_of_one<E: Threads + Wait + Sync>(
    rt: &E,
    alloc: Global,
    record: Flagged,
) -> Option<Flagged> {
    let lists = only(alloc, only(alloc, only(alloc, record)?)?)?;
    first_of(rt, alloc, &Lists::try_new(lists.as_slice())?)
}

#[test]
fn lists_of_flagged_keys_are_sources(rt: HostRuntime) {
    let found = first_of_one(&rt, rt.alloc(), Flagged { key: 8, flag: true });
    assert_eq!(rt; found, Some(Flagged { key: 8, flag: true }));
}
