//! An image whose groups come to the limit.

ghost use Rattle.std.specs.Prelude.{◌≤◌, ◌^◌, vec_len, IfOk};
ghost use Rattle.call_tests.specs.Nought.{HasReadWithin};

use super::{COUNT, LONGEST, REST};
use crate::Nought;
use segment_core::{Cause, ScanFault, Scanned, Scanner};
use std::alloc::{AllocError, Global};
use std::test::Fail;

/// The front of a file of version 1 with records of one byte.
const HEADER: [u8; 11] = [1, b'C', b'V', b'E', b'C', b'S', b'E', b'G', 1, 1, 0];

/// An open gate and a group of one growth of so many records.
fn group_of(alloc: Global, count: u32) -> Result<Vec<u8>, AllocError>
    requires { count ≤ 2 ^ 20 }
    ensures { IfOk result (λ group. vec_len group ≤ 2 ^ 21) }
{
    let mut group = Vec::new(alloc);
    group.extend_from_slice(&[1, 1])?;
    group.extend_from_slice(&(count + 8).to_le_bytes())?;
    group.extend_from_slice(&1u32.to_le_bytes())?;
    group.extend_from_slice(&count.to_le_bytes())?;
    group.resize(14 + count as usize, 0)?;
    Ok(group)
}

/// A scanner of a file with `COUNT` of the longest groups, so far.
fn scan_longest(alloc: Global) -> Result<Scanner<Nought>, ScanFault>
    ensures { IfOk result (HasReadWithin (2 ^ 34)) }
{
    let longest = group_of(alloc, LONGEST).map_err(|_| ScanFault::Memory)?;
    let mut scanner = Scanner::<Nought>::new(alloc);
    scanner.feed(&HEADER)?;
    for number in 0..COUNT {
        scanner.feed(&longest)?;
    }
    Ok(scanner)
}

/// The vector of a file with `COUNT` of the longest groups, one of so many records, and a closed gate.
fn scan_with(alloc: Global, last: u32) -> Result<Scanned<Nought>, ScanFault>
    requires { last ≤ 2 ^ 20 }
{
    let mut last = group_of(alloc, last).map_err(|_| ScanFault::Memory)?;
    last.push(0).map_err(|_| ScanFault::Memory)?;
    let mut scanner = scan_longest(alloc)?;
    scanner.feed(&last)?;
    scanner.end()
}

#[test]
fn a_group_past_the_limit_is_too_long(rt: HostRuntime) -> Result<(), Fail> {
    let past = scan_with(rt.alloc(), REST + 1).err();
    let at = 11 + 4_096 * 1_048_582 + 6;
    assert_eq!(rt;
        past,
        Some(ScanFault::Damaged {
            at,
            cause: Cause::TooLong
        })
    );
    let whole = scan_with(rt.alloc(), REST)?;
    assert_eq!(rt; whole.records.len(), 4_294_967_296);
    Ok(())
}
