//! Blocks: what was written through what they lend.

use super::squares::Squares;
use block_core::{Entry, Fresh, Label, Touch};
use std::test::Fail;

/// Touches a block of ten in parts of three. How many records the parts have.
fn touch_in_parts(fresh: &mut Fresh<u64>) -> u64 {
    let mut at = 0u64;
    for part in fresh.parts_mut(3) {
        if at < 10 && part.len() <= 3 {
            Squares.touch(at, part);
        }
        at = at.wrapping_add(part.len() as u64);
    }
    at
}

/// Writes 7 and 8 to the begins of a block's halves, of which the first has two records.
fn write_in_halves(fresh: &mut Fresh<u64>) -> bool {
    if fresh.len() != 10 {
        return false;
    }
    let (front, back) = fresh.split_mut(2);
    front[0] = 7;
    back[0] = 8;
    true
}

#[test]
fn parts_and_halves_are_written_through(rt: HostRuntime) -> Result<(), Fail> {
    let mut fresh = Fresh::filled(rt.alloc(), 10, 0u64)?;
    let touched = touch_in_parts(&mut fresh);
    let written = write_in_halves(&mut fresh);
    let want = [7, 1, 8, 9, 16, 25, 36, 49, 64, 81];
    let found = (fresh.records() == want.as_slice(), touched, written);
    assert_eq!(rt; found, (true, 10, true));
    Ok(())
}

const LABEL: Label = Label {
    number: 4,
    start: 9,
    serial: 3,
    seat: 2,
};

/// What an entry says of itself.
fn label_of(entry: &Entry<u64>) -> [u64; 4] {
    [
        entry.number(),
        entry.start(),
        entry.seat() as u64,
        entry.serial(),
    ]
}

#[test]
fn a_sealed_block_has_its_label_and_its_records(rt: HostRuntime) -> Result<(), Fail> {
    let entry = Fresh::from_slice(rt.alloc(), &[5u64, 6, 7])?.seal(LABEL);
    let label = label_of(&entry);
    let fresh = Fresh::unseal(entry);
    assert_eq!(rt;
        (label, fresh.records()),
        ([4, 9, 2, 3], [5, 6, 7].as_slice())
    );
    Ok(())
}
