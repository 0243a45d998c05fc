//! Which calls of the disk an opening makes.

use super::noting::{Noted, NotingDisk};
use disk_core::RamDisk;
use pen_core::Pen;
use std::alloc::Global;
use std::test::Fail;

/// The file of one growth of one number, 5.
const FIVE: [u8; 34] = [
    1, 67, 86, 69, 67, 83, 69, 71, 1, 8, 0, 1, 1, 16, 0, 0, 0, 1, 0, 0, 0, 1, 0, 0, 0, 5, 0, 0, 0,
    0, 0, 0, 0, 0,
];

/// The file, with bytes `ff` behind its end up to this length.
fn file_of(alloc: Global, len: usize) -> Option<Vec<u8>> {
    let mut file = Vec::from_slice(alloc, &FIVE).ok()?;
    file.resize(len, 0xff).ok()?;
    Some(file)
}

/// Whether the file has that record, and the calls that opening it makes.
fn calls_of(alloc: Global, file: Vec<u8>) -> Option<(bool, Noted)> {
    let disk = NotingDisk::new(RamDisk::from_bytes(alloc, file));
    match Pen::open::<u64>(alloc, disk) {
        Ok((pen, records)) => Some((
            records.as_slice() == [5].as_slice(),
            pen.into_disk().noted(),
        )),
        Err(_) => None,
    }
}

/// A file of 4,097 bytes is 34 bytes and what means nothing behind its gate.
#[test]
fn a_file_is_read_in_pieces_of_4_kib_in_turn(rt: HostRuntime) -> Result<(), Fail> {
    let file = file_of(rt.alloc(), 4_097).ok_or("memory")?;
    let (has_record, asked) = calls_of(rt.alloc(), file).ok_or("not opened")?;
    let counts = [asked.syncs, asked.lengths, asked.writes];
    let reads = asked.reads <= 2 && asked.longest <= 4_096 && asked.in_turn;
    assert_eq!(rt; (has_record, counts, reads), (true, [1, 1, 0], true));
    Ok(())
}
