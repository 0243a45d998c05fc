//! Two records behind one another, as no program has them.

use record_core::{Joined, Record};
use std::rt::HostRuntime;

/// The bytes of the front stand before those of the back, and are read again as both.
#[test]
fn two_records_stand_behind_one_another(rt: HostRuntime) {
    let record = Joined {
        front: 1u32,
        back: 2u64,
    };
    let mut bytes = [0u8; 12];
    record.put(&mut bytes);
    assert!(rt; bytes == [1, 0, 0, 0, 2, 0, 0, 0, 0, 0, 0, 0]);
    assert!(rt; Joined::take(&bytes) == Some(record));
}
