//! Which images of a disk are looked at.

use disk_core::{Choice, ImageLength, PendingBytes, RamDisk};

/// What stands at the pending places of an image, but for those of which a part has arrived.
const PENDING: [PendingBytes; 5] = [
    PendingBytes::Old,
    PendingBytes::New,
    PendingBytes::Fill(0),
    PendingBytes::Fill(1),
    PendingBytes::Fill(0xff),
];

/// Where more places are pending only some of their fronts are looked at.
const FRONT_LIMIT: u64 = 400;

/// How many fronts are looked at then.
const FEW_FRONTS: u64 = 8;

/// How many images there are of the pending bytes of each kind but fronts.
pub const KINDS: u64 = 10;

/// The image of this number: each kind of pending bytes by both lengths, and then those of which a front arrived.
pub fn choice(k: u64) -> Choice {
    let length = match k % 2 {
        0 => ImageLength::Old,
        _ => ImageLength::Greatest,
    };
    let pending = match PENDING.get((k / 2) as usize) {
        Some(pending) => *pending,
        None => PendingBytes::Front((k / 2).wrapping_sub(5), 1),
    };
    Choice { length, pending }
}

/// How many images are looked at.
pub fn choices(disk: &RamDisk) -> u64 {
    let fronts = match disk.pending() {
        pending if pending > FRONT_LIMIT => FEW_FRONTS,
        pending => pending,
    };
    KINDS + 2 * (fronts + 1)
}
