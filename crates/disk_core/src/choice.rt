//! Which of the images that a crash may leave is wanted.
ghost use Rattle.std.specs.Prelude.{◌≡◌};

/// One image for each state of a disk.
#[derive(Clone, Copy, Debug)]
pub struct Choice {
    pub length: ImageLength,
    pub pending: PendingBytes,
}

/// How long the image is, in bytes.
#[derive(Clone, Copy, Debug)]
pub enum ImageLength {
    /// As long as the disk was at the last sync.
    Old,
    /// As long as it was at most since then.
    Greatest,
    /// This long, or where that is outside of the two as near as they allow.
    At(u64),
}

/// What stands at the places that were written since the last sync, and past the length that the disk had then.
#[derive(Clone, Copy, Debug)]
pub enum PendingBytes {
    /// What was synced; zeros where nothing was.
    Old,
    /// What a read gives; zeros where it gives nothing.
    New,
    /// This byte.
    Fill(u8),
    /// At so many of these places, the lowest, what a read gives; at the others this byte.
    Front(u64, u8),
}

impl ImageLength {
    ghost use Rattle.disk_core.specs.Choice.{length_between};

    pub(crate) fn between(self, old: u64, greatest: u64) -> u64
        ensures { result ≡ length_between self old greatest }
    {
        match self {
            ImageLength::Old => old,
            ImageLength::Greatest => greatest,
            ImageLength::At(length) => length.max(old).min(greatest),
        }
    }
}

impl PendingBytes {
    ghost use Rattle.disk_core.specs.Choice.{pending_byte};

    /// The byte at a pending place that has so many pending places below it.
    pub(crate) fn byte(self, old: u8, new: u8, below: u64) -> u8
        ensures { result ≡ pending_byte self old new below }
    {
        match self {
            PendingBytes::Old => old,
            PendingBytes::New => new,
            PendingBytes::Fill(byte) => byte,
            PendingBytes::Front(count, byte) => { if below < count { new } else { byte } }
        }
    }
}
