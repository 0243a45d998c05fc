use crate::Extent;

/// A call of a file, with what it did.
#[derive(Clone, Copy)]
pub(crate) enum FileEvent {
    /// The length was told.
    Measured(u64),
    /// Bytes from this place on were read.
    Read(u64),
    /// Bytes were written from this place on.
    Written(u64),
    /// A write to this place failed.
    Torn(Extent),
    Synced,
    /// A call that changes nothing failed.
    Failed,
}
