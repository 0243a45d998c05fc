/// A call of a file that another process writes, with what it did.
#[derive(Clone, Copy)]
pub(crate) enum SharedEvent {
    /// Bytes from this place on were read.
    Read(u64),
    Synced,
    Failed,
}
