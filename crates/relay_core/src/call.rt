//! A call of a file that a host is to make.

/// A call of a file that a host is to make.
#[derive(Drop)]
pub enum Call {
    /// To write the bytes from that place of the file on.
    Write { at: u64, bytes: Vec<u8> },
    /// To sync the file.
    Sync,
}
