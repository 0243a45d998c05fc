use disk_core::DiskFault;
use segment_core::ScanFault;

/// Why a look at a file has no answer. The bookmark stays good: the same look may be tried again.
#[derive(Clone, Copy, Debug, PartialEq, Eq)]
pub enum LookFault {
    /// A call of the file failed: a read, also where the file ends before the frames do, or the reader's own sync.
    Disk(DiskFault),
    /// The header or a frame has this fault, or the records have another width. No file that one pen writes is called
    /// damaged.
    Scan(ScanFault),
    /// The bytes of the record at this position are none of the type.
    NoRecord(u64),
    /// Gates at places that no file of this format has (`segment_core::GATE_LIMIT`).
    TooFar,
    /// A growth of memory was refused.
    Memory,
}
