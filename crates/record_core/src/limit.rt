//! What bounds a growth and a vector.

/// The bytes of one frame's payload at most. A growth is written in one frame, so its records are bounded too.
pub const PAYLOAD_LIMIT: usize = 1_048_576;

/// The bytes of a payload before the records of its one growth: a count of growths, and a length.
pub const GROWTH_HEAD_LEN: usize = 8;

/// The records of a vector at most.
pub const RECORD_LIMIT: u64 = 4_294_967_296;
