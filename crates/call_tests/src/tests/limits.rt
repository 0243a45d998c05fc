//! What no clause says: that growths and groups come to the limit, and what a further record is told.

mod growing;
mod scanning;

/// Records of the longest growth.
const LONGEST: u32 = 1_048_568;

/// So many of the longest growths fill a vector but for `REST` records.
const COUNT: u32 = 4_096;

const REST: u32 = 32_768;
