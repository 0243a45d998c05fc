//! Records of fixed width: values that stand in a file as a fixed number of bytes.
//!
//! Bytes and value determine each other. On that rest three facts over lists of records, each with the
//! function that uses it: the bytes of records (`append_records`, `put_records`), the records of bytes (`read_records`),
//! and that the bytes of record i stand at i times the width (both of them).
#![tactic(auto)]

mod byte_records;
mod joined;
mod key_flag;
mod key_value;
mod limit;
mod number;
mod record;
mod records;

pub use byte_records::{Bytes16, Bytes24, Bytes32, Bytes64};
pub use joined::{Half, Joined};
pub use key_flag::Flagged;
pub use key_value::Pair;
pub use limit::{GROWTH_HEAD_LEN, PAYLOAD_LIMIT, RECORD_LIMIT};
pub use record::{Record, width_of};
pub use records::{RecordsFault, append_records, put_records, read_records};
