//! Records, refusals and bytes as texts: the lines that a user reads and writes.
#![tactic(auto)]

mod flagged;
mod group_line;
mod halves;
mod hex_line;
mod in_hex;
mod input;
mod line;
mod number;
mod output;
mod pair;
mod refusal;
mod signed_number;
mod status;
mod text;

pub use group_line::{BAR, LineFault};
pub use hex_line::{bytes_of_hex_line, write_hex_line};
pub use input::{INPUT_LIMIT, read_input};
pub use line::{cut, cut_far, next_line};
pub use number::write_number;
pub use output::{write_found, write_line, write_number_line, write_records, write_text};
pub use refusal::{Refusal, refuse, write_numbered, write_refusal};
pub use status::Status;
pub use text::TextRecord;
