//! Lines of records, as growths: all lines of an input, one growth each (`growths_of_input`), or those of an input of any
//! length, a batch after the other, with a growth for each block of so many lines (`read_batch`). `records_of_input` has the
//! records alone, of all lines.
#![tactic(auto)]

mod batches;
mod excerpt;
mod gathering;
mod growth_lines;
mod line_blocks;
mod line_records;
mod strict;

pub use batches::{LineBatch, Rest, behind, read_batch};
pub use excerpt::Excerpt;
pub use growth_lines::growths_of_input;
pub use line_records::records_of_input;
pub use strict::{Held, NOTHING_HELD};
