//! `load` and `append`: growths of an input's lines, behind the vector of a file.
//!
//! `load` takes growths that were read before (`read_growth_lines`), so a line that isn't of its form is refused before a disk
//! is touched, and a crew of growers makes them. `append` reads as it commits, by a pen alone: it keeps no record of the file in
//! memory. Each gives the disk back, with how it ended, as the engines of `files_core` do.
#![tactic(auto)]

mod appended;
mod appending;
mod crewing;
mod groups;
mod input;
mod loading;

pub use appending::append;
pub use crewing::{Dealt, Deck};
pub use input::read_growth_lines;
pub use loading::load;
