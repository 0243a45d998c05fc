//! A directory of growths that is written once, cell by cell, and passes over it that agree.
//!
//! Many threads share a `Directory`. Each publishes growths in it and looks for those of others by a `Pass` of its
//! own, which keeps the list of the growths that it knows. Nothing waits for anybody: a growth stands in a cell that
//! is set once, so it never moves, and its records may be read beside growth. Two passes agree because a cell that
//! is set once has one value.
//!
//! After the directory of "Lock-Free Dynamically Resizable Arrays" (Dechev, Pirkelbauer, Stroustrup, 2006), whose
//! buckets double. Here the buckets hold growths and not single records.
//!
//! There are 26 buckets, the first of 8 cells, each twice as long as the one before. `publish` sets the cell of the next
//! number; `look` reads cells up to the first empty one. Each growth that a pass knows is the value of the cell at its
//! number's place.
//!
//! `end` sets the cell behind the last growth to an entry that is none. So who ended the list knows all of it: by the
//! same cell a growth is published before the end, which whoever ends it then learns of, or never.
#![tactic(auto)]

mod address;
mod bucket;
mod directory;
mod ending;
mod fault;
mod finding;
mod pass;

pub use address::{GROWTH_LIMIT, PLACE_LIMIT, spot};
pub use directory::Directory;
pub use fault::DirFault;
pub use finding::{last_start, last_start_near};
pub use pass::Pass;
