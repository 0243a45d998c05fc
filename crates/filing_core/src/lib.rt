//! The commands over files by their names: each reads its words and its input, locks and opens its file, and has its engine do
//! the work. What it says is how that ended: a status, or a complaint. On a complaint nothing of an answer was written, but by
//! `follow`, which writes as it goes.
//!
//! Words and input come first, so a command that is refused for them has touched no file. A lock stands as long as the engine
//! has the disk; of a file that is only read, until the engine writes of what it has read.
#![tactic(auto)]

mod access;
mod beside;
mod copying;
mod counting;
mod creating;
mod ending;
mod filing;
mod following;
mod making;
mod noting;
mod place;
mod polling;
mod reading;
mod releasing;
mod replacing;
mod searching;
mod serving;
mod setting;
mod telling;

pub use filing::Filing;
pub use noting::RefusalNote;
pub use place::standing_in;
pub use telling::tell_stat;
