//! What a segment file has, told by the first bytes of its frames: the engine of `stat`, which needs no type of
//! records, and whose memory is the same for a file of any length.
//!
//! `summarize` walks the frames of a file, `write_summary` writes what it found, and `stat` does both. The format is in
//! `docs/file/format.md`.
#![tactic(auto)]

mod fault;
mod front;
mod outline;
mod summary;
mod telling;
mod walking;
mod window;
mod writing;

pub use fault::StatFault;
pub use summary::Summary;
pub use telling::{StatEnded, stat};
pub use walking::summarize;
pub use writing::{Form, write_summary};
