//! A pen writes one segment file, frame by frame, so that a crash at any moment leaves the vector of before or after.
//!
//! The heart of a pen's invariant: with its gate open, the file would be the next one. A pen knows no type of records; which
//! records its bytes are is said beside it (`AreCellsOf`). It keeps 24 bytes for each group of the file, and the runs of the
//! live changes. `open` reads a file's records, `open_frames` none; `walk_disk` and `read_window` read those of a few positions.
//! How a commit and a fold go is in `docs/design/map.md`.
#![tactic(auto)]

mod begin;
mod change;
mod commit;
mod covered;
mod create;
mod fault;
mod fold;
mod frame_bytes;
mod framing;
mod group;
mod home;
mod home_runs;
mod open;
mod pen;
mod scanning;
mod settle;
mod stage;
mod step;
mod values;
mod window;

pub use fault::{OpenFault, PenFault};
pub use framing::walk_disk;
pub use pen::Pen;
pub use scanning::{scan_disk, scan_front};
pub use stage::{FoldStage, HomeTicked, Stage, Ticked};
pub use window::read_window;
