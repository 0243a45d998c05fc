//! A segment file: the growths and changes of a vector, frame behind frame, and the vector that is found again.
//!
//! `write_image` makes the whole file of some growths, `append_group`, `append_change`, `append_shrink` and `append_fold`
//! one frame. `scan` reads the vector of an image or names its first fault, `Scanner` does so of an image that comes in
//! pieces. `read_frame` and `FrameReader` give the fields of one frame, and `Tally` says whether it may come. `FrameWalk`
//! walks the frames of a file by what stands before their records, which it isn't shown. `Shape::read` and `FrameHead::read`
//! tell what the first bytes of a file and of a frame say. The format is in `docs/file/format.md`.
//!
//! One set of definitions serves both versions: `Shape` (header), `Frame`, `Layout` (payloads), `Tally` (which frame may
//! follow which), `Image`, `Vector`, `Fault` and `Command`; `OneMore` ties frames to commands. `scan` is a `Scanner` that
//! is fed once. Each record is decoded once, and the payload of a change is kept until a fold covers it. At the end the
//! live changes are laid over in order.
#![tactic(auto)]

mod change;
mod fault;
mod file_header;
mod format;
mod found;
mod frame;
mod frame_head;
mod frame_walk;
mod group;
mod growth_list;
mod growth_row;
mod homes;
mod image;
mod notes;
mod places;
mod scanner;
mod tally;
mod vector;
mod walk;

pub use change::{append_change, append_fold, append_shrink};
pub use fault::{Cause, GroupFault, ImageFault, ScanFault};
pub use file_header::{append_header, empty_file};
pub use format::{
    CLOSED_GATE, COUNT_LEN, EMPTY_FILE_LEN, FOLD_PAYLOAD_LEN, FRAME_HEAD_LEN, FRONT_LEN, Format,
    FrameKind, GATE_LIMIT, HEADER_LEN, OPEN_GATE, SHRINK_PAYLOAD_LEN, START_LEN, Shape,
};
pub use found::{Home, Homes};
pub use frame::{FrameReader, read_frame};
pub use frame_head::{FrameHead, Unread};
pub use frame_walk::{Advance, FrameWalk, Framed};
pub use group::append_group;
pub use growth_list::GrowthList;
pub use growth_row::Growths;
pub use image::{append_last_gate, write_image};
pub use scanner::Scanner;
pub use tally::Tally;
pub use vector::{Scanned, scan};
