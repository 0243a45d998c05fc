//! The commands over a segment file: what each does on a disk, over records of any type, and what it writes.
//!
//! Words are read first, into a value that says what is asked for (`read_resizing`, `read_window` ..): a word that isn't of its
//! form is refused before a disk is touched. Then one engine for each command does it on a disk: each gives the disk back, with
//! how it ended. On a refusal it has written no answer; `refuse_file` writes the refusal's line. What `load` and `append` do
//! stands in `load_core`.
#![tactic(auto)]

mod appended;
mod asked;
mod checking;
mod creating;
mod ended;
mod fault;
mod folding;
mod lengthening;
mod listing;
mod parts;
mod progress;
mod resizing;
mod searching;
mod setting;
mod sounding;
mod upgrading;
mod vacant;
mod watched;
mod window_records;
mod writable;

pub use appended::Appended;
pub use asked::{
    Resizing, Setting, Window, read_record, read_records, read_resizing, read_start, read_window,
};
pub use checking::check;
pub use creating::create;
pub use ended::Ended;
pub use fault::{FileFault, Stopped, Word, refuse_file};
pub use folding::fold;
pub use lengthening::resize_in_parts;
pub use listing::list;
pub use progress::Progress;
pub use resizing::{clear, resize};
pub use searching::{count, find};
pub use setting::set;
pub use sounding::sound_front;
pub use upgrading::{copy_file, upgrade_file, write_copied, write_upgraded};
pub use vacant::is_vacant;
pub use watched::Watched;
pub use writable::{OpensToWrite, open_to_write};
