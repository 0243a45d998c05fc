//! The words of the program `cvec`: read into what is asked for, and what standard output and standard error tell of them.
#![tactic(auto)]

mod commands;
mod help;
mod request;
mod usage;
mod words;
mod wrong;

pub use help::HELP;
pub use request::{Course, FileTask, FileWords, Following, RecordType, Request, StatWords, Task};
pub use usage::{Look, Usage, write_usage, write_wrong};
pub use words::{WordsFault, read_words};
pub use wrong::usage_of;
