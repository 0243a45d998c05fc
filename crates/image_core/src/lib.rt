//! The engines of `image` and `show`: a segment file made of lines of records, and lines made of the records of one.
#![tactic(auto)]

mod fault;
mod file_of_lines;
mod group_line;
mod imaging;
mod showing;

pub use fault::ShowFault;
pub use imaging::image;
pub use showing::show;
