//! A flusher commits what growers have put into a book: group by group, as many growths in one as its payload holds, and
//! tells them by the mark what is settled.
//!
//! The invariant: the pen's vector is the records from before and the settled growths; with the job in hand it is those and
//! the taken ones. `serve` is a loop of raise, wake, sleep, look, take and four ticks.
#![tactic(auto)]

mod fault;
mod flusher;
mod fold;
mod group;
mod lane;
mod learn;
mod row;
mod serve;
mod tick;

pub use fault::FlushFault;
pub use flusher::Flusher;
pub use lane::{Lane, Tick};
