//! The book of a growth phase: growers each behind a door of their own, readers behind none, and the mark that tells
//! what is settled.
//!
//! `Live::begin` makes of the blocks of a vector a `Live` that many threads share, and a `Seat` for each of them. A
//! seat knows the growths that it has found, one after another; behind them stand its own. A growth is published
//! whole, behind all growths before it: the cell of its number is set once, and who finds it set gives way and tries
//! the next. What a seat reads of the others it reads without a lock, and what it was lent stays while others grow.
//!
//! `Live` holds the opening list, the directory, the mark and a door for each seat. Who finds its cell set gives way
//! (`patience`), learns of the growths made meanwhile, and tries after them. The mark is one word: four times the count of
//! settled growths, plus a state. Who waits for it sleeps on a count of wake-ups (`waking`). After a commit the flusher
//! waits, 100 microseconds at most, until as many wait again as it woke; what these have grown by is then in the next group.
//!
//! A `Snapshot` lays what a seat knows out as slices and one row of their starts, 20 bytes each, with hints (`hints`) on
//! which nothing rests.
#![tactic(auto)]

mod appender;
mod beginning;
mod fault;
mod grow;
mod live;
mod looking;
mod mark;
mod opening;
mod patience;
mod reading;
mod seat;
mod settling;
mod snapshot;
mod stretch;
mod waking;

pub use appender::Appender;
pub use beginning::{Begun, SEAT_LIMIT};
pub use fault::{GrowFault, SettleFault};
pub use live::Live;
pub use mark::{Mark, MarkState, Moment, Raise, Reader, Reading, Writer};
pub use seat::{Receipt, Seat};
pub use snapshot::{Records, Snapshot};
