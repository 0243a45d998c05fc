//! A reader of a file that another process writes, without any lock (`disk_core::Shared`).
//!
//! `Bookmark::first` reads the header. `Bookmark::go_on` reads what came since behind a bookmark, and answers the records
//! that the vector has more; so a first call answers the whole vector. `Bookmark::news` also answers what was done to the
//! records that were there. Four rules make an answer that of one moment:
//!
//! 1. *Gate first.* The bytes of a frame count only if they were read by calls that began once its gate had been read open.
//!    The next gate may come with them, if it is open.
//! 2. *Replay.* Each change is taken as it comes, a fold is nothing, a shrink cuts. A fold's home write that was read too
//!    early presupposes a change that the reader meets before the closed gate.
//! 3. *Nothing leaves before the closed gate has been read*, by a call that began behind all others.
//! 4. *Settled.* The last frame may be seen before its writer has synced it. So the reader syncs the file itself.
//!
//! `look` reads the bytes by rules 1 and 3, `replay` takes them by rule 2, `read_on` keeps rule 4. `records_seen` answers the
//! vector of bytes that its caller read by rules 1 and 3: from the first one on, each before those behind it, up to the
//! file's end. That caller syncs.
#![tactic(auto)]

mod bookmark;
mod counting;
mod decoding;
mod fault;
mod laying;
mod look;
mod news;
mod replay;
mod seen;
mod since;

pub use bookmark::Bookmark;
pub use fault::LookFault;
pub use news::{Edit, News};
pub use seen::{Seen, records_seen};
pub use since::{Loss, Since};
