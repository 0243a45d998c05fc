//! A growth phase whose threads are the caller's: growers that wait for nobody, and who commits for all of them by a disk
//! that lists its calls. Once all others are closed, who commits may have the vector alone, as a vault.
#![tactic(auto)]

mod committer;
mod ending;
mod folding;
mod grower;
mod host;
mod host_vault;
mod lending;
mod listing;
mod phase;
mod piece;
mod searching;
mod writing;

pub use committer::Committer;
pub use ending::GatherFault;
pub use grower::Grower;
pub use host::HostDisk;
pub use host_vault::HostVault;
pub use phase::{BeginFault, Phase, SeatFault};
pub use piece::{Piece, lend_block};
