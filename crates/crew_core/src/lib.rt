//! A crew: a growth phase round a thread for each grower of a `Source`, and one that commits what they put. It begins by
//! `Vault::share` and ends by `gather`.
//!
//! What comes of it is one definition, `HasCrewed`. Each grower's thread promises what it made of its own blocks; the growers
//! come home the last one first, so that the seats stand by their numbers. Where the phase isn't ended the flusher meets each
//! seat, which ties what stands to the source (`LeavesGrowths`). `Lists` is the source over lists that are given.
#![tactic(auto)]

mod crewing;
mod grower;
mod leaving;
mod lists;
mod sent;
mod source;

pub use crewing::{CrewFault, Crewed, crew};
pub use lists::Lists;
pub use source::{Gate, OpenGate, Source};
