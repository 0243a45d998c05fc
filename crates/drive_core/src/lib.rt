//! Any list of steps with one thread, and what a crash leaves of it.
//!
//! `drive` runs the steps, and its contract is the promise of the whole (`docs/proof/headline.md`). `Ties` and `VaultTies` say
//! when a value stands for a world. Each step's function has one clause: from each world that its value stands for, answer,
//! device calls and images are those of the row, and the new value stands for the new world.
#![tactic(auto)]

mod copying;
mod counted;
mod driving;
mod exclusive;
mod fault;
mod given;
mod growing;
mod growth;
mod meeting;
mod phase;
mod step;

pub use driving::{Driven, drive};
pub use fault::StepFault;
pub use step::{Answer, Step};
