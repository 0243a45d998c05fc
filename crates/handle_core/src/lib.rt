//! What C has of a vector that its threads grow: an end of a phase behind one pointer, by which a call finds it again.
#![tactic(auto)]

mod committer_calls;
mod end;
mod ends;
mod faults;
mod file_calls;
mod grower_calls;
mod handle;
mod kept;
mod parts;
mod phase_calls;
mod vault_calls;

pub use end::{End, Role};
pub use handle::Handle;
