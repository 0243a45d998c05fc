//! What the program `cvec` tells on standard error of a command over a file that is refused.
#![tactic(auto)]

mod beside;
mod bytes;
mod calls;
mod complaint;
mod input;
mod role;
mod shown;
mod standing;
mod vault;

pub use beside::BesideFault;
pub use calls::RefusedCall;
pub use complaint::{Complaint, Sentence};
pub use role::Role;
pub use standing::Standing;
