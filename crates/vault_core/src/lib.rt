//! A vault: one owner changes, resizes and folds a vector that stands in blocks and in a segment file. `share` lends it out
//! to many growers and one flusher, and `gather` takes it back.
//!
//! The invariant: the list is what the file has once the job in hand is done, and while no call has failed it is also what is
//! sure. What every command promises is one definition, `IsCommand`. That `gather` has each growth once follows by counting
//! (`Accounts`).
#![tactic(auto)]

mod blocks;
mod change;
mod change_alone;
mod committing;
mod compact;
mod ending;
mod ending_known;
mod fault;
mod fold;
mod found;
mod open;
mod parts;
mod pieces;
mod resize;
mod share;
mod space;
mod upgrading;
mod vault;

pub use ending::{Gathering, gather, made_in_all, take_in_all};
pub use ending_known::gather_known;
pub use fault::VaultFault;
pub use pieces::VaultPieces;
pub use space::Space;
pub use upgrading::{UpgradeFault, copied_to, copy, format_of, greatest_piece, piece_of, upgrade};
pub use vault::Vault;
