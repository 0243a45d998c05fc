//! Searches of a list that stands in pieces: how many records are picked, and where the first of them stands, by as many
//! threads as there are processors.
//!
//! What is found doesn't depend on how the list is cut, nor on which thread searches what. Pieces are cut into slices, and
//! slices searched in batches; those of `find_first` begin with one slice and double.
#![tactic(auto)]

mod batch;
mod equal;
mod picking;
mod search;
mod slices;

pub use equal::{count_equal, first_equal};
pub use picking::{Equals, Pick};
pub use search::{count_where, find_first};
