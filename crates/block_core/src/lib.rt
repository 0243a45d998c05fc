//! Blocks of records that nobody else sees yet, and touches that write them in parallel.
//!
//! A `Fresh` is what a growth will be: at least one record, few enough for one frame of the segment file. Its
//! buffer is lent in disjoint parts, and `fill` writes these in several threads by a `Touch`, whose law makes the
//! result the same however the parts are cut; `touch_parts` does so with records that stand elsewhere. `seal` puts
//! a label on the block and makes it the `Entry` that many threads may read, and `unseal` gives it back, neither
//! of them with new memory.
#![tactic(auto)]

mod block;
mod entry;
mod fault;
mod filling;
mod touching;

pub use block::Fresh;
pub use entry::{Entry, Label};
pub use fault::FreshFault;
pub use filling::touch_parts;
pub use touching::Touch;
