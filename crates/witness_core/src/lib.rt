//! A pen whose file is read beside it: its calls keep what `beside_core` supposes of a writer (`IsPensFile`).
//!
//! `witness` begins with a pen at rest, one that was created or opened. From then on `IsWitnessed` holds between its calls,
//! each of which is one of the pen's own. `holds` draws from it what the file holds at every moment, also within a call:
//! there each byte turns once, from what it was to what it is behind the call, in any order.
//!
//! A call that fails leaves the pen broken, and it makes no more. Where that was a gate's write, or its sync, the last frame
//! may be shown or not; else what is shown stays.
#![tactic(auto)]

mod beginning;
mod file;
mod ticking;

pub use beginning::{begin_fold_from, begin_growths, begin_runs_from, begin_shrink, ready_runs};
pub use file::{holds, witness};
pub use ticking::{settle_log, tick_home, tick_log};
