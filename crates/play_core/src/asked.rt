//! What a line of a script asks for.

use disk_core::Choice;
use drive_core::Step;

/// What a line of a script asks for.
#[derive(Drop)]
pub enum Asked<R> {
    Step(Step<R>),
    /// A crash that leaves this image.
    Crash(Choice),
}
