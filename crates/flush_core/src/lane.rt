//! The two lanes of a flusher's work.

/// Which device calls are next: those of the job that is being committed, or the home writes of a fold. They go on beside
/// each other.
#[derive(Clone, Copy, Debug, PartialEq, Eq)]
pub enum Lane {
    Log,
    Home,
}

/// What a tick of a lane did.
#[derive(Clone, Copy, Debug, PartialEq, Eq)]
pub enum Tick {
    /// The lane has no work in hand.
    Idle,
    /// One device call, and more are left: one of the first three of a commit; a home write or their sync.
    Step,
    /// The fourth device call of a commit: the command is settled.
    Done,
    /// The fold's frame is the log job now. No device call was made.
    Filed,
    /// A log job is in hand, or the fold's own frame is it.
    Waiting,
}
