//! How far a pen's work is.

/// What a tick of the log did.
#[derive(Clone, Copy)]
pub enum Ticked {
    /// No job is in hand.
    Idle,
    /// One of the first three device calls of a commit.
    Step,
    /// The fourth: the command is settled.
    Done,
}

/// What a tick of the homes did.
#[derive(Clone, Copy)]
pub enum HomeTicked {
    /// No fold is in hand.
    Idle,
    /// One home write, or their sync.
    Step,
    /// The fold's frame is the log job now. No device call was made.
    Filed,
    /// A log job is in hand, or the fold's own frame is it.
    Waiting,
}

/// How far a fold is.
#[derive(Clone, Copy, Debug, PartialEq, Eq)]
pub enum FoldStage {
    /// None is in hand.
    None,
    /// So many home writes are left, and then their sync.
    Home(u64),
    /// The home writes are done, their sync is next.
    Sync,
    /// The homes are on the disk: its frame may become the log job.
    Ready,
    /// Its frame is the log job.
    Filed,
}

/// What is left of the work in hand.
#[derive(Clone, Copy, Debug, PartialEq, Eq)]
pub struct Stage {
    /// The device calls of the log job, 0 where there is none.
    pub log: u8,
    /// The fold.
    pub fold: FoldStage,
}
