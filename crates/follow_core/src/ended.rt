//! How a follower ended, and how one look.

ghost use Rattle.std.specs.Prelude.{◌≡◌, MatchResult};

use beside_core::{LookFault, Loss};
use std::io;

/// Why a follower has come to an end. All that it has written before stands.
#[derive(Clone, Copy, Debug, PartialEq, Eq)]
pub enum FollowEnd {
    /// Records that the vector had at an earlier look are no more what they were, whether they were written or not.
    Lost(Loss),
    /// A look was refused.
    Refused(LookFault),
    /// A write failed: a part of what came may have been written.
    OutputFailed,
    /// The pause said so.
    Ended,
    /// The pause said that another file stands where this one stood.
    Replaced,
}

/// How a look for a command ended.
#[derive(Clone, Copy, Debug, PartialEq, Eq)]
pub enum LookEnd {
    /// All of the answer was written.
    Done,
    /// The look was refused. Nothing was written.
    Refused(LookFault),
    /// A write failed: a part of the answer may have been written.
    OutputFailed,
}

impl LookEnd {
    ghost use Rattle.follow_core.specs.declared.ended.LookEnd.{LookEnd};

    /// Its answer was given to a writer so.
    pub(crate) fn told(written: io::Result<()>) -> LookEnd
        ensures { MatchResult written (λ _. result ≡ LookEnd.Done) (λ _. result ≡ LookEnd.OutputFailed) }
    {
        match written {
            Ok(()) => LookEnd::Done,
            Err(_) => LookEnd::OutputFailed,
        }
    }
}
