//! How a command over a file ended.

ghost use Rattle.std.specs.Prelude.{◌≡◌, MatchResult};

use crate::fault::FileFault;
use std::io;

/// How a command over a file ended.
#[derive(Clone, Copy)]
pub enum Ended {
    /// Its work is done, and all of its answer was written.
    Done,
    /// Its work is done, and stands, but a write of the answer failed: a part of it may have been written.
    OutputFailed,
    /// It was refused. Nothing was written of an answer.
    Refused(FileFault),
}

impl Ended {
    ghost use Rattle.files_core.specs.declared.ended.Ended.{Ended};

    /// Its work is done, and its answer was given to a writer so.
    pub fn told(written: io::Result<()>) -> Ended
        ensures { MatchResult written (λ _. result ≡ Ended.Done) (λ _. result ≡ Ended.OutputFailed) }
    {
        match written {
            Ok(()) => Ended::Done,
            Err(_) => Ended::OutputFailed,
        }
    }
}
